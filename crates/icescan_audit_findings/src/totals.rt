//! The totals that a snapshot's summary says, held against the snapshot's live files.

ghost use Rattle.std.specs.Prelude.{◌≡◌, ◌++◌, IfOk, OnOk};
ghost use Rattle.icescan_audit_findings.specs.Totals.{false_total, false_totals, file_adds, total_of};

use crate::repeats::LiveFile;
use contract_words::Items;
use ice_value::FileContent;
use std::alloc::{AllocError, Global};

/// What the summary of a snapshot may say of all its live files.
#[derive(Clone, Copy, Debug, PartialEq, Eq)]
pub enum Total {
    /// How many data files there are.
    DataFiles,
    /// How many delete files there are.
    DeleteFiles,
    /// How many rows the data files have.
    Records,
    /// How many rows the position delete files have.
    PositionDeletes,
    /// How many rows the equality delete files have.
    EqualityDeletes,
    /// How many bytes all files have.
    FilesSize,
}

/// A total that the summary of a snapshot says.
#[derive(Clone, Copy, Debug, PartialEq, Eq)]
pub struct SaidTotal {
    pub total: Total,
    pub number: u64,
}

/// A total that the summary of a snapshot says, and that its live files do not come to.
#[derive(Clone, Copy, Debug, PartialEq, Eq)]
pub struct FalseTotal {
    pub total: Total,
    /// What the summary says.
    pub said: u64,
    /// What the files come to, as their manifests say.
    pub counted: i128,
}

/// What a live file adds to a total.
fn file_adds(total: Total, file: &LiveFile) -> i64
    ensures { result ≡ file_adds total file.now }
{
    match (total, file.content) {
        (Total::FilesSize, _) => file.file_size,
        (Total::DataFiles, FileContent::Data) => 1,
        (Total::DeleteFiles, FileContent::PositionDeletes | FileContent::EqualityDeletes) => 1,
        (Total::Records, FileContent::Data) => file.record_count,
        (Total::PositionDeletes, FileContent::PositionDeletes) => file.record_count,
        (Total::EqualityDeletes, FileContent::EqualityDeletes) => file.record_count,
        _ => 0,
    }
}

/// What live files come to.
fn total_of(total: Total, files: &[LiveFile]) -> i128
    ensures { result ≡ total_of total files.now }
{
    let mut sum: i128 = 0;
    'files: for file in files {
        sum += file_adds(total, file) as i128;
    }
    sum
}

/// Puts last that a total is false, where live files come to another number.
fn push_false(
    found: &mut Items<FalseTotal>,
    said: SaidTotal,
    files: &[LiveFile],
) -> Result<(), AllocError>
    ensures { OnOk result (found.new ≡ found.old ++ false_total files.now said) }
{
    let counted = total_of(said.total, files);
    if said.number as i128 != counted {
        found.push(FalseTotal {
            total: said.total,
            said: said.number,
            counted,
        })?;
    }
    Ok(())
}

/// Those of the totals that live files do not come to, in their order.
pub fn false_totals(
    alloc: Global,
    said: &[SaidTotal],
    files: &[LiveFile],
) -> Result<Items<FalseTotal>, AllocError>
    ensures { IfOk result (λ found. found ≡ false_totals files.now said.now) }
{
    let mut found = Items::new(alloc);
    'totals: for total in said {
        push_false(&mut found, *total, files)?;
    }
    Ok(found)
}
