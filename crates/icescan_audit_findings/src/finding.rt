//! What an audit finds.

ghost use Rattle.std.specs.Prelude.{◌≡◌, length};
ghost use Rattle.icescan_audit_findings.specs.Telling.{faults, is_fault};

use contract_words::{Items, Text};
use shared_value::Shared;

/// What a manifest list counts in a manifest: the entries of a status, and the rows of the files that they are about.
#[derive(Clone, Copy, Debug, PartialEq, Eq)]
pub enum Count {
    AddedFiles,
    ExistingFiles,
    DeletedFiles,
    AddedRows,
    ExistingRows,
    DeletedRows,
}

/// What is wrong with what a manifest list's row says of a manifest.
#[derive(Clone, Copy, Debug, PartialEq, Eq)]
pub enum RowFlaw {
    /// It names another partition spec than the manifest's own metadata.
    OtherSpec,
    /// It says another content than the manifest's own metadata.
    OtherContent,
    /// It says another length than the manifest has.
    OtherLength,
    /// It has summaries of another number of fields than its spec has.
    OtherSummaries,
    /// Its sequence number is above its snapshot's.
    AboveSnapshot,
}

/// What is wrong with what a live entry says of itself and of its file.
#[derive(Clone, Copy, Debug, PartialEq, Eq)]
pub enum EntryFlaw {
    /// Its sequence number is above that of the manifest's row.
    AboveManifest,
    /// It is an equality delete file, and names no column to delete by.
    NoEqualityIds,
    /// The file has fewer than no rows, or than no bytes.
    NegativeSize,
    /// The file is of no format that is known.
    UnknownFormat,
}

/// What is wrong with what a manifest says of a column of a file.
#[derive(Clone, Copy, Debug, PartialEq, Eq)]
pub enum ColumnFlaw {
    /// It has fewer than no values, or than no nulls.
    NegativeCounts,
    /// All its values are null by their counts, and yet there is a bound.
    BoundsOfNulls,
}

/// What is wrong with a file's value of a partition field.
#[derive(Clone, Copy, Debug, PartialEq, Eq)]
pub enum FieldFlaw {
    /// It isn't null, and the summary of the manifest's row lacks a bound, as one of nulls alone does.
    Unbounded,
    /// It is null, and the field's column has other values by its counts or bounds; or it isn't null, and the column has
    /// nulls by their count.
    OtherNulls,
    /// No value between the bounds of the field's column has it.
    OutsideBounds,
}

/// What is wrong with a manifest, or with a live entry of it.
#[derive(Debug, Drop)]
pub enum Flaw {
    /// By the manifest list the manifest has another number of these.
    Miscounted(Count),
    /// The summary that the manifest's row has of the partition field of this name does not cover the file's value.
    Uncovered(Shared<Text>),
    /// The entry's sequence number is below the least one that the manifest's row names.
    BelowLeast,
    /// The entry's sequence number is above the table's last.
    AboveLast,
    /// Another live file has the file's path, in the same spelling or in another that a store may take for it.
    LiveTwice,
    /// The file deletes by a column of this id, which the schema lacks.
    NoColumn(i32),
    /// By its manifest, a column of the file has a lower bound that is above its upper one.
    BoundsCross(i32),
    /// By its manifest, a column of the file has more nulls than values, null ones among them.
    ExcessNulls(i32),
    /// The position delete file names a data file, and no live data file has that path.
    NamedNotLive,
    /// The position delete file applies to no live data file.
    DanglingPositions,
    /// The equality delete file applies to no live data file.
    DanglingEqualities,
    /// The manifest list's row of the manifest is at fault.
    OfRow(RowFlaw),
    /// The entry is at fault.
    OfEntry(EntryFlaw),
    /// What the manifest says of the file's column of this id is at fault.
    OfColumn(ColumnFlaw, i32),
    /// The file's value of the partition field of this name is at fault.
    OfField(FieldFlaw, Shared<Text>),
}

/// A flaw, and where it was found.
#[derive(Debug, Drop)]
pub struct Finding {
    /// The path of the manifest.
    pub manifest: Shared<Text>,
    /// The path of the entry's file, where it is about one entry.
    pub file: Option<Shared<Items<u8>>>,
    /// What is wrong.
    pub flaw: Flaw,
}

impl Flaw {
    /// Whether it is a fault of the table. Delete files that apply to nothing are none: they cost time, and no answer is
    /// wrong for them.
    #[tactic(auto, unfolding(crate::specs::Telling::is_fault))]
    pub fn is_fault(&self) -> bool
        ensures { result ≡ is_fault self.now }
    {
        !matches!(self, Flaw::DanglingPositions | Flaw::DanglingEqualities)
    }
}

/// How many of the findings are faults.
pub fn count_faults(findings: &[Finding]) -> usize
    ensures { result ≡ length (faults findings.now) }
{
    let mut count = 0;
    'findings: for finding in findings {
        if finding.flaw.is_fault() {
            count += 1;
        }
    }
    count
}
