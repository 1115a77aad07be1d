//! Whether the entries of a manifest bear out what the manifest list counts.

ghost use Rattle.std.specs.Prelude.{◌≡◌, ◌++◌, IfOk, OnOk, map, pos};
ghost use Rattle.icescan_audit_findings.specs.Counting.{count_flaws, has_all, is_borne_out, miscounted};

use crate::finding::{Count, Flaw};
use ice_manifest_reading::{Counts, Row, Tallies, Tally};
use std::alloc::{AllocError, Global};

/// All counts, in the order in which they are told.
const ALL_COUNTS: [Count; 6] = [
    Count::AddedFiles,
    Count::ExistingFiles,
    Count::DeletedFiles,
    Count::AddedRows,
    Count::ExistingRows,
    Count::DeletedRows,
];

/// Whether there are as many entries as the list counts, where it counts them.
fn has_files(count: Option<i32>, tally: &Tally) -> bool
    ensures { result ≡ is_borne_out count (pos tally.now.files) }
{
    match count {
        Some(count) => count as i128 == tally.files as i128,
        None => true,
    }
}

/// Whether their files have as many rows as the list counts, where it counts them.
fn has_rows(count: Option<i64>, tally: &Tally) -> bool
    ensures { result ≡ is_borne_out count tally.now.rows }
{
    match count {
        Some(count) => count as i128 == tally.rows,
        None => true,
    }
}

/// Whether a manifest has as many entries, or rows in their files, as the list counts.
fn has_all(counts: &Counts, tallies: &Tallies, count: Count) -> bool
    ensures { result ≡ has_all counts.now tallies.now count }
{
    match count {
        Count::AddedFiles => has_files(counts.added_files, &tallies.added),
        Count::ExistingFiles => has_files(counts.existing_files, &tallies.existing),
        Count::DeletedFiles => has_files(counts.deleted_files, &tallies.deleted),
        Count::AddedRows => has_rows(counts.added_rows, &tallies.added),
        Count::ExistingRows => has_rows(counts.existing_rows, &tallies.existing),
        Count::DeletedRows => has_rows(counts.deleted_rows, &tallies.deleted),
    }
}

/// Puts those of the counts last that the manifest's entries do not bear out.
fn push_miscounted(
    flaws: &mut Vec<Flaw>,
    counts: &Counts,
    tallies: &Tallies,
    which: &[Count],
) -> Result<(), AllocError>
    ensures { OnOk result (flaws.new.items
        ≡ flaws.old.items ++ map Flaw.Miscounted (miscounted counts.now tallies.now which.now)) }
{
    'counts: for count in which {
        if !has_all(counts, tallies, *count) {
            flaws.push(Flaw::Miscounted(*count))?;
        }
    }
    Ok(())
}

/// The counts of a manifest list that the manifest's entries, whose tallies these are, do not bear out.
pub fn count_flaws(alloc: Global, row: &Row, tallies: &Tallies) -> Result<Vec<Flaw>, AllocError>
    ensures { IfOk result (λ flaws. flaws.items ≡ count_flaws row.now tallies.now) }
{
    let mut flaws = Vec::new(alloc);
    push_miscounted(&mut flaws, &row.counts, tallies, &ALL_COUNTS)?;
    Ok(flaws)
}
