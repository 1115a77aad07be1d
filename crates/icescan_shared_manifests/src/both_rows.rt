//! The rows of two snapshots that are planned to tell the changes from one to the other.

ghost use Rattle.std.specs.Prelude.{◌≡◌, ◌≤◌, ◌&&◌, ℕ, List, Some, None, Ok, IfOk, IfErr, IsErrOf, length};
ghost use Rattle.std.specs.List.Sorted.{IsStrictlySortedBy};
ghost use Rattle.ice_desk.specs.Worlds.{EndsAt, HasAt};
ghost use Rattle.ice_manifest_reading.specs.Lists.{path_order};
ghost use Rattle.ice_state.specs.Contents.{World};
ghost use Rattle.icescan_shared_manifests.specs.Both.{both_lists, both_rows, is_unfiltered, planned_of};
ghost use Rattle.icescan_shared_manifests.specs.GivenBoth.{AreBothOfGiven};
ghost use Rattle.icescan_shared_manifests.specs.Shared.{have_same_deletes, unshared};
ghost use Rattle.icescan_text.specs.Reads.{MayEnd};

use crate::shared::{have_same_deletes, unshared};
use contract_words::Items;
use ice_desk::Files;
use ice_manifest_reading::Row;
use icescan_requests::{SelectedRows, select_rows};
use icescan_text::{ChangesRequest, RunFault};
use std::alloc::{AllocError, Global};

/// The rows that are planned of two snapshots.
#[derive(Debug, Drop)]
pub struct BothRows {
    /// Those of the earlier snapshot.
    pub earlier: SelectedRows,
    /// Those of the later one.
    pub later: SelectedRows,
}

/// Whether neither request has a filter.
fn is_unfiltered(request: &ChangesRequest) -> bool
    ensures { result ≡ is_unfiltered request.now }
{
    request.earlier.filter.is_none() && request.later.filter.is_none()
}

/// The rows of each list that the other one does not share.
fn both_unshared(
    alloc: Global,
    earlier: &[Row],
    later: &[Row],
) -> Result<(Vec<Row>, Vec<Row>), AllocError>
    requires earlier { IsStrictlySortedBy path_order earlier.now }
    requires later { IsStrictlySortedBy path_order later.now }
    ensures earlier { IfOk result (λ own. own.0.items ≡ unshared later.now earlier.now) }
    ensures later { IfOk result (λ own. own.1.items ≡ unshared earlier.now later.now) }
{
    let own = unshared(alloc, later, earlier)?;
    Ok((own, unshared(alloc, earlier, later)?))
}

/// What was selected, with these rows in place of its own.
fn with_rows(selected: SelectedRows, rows: Vec<Row>) -> SelectedRows
    ensures rows { result.rows ≡ rows.items }
    ensures specs { result.specs ≡ selected.specs }
    ensures filter { result.filter ≡ selected.filter }
{
    let SelectedRows { specs, filter, .. } = selected;
    SelectedRows {
        rows: Items::from_vec(rows),
        specs,
        filter,
    }
}

/// The rows that are planned of both.
fn planned(
    alloc: Global,
    unfiltered: bool,
    earlier: SelectedRows,
    later: SelectedRows,
) -> Result<BothRows, AllocError>
    requires earlier { IsStrictlySortedBy path_order earlier.rows }
    requires later { IsStrictlySortedBy path_order later.rows }
    ensures { IfOk result (λ both. both
        ≡ planned_of (unfiltered && have_same_deletes earlier.rows later.rows) earlier later) }
{
    if !unfiltered || !have_same_deletes(earlier.rows.as_slice(), later.rows.as_slice()) {
        return Ok(BothRows { earlier, later });
    }
    let own = both_unshared(alloc, earlier.rows.as_slice(), later.rows.as_slice())?;
    Ok(BothRows {
        earlier: with_rows(earlier, own.0),
        later: with_rows(later, own.1),
    })
}

/// The rows of both manifest lists that have to be planned to tell the changes from one snapshot to the other, of the
/// table whose metadata these are the bytes of: all of them, but where neither request has a filter, and both lists
/// have the same manifests of delete files, not the rows of data manifests that both lists have.
///
/// The refusal is that of the earlier request and its list, else that of the later one, as of `select_rows`; or
/// `Memory`.
pub fn select_both<F: Files>(
    alloc: Global,
    files: &F,
    metadata: &[u8],
    request: &ChangesRequest,
) -> Result<BothRows, RunFault>
    // Over files that tell their world.
    ensures found { (world : World) → F.world files.now ≡ Some world →
        IfOk result (λ both. both_rows world metadata.now request.now ≡ Ok both) }
    ensures refused { (world : World) → F.world files.now ≡ Some world →
        IfErr result (MayEnd (both_rows world metadata.now request.now)
        (EndsAt world (F.may_fail files.now) (both_lists metadata.now request.now)) ⊥) }

    // Over all files.
    ensures few { IfOk result (λ both. (length both.earlier.rows ≤ 65536) × (length both.later.rows ≤ 65536)) }
    ensures absent { (path : List ℕ) → IsErrOf result (RunFault.Absent path) → HasAt (F.world files.now) path None }
    ensures device { (path : List ℕ) → IsErrOf result (RunFault.Device path) → F.may_fail files.now path }
    ensures write { IsErrOf result RunFault.Write → ⊥ }
    ensures given { IfOk result (AreBothOfGiven (F.gives files.now) metadata.now request.now) }
{
    let earlier = select_rows(alloc, files, metadata, &request.earlier)?;
    let later = select_rows(alloc, files, metadata, &request.later)?;
    Ok(planned(alloc, is_unfiltered(request), earlier, later)?)
}
