//! The rows of a manifest list, and what is asked of them.

ghost use Rattle.std.specs.Prelude.{◌≡◌, ◌≤◌, ℕ, List, Some, None, Ok, IfOk, IfErr, IsErrOf, length};
ghost use Rattle.contract_words.specs.Outcome.{Gives};
ghost use Rattle.ice_desk.specs.Worlds.{EndsAt, HasAt};
ghost use Rattle.ice_state.specs.Contents.{World};
ghost use Rattle.ice_state.specs.Scans.{scan_of};
ghost use Rattle.icescan_requests.specs.GivenPlans.{AreSelectedOfGiven};
ghost use Rattle.icescan_requests.specs.Plans.{list_of, selected_rows};
ghost use Rattle.icescan_requests.specs.Selections.{selected};
ghost use Rattle.icescan_requests.specs.declared.selection.Selection.{Selection};
ghost use Rattle.icescan_text.specs.Reads.{MayEnd};

use crate::selection::{Selection, select};
use contract_words::Items;
use ice_desk::Files;
use ice_filter::Bound;
use ice_manifest_reading::Row;
use ice_meta::Spec;
use ice_state::{Scan, ScanFault};
use icescan_text::{Request, RunFault, read_rows};
use std::alloc::Global;

/// The rows of a manifest list, and what is asked of them.
#[derive(Debug, Drop)]
pub struct SelectedRows {
    /// The rows.
    pub rows: Items<Row>,
    /// The table's partition specs, with the types of their source columns.
    pub specs: Items<Spec>,
    /// The filter over the ids of columns.
    pub filter: Bound,
}

impl SelectedRows {
    /// The scan of these rows.
    pub fn into_scan(self, alloc: Global) -> Result<Scan, ScanFault>
        ensures { Gives ScanFault.Memory (λ scan. scan) result (scan_of self.rows self.specs self.filter.parts) }
    {
        Scan::new(
            alloc,
            self.rows.into_vec(),
            self.specs.into_vec(),
            self.filter,
        )
    }
}

/// The rows of the manifest list that a request selects, of the table whose metadata these are the bytes of. The
/// refusal is that of `select`; then `Absent` where the list is not there, `Device` where reading it failed, and `List`
/// where it is at fault; or `Memory`. Nothing but the list is read.
pub fn select_rows<F: Files>(
    alloc: Global,
    files: &F,
    metadata: &[u8],
    request: &Request,
) -> Result<SelectedRows, RunFault>
    // Over files that tell their world.
    ensures found { (world : World) → F.world files.now ≡ Some world →
        IfOk result (λ found. selected_rows world metadata.now request.now ≡ Ok found) }
    ensures refused { (world : World) → F.world files.now ≡ Some world →
        IfErr result (MayEnd (selected_rows world metadata.now request.now)
        (EndsAt world (F.may_fail files.now) (list_of (selected metadata.now request.now))) ⊥) }

    // Over all files.
    ensures selection { IfOk result (λ found. (selection : Selection)
        × (selected metadata.now request.now ≡ Ok selection) × (found.specs ≡ selection.specs)
        × (found.filter ≡ selection.filter)) }
    ensures few { IfOk result (λ found. length found.rows ≤ 65536) }
    ensures absent { (path : List ℕ) → IsErrOf result (RunFault.Absent path) → HasAt (F.world files.now) path None }
    ensures device { (path : List ℕ) → IsErrOf result (RunFault.Device path) → F.may_fail files.now path }
    ensures write { IsErrOf result RunFault.Write → ⊥ }
    ensures workers { IsErrOf result RunFault.Workers → ⊥ }
    ensures given { IfOk result (AreSelectedOfGiven (F.gives files.now) metadata.now request.now) }
{
    let Selection {
        list,
        specs,
        filter,
    } = select(alloc, metadata, request)?;
    let rows = read_rows(alloc, files, list.as_str())?;
    Ok(SelectedRows {
        rows: Items::from_vec(rows),
        specs,
        filter,
    })
}
