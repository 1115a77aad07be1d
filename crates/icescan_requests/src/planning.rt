//! The plans of the rows of manifest lists.

ghost use Rattle.std.specs.Prelude.{◌≤◌, ℕ, List, None, IfOk, IsErrOf, length};
ghost use Rattle.ice_desk.specs.Worlds.{HasAt};
ghost use Rattle.icescan_requests.specs.GivenPlans.{IsRowsPlanOfGiven};
ghost use Rattle.icescan_requests.specs.Plans.{PlansRows};

use crate::selected_rows::SelectedRows;
use ice_desk::{Files, Gate, plan_scan, take_wanted};
use ice_state::{OwnedPlan, Partial};
use icescan_text::{RunFault, Workers};
use std::alloc::Global;
use std::thread::Threads;

/// A gate at which no worker is held up, and that nobody watches.
#[derive(Drop)]
pub struct OpenGate;

impl Gate for OpenGate {
    fn before_take(&self, _worker: usize, _i: usize) {}
}

/// The plan of these rows. Their manifests are read one after the other, in the order of their paths.
pub fn plan_rows<F: Files>(
    alloc: Global,
    files: &F,
    selected: SelectedRows,
) -> Result<OwnedPlan, RunFault>
    ensures answer { PlansRows (F.world files.now) (F.may_fail files.now) selected result }
    ensures absent { (path : List ℕ) → IsErrOf result (RunFault.Absent path) → HasAt (F.world files.now) path None }
    ensures device { (path : List ℕ) → IsErrOf result (RunFault.Device path) → F.may_fail files.now path }
    ensures write { IsErrOf result RunFault.Write → ⊥ }
    // Over all files: the plan of bytes that reads gave.
    ensures given { IfOk result (λ plan. IsRowsPlanOfGiven (F.gives files.now) selected.specs selected.filter.parts
        selected.rows plan) }
{
    let scan = selected.into_scan(alloc)?;
    let mut state = Partial::empty(alloc, &scan)?;
    take_wanted(alloc, files, &scan, &mut state)?;
    Ok(state.into_plan(&scan)?)
}

/// The same by so many workers, each in a thread of its own where one can be started. `gate` is told of each of their
/// reads.
pub fn plan_rows_by_workers<R: Threads + Sync, F: Files + Sync, G: Gate + Sync>(
    rt: &R,
    alloc: Global,
    files: &F,
    selected: SelectedRows,
    workers: Workers,
    gate: &G,
) -> Result<OwnedPlan, RunFault>
    requires { length selected.rows ≤ 65536 }
    ensures answer { PlansRows (F.world files.now) (F.may_fail files.now) selected result }
    ensures absent { (path : List ℕ) → IsErrOf result (RunFault.Absent path) → HasAt (F.world files.now) path None }
    ensures device { (path : List ℕ) → IsErrOf result (RunFault.Device path) → F.may_fail files.now path }
    ensures write { IsErrOf result RunFault.Write → ⊥ }
    ensures workers { IsErrOf result RunFault.Workers → ⊥ }
    // Over all files: the plan of bytes that reads gave.
    ensures given { IfOk result (λ plan. IsRowsPlanOfGiven (F.gives files.now) selected.specs selected.filter.parts
        selected.rows plan) }
{
    let scan = selected.into_scan(alloc)?;
    Ok(plan_scan(rt, alloc, files, &scan, workers.count(), gate)?)
}
