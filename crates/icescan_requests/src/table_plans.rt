//! The plan of a table's snapshot, under a filter.

ghost use Rattle.std.specs.Prelude.{◌≡◌, ℕ, List, Some, None, Ok, OnOk, IfOk, IfErr, IsErrOf};
ghost use Rattle.ice_desk.specs.Worlds.{EndsAt, HasAt};
ghost use Rattle.ice_state.specs.Contents.{World};
ghost use Rattle.icescan_requests.specs.GivenPlans.{IsPlanOfGiven};
ghost use Rattle.icescan_requests.specs.Plans.{TellsTheTruth, answer, answer_at, over_wanted_rows, reads, reads_at};
ghost use Rattle.icescan_requests.specs.Plans.{wanted_answer};
ghost use Rattle.icescan_requests.specs.Selections.{AreSelected, selected};
ghost use Rattle.icescan_requests.specs.declared.selection.Selection.{Selection};
ghost use Rattle.icescan_text.specs.Reads.{MayEnd, file_in};
ghost use Rattle.icescan_text.specs.declared.request.Request.{Request};

use crate::copies::copied_specs;
use crate::planning::{OpenGate, plan_rows, plan_rows_by_workers};
use crate::selected_rows::select_rows;
use contract_words::Items;
use ice_desk::{Files, Gate};
use ice_meta::Spec;
use ice_state::OwnedPlan;
use ice_state::laws::filtering;
use icescan_text::{Request, RunFault, Workers, read_file};
use std::alloc::Global;
use std::thread::Threads;

/// The plan of a table's snapshot, and the partition specs by which it is read.
#[derive(Debug, Drop)]
pub struct TablePlan {
    /// The table's partition specs, with the types of their source columns.
    pub specs: Items<Spec>,
    /// The plan.
    pub plan: OwnedPlan,
}

/// Where the summaries of a snapshot's rows tell the truth, the plan of the wanted rows is that of the whole snapshot.
pub fn plans_of_true_summaries()
    ensures { (world : World) (metadata : List ℕ) (request : Request) →
        TellsTheTruth world metadata request → wanted_answer world metadata request ≡ answer world metadata request }
{
    filtering();
}

/// The plan that a request asks for, of the table whose metadata these are the bytes of. The manifests are read one
/// after the other.
///
/// A live data file that the plan lacks, honest about its rows, has no row that meets the filter: the crate
/// `icescan_answer_laws` says so of `answer` and of `wanted_answer`, which this gives.
///
/// The refusal is `Metadata` with the first fault of the bytes; `Filter` where the filter's text is none; `Metadata`
/// where there is no such snapshot; `Filter` where the filter can't be asked of the schema, which is the current one,
/// or that of the snapshot itself for a tag and for a snapshot's id; then, of reading the manifest list and after it
/// the wanted manifests in the order of their paths, `Absent` for the first that is not there and `Device` for the
/// first that can't be read; between them `List` and `Scan` where the list is at fault, and in the end `Finish` where
/// there is no plan; or `Memory`.
pub fn plan_table_alone<F: Files>(
    alloc: Global,
    files: &F,
    metadata: &[u8],
    request: &Request,
) -> Result<OwnedPlan, RunFault>
    // Over files that tell their world.
    ensures found { (world : World) → F.world files.now ≡ Some world →
        IfOk result (λ plan. wanted_answer world metadata.now request.now ≡ Ok plan) }
    ensures refused { (world : World) → F.world files.now ≡ Some world →
        IfErr result (MayEnd (wanted_answer world metadata.now request.now)
        (EndsAt world (F.may_fail files.now) (reads world metadata.now request.now)) ⊥) }

    // Over all files.
    ensures selection { OnOk result ((selection : Selection) × (selected metadata.now request.now ≡ Ok selection)) }
    ensures absent { (path : List ℕ) → IsErrOf result (RunFault.Absent path) → HasAt (F.world files.now) path None }
    ensures device { (path : List ℕ) → IsErrOf result (RunFault.Device path) → F.may_fail files.now path }
    ensures write { IsErrOf result RunFault.Write → ⊥ }
    // The plan of bytes that reads gave.
    ensures given { IfOk result (IsPlanOfGiven (F.gives files.now) metadata.now request.now) }
{
    let selected = select_rows(alloc, files, metadata, request)?;
    plan_rows(alloc, files, selected)
}

/// The same by so many workers, with the table's specs. The workers read and take the wanted manifests at once, each in
/// a thread of its own where one can be started; `gate` is told of each of their reads.
pub fn plan_table<R: Threads + Sync, F: Files + Sync, G: Gate + Sync>(
    rt: &R,
    alloc: Global,
    files: &F,
    metadata: &[u8],
    request: &Request,
    workers: Workers,
    gate: &G,
) -> Result<TablePlan, RunFault>
    // Over files that tell their world.
    ensures found { (world : World) → F.world files.now ≡ Some world →
        IfOk result (λ planned. wanted_answer world metadata.now request.now ≡ Ok planned.plan) }
    ensures refused { (world : World) → F.world files.now ≡ Some world →
        IfErr result (MayEnd (wanted_answer world metadata.now request.now)
        (EndsAt world (F.may_fail files.now) (reads world metadata.now request.now)) ⊥) }

    // Over all files.
    ensures selection { IfOk result (λ planned. AreSelected metadata.now request.now planned.specs) }
    ensures absent { (path : List ℕ) → IsErrOf result (RunFault.Absent path) → HasAt (F.world files.now) path None }
    ensures device { (path : List ℕ) → IsErrOf result (RunFault.Device path) → F.may_fail files.now path }
    ensures write { IsErrOf result RunFault.Write → ⊥ }
    ensures workers { IsErrOf result RunFault.Workers → ⊥ }
    // The plan of bytes that reads gave.
    ensures given { IfOk result (λ planned. IsPlanOfGiven (F.gives files.now) metadata.now request.now planned.plan) }
{
    let selected = select_rows(alloc, files, metadata, request)?;
    let specs = copied_specs(alloc, selected.specs.as_slice())?;
    let plan = plan_rows_by_workers(rt, alloc, files, selected, workers, gate)?;
    Ok(TablePlan { specs, plan })
}

/// The same of the table whose metadata is in the file at a path. The refusal is `Absent` where there is no such file,
/// `Device` where reading it failed, else as `plan_table`'s.
pub fn plan_table_at<R: Threads + Sync, F: Files + Sync>(
    rt: &R,
    alloc: Global,
    files: &F,
    path: &str,
    request: &Request,
    workers: Workers,
) -> Result<TablePlan, RunFault>
    // Over files that tell their world.
    ensures found { (world : World) → F.world files.now ≡ Some world →
        IfOk result (λ planned. answer_at over_wanted_rows world path.now request.now workers.count ≡ Ok planned.plan) }
    ensures refused { (world : World) → F.world files.now ≡ Some world →
        IfErr result (MayEnd (answer_at over_wanted_rows world path.now request.now workers.count)
        (EndsAt world (F.may_fail files.now) (reads_at world path.now request.now)) ⊥) }

    // Over all files.
    ensures selection { IfOk result (λ planned. (metadata : List ℕ)
        × ((world : World) → F.world files.now ≡ Some world → file_in world path.now ≡ Ok metadata)
        × AreSelected metadata request.now planned.specs) }
    ensures absent { (path : List ℕ) → IsErrOf result (RunFault.Absent path) → HasAt (F.world files.now) path None }
    ensures device { (path : List ℕ) → IsErrOf result (RunFault.Device path) → F.may_fail files.now path }
    ensures write { IsErrOf result RunFault.Write → ⊥ }
    ensures workers { IsErrOf result RunFault.Workers → ⊥ }
    // The plan of bytes that reads gave, and the specs of that metadata.
    ensures given { IfOk result (λ planned. (metadata : List ℕ) × F.gives files.now path.now (Some metadata)
        × IsPlanOfGiven (F.gives files.now) metadata request.now planned.plan
        × AreSelected metadata request.now planned.specs) }
{
    let metadata = read_file(alloc, files, path)?;
    plan_table(rt, alloc, files, &metadata, request, workers, &OpenGate)
}
