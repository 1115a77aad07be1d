//! The plan of a manifest list.

ghost use Rattle.std.specs.Prelude.{◌≡◌, ℕ, List, Some, None, Ok, IfOk, IfErr, IsErrOf, OnOk};
ghost use Rattle.ice_desk.specs.Worlds.{EndsAt, HasAt};
ghost use Rattle.ice_state.specs.Contents.{World};
ghost use Rattle.icescan_requests.specs.GivenPlans.{IsListPlanOfGiven, WrotePlanThat};
ghost use Rattle.icescan_requests.specs.ListPlans.{list_answer, list_reads, specs_of};
ghost use Rattle.icescan_requests.specs.Plans.{Answers, OnRefusal, WritesAPlan};
ghost use Rattle.icescan_text.specs.Reads.{MayEnd};

use crate::planning::plan_rows;
use crate::selected_rows::SelectedRows;
use contract_words::Items;
use ice_desk::Files;
use ice_filter::Bound;
use ice_manifest_reading::Row;
use ice_meta::Spec;
use ice_state::OwnedPlan;
use ice_state::laws::{covering_without_fields, filtering, unfiltered};
use icescan_print::Sink;
use icescan_text::{RunFault, read_rows, write_plan};
use std::alloc::{AllocError, Global};

/// For each row a spec without fields, of the row's spec id.
fn specs_of(alloc: Global, rows: &[Row]) -> Result<Items<Spec>, AllocError>
    ensures { IfOk result (λ specs. specs ≡ specs_of rows.now) }
{
    let mut specs = Items::with_capacity(alloc, rows.len())?;
    'rows: for row in rows {
        specs.push(Spec::empty(alloc, row.spec_id))?;
    }
    Ok(specs)
}

/// The plan of the manifest list at a path. The table is taken as one without partitions.
///
/// The refusal is `Absent` where the list or a wanted manifest is not there, `Device` where reading it failed, one of
/// `List`, `Scan` and `Finish` where the table is at fault, or `Memory`. The list is read first, then the wanted
/// manifests in the order of their paths, and the first that is not there or can't be read ends the run.
pub fn plan_list<F: Files>(alloc: Global, files: &F, list: &str) -> Result<OwnedPlan, RunFault>
    // Over files that tell their world.
    ensures found { (world : World) → F.world files.now ≡ Some world →
        IfOk result (λ plan. list_answer world list.now ≡ Ok plan) }
    ensures refused { (world : World) → F.world files.now ≡ Some world →
        IfErr result (MayEnd (list_answer world list.now)
        (EndsAt world (F.may_fail files.now) (list_reads world list.now)) ⊥) }

    // Over all files.
    ensures absent { (path : List ℕ) → IsErrOf result (RunFault.Absent path) → HasAt (F.world files.now) path None }
    ensures device { (path : List ℕ) → IsErrOf result (RunFault.Device path) → F.may_fail files.now path }
    ensures write { IsErrOf result RunFault.Write → ⊥ }
    // The plan of bytes that reads gave.
    ensures given { IfOk result (IsListPlanOfGiven (F.gives files.now) list.now) }
{
    let rows = read_rows(alloc, files, list)?;
    let selected = SelectedRows {
        specs: specs_of(alloc, &rows)?,
        rows: Items::from_vec(rows),
        filter: Bound::always(alloc),
    };
    // Specs without fields have summaries that tell the truth, and no filter leaves nothing out: so the plan of the
    // wanted rows is that of the snapshot.
    filtering();
    covering_without_fields();
    unfiltered();
    plan_rows(alloc, files, selected)
}

/// Writes the plan of the manifest list at a path. The table is taken as one without partitions.
///
/// The refusal is `Absent` where the list or a wanted manifest is not there, `Device` where reading it failed, one of
/// `List`, `Scan` and `Finish` where the table is at fault, `Write` where a write failed, and then a front of the
/// plan's text was written, or `Memory`. After any refusal but `Write` nothing was written. The list is read first,
/// then the wanted manifests in the order of their paths, and the first that is not there or can't be read ends the
/// run.
pub fn run_list_plan<F: Files, W: Sink>(
    alloc: Global,
    files: &F,
    list: &str,
    output: &mut W,
) -> Result<(), RunFault>
    // Over files that tell their world: what is written is the text of the plan, and a fault is the answer's.
    ensures answers { (world : World) → F.world files.now ≡ Some world →
        Answers (list_answer world list.now) (EndsAt world (F.may_fail files.now) (list_reads world list.now))
        (W.may_fail output.old) result (W.taken output.old) (W.taken output.new) }

    // Over all files.
    ensures text { WritesAPlan result (W.taken output.old) (W.taken output.new) }
    ensures refusal { OnRefusal (F.world files.now) (F.may_fail files.now) (W.may_fail output.old) result
        (W.taken output.old) (W.taken output.new) }
    // What is written is the plan of bytes that reads gave.
    ensures given { OnOk result (WrotePlanThat (IsListPlanOfGiven (F.gives files.now) list.now) (W.taken output.old)
        (W.taken output.new)) }
{
    let plan = plan_list(alloc, files, list)?;
    write_plan(alloc, &plan.lines(), output)
}
