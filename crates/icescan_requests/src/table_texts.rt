//! The text of the plan of a table's snapshot.

ghost use Rattle.std.specs.Prelude.{◌≡◌, ◌⊎◌, ◌<◌, ◌↔◌, ℕ, List, Some, Ok, OnOk, IsErrOf};
ghost use Rattle.ice_desk.specs.Worlds.{EndsAt};
ghost use Rattle.ice_state.specs.Contents.{World};
ghost use Rattle.icescan_requests.specs.GivenPlans.{IsPlanOfGiven, IsPlanOfGivenAt, WrotePlanThat};
ghost use Rattle.icescan_requests.specs.Plans.{Answers, OnRefusal, WritesAPlan, TellsTheTruth, TellsTheTruthAt, answer};
ghost use Rattle.icescan_requests.specs.Plans.{answer_at, over_all_rows, over_wanted_rows, reads, reads_at};
ghost use Rattle.icescan_requests.specs.Plans.{wanted_answer};
ghost use Rattle.icescan_requests.specs.Selections.{selected};
ghost use Rattle.icescan_requests.specs.declared.selection.Selection.{Selection};
ghost use Rattle.icescan_text.specs.Workers.{by_workers};

use crate::table_plans::{plan_table, plan_table_alone, plan_table_at, plans_of_true_summaries};
use ice_desk::{Files, Gate};
use icescan_print::Sink;
use icescan_text::{Request, RunFault, Workers, write_plan, write_plan_by_workers};
use std::alloc::Global;
use std::thread::Threads;

/// Writes the plan that a request asks for, of the table whose metadata these are the bytes of.
///
/// A live data file that the plan lacks, honest about its rows, has no row that meets the filter: the crate
/// `icescan_answer_laws` says so of `answer` and of `wanted_answer`, which this writes.
///
/// The refusal is `Metadata` with the first fault of the bytes; `Filter` where the filter's text is none; `Metadata`
/// where there is no such snapshot; `Filter` where the filter can't be asked of the schema, which is the current one,
/// or that of the snapshot itself for a tag and for a snapshot's id; then, of reading the manifest list and after it
/// the wanted manifests in the order of their paths, `Absent` for the first that is not there and `Device` for the
/// first that can't be read; between them `List` and `Scan` where the list is at fault, and in the end `Finish` where
/// there is no plan. Then nothing was written, and neither after `Memory`. After `Write`, for which a write failed, a
/// front of the text was.
pub fn run_plan<F: Files, W: Sink>(
    alloc: Global,
    files: &F,
    metadata: &[u8],
    request: &Request,
    output: &mut W,
) -> Result<(), RunFault>
    // Over files that tell their world, where the summaries of the rows tell the truth: the answer over all rows.
    ensures plan { (world : World) → F.world files.now ≡ Some world → TellsTheTruth world metadata.now request.now →
        Answers (answer world metadata.now request.now)
        (EndsAt world (F.may_fail files.now) (reads world metadata.now request.now))
        (W.may_fail output.old) result (W.taken output.old) (W.taken output.new) }
    // Whatever the summaries say: the answer over the wanted rows.
    ensures wanted { (world : World) → F.world files.now ≡ Some world →
        Answers (wanted_answer world metadata.now request.now)
        (EndsAt world (F.may_fail files.now) (reads world metadata.now request.now))
        (W.may_fail output.old) result (W.taken output.old) (W.taken output.new) }

    // Over all files.
    ensures selection { OnOk result ((selection : Selection) × (selected metadata.now request.now ≡ Ok selection)) }
    ensures text { WritesAPlan result (W.taken output.old) (W.taken output.new) }
    ensures refusal { OnRefusal (F.world files.now) (F.may_fail files.now) (W.may_fail output.old) result
        (W.taken output.old) (W.taken output.new) }
    // What is written is the plan of bytes that reads gave.
    ensures given { OnOk result (WrotePlanThat (IsPlanOfGiven (F.gives files.now) metadata.now request.now)
        (W.taken output.old) (W.taken output.new)) }
{
    plans_of_true_summaries();
    let plan = plan_table_alone(alloc, files, metadata, request)?;
    write_plan(alloc, &plan.lines(), output)
}

/// Writes the plan that a request asks for, of the table whose metadata these are the bytes of: by so many workers,
/// from 1 to 64, each in a thread of its own where one can be started. They read and take the wanted manifests at once;
/// `gate` is told of each of their reads.
///
/// The refusal is `Workers` where there are to be none, or more than 64; it comes before all others. Else plan and
/// refusal are those of `run_plan`, whatever the number of workers.
pub fn run_plan_with<R: Threads + Sync, F: Files + Sync, G: Gate + Sync, W: Sink>(
    rt: &R,
    alloc: Global,
    files: &F,
    metadata: &[u8],
    request: &Request,
    workers: usize,
    gate: &G,
    output: &mut W,
) -> Result<(), RunFault>
    ensures workers { IsErrOf result RunFault.Workers ↔ ((workers ≡ 0) ⊎ (64 < workers)) }

    // Over files that tell their world, where the summaries of the rows tell the truth: the answer over all rows.
    ensures plan { (world : World) → F.world files.now ≡ Some world → TellsTheTruth world metadata.now request.now →
        Answers (by_workers workers (answer world metadata.now request.now))
        (EndsAt world (F.may_fail files.now) (reads world metadata.now request.now))
        (W.may_fail output.old) result (W.taken output.old) (W.taken output.new) }
    // Whatever the summaries say: the answer over the wanted rows.
    ensures wanted { (world : World) → F.world files.now ≡ Some world →
        Answers (by_workers workers (wanted_answer world metadata.now request.now))
        (EndsAt world (F.may_fail files.now) (reads world metadata.now request.now))
        (W.may_fail output.old) result (W.taken output.old) (W.taken output.new) }

    // Over all files.
    ensures selection { OnOk result ((selection : Selection) × (selected metadata.now request.now ≡ Ok selection)) }
    ensures text { WritesAPlan result (W.taken output.old) (W.taken output.new) }
    ensures refusal { OnRefusal (F.world files.now) (F.may_fail files.now) (W.may_fail output.old) result
        (W.taken output.old) (W.taken output.new) }
    // What is written is the plan of bytes that reads gave.
    ensures given { OnOk result (WrotePlanThat (IsPlanOfGiven (F.gives files.now) metadata.now request.now)
        (W.taken output.old) (W.taken output.new)) }
{
    let workers = Workers::of(workers)?;
    plans_of_true_summaries();
    let planned = plan_table(rt, alloc, files, metadata, request, workers, gate)?;
    write_plan_by_workers(rt, alloc, &planned.plan.lines(), workers, output)
}

/// Writes the plan that a request asks for, of the table whose metadata is in the file at a path, by so many workers.
///
/// The refusal is `Workers` where there are to be none, or more than 64; it comes before all others, and nothing is
/// read. Then it is `Absent` where there is no such file, `Device` where reading it failed, else as `run_plan`'s.
pub fn plan_file<R: Threads + Sync, F: Files + Sync, W: Sink>(
    rt: &R,
    alloc: Global,
    files: &F,
    path: &str,
    request: &Request,
    workers: usize,
    output: &mut W,
) -> Result<(), RunFault>
    ensures workers { IsErrOf result RunFault.Workers ↔ ((workers ≡ 0) ⊎ (64 < workers)) }

    // Over files that tell their world, where the summaries of the rows tell the truth: the answer over all rows.
    ensures plan { (world : World) → F.world files.now ≡ Some world → TellsTheTruthAt world path.now request.now →
        Answers (answer_at over_all_rows world path.now request.now workers)
        (EndsAt world (F.may_fail files.now) (reads_at world path.now request.now))
        (W.may_fail output.old) result (W.taken output.old) (W.taken output.new) }
    // Whatever the summaries say: the answer over the wanted rows.
    ensures wanted { (world : World) → F.world files.now ≡ Some world →
        Answers (answer_at over_wanted_rows world path.now request.now workers)
        (EndsAt world (F.may_fail files.now) (reads_at world path.now request.now))
        (W.may_fail output.old) result (W.taken output.old) (W.taken output.new) }

    // Over all files.
    ensures selection { OnOk result ((metadata : List ℕ) × (selection : Selection)
        × (selected metadata request.now ≡ Ok selection)) }
    ensures text { WritesAPlan result (W.taken output.old) (W.taken output.new) }
    ensures refusal { OnRefusal (F.world files.now) (F.may_fail files.now) (W.may_fail output.old) result
        (W.taken output.old) (W.taken output.new) }
    // What is written is the plan of bytes that reads gave.
    ensures given { OnOk result (WrotePlanThat (IsPlanOfGivenAt (F.gives files.now) path.now request.now)
        (W.taken output.old) (W.taken output.new)) }
{
    let workers = Workers::of(workers)?;
    plans_of_true_summaries();
    let planned = plan_table_at(rt, alloc, files, path, request, workers)?;
    write_plan_by_workers(rt, alloc, &planned.plan.lines(), workers, output)
}
