//! The plan of a table's snapshot as JSON.

ghost use Rattle.std.specs.Prelude.{◌≡◌, ◌⊎◌, ◌<◌, ◌↔◌, ℕ, List, Some, None, Ok, OnOk, IfOk, IfErr, IsErrOf};
ghost use Rattle.ice_desk.specs.Worlds.{EndsAt, HasAt};
ghost use Rattle.icescan_json.specs.JsonAnswers.{AnswersInJson, IsTypedOfGivenAt, WritesJson, WroteJsonThat};
ghost use Rattle.icescan_json.specs.JsonAnswers.{typed_answer_at};
ghost use Rattle.icescan_requests.specs.Plans.{OnRefusal, TellsTheTruthAt, over_all_rows, over_wanted_rows, reads_at};
ghost use Rattle.ice_state.specs.Contents.{World};
ghost use Rattle.icescan_text.specs.Reads.{MayEnd};

use crate::typed::{TypedPlan, write_json_by_workers};
use ice_desk::Files;
use icescan_print::Sink;
use icescan_requests::{OpenGate, plan_table, plans_of_true_summaries};
use icescan_text::{Request, RunFault, Workers, read_file};
use std::alloc::Global;
use std::thread::Threads;

/// The plan that a request asks for, of the table whose metadata is in the file at a path, by so many workers; the types
/// of the partition values of the table's specs; and the filter.
fn typed_table_at<R: Threads + Sync, F: Files + Sync>(
    rt: &R,
    alloc: Global,
    files: &F,
    path: &str,
    request: &Request,
    workers: Workers,
) -> Result<TypedPlan, RunFault>
    ensures found { (world : World) → F.world files.now ≡ Some world →
        IfOk result (λ typed. typed_answer_at over_wanted_rows world path.now request.now workers.count ≡ Ok typed) }
    ensures refused { (world : World) → F.world files.now ≡ Some world →
        IfErr result (MayEnd (typed_answer_at over_wanted_rows world path.now request.now workers.count)
        (EndsAt world (F.may_fail files.now) (reads_at world path.now request.now)) ⊥) }
    ensures absent { (path : List ℕ) → IsErrOf result (RunFault.Absent path) → HasAt (F.world files.now) path None }
    ensures device { (path : List ℕ) → IsErrOf result (RunFault.Device path) → F.may_fail files.now path }
    ensures write { IsErrOf result RunFault.Write → ⊥ }
    ensures workers { IsErrOf result RunFault.Workers → ⊥ }
    ensures given { IfOk result (IsTypedOfGivenAt (F.gives files.now) path.now request.now) }
{
    let metadata = read_file(alloc, files, path)?;
    let bytes = metadata.as_slice();
    let planned = plan_table(rt, alloc, files, bytes, request, workers, &OpenGate)?;
    Ok(TypedPlan::of(alloc, planned, bytes, request)?)
}

/// Writes the plan that a request asks for as JSON, in one line: the answer of an Iceberg REST catalog to a scan that
/// was planned. The table is the one whose metadata is in the file at a path. Each task has the whole filter of the
/// request, which the rows of its file are still to meet; `true` where there is none. So many workers, from 1 to 64,
/// read and take the wanted manifests at once, and then make the text of ranges of tasks at once, each in a thread of
/// its own where one can be started.
///
/// The refusals and their order are those of `icescan_requests::plan_file`: `Workers` comes before all others, and then
/// nothing is read. After any refusal but `Write` nothing was written, and after that one a front of the text was.
pub fn plan_file_json<R: Threads + Sync, F: Files + Sync, W: Sink>(
    rt: &R,
    alloc: Global,
    files: &F,
    path: &str,
    request: &Request,
    workers: usize,
    output: &mut W,
) -> Result<(), RunFault>
    ensures workers { IsErrOf result RunFault.Workers ↔ ((workers ≡ 0) ⊎ (64 < workers)) }

    // Over files that tell their world, where the summaries of the rows tell the truth: the answer over all rows.
    ensures plan { (world : World) → F.world files.now ≡ Some world → TellsTheTruthAt world path.now request.now →
        AnswersInJson (typed_answer_at over_all_rows world path.now request.now workers)
        (EndsAt world (F.may_fail files.now) (reads_at world path.now request.now))
        (W.may_fail output.old) result (W.taken output.old) (W.taken output.new) }
    // Whatever the summaries say: the answer over the wanted rows.
    ensures wanted { (world : World) → F.world files.now ≡ Some world →
        AnswersInJson (typed_answer_at over_wanted_rows world path.now request.now workers)
        (EndsAt world (F.may_fail files.now) (reads_at world path.now request.now))
        (W.may_fail output.old) result (W.taken output.old) (W.taken output.new) }

    // Over all files.
    ensures text { WritesJson result (W.taken output.old) (W.taken output.new) }
    ensures refusal { OnRefusal (F.world files.now) (F.may_fail files.now) (W.may_fail output.old) result
        (W.taken output.old) (W.taken output.new) }
    // What is written is the plan of bytes that reads gave.
    ensures given { OnOk result (WroteJsonThat (IsTypedOfGivenAt (F.gives files.now) path.now request.now)
        (W.taken output.old) (W.taken output.new)) }
{
    let workers = Workers::of(workers)?;
    plans_of_true_summaries();
    let typed = typed_table_at(rt, alloc, files, path, request, workers)?;
    write_json_by_workers(rt, alloc, &typed, workers, output)
}
