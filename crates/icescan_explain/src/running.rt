//! Explanations that are asked for, over any files.

ghost use Rattle.std.specs.Prelude.{◌≡◌, ◌⊎◌, ◌<◌, ℕ, List, Some, None, Ok, IfErr, IfOk, IsErrOf, OnOk};
ghost use Rattle.ice_desk.specs.Worlds.{EndsAt, HasAt};
ghost use Rattle.icescan_explain.specs.AnyFiles.{IsAnExplanation};
ghost use Rattle.icescan_explain.specs.Explanations.{Explains, explained, explained_at};
ghost use Rattle.icescan_explain.specs.JsonLines.{WritesAnExplanation, WroteAnExplanationAs, WroteExplanationAs};
ghost use Rattle.icescan_explain.specs.JsonLines.{WroteExplanationFrontAs};
ghost use Rattle.icescan_requests.specs.Plans.{OnRefusal, reads, reads_at};
ghost use Rattle.ice_state.specs.Contents.{World};
ghost use Rattle.icescan_text.specs.Reads.{MayEnd};

use crate::columns::columns_in;
use crate::manifests::{Explanation, explain_rows, explain_rows_by_workers};
use crate::tests::FilterTests;
use crate::writing::{write_explanation, write_explanation_by_workers};
use ice_desk::Files;
use icescan_forms::Format;
use icescan_print::Sink;
use icescan_requests::select_rows;
use icescan_text::{Request, RunFault, Workers, read_file};
use std::alloc::Global;
use std::thread::Threads;

/// The plan that a request asks for, and what became of the snapshot's manifests and live files, by one worker.
fn explain_table<F: Files>(
    alloc: Global,
    files: &F,
    metadata: &[u8],
    request: &Request,
) -> Result<Explanation, RunFault>
    ensures answer { Explains (F.world files.now) (F.may_fail files.now) metadata.now request.now result }
    ensures read { IfOk result (IsAnExplanation (F.gives files.now) metadata.now request.now) }
    ensures absent { (path : List ℕ) → IsErrOf result (RunFault.Absent path) → HasAt (F.world files.now) path None }
    ensures device { (path : List ℕ) → IsErrOf result (RunFault.Device path) → F.may_fail files.now path }
    ensures write { IsErrOf result RunFault.Write → ⊥ }
{
    let selected = select_rows(alloc, files, metadata, request)?;
    let columns = columns_in(alloc, &request.filter)?;
    let specs = selected.specs.as_slice();
    let tests = FilterTests::new(alloc, specs, &selected.filter, &columns)?;
    explain_rows(alloc, files, &tests, selected)
}

/// The same by so many workers, each in a thread of its own where one can be started.
fn explain_table_by_workers<R: Threads + Sync, F: Files + Sync>(
    rt: &R,
    alloc: Global,
    files: &F,
    metadata: &[u8],
    request: &Request,
    workers: Workers,
) -> Result<Explanation, RunFault>
    ensures answer { Explains (F.world files.now) (F.may_fail files.now) metadata.now request.now result }
    ensures read { IfOk result (IsAnExplanation (F.gives files.now) metadata.now request.now) }
    ensures absent { (path : List ℕ) → IsErrOf result (RunFault.Absent path) → HasAt (F.world files.now) path None }
    ensures device { (path : List ℕ) → IsErrOf result (RunFault.Device path) → F.may_fail files.now path }
    ensures write { IsErrOf result RunFault.Write → ⊥ }
{
    let selected = select_rows(alloc, files, metadata, request)?;
    let columns = columns_in(alloc, &request.filter)?;
    let specs = selected.specs.as_slice();
    let tests = FilterTests::new(alloc, specs, &selected.filter, &columns)?;
    explain_rows_by_workers(rt, alloc, files, &tests, selected, workers)
}

/// Explains the plan that a request asks for, of the table whose metadata these are the bytes of: writes a line for
/// each manifest of the snapshot, by path, and after each that is wanted one for each of its live entries, by
/// position; and then three lines that count manifests, data files and delete files. As JSON each line is an object.
///
/// The data files that are told as kept are those of the plan, and where there is no plan there is no explanation: the
/// refusals and their order are those of `run_plan`. Then nothing was written, and neither after `Memory`. After
/// `Write`, for which a write failed, a front of the text was.
pub fn run_explain<F: Files, W: Sink>(
    alloc: Global,
    files: &F,
    metadata: &[u8],
    request: &Request,
    format: Format,
    output: &mut W,
) -> Result<(), RunFault>
    // Over files that tell their world.
    ensures written { (world : World) → F.world files.now ≡ Some world →
        OnOk result (WroteExplanationAs format (explained world metadata.now request.now) (W.taken output.old)
        (W.taken output.new)) }
    ensures refused { (world : World) → F.world files.now ≡ Some world →
        IfErr result (MayEnd (explained world metadata.now request.now)
        (EndsAt world (F.may_fail files.now) (reads world metadata.now request.now)) (W.may_fail output.old)) }
    ensures front { (world : World) → F.world files.now ≡ Some world → IsErrOf result RunFault.Write →
        WroteExplanationFrontAs format (explained world metadata.now request.now) (W.taken output.old)
        (W.taken output.new) }

    // Over all files.
    ensures text { WritesAnExplanation format (F.gives files.now) metadata.now request.now result (W.taken output.old)
        (W.taken output.new) }
    ensures refusal { OnRefusal (F.world files.now) (F.may_fail files.now) (W.may_fail output.old) result
        (W.taken output.old) (W.taken output.new) }
{
    let explanation = explain_table(alloc, files, metadata, request)?;
    write_explanation(alloc, &explanation, format, output)?;
    Ok(())
}

/// The same as `run_explain` by so many workers, each in a thread of its own where one can be started.
fn run_explain_by<R: Threads + Sync, F: Files + Sync, W: Sink>(
    rt: &R,
    alloc: Global,
    files: &F,
    metadata: &[u8],
    request: &Request,
    workers: Workers,
    format: Format,
    output: &mut W,
) -> Result<(), RunFault>
    // Over files that tell their world.
    ensures written { (world : World) → F.world files.now ≡ Some world →
        OnOk result (WroteExplanationAs format (explained world metadata.now request.now) (W.taken output.old)
        (W.taken output.new)) }
    ensures refused { (world : World) → F.world files.now ≡ Some world →
        IfErr result (MayEnd (explained world metadata.now request.now)
        (EndsAt world (F.may_fail files.now) (reads world metadata.now request.now)) (W.may_fail output.old)) }
    ensures front { (world : World) → F.world files.now ≡ Some world → IsErrOf result RunFault.Write →
        WroteExplanationFrontAs format (explained world metadata.now request.now) (W.taken output.old)
        (W.taken output.new) }

    // Over all files.
    ensures text { WritesAnExplanation format (F.gives files.now) metadata.now request.now result (W.taken output.old)
        (W.taken output.new) }
    ensures refusal { OnRefusal (F.world files.now) (F.may_fail files.now) (W.may_fail output.old) result
        (W.taken output.old) (W.taken output.new) }
{
    let explanation = explain_table_by_workers(rt, alloc, files, metadata, request, workers)?;
    write_explanation_by_workers(rt, alloc, &explanation, workers, format, output)?;
    Ok(())
}

/// Explains the plan that a request asks for, of the table whose metadata is in the file at a path. So many workers read
/// and take the manifests at once, each those of neighbouring rows in a thread of its own where one can be started. The
/// text and the refusal are the same for every number of workers.
///
/// The refusal is `Workers` where there are to be none, or more than 64; it comes before all others, and nothing is
/// read. Then it is `Absent` where there is no such file, `Device` where reading it failed, else as `run_explain`'s.
pub fn explain_file<R: Threads + Sync, F: Files + Sync, W: Sink>(
    rt: &R,
    alloc: Global,
    files: &F,
    path: &str,
    request: &Request,
    workers: usize,
    format: Format,
    output: &mut W,
) -> Result<(), RunFault>
    ensures workers { (workers ≡ 0) ⊎ (64 < workers) → IsErrOf result RunFault.Workers }

    // Over files that tell their world.
    ensures written { (world : World) → F.world files.now ≡ Some world →
        OnOk result (WroteExplanationAs format (explained_at world path.now request.now workers) (W.taken output.old)
        (W.taken output.new)) }
    ensures refused { (world : World) → F.world files.now ≡ Some world →
        IfErr result (MayEnd (explained_at world path.now request.now workers)
        (EndsAt world (F.may_fail files.now) (reads_at world path.now request.now)) (W.may_fail output.old)) }
    ensures front { (world : World) → F.world files.now ≡ Some world → IsErrOf result RunFault.Write →
        WroteExplanationFrontAs format (explained_at world path.now request.now workers) (W.taken output.old)
        (W.taken output.new) }

    // Over all files.
    ensures text { (metadata : List ℕ) ×
        WritesAnExplanation format (F.gives files.now) metadata request.now result (W.taken output.old)
        (W.taken output.new) }
    // And a read gave that metadata.
    ensures given { OnOk result ((metadata : List ℕ) × F.gives files.now path.now (Some metadata)
        × WroteAnExplanationAs format (F.gives files.now) metadata request.now (W.taken output.old)
        (W.taken output.new)) }
    ensures refusal { OnRefusal (F.world files.now) (F.may_fail files.now) (W.may_fail output.old) result
        (W.taken output.old) (W.taken output.new) }
{
    let workers = Workers::of(workers)?;
    let metadata = read_file(alloc, files, path)?;
    run_explain_by(
        rt, alloc, files, &metadata, request, workers, format, output,
    )
}
