//! The changes from one snapshot of a table to another, over any files.

ghost use Rattle.std.specs.Prelude.{◌≡◌, ◌⊎◌, ◌<◌, ◌≤◌, ℕ, length, List, Some, None, Ok, IfErr, IfOk, IsErrOf, OnOk};
ghost use Rattle.ice_desk.specs.Worlds.{EndsAt, HasAt};
ghost use Rattle.ice_state.specs.Contents.{World};
ghost use Rattle.icescan_changes.specs.Answers.{AreChangesOfBoth, AreChangesOfGiven, WroteChangesOfGiven, both_reads};
ghost use Rattle.icescan_changes.specs.Answers.{changes_at, changes_in, changes_between, changes_reads_at, changes_told};
ghost use Rattle.icescan_changes.specs.Answers.{manifests_of_both};
ghost use Rattle.icescan_requests.specs.Plans.{OnRefusal};
ghost use Rattle.icescan_requests.specs.Shows.{WroteFront, WroteText};
ghost use Rattle.icescan_text.specs.Reads.{MayEnd};

use crate::changes::line_changes;
use crate::json_lines::objects_of;
use crate::lineage::check_lineage;
use crate::lines::text_of;
use ice_desk::Files;
use ice_state::Lines;
use icescan_forms::Format;
use icescan_print::{Sink, write_all};
use icescan_requests::{OpenGate, plan_rows_by_workers};
use icescan_shared_manifests::{BothRows, select_both};
use icescan_text::{ChangesRequest, RunFault, Workers, read_file};
use std::alloc::{AllocError, Global};
use std::thread::Threads;

/// What became of a plan, in a form: for each data file that only one of the plans has, or to which other delete files
/// apply, in the order of their paths, a line of text, or objects of JSON for it and for each delete file that is told
/// of it; and then their numbers.
pub fn changes_told<'a>(
    alloc: Global,
    format: Format,
    earlier: &Lines<'a>,
    later: &Lines<'a>,
) -> Result<Vec<u8>, AllocError>
    ensures { IfOk result (λ text. text.items ≡ changes_told format earlier.now later.now) }
{
    let changes = line_changes(alloc, earlier, later)?;
    match format {
        Format::Text => text_of(alloc, &changes),
        Format::Json => objects_of(alloc, &changes),
    }
}

/// The changes between the plans of both, in a form.
fn changes_between<R: Threads + Sync, F: Files + Sync>(
    rt: &R,
    alloc: Global,
    files: &F,
    both: BothRows,
    format: Format,
    workers: Workers,
) -> Result<Vec<u8>, RunFault>
    requires earlier { length both.earlier.rows ≤ 65536 }
    requires later { length both.later.rows ≤ 65536 }
    ensures found { (world : World) → F.world files.now ≡ Some world →
        IfOk result (λ text. changes_between format world both ≡ Ok text.items) }
    ensures refused { (world : World) → F.world files.now ≡ Some world →
        IfErr result (MayEnd (changes_between format world both)
        (EndsAt world (F.may_fail files.now) (manifests_of_both both)) ⊥) }
    ensures absent { (path : List ℕ) → IsErrOf result (RunFault.Absent path) → HasAt (F.world files.now) path None }
    ensures device { (path : List ℕ) → IsErrOf result (RunFault.Device path) → F.may_fail files.now path }
    ensures write { IsErrOf result RunFault.Write → ⊥ }
    ensures given { IfOk result (λ text. AreChangesOfBoth format (F.gives files.now) both text.items) }
{
    let BothRows { earlier, later } = both;
    let earlier = plan_rows_by_workers(rt, alloc, files, earlier, workers, &OpenGate)?;
    let later = plan_rows_by_workers(rt, alloc, files, later, workers, &OpenGate)?;
    Ok(changes_told(alloc, format, &earlier.lines(), &later.lines())?)
}

/// The changes that are asked for, in a form, of the table whose metadata these are the bytes of.
fn changes_in<R: Threads + Sync, F: Files + Sync>(
    rt: &R,
    alloc: Global,
    files: &F,
    metadata: &[u8],
    request: &ChangesRequest,
    format: Format,
    workers: Workers,
) -> Result<Vec<u8>, RunFault>
    ensures found { (world : World) → F.world files.now ≡ Some world →
        IfOk result (λ text. changes_in format world metadata.now request.now ≡ Ok text.items) }
    ensures refused { (world : World) → F.world files.now ≡ Some world →
        IfErr result (MayEnd (changes_in format world metadata.now request.now)
        (EndsAt world (F.may_fail files.now) (both_reads world metadata.now request.now)) ⊥) }
    ensures absent { (path : List ℕ) → IsErrOf result (RunFault.Absent path) → HasAt (F.world files.now) path None }
    ensures device { (path : List ℕ) → IsErrOf result (RunFault.Device path) → F.may_fail files.now path }
    ensures write { IsErrOf result RunFault.Write → ⊥ }
    ensures given { IfOk result (λ text. AreChangesOfGiven format (F.gives files.now) metadata.now request.now
        text.items) }
{
    check_lineage(alloc, metadata, request)?;
    let both = select_both(alloc, files, metadata, request)?;
    changes_between(rt, alloc, files, both, format, workers)
}

/// The same of the table whose metadata is in the file at a path.
fn changes_at<R: Threads + Sync, F: Files + Sync>(
    rt: &R,
    alloc: Global,
    files: &F,
    path: &str,
    request: &ChangesRequest,
    format: Format,
    workers: usize,
) -> Result<Vec<u8>, RunFault>
    ensures workers { (workers ≡ 0) ⊎ (64 < workers) → IsErrOf result RunFault.Workers }
    ensures found { (world : World) → F.world files.now ≡ Some world →
        IfOk result (λ text. changes_at format world path.now request.now workers ≡ Ok text.items) }
    ensures refused { (world : World) → F.world files.now ≡ Some world →
        IfErr result (MayEnd (changes_at format world path.now request.now workers)
        (EndsAt world (F.may_fail files.now) (changes_reads_at world path.now request.now)) ⊥) }
    ensures given { IfOk result (λ text. (metadata : List ℕ) × F.gives files.now path.now (Some metadata)
        × AreChangesOfGiven format (F.gives files.now) metadata request.now text.items) }
    ensures absent { (path : List ℕ) → IsErrOf result (RunFault.Absent path) → HasAt (F.world files.now) path None }
    ensures device { (path : List ℕ) → IsErrOf result (RunFault.Device path) → F.may_fail files.now path }
    ensures write { IsErrOf result RunFault.Write → ⊥ }
{
    let workers = Workers::of(workers)?;
    let metadata = read_file(alloc, files, path)?;
    changes_in(rt, alloc, files, &metadata, request, format, workers)
}

/// Writes, in a form, the changes from one plan to another that are asked for, of the table whose metadata is in the
/// file at a path.
///
/// The refusal is `Workers` where there are to be none, or more than 64; it comes before all others, and nothing is
/// read. Then it is `Absent` where there is no such file, `Device` where reading it failed, `Lineage` where each
/// snapshot between has to be an append and one is none, else that of the earlier manifest list, of the later one, of
/// the earlier plan, and of the later. No manifest of data files is read that both snapshots share, where neither plan
/// has a filter and both have the same manifests of delete files: so a fault in one of these is not found.
/// Then nothing was written, and neither after `Memory`. After `Write`, for which a write failed, a front of the text
/// was.
pub fn changes_file<R: Threads + Sync, F: Files + Sync, W: Sink>(
    rt: &R,
    alloc: Global,
    files: &F,
    format: Format,
    path: &str,
    request: &ChangesRequest,
    workers: usize,
    output: &mut W,
) -> Result<(), RunFault>
    ensures workers { (workers ≡ 0) ⊎ (64 < workers) → IsErrOf result RunFault.Workers }

    // Over files that tell their world.
    ensures written { (world : World) → F.world files.now ≡ Some world →
        OnOk result (WroteText (changes_at format world path.now request.now workers) (W.taken output.old)
        (W.taken output.new)) }
    ensures refused { (world : World) → F.world files.now ≡ Some world →
        IfErr result (MayEnd (changes_at format world path.now request.now workers)
        (EndsAt world (F.may_fail files.now) (changes_reads_at world path.now request.now)) (W.may_fail output.old)) }
    ensures front { (world : World) → F.world files.now ≡ Some world → IsErrOf result RunFault.Write →
        WroteFront (changes_at format world path.now request.now workers) (W.taken output.old)
        (W.taken output.new) }

    // Over all files.
    ensures refusal { OnRefusal (F.world files.now) (F.may_fail files.now) (W.may_fail output.old) result
        (W.taken output.old) (W.taken output.new) }
    // What is written is made of plans of bytes that reads gave.
    ensures given { OnOk result ((metadata : List ℕ) × F.gives files.now path.now (Some metadata)
        × WroteChangesOfGiven format (F.gives files.now) metadata request.now (W.taken output.old)
        (W.taken output.new)) }
{
    let text = changes_at(rt, alloc, files, path, request, format, workers)?;
    write_all(output, &text)?;
    Ok(())
}
