//! Audits that are asked for, over any files.

ghost use Rattle.std.specs.Prelude.{◌≡◌, ◌≢◌, ◌⊎◌, ◌<◌, ℕ, List, Some, Ok, IfOk, IfErr, IsErrOf};
ghost use Rattle.icescan_audit.specs.AnyFiles.{IsAnAudit, MayStop, WritesAnAudit, WroteAnAudit};
ghost use Rattle.icescan_audit.specs.Audits.{Audits, audit_at, audit_of, audit_reads, audit_reads_at};
ghost use Rattle.icescan_audit.specs.Premises.{HasTrueSummaries, HasTrueSummariesAt};
ghost use Rattle.icescan_audit.specs.Texts.{WroteAudit, WroteAuditFront};
ghost use Rattle.ice_desk.specs.Worlds.{EndsAt};
ghost use Rattle.ice_state.specs.Contents.{World};
ghost use Rattle.icescan_text.specs.Reads.{MayEnd};

use crate::audit::Audit;
use crate::by_workers::audit_rows_by_workers;
use crate::laws::audits_tell_of_summaries;
use crate::lines::{end_of, write_audit};
use crate::manifests::check_specs;
use crate::subject::{Subject, select_subject};
use ice_desk::Files;
use ice_meta::Target;
use icescan_audit_findings::count_faults;
use icescan_print::{Page, Sink};
use icescan_text::{RunFault, Workers, read_file, read_rows};
use std::alloc::Global;
use std::thread::Threads;

/// What a snapshot's audit finds, by so many workers.
pub(crate) fn audit_table<R: Threads + Sync, F: Files + Sync>(
    rt: &R,
    alloc: Global,
    files: &F,
    metadata: &[u8],
    target: &Target,
    workers: usize,
) -> Result<Audit, RunFault>
    ensures answer { Audits (F.world files.now) (F.may_fail files.now) metadata.now target.now result }
    ensures write { IsErrOf result RunFault.Write → ⊥ }
    ensures read { IfOk result (IsAnAudit (F.gives files.now) metadata.now target.now) }
    ensures stops { IfErr result (MayStop (F.world files.now) (F.may_fail files.now) ⊥) }
{
    let subject = select_subject(alloc, metadata, target)?;
    let Subject { list, basis, said } = subject;
    let rows = read_rows(alloc, files, list.as_str())?;
    check_specs(basis.specs.as_slice(), &rows)?;
    let basis = basis.among(&rows);
    let read = audit_rows_by_workers(rt, alloc, files, &basis, &rows, workers)?;
    Ok(read.whole_by_workers(rt, alloc, said.as_slice(), workers)?)
}

/// Audits a snapshot of the table whose metadata these are the bytes of: reads each of its manifests, also those that
/// no filter wants, writes a line for each finding and then their numbers, and gives the number of findings that are
/// faults (`Flaw::is_fault`). So many workers read the manifests at once, each a range of them in a thread of its own
/// where one can be started; no more than there are manifests, and 0 counts as 1. The text and the refusal are the same
/// for every number of workers.
///
/// Where there is no fault, the summaries of all manifests tell the truth: the premise under which `run_plan` writes, for
/// any filter, the plan over all manifests of the snapshot.
///
/// The refusal is `Metadata` with the first fault of the bytes, or where there is no such snapshot; then, of reading
/// the manifest list and after it the manifests in the order of their paths, `Absent` for the first that is not there
/// and `Device` for the first that can't be read; between them `List` and `Scan` where the list is at fault, and
/// `Finish` for the first manifest at fault. Then nothing was written, and neither after `Memory`. After `Write`, for
/// which a write failed, a front of the text was.
pub fn run_audit<R: Threads + Sync, F: Files + Sync, W: Sink>(
    rt: &R,
    alloc: Global,
    files: &F,
    metadata: &[u8],
    target: &Target,
    workers: usize,
    output: &mut W,
) -> Result<usize, RunFault>
    // Over files that tell their world.
    ensures written { (world : World) → F.world files.now ≡ Some world →
        IfOk result (λ count. WroteAudit (audit_of world metadata.now target.now) count (W.taken output.old)
        (W.taken output.new)) }
    ensures truth { (world : World) → F.world files.now ≡ Some world →
        IfOk result (λ count. count ≡ 0 → HasTrueSummaries world metadata.now target.now) }
    ensures refused { (world : World) → F.world files.now ≡ Some world →
        IfErr result (MayEnd (audit_of world metadata.now target.now)
        (EndsAt world (F.may_fail files.now) (audit_reads world metadata.now target.now)) (W.may_fail output.old)) }
    ensures front { (world : World) → F.world files.now ≡ Some world → IsErrOf result RunFault.Write →
        WroteAuditFront (audit_of world metadata.now target.now) (W.taken output.old) (W.taken output.new) }

    // Over all files.
    ensures nothing { IfErr result (λ fault. fault ≢ RunFault.Write → W.taken output.new ≡ W.taken output.old) }
    ensures text { WritesAnAudit (F.gives files.now) metadata.now target.now result (W.taken output.old)
        (W.taken output.new) }
    ensures refusal { IfErr result (MayStop (F.world files.now) (F.may_fail files.now) (W.may_fail output.old)) }
{
    audits_tell_of_summaries();
    let audit = audit_table(rt, alloc, files, metadata, target, workers)?;
    let end = end_of(alloc, &audit)?;
    let mut page = Page::new(alloc)?;
    write_audit(&mut page, output, &audit, &end)?;
    Ok(count_faults(audit.findings.as_slice()))
}

/// Audits a snapshot of the table whose metadata is in the file at a path, and gives the number of findings that are
/// faults, by so many workers.
///
/// The refusal is `Workers` where there are to be none, or more than 64; it comes before all others, and nothing is read.
/// Then it is `Absent` where there is no such file, `Device` where reading it failed, else as `run_audit`'s.
pub fn audit_file<R: Threads + Sync, F: Files + Sync, W: Sink>(
    rt: &R,
    alloc: Global,
    files: &F,
    path: &str,
    target: &Target,
    workers: usize,
    output: &mut W,
) -> Result<usize, RunFault>
    ensures workers { (workers ≡ 0) ⊎ (64 < workers) → IsErrOf result RunFault.Workers }

    // Over files that tell their world.
    ensures written { (world : World) → F.world files.now ≡ Some world →
        IfOk result (λ count. WroteAudit (audit_at world path.now target.now workers) count (W.taken output.old)
        (W.taken output.new)) }
    ensures truth { (world : World) → F.world files.now ≡ Some world →
        IfOk result (λ count. count ≡ 0 → HasTrueSummariesAt world path.now target.now) }
    ensures refused { (world : World) → F.world files.now ≡ Some world →
        IfErr result (MayEnd (audit_at world path.now target.now workers)
        (EndsAt world (F.may_fail files.now) (audit_reads_at world path.now target.now)) (W.may_fail output.old)) }
    ensures front { (world : World) → F.world files.now ≡ Some world → IsErrOf result RunFault.Write →
        WroteAuditFront (audit_at world path.now target.now workers) (W.taken output.old) (W.taken output.new) }

    // Over all files.
    ensures nothing { IfErr result (λ fault. fault ≢ RunFault.Write → W.taken output.new ≡ W.taken output.old) }
    ensures text { (metadata : List ℕ) ×
        WritesAnAudit (F.gives files.now) metadata target.now result (W.taken output.old) (W.taken output.new) }
    // And a read gave that metadata.
    ensures given { IfOk result (λ count. (metadata : List ℕ) × F.gives files.now path.now (Some metadata)
        × WroteAnAudit (F.gives files.now) metadata target.now count (W.taken output.old) (W.taken output.new)) }
    ensures refusal { IfErr result (MayStop (F.world files.now) (F.may_fail files.now) (W.may_fail output.old)) }
{
    let workers = Workers::of(workers)?;
    let metadata = read_file(alloc, files, path)?;
    run_audit(rt, alloc, files, &metadata, target, workers.count(), output)
}
