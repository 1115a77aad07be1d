//! Audits that are asked for as lines of JSON, over any files.

ghost use Rattle.std.specs.Prelude.{◌≡◌, ◌≢◌, ◌⊎◌, ◌<◌, ℕ, List, Some, Ok, IfOk, IfErr, IsErrOf};
ghost use Rattle.icescan_audit.specs.AnyFiles.{IsAnAudit, MayStop};
ghost use Rattle.icescan_audit.specs.Audits.{audit_at, audit_reads_at};
ghost use Rattle.icescan_audit.specs.JsonLines.{WroteAnAuditAs, WroteAuditAs, WroteAuditFrontAs};
ghost use Rattle.icescan_forms.specs.declared.format.Format.TheVariants as format;
ghost use Rattle.ice_desk.specs.Worlds.{EndsAt};
ghost use Rattle.ice_state.specs.Contents.{World};
ghost use Rattle.icescan_text.specs.Reads.{MayEnd};

use crate::audit::Audit;
use crate::json_lines::write_audit_objects;
use crate::running::audit_table;
use ice_desk::Files;
use ice_meta::Target;
use icescan_audit_findings::count_faults;
use icescan_print::Sink;
use icescan_text::{RunFault, Workers, read_file};
use std::alloc::Global;
use std::thread::Threads;

/// What the audit of a snapshot finds, of the table whose metadata is in the file at a path, by so many workers.
fn audit_at<R: Threads + Sync, F: Files + Sync>(
    rt: &R,
    alloc: Global,
    files: &F,
    path: &str,
    target: &Target,
    workers: usize,
) -> Result<Audit, RunFault>
    ensures workers { (workers ≡ 0) ⊎ (64 < workers) → IsErrOf result RunFault.Workers }
    ensures found { (world : World) → F.world files.now ≡ Some world →
        IfOk result (λ audit. audit_at world path.now target.now workers ≡ Ok audit) }
    ensures refused { (world : World) → F.world files.now ≡ Some world →
        IfErr result (MayEnd (audit_at world path.now target.now workers)
        (EndsAt world (F.may_fail files.now) (audit_reads_at world path.now target.now)) ⊥) }
    ensures write { IsErrOf result RunFault.Write → ⊥ }
    ensures given { IfOk result (λ audit. (metadata : List ℕ) × F.gives files.now path.now (Some metadata)
        × IsAnAudit (F.gives files.now) metadata target.now audit) }
    ensures stops { IfErr result (MayStop (F.world files.now) (F.may_fail files.now) ⊥) }
{
    let workers = Workers::of(workers)?;
    let metadata = read_file(alloc, files, path)?;
    audit_table(rt, alloc, files, &metadata, target, workers.count())
}

/// Audits a snapshot as `audit_file` does, and writes the findings and their numbers as lines of JSON, an object each.
/// The refusals are those of `audit_file`.
pub fn audit_file_json<R: Threads + Sync, F: Files + Sync, W: Sink>(
    rt: &R,
    alloc: Global,
    files: &F,
    path: &str,
    target: &Target,
    workers: usize,
    output: &mut W,
) -> Result<usize, RunFault>
    ensures workers { (workers ≡ 0) ⊎ (64 < workers) → IsErrOf result RunFault.Workers }

    // Over files that tell their world.
    ensures written { (world : World) → F.world files.now ≡ Some world →
        IfOk result (λ count. WroteAuditAs format.Json (audit_at world path.now target.now workers) count
        (W.taken output.old) (W.taken output.new)) }
    ensures refused { (world : World) → F.world files.now ≡ Some world →
        IfErr result (MayEnd (audit_at world path.now target.now workers)
        (EndsAt world (F.may_fail files.now) (audit_reads_at world path.now target.now)) (W.may_fail output.old)) }
    ensures front { (world : World) → F.world files.now ≡ Some world → IsErrOf result RunFault.Write →
        WroteAuditFrontAs format.Json (audit_at world path.now target.now workers) (W.taken output.old)
        (W.taken output.new) }

    // Over all files.
    ensures nothing { IfErr result (λ fault. fault ≢ RunFault.Write → W.taken output.new ≡ W.taken output.old) }
    // What is written is an audit of bytes that reads gave.
    ensures given { IfOk result (λ count. (metadata : List ℕ) × F.gives files.now path.now (Some metadata)
        × WroteAnAuditAs format.Json (F.gives files.now) metadata target.now count (W.taken output.old)
        (W.taken output.new)) }
    ensures refusal { IfErr result (MayStop (F.world files.now) (F.may_fail files.now) (W.may_fail output.old)) }
{
    let audit = audit_at(rt, alloc, files, path, target, workers)?;
    write_audit_objects(alloc, &audit, output)?;
    Ok(count_faults(audit.findings.as_slice()))
}
