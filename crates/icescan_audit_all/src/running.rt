//! Audits of all snapshots that are asked for, over any files.

ghost use Rattle.std.specs.Prelude.{◌≡◌, ◌≢◌, ◌⊎◌, ◌<◌, List, ℕ, Some, Ok, IfOk, IfErr, IsErrOf, None};
ghost use Rattle.std.specs.List.{All};
ghost use Rattle.ice_meta.specs.Targets.{described};
ghost use Rattle.icescan_audit.specs.AnyFiles.{MayStop};
ghost use Rattle.icescan_audit_all.specs.Snapshots.{AreAllFound, AreAudits, IsKept};
ghost use Rattle.icescan_audit_all.specs.Texts.{WroteAuditsAt, all_text};
ghost use Rattle.icescan_audit_all.specs.Lines.{number_of_faults, told_lines};

use crate::audits::{SnapshotAudit, audit_each};
use crate::filling::fill;
use crate::kept::Kept;
use crate::lines::all_lines;
use crate::listed::{Listed, list_snapshots};
use crate::manifests::number_of_manifests;
use crate::orders::sort_lines;
use crate::wanted::{classes_of, wants_of};
use crate::writing::text_of;
use ice_desk::Files;
use ice_meta::Metadata;
use icescan_forms::Format;
use icescan_print::{Sink, write_all};
use icescan_text::{RunFault, Workers, read_file};
use std::alloc::{AllocError, Global};

/// What is read of the manifests of all these snapshots.
fn read_manifests<F: Files>(
    alloc: Global,
    files: &F,
    metadata: &Metadata,
    listed: &[Listed],
) -> Result<Vec<Kept>, RunFault>
    ensures kept { IfOk result (λ kept. All (IsKept (F.gives files.now)
        (described metadata.now.json metadata.now.table)) kept.items) }
    ensures stops { IfErr result (MayStop (F.world files.now) (F.may_fail files.now) ⊥) }
{
    let classes = classes_of(alloc, metadata, listed)?;
    let wants = wants_of(alloc, &classes, listed)?;
    fill(alloc, files, &classes, &wants)
}

/// What is found of each snapshot of a table.
fn audits_in<F: Files>(
    alloc: Global,
    files: &F,
    metadata: &Metadata,
) -> Result<Vec<SnapshotAudit>, RunFault>
    ensures found { IfOk result (λ audits. AreAllFound (F.gives files.now)
        (described metadata.now.json metadata.now.table) audits.items) }
    ensures stops { IfErr result (MayStop (F.world files.now) (F.may_fail files.now) ⊥) }
{
    let listed = list_snapshots(alloc, files, metadata)?;
    let lent = listed.as_slice();
    let kept = read_manifests(alloc, files, metadata, lent)?;
    let known = kept.as_slice();
    let audits = audit_each(alloc, files, metadata, known, lent)?;
    Ok(audits)
}

/// What is found of each snapshot of the table whose metadata is in the file at a path.
fn audits_at<F: Files>(alloc: Global, files: &F, path: &str) -> Result<Vec<SnapshotAudit>, RunFault>
    ensures given { IfOk result (λ audits. (metadata : List ℕ) × F.gives files.now path.now (Some metadata)
        × AreAudits (F.gives files.now) metadata audits.items) }
    ensures stops { IfErr result (MayStop (F.world files.now) (F.may_fail files.now) ⊥) }
{
    let bytes = read_file(alloc, files, path)?;
    let metadata = Metadata::read(alloc, &bytes)?;
    let audits = audits_in(alloc, files, &metadata)?;
    Ok(audits)
}

/// The text of audits, in a form, and the number of different faults.
pub fn audits_text(
    alloc: Global,
    form: Format,
    audits: &[SnapshotAudit],
) -> Result<(Vec<u8>, usize), AllocError>
    ensures text { IfOk result (λ told. told.0.items ≡ all_text form audits.now) }
    ensures faults { IfOk result (λ told. told.1 ≡ number_of_faults None (told_lines form audits.now)) }
{
    let manifests = number_of_manifests(alloc, audits)?;
    let mut lines = all_lines(alloc, form, audits)?;
    sort_lines(&mut lines)?;
    text_of(alloc, form, audits.len(), manifests, &lines)
}

/// Writes the audits of all snapshots of the table whose metadata is in the file at a path.
fn write_audits<F: Files, W: Sink>(
    alloc: Global,
    files: &F,
    path: &str,
    form: Format,
    output: &mut W,
) -> Result<usize, RunFault>
    ensures nothing { IfErr result (λ fault. fault ≢ RunFault.Write → W.taken output.new ≡ W.taken output.old) }
    ensures given { IfOk result (λ count. WroteAuditsAt form (F.gives files.now) path.now count (W.taken output.old)
        (W.taken output.new)) }
    ensures refusal { IfErr result (MayStop (F.world files.now) (F.may_fail files.now) (W.may_fail output.old)) }
{
    let audits = audits_at(alloc, files, path)?;
    let lent = audits.as_slice();
    let (text, faults) = audits_text(alloc, form, lent)?;
    let bytes = text.as_slice();
    write_all(output, bytes)?;
    Ok(faults)
}

/// Audits all snapshots of the table whose metadata is in the file at a path, writes a line for each finding, with the
/// snapshots that it is about, and gives the number of findings that are faults. Each manifest is read once, however many
/// snapshots share it.
pub fn audit_all_file<F: Files, W: Sink>(
    alloc: Global,
    files: &F,
    path: &str,
    workers: usize,
    form: Format,
    output: &mut W,
) -> Result<usize, RunFault>
    ensures workers { (workers ≡ 0) ⊎ (64 < workers) → IsErrOf result RunFault.Workers }
    ensures nothing { IfErr result (λ fault. fault ≢ RunFault.Write → W.taken output.new ≡ W.taken output.old) }
    // What is written are audits of bytes that reads gave, one of each snapshot.
    ensures given { IfOk result (λ count. WroteAuditsAt form (F.gives files.now) path.now count (W.taken output.old)
        (W.taken output.new)) }
    ensures refusal { IfErr result (MayStop (F.world files.now) (F.may_fail files.now) (W.may_fail output.old)) }
{
    let _workers = Workers::of(workers)?;
    write_audits(alloc, files, path, form, output)
}
