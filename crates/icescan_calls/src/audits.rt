//! Calls about audits.

ghost use Rattle.std.specs.Prelude.{◌≡◌, ◌∷◌, [], IfOk, List, Ok, ℕ};
ghost use Rattle.icescan_audit_findings.specs.Repeats.{live_files};
ghost use Rattle.ice_manifest_reading.specs.Manifests.{live_of};
ghost use Rattle.ice_manifest_reading.specs.declared.entry.Live.{Live};
ghost use Rattle.ice_manifest_reading.specs.Tallying.{tallies_of};
ghost use Rattle.icescan_audit_findings.specs.Dangling.{delete_findings};
ghost use Rattle.icescan_audit_findings.specs.Findings.{manifest_findings};
ghost use Rattle.icescan_audit_findings.specs.RowFlaws.{row_findings};
ghost use Rattle.icescan_audit_findings.specs.Totals.{false_totals};
ghost use Rattle.icescan_audit.specs.AnyFiles.{WritesAnAudit};
ghost use Rattle.icescan_audit_all.specs.Texts.{all_text};

use contract_words::Items;
use ice_desk::Files;
use ice_manifest_reading::{ManifestFault, Row};
use ice_meta::{Spec, Target};
use icescan_audit_all::SnapshotAudit;
use icescan_audit_findings::{Basis, FalseTotal, Finding, LiveFile, SaidTotal};
use icescan_forms::Format;
use icescan_print::Sink;
use icescan_text::RunFault;
use std::alloc::{AllocError, Global};
use std::thread::Threads;

/// The live files of a manifest.
pub fn live_files(
    alloc: Global,
    basis: &Basis,
    row: &Row,
    spec: &Spec,
    bytes: &[u8],
) -> Result<Vec<LiveFile>, ManifestFault>
    ensures { IfOk result (λ files. (lives : List Live) × (live_of row.now spec.now bytes.now ≡ Ok lives)
        × (files.items ≡ live_files basis.now row.now lives)) }
{
    let mut files = Vec::new(alloc);
    let mut findings = Items::new(alloc);
    let _number = icescan_audit_findings::audit_manifest(
        alloc,
        basis,
        row,
        spec,
        bytes,
        &mut findings,
        &mut files,
    )?;
    Ok(files)
}

/// The findings on a row's manifest and on its live entries.
pub fn manifest_findings(
    alloc: Global,
    basis: Basis,
    row: Row,
    spec: &Spec,
    bytes: &[u8],
) -> Result<Items<Finding>, ManifestFault>
    ensures { IfOk result (λ findings. (lives : List Live) × (live_of row spec.now bytes.now ≡ Ok lives)
        × (findings ≡ manifest_findings basis row spec.now (tallies_of bytes.now) lives)) }
{
    let mut files = Vec::new(alloc);
    let mut findings = Items::new(alloc);
    let _number = icescan_audit_findings::audit_manifest(
        alloc,
        &basis,
        &row,
        spec,
        bytes,
        &mut findings,
        &mut files,
    )?;
    Ok(findings)
}

/// The findings on what a row says of its manifest, which has these bytes.
pub fn row_findings(
    alloc: Global,
    basis: &Basis,
    row: &Row,
    bytes: &[u8],
) -> Result<Items<Finding>, AllocError>
    ensures { IfOk result (λ findings. findings ≡ row_findings basis.now row.now bytes.now) }
{
    let mut findings = Items::new(alloc);
    icescan_audit_findings::push_row_findings(alloc, &mut findings, basis, row, bytes)?;
    Ok(findings)
}

/// The findings on delete files that name no live data file, and on those that apply to none.
pub fn delete_findings(alloc: Global, files: &[LiveFile]) -> Result<Items<Finding>, AllocError>
    ensures { IfOk result (λ findings. findings ≡ delete_findings files.now) }
{
    let mut findings = Items::new(alloc);
    icescan_audit_findings::push_delete_findings(alloc, &mut findings, files)?;
    Ok(findings)
}

/// A total of a snapshot's summary, where its live files do not come to it.
pub fn false_total(
    alloc: Global,
    said: SaidTotal,
    files: &[LiveFile],
) -> Result<Items<FalseTotal>, AllocError>
    ensures { IfOk result (λ found. found ≡ false_totals files.now (said ∷ [])) }
{
    icescan_audit_findings::false_totals(alloc, &[said], files)
}

/// Audits a snapshot of the table whose metadata is in the file at a path, by one worker.
pub fn audit_by_one<R: Threads + Sync, F: Files + Sync, W: Sink>(
    rt: &R,
    alloc: Global,
    files: &F,
    path: &str,
    target: &Target,
    output: &mut W,
) -> Result<usize, RunFault>
    ensures { (metadata : List ℕ) ×
        WritesAnAudit (F.gives files.now) metadata target.now result (W.taken output.old) (W.taken output.new) }
{
    icescan_audit::audit_file(rt, alloc, files, path, target, 1, output)
}

/// The text of the audits of all snapshots.
pub fn audits_text(
    alloc: Global,
    form: Format,
    audits: &[SnapshotAudit],
) -> Result<Vec<u8>, AllocError>
    ensures { IfOk result (λ text. text.items ≡ all_text form audits.now) }
{
    let (text, _faults) = icescan_audit_all::audits_text(alloc, form, audits)?;
    Ok(text)
}
