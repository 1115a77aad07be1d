//! The live entries of a row's manifest.

ghost use Rattle.std.specs.Prelude.{◌≡◌, ◌≢◌, ◌⊎◌, ◌++◌, List, Ok, Err, IfOk, IfErr, IsErrOf, length};
ghost use Rattle.std.specs.Option.{option_copied};
ghost use Rattle.icescan_audit_findings.specs.Repeats.{live_files};
ghost use Rattle.icescan_audit.specs.Audits.{all_known, bytes_findings, of_manifest, spec_for as spec_wanted};
ghost use Rattle.ice_manifest_reading.specs.Manifests.{live_of};
ghost use Rattle.ice_manifest_reading.specs.declared.entry.Live.{Live};
ghost use Rattle.ice_state.specs.Specs.{spec_of};
ghost use Rattle.icescan_text.specs.Reads.{MayEnd, as_run};

use contract_words::Items;
use ice_manifest_reading::{ManifestFault, Row};
use ice_meta::Spec;
use ice_state::{FinishFault, ScanFault};
use icescan_audit_findings::{Basis, Finding, LiveFile, audit_manifest, push_row_findings};
use icescan_text::RunFault;
use std::alloc::Global;

fn spec_of(specs: &[Spec], id: i32) -> Option<&Spec>
    ensures { option_copied result ≡ spec_of specs.now id }
{
    specs.iter().find(|spec| spec.id == id)
}

/// The spec of a row.
pub fn spec_for<'a>(specs: &'a [Spec], row: &Row) -> Result<&'a Spec, RunFault>
    ensures ok { IfOk result (λ spec. spec_wanted specs.now row.now ≡ Ok spec.now) }
    ensures err { IfErr result (λ e. spec_wanted specs.now row.now ≡ Err e) }
    ensures write { IsErrOf result RunFault.Write → ⊥ }
{
    match spec_of(specs, row.spec_id) {
        Some(spec) => Ok(spec),
        None => Err(RunFault::Scan(ScanFault::NoSuchSpec(row.spec_id))),
    }
}

/// Stops at the first row whose spec is missing.
pub fn check_specs(specs: &[Spec], rows: &[Row]) -> Result<(), RunFault>
    ensures known { result ≡ all_known specs.now rows.now }
    ensures write { IsErrOf result RunFault.Write → ⊥ }
{
    'rows: for row in rows {
        spec_for(specs, row)?;
    }
    Ok(())
}

/// Why the manifest of a row can't be read; or that memory ran out.
fn refusal(alloc: Global, row: &Row, fault: ManifestFault) -> RunFault
    ensures cause { (result ≡ RunFault.Memory) ⊎ (result ≡ of_manifest row.now.path fault) }
    ensures write { result ≢ RunFault.Write }
{
    if let ManifestFault::Memory = fault {
        return RunFault::Memory;
    }
    match row.path.copy(alloc) {
        Ok(path) => RunFault::Finish(FinishFault::Bad(path, fault)),
        Err(_) => RunFault::Memory,
    }
}

/// Puts the findings on the manifest of a row and its spec and the files of its live entries last, and gives the number
/// of these.
pub fn audit_bytes(
    alloc: Global,
    basis: &Basis,
    row: &Row,
    spec: &Spec,
    bytes: &[u8],
    findings: &mut Items<Finding>,
    live: &mut Vec<LiveFile>,
) -> Result<usize, RunFault>
    ensures found { IfOk result (λ number. (lives : List Live) × (live_of row.now spec.now bytes.now ≡ Ok lives)
        × (number ≡ length lives)
        × (findings.new ≡ findings.old ++ bytes_findings basis.now row.now spec.now bytes.now lives)
        × (live.new.items ≡ live.old.items ++ live_files basis.now row.now lives)) }
    ensures refused { IfErr result (MayEnd (as_run (of_manifest row.now.path) (live_of row.now spec.now bytes.now))
        (λ _. ⊥) ⊥) }
    ensures write { IsErrOf result RunFault.Write → ⊥ }
{
    push_row_findings(alloc, findings, basis, row, bytes)?;
    match audit_manifest(alloc, basis, row, spec, bytes, findings, live) {
        Ok(number) => Ok(number),
        Err(fault) => Err(refusal(alloc, row, fault)),
    }
}
