//! The findings on one manifest.

ghost use Rattle.std.specs.Prelude.{◌≡◌, ◌≢◌, ◌++◌, Err, IfErr, IfOk, List, Ok, OnOk, length, map};
ghost use Rattle.std.specs.List.{flat_map};
ghost use Rattle.icescan_audit_findings.specs.Examining.{file_at, finding_at, findings_on};
ghost use Rattle.icescan_audit_findings.specs.Findings.{manifest_finding, manifest_findings};
ghost use Rattle.icescan_audit_findings.specs.Repeats.{live_files};
ghost use Rattle.ice_manifest_reading.specs.Manifests.{live_of};
ghost use Rattle.ice_manifest_reading.specs.Tallying.{tallies_of};
ghost use Rattle.ice_manifest_reading.specs.declared.entry.Live.{Live};

use crate::basis::Basis;
use crate::counts::count_flaws;
use crate::examined::{Examined, examine};
use crate::finding::{Finding, Flaw};
use crate::repeats::LiveFile;
use crate::spelling::odd_spelling;
use contract_words::{Items, Text};
use ice_manifest_reading::{ManifestFault, Row};
use ice_meta::Spec;
use shared_value::Shared;
use std::alloc::{AllocError, Global};

/// Puts the flaws of a file last, each as a finding.
fn push_file_flaws(
    findings: &mut Items<Finding>,
    row: &Row,
    manifest: &Shared<Text>,
    file: &Shared<Items<u8>>,
    flaws: Vec<Flaw>,
) -> Result<(), AllocError>
    requires { manifest.now ≡ row.now.path }
    ensures { OnOk result (findings.new ≡ findings.old ++ map (finding_at row.now file.now) flaws.items) }
{
    'flaws: for flaw in flaws {
        findings.push(Finding {
            manifest: manifest.share()?,
            file: Some(file.share()?),
            flaw,
        })?;
    }
    Ok(())
}

/// Puts the flaws of an entry last, each as a finding. The path is copied only where there are flaws.
fn push_flaws(
    alloc: Global,
    findings: &mut Items<Finding>,
    row: &Row,
    manifest: &Shared<Text>,
    path: &[u8],
    flaws: Vec<Flaw>,
) -> Result<(), AllocError>
    requires { manifest.now ≡ row.now.path }
    ensures { OnOk result (findings.new ≡ findings.old ++ map (finding_at row.now path.now) flaws.items) }
{
    if flaws.is_empty() {
        return Ok(());
    }
    let file = Shared::new(alloc, Items::from_vec(path.to_vec(alloc)?))?;
    push_file_flaws(findings, row, manifest, &file, flaws)
}

/// Puts the flaws of a row's manifest last, each as a finding.
fn push_manifest_flaws(
    findings: &mut Items<Finding>,
    row: &Row,
    manifest: &Shared<Text>,
    flaws: Vec<Flaw>,
) -> Result<(), AllocError>
    requires { manifest.now ≡ row.now.path }
    ensures { OnOk result (findings.new ≡ findings.old ++ map (manifest_finding row.now) flaws.items) }
{
    'flaws: for flaw in flaws {
        findings.push(Finding {
            manifest: manifest.share()?,
            file: None,
            flaw,
        })?;
    }
    Ok(())
}

/// Puts the findings on the live entries of a row's manifest last, entry by entry, and their files.
fn push_entries(
    alloc: Global,
    findings: &mut Items<Finding>,
    files: &mut Vec<LiveFile>,
    row: &Row,
    manifest: &Shared<Text>,
    entries: Vec<Examined>,
) -> Result<(), AllocError>
    requires { manifest.now ≡ row.now.path }
    ensures findings { OnOk result (findings.new ≡ findings.old ++ flat_map (findings_on row.now) entries.items) }
    ensures files { OnOk result (files.new.items ≡ files.old.items ++ map (file_at row.now) entries.items) }
{
    'entries: for entry in entries {
        let Examined {
            path,
            content,
            record_count,
            file_size,
            flaws,
            key,
            ..
        } = entry;
        push_flaws(
            alloc,
            findings,
            row,
            manifest,
            path.as_slice(),
            flaws.into_vec(),
        )?;
        let spelling = odd_spelling(alloc, path.as_slice())?;
        files.push(LiveFile {
            path,
            spelling,
            manifest: manifest.share()?,
            content,
            record_count,
            file_size,
            key,
        })?;
    }
    Ok(())
}

/// Reads a row's manifest, puts the findings on it and the files of its live entries last, and gives the number of
/// these.
///
/// The findings are the counts of the list that its entries do not bear out, in the order of `Count`, then those on its
/// live entries in the order of their positions. Of an entry come first the fields whose summary does not cover it, in
/// the order of the spec, then that its number is below the manifest's least, that it is above the table's last, and the
/// columns that the schema lacks, in the order of the file's ids; then, column by column of the schema, that its lower
/// bound is above its upper one, and that it has more nulls than values.
///
/// The fault is that of reading the manifest, or `Memory`; then some findings and files may have been put.
pub fn audit_manifest(
    alloc: Global,
    basis: &Basis,
    row: &Row,
    spec: &Spec,
    bytes: &[u8],
    findings: &mut Items<Finding>,
    files: &mut Vec<LiveFile>,
) -> Result<usize, ManifestFault>
    ensures found { IfOk result (λ number. (lives : List Live) × (live_of row.now spec.now bytes.now ≡ Ok lives)
        × (number ≡ length lives)
        × (findings.new ≡ findings.old ++ manifest_findings basis.now row.now spec.now (tallies_of bytes.now) lives)
        × (files.new.items ≡ files.old.items ++ live_files basis.now row.now lives)) }
    ensures refused { IfErr result (λ fault. fault ≢ ManifestFault.Memory →
        live_of row.now spec.now bytes.now ≡ Err fault) }
{
    let examined = examine(alloc, basis, row, spec, bytes)?;
    let number = examined.told.len();
    let counted = count_flaws(alloc, row, &examined.tallies)?;
    let manifest = Shared::new(alloc, row.path.copy(alloc)?)?;
    push_manifest_flaws(findings, row, &manifest, counted)?;
    push_entries(alloc, findings, files, row, &manifest, examined.told)?;
    Ok(number)
}
