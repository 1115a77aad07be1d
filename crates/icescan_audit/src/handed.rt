//! Audits whose files are handed in, one after the other, by who reads them.

ghost use Rattle.std.specs.Prelude.{◌≡◌, ◌≤◌, ◌<◌, ◌+◌, ◌*◌, ◌^◌, length, IfOk, Some};
ghost use Rattle.contract_words.specs.Outcome.{Gives};
ghost use Rattle.icescan_audit.specs.Handed.{all_handed, opened, read_on, read_row, told_in, took};
ghost use Rattle.icescan_audit.specs.JsonLines.{audit_objects};

use crate::audit::{Audit, Reading};
use crate::json_lines::write_audit_objects;
use crate::manifests::{audit_bytes, check_specs, spec_for};
use crate::subject::Subject;
use contract_words::Items;
use ice_manifest_reading::{Row, read_list};
use ice_state::FinishFault;
use icescan_audit_findings::{Basis, SaidTotal};
use icescan_text::RunFault;
use std::alloc::{AllocError, Global};
use std::marker::Model;

/// An audit whose manifests are handed in, in the order of its rows.
#[derive(Drop)]
pub struct HandedAudit {
    basis: Basis,
    said: Items<SaidTotal>,
    rows: Items<Row>,
    read: Reading,
}

impl Model for HandedAudit {
    ghost use Rattle.std.specs.Prelude.{◌≤◌, ◌*◌, ◌^◌, length};
    ghost use Rattle.icescan_audit.specs.Handed.{Handed};

    ghost Value = { Handed };

    ghost view = { λ a. record { basis = a.basis; said = a.said; rows = a.rows; read = a.read } };

    ghost invariant = { λ a. (a.read.manifests ≤ length a.rows) × (a.read.entries ≤ a.read.manifests * 2 ^ 64) };
}

/// What was read before and of the manifest of a row, which has these bytes. The refusal is `Finish` where that can't
/// be read, or `Memory`.
#[tactic(auto, using(crate::proofs::NextManifest::no_spec))]
fn read_row(
    alloc: Global,
    basis: &Basis,
    row: &Row,
    before: Reading,
    manifest: &[u8],
) -> Result<Reading, RunFault>
    requires manifests { before.manifests + 1 < 2 ^ 64 }
    requires entries { before.entries ≤ before.manifests * 2 ^ 64 }
    ensures gives { Gives RunFault.Memory (λ read. read) result
        (read_row basis.now (Some row.now) before manifest.now) }
    ensures counted { IfOk result (λ read. read.manifests ≡ before.manifests + 1) }
    ensures few { IfOk result (λ read. read.entries ≤ read.manifests * 2 ^ 64) }
{
    let spec = spec_for(basis.specs.as_slice(), row)?;
    let Reading {
        manifests,
        entries,
        mut findings,
        live,
    } = before;
    let mut live = live.into_vec();
    let number = audit_bytes(alloc, basis, row, spec, manifest, &mut findings, &mut live)?;
    Ok(Reading {
        manifests: manifests + 1,
        entries: entries + number as u128,
        findings,
        live: Items::from_vec(live),
    })
}

/// The same of the next row; what was read before where there is none.
#[tactic(auto, unfolding(crate::specs::Handed::read_on))]
fn read_on(
    alloc: Global,
    basis: &Basis,
    rows: &[Row],
    before: Reading,
    manifest: &[u8],
) -> Result<Reading, RunFault>
    requires rows { before.manifests ≤ length rows.now }
    requires few { before.entries ≤ before.manifests * 2 ^ 64 }
    ensures gives { Gives RunFault.Memory (λ read. read) result (read_on basis.now rows.now before manifest.now) }
    ensures manifests { IfOk result (λ read. read.manifests ≤ length rows.now) }
    ensures entries { IfOk result (λ read. read.entries ≤ read.manifests * 2 ^ 64) }
{
    match rows.get(before.manifests) {
        Some(row) => read_row(alloc, basis, row, before, manifest),
        None => Ok(before),
    }
}

/// Stops where the manifest of a row is not handed in, after so many that are.
fn all_handed(alloc: Global, rows: &[Row], handed: usize) -> Result<(), RunFault>
    ensures { Gives RunFault.Memory (λ all. all) result (all_handed rows.now handed) }
{
    match rows.get(handed) {
        Some(row) => Err(RunFault::Finish(FinishFault::Missing(row.path.copy(alloc)?))),
        None => Ok(()),
    }
}

/// An audit as lines of JSON.
fn audit_json(alloc: Global, audit: &Audit) -> Result<Items<u8>, AllocError>
    ensures { IfOk result (λ text. text ≡ audit_objects audit.now) }
{
    let mut text = Vec::new(alloc);
    match write_audit_objects(alloc, audit, &mut text) {
        Ok(()) => Ok(Items::from_vec(text)),
        Err(fault) => {
            drop(fault);
            Err(AllocError)
        }
    }
}

impl HandedAudit {
    /// The audit of a snapshot whose manifest list these are the bytes of. The refusal is `List` or `Scan` where the
    /// list is at fault; or `Memory`.
    #[tactic(auto, unfolding(crate::specs::Handed::opened))]
    pub fn open(alloc: Global, subject: Subject, list: &[u8]) -> Result<HandedAudit, RunFault>
        ensures { Gives RunFault.Memory (λ audit. audit) result (opened subject list.now) }
    {
        let rows = read_list(alloc, list)?;
        let Subject {
            list: _,
            basis,
            said,
        } = subject;
        check_specs(basis.specs.as_slice(), &rows)?;
        Ok(HandedAudit {
            basis: basis.among(&rows),
            said,
            rows: Items::from_vec(rows),
            read: Reading {
                manifests: 0,
                entries: 0,
                findings: Items::new(alloc),
                live: Items::new(alloc),
            },
        })
    }

    /// The rows of its manifest list, in the order in which their manifests are handed in.
    pub fn rows(&self) -> &[Row]
        ensures { result.now ≡ self.now.rows }
    {
        self.rows.as_slice()
    }

    /// How many manifests were handed in.
    pub fn handed(&self) -> usize
        ensures { result ≡ self.now.read.manifests }
    {
        self.read.manifests
    }

    /// The audit with the next manifest, which has these bytes; itself where all were handed in. The refusal is
    /// `Finish` where the manifest can't be read; or `Memory`.
    #[tactic(auto, unfolding(crate::specs::Handed::took))]
    pub fn take(self, alloc: Global, manifest: &[u8]) -> Result<HandedAudit, RunFault>
        ensures { Gives RunFault.Memory (λ audit. audit) result (took self manifest.now) }
    {
        let read = self.read;
        let read = read_on(alloc, &self.basis, self.rows.as_slice(), read, manifest)?;
        Ok(HandedAudit { read, ..self })
    }

    /// What was found, as lines of JSON. The refusal is `Finish` where a manifest was not handed in; or `Memory`.
    #[tactic(auto, unfolding(crate::specs::Handed::told_in))]
    pub fn into_json(self, alloc: Global) -> Result<Items<u8>, RunFault>
        ensures { Gives RunFault.Memory (λ text. text) result (told_in self) }
    {
        all_handed(alloc, self.rows.as_slice(), self.read.manifests)?;
        let HandedAudit { said, read, .. } = self;
        let audit = read.whole(alloc, said.as_slice())?;
        Ok(audit_json(alloc, &audit)?)
    }
}
