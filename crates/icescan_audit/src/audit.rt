//! The audit of a manifest list's rows.

ghost use Rattle.std.specs.Prelude.{◌≡◌, ◌++◌, ◌∷◌, ◌+◌, ◌^◌, ◌<◌, ℕ, List, [], Some, Ok, IfOk, IfErr, IsErrOf};
ghost use Rattle.icescan_audit.specs.AnyFiles.{IsReadOfRow, MayStop};
ghost use Rattle.icescan_audit.specs.Audits.{joined, row_audit, whole};
ghost use Rattle.icescan_audit.specs.Readings.{ReadsRows};
ghost use Rattle.icescan_audit.specs.declared.audit.Reading.{Reading};
ghost use Rattle.ice_desk.specs.Worlds.{EndsAt};
ghost use Rattle.ice_state.specs.Contents.{World};
ghost use Rattle.icescan_text.specs.Reads.{MayEnd};

use crate::manifests::{audit_bytes, spec_for};
use contract_words::Items;
use ice_desk::Files;
use ice_manifest_reading::Row;
use icescan_audit_findings::{
    Basis, FalseTotal, Finding, LiveFile, SaidTotal, false_totals, push_delete_findings,
    push_delete_findings_by_workers, push_repeats, push_repeats_by_workers,
};
use icescan_text::{RunFault, read_file_into};
use std::alloc::{AllocError, Global};
use std::thread::Threads;

/// How many live files are worth a thread, at the least.
const WORTH: usize = 4096;

/// What was found of a snapshot.
#[derive(Debug, Drop)]
pub struct Audit {
    /// How many manifests were read.
    pub manifests: usize,
    /// How many live entries they have.
    pub entries: u128,
    /// What was found, manifest by manifest in the order of their paths, in each entry by entry; then, in the same
    /// order, the delete files that name no live data file and those that apply to none; and then, in the order of their
    /// paths, the files whose path another live file has.
    pub findings: Items<Finding>,
    /// The totals that the snapshot's summary says and that its live files do not come to. They are no faults: no plan
    /// goes by them.
    pub false_totals: Items<FalseTotal>,
}

/// What was read of some manifests.
#[derive(Debug, Drop)]
pub struct Reading {
    /// How many manifests there are.
    pub manifests: usize,
    /// How many live entries they have.
    pub entries: u128,
    /// What was found of each manifest.
    pub findings: Items<Finding>,
    /// The live files.
    pub live: Items<LiveFile>,
}

impl Reading {
    /// The audit that reads this of a snapshot whose summary says these totals, with what is found of all files together.
    pub fn whole(self, alloc: Global, said: &[SaidTotal]) -> Result<Audit, AllocError>
        ensures { IfOk result (λ audit. audit ≡ whole said.now self) }
    {
        let Reading {
            manifests,
            entries,
            mut findings,
            live,
        } = self;
        push_delete_findings(alloc, &mut findings, live.as_slice())?;
        let false_totals = false_totals(alloc, said, live.as_slice())?;
        push_repeats(alloc, &mut findings, live.into_vec())?;
        Ok(Audit {
            manifests,
            entries,
            findings,
            false_totals,
        })
    }

    /// The same, by so many workers at most.
    pub fn whole_by_workers<R: Threads + Sync>(
        self,
        rt: &R,
        alloc: Global,
        said: &[SaidTotal],
        workers: usize,
    ) -> Result<Audit, AllocError>
        ensures { IfOk result (λ audit. audit ≡ whole said.now self) }
    {
        let Reading {
            manifests,
            entries,
            mut findings,
            live,
        } = self;
        let workers = workers.min(live.as_slice().len() / WORTH);
        push_delete_findings_by_workers(rt, alloc, &mut findings, live.as_slice(), workers)?;
        let false_totals = false_totals(alloc, said, live.as_slice())?;
        push_repeats_by_workers(rt, alloc, &mut findings, live.into_vec(), workers)?;
        Ok(Audit {
            manifests,
            entries,
            findings,
            false_totals,
        })
    }

    /// What was read of these manifests and then of others.
    pub fn joined(self, others: Reading) -> Result<Reading, AllocError>
        requires manifests { self.manifests + others.manifests < 2 ^ 64 }
        requires entries { self.entries + others.entries < 2 ^ 128 }
        ensures { IfOk result (λ read. read ≡ joined self others) }
    {
        let mut findings = self.findings.into_vec();
        let mut more_findings = others.findings.into_vec();
        findings.append(&mut more_findings)?;
        let mut live = self.live.into_vec();
        let mut more_live = others.live.into_vec();
        live.append(&mut more_live)?;
        Ok(Reading {
            manifests: self.manifests + others.manifests,
            entries: self.entries + others.entries,
            findings: Items::from_vec(findings),
            live: Items::from_vec(live),
        })
    }
}

/// Puts the findings on a row's manifest and its live files last, and gives the number of its live entries. `bytes` is
/// the room that the manifest is read into.
pub fn audit_row<F: Files>(
    alloc: Global,
    files: &F,
    basis: &Basis,
    row: &Row,
    bytes: &mut Vec<u8>,
    findings: &mut Items<Finding>,
    live: &mut Vec<LiveFile>,
) -> Result<usize, RunFault>
    ensures found { (world : World) → F.world files.now ≡ Some world →
        IfOk result (λ entries. (read : Reading) × (row_audit world basis.now row.now ≡ Ok read)
        × (read.manifests ≡ 1) × (read.entries ≡ entries) × (findings.new ≡ findings.old ++ read.findings)
        × (live.new.items ≡ live.old.items ++ read.live)) }
    ensures refused { (world : World) → F.world files.now ≡ Some world →
        IfErr result (MayEnd (row_audit world basis.now row.now)
        (EndsAt world (F.may_fail files.now) (row.now.path ∷ [])) ⊥) }
    ensures write { IsErrOf result RunFault.Write → ⊥ }
    ensures read { IfOk result (λ entries. (read : Reading) × IsReadOfRow (F.gives files.now) basis.now row.now read
        × (read.manifests ≡ 1) × (read.entries ≡ entries) × (findings.new ≡ findings.old ++ read.findings)
        × (live.new.items ≡ live.old.items ++ read.live)) }
    ensures stops { IfErr result (MayStop (F.world files.now) (F.may_fail files.now) ⊥) }
{
    let spec = spec_for(basis.specs.as_slice(), row)?;
    read_file_into(alloc, files, row.path.as_str(), bytes)?;
    let entries = audit_bytes(alloc, basis, row, spec, bytes.as_slice(), findings, live)?;
    Ok(entries)
}

/// What is read of the manifests of these rows, one after the other: of each nothing is kept but what was found and the
/// live files. Each manifest is read into the room of the one before.
pub fn audit_rows<F: Files>(
    alloc: Global,
    files: &F,
    basis: &Basis,
    rows: &[Row],
) -> Result<Reading, RunFault>
    ensures { ReadsRows (F.world files.now) (F.may_fail files.now) (F.gives files.now) basis.now rows.now result }
{
    let mut findings = Items::new(alloc);
    let mut live = Vec::new(alloc);
    let mut bytes = Vec::new(alloc);
    let mut entries: u128 = 0;
    'rows: for row in rows {
        entries += audit_row(
            alloc,
            files,
            basis,
            row,
            &mut bytes,
            &mut findings,
            &mut live,
        )? as u128;
    }
    Ok(Reading {
        manifests: rows.len(),
        entries,
        findings,
        live: Items::from_vec(live),
    })
}
