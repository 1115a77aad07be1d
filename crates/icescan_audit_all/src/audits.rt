//! The audit of each snapshot, of what was read for all of them.

ghost use Rattle.std.specs.Prelude.{◌≡◌, ◌++◌, Ok, IfErr, IfOk, map};
ghost use Rattle.std.specs.List.{All};
ghost use Rattle.ice_meta.specs.Targets.{described};
ghost use Rattle.icescan_audit.specs.AnyFiles.{IsReadOf, IsReadOfRow, MayStop};
ghost use Rattle.icescan_audit.specs.declared.audit.Reading.{Reading};
ghost use Rattle.icescan_audit_all.specs.Snapshots.{IsAuditOf, IsFound, IsKept, IsKnown, IsListed};

use crate::copies::push_kept;
use crate::kept::{Kept, Known, known_of};
use crate::listed::Listed;
use contract_words::Items;
use ice_desk::Files;
use ice_manifest_reading::Row;
use ice_meta::{Metadata, Target};
use icescan_audit::{Audit, Basis, Finding, LiveFile, Reading, Subject, audit_row, subject_in};
use icescan_text::RunFault;
use shared_value::Shared;
use std::alloc::Global;

/// What was found of a snapshot.
#[derive(Debug, Drop)]
pub struct SnapshotAudit {
    /// The snapshot's id.
    pub snapshot: i64,
    pub audit: Audit,
    /// The rows of its manifest list.
    pub rows: Shared<Items<Shared<Row>>>,
}

/// Puts the findings on a row's manifest and its live files last, and gives the number of its live entries: what was read
/// of it for all snapshots. What is not there is read.
fn take_row<F: Files>(
    alloc: Global,
    files: &F,
    known: &Known<'_>,
    basis: &Basis,
    row: &Row,
    findings: &mut Items<Finding>,
    live: &mut Vec<LiveFile>,
) -> Result<usize, RunFault>
    requires { IsKnown (F.gives files.now) known.now basis.now }
    ensures read { IfOk result (λ entries. (read : Reading) × IsReadOfRow (F.gives files.now) basis.now row.now read
        × (read.manifests ≡ 1) × (read.entries ≡ entries) × (findings.new ≡ findings.old ++ read.findings)
        × (live.new.items ≡ live.old.items ++ read.live)) }
    ensures stops { IfErr result (MayStop (F.world files.now) (F.may_fail files.now) ⊥) }
{
    if let Some(kept) = known_of(known, basis, row) {
        push_kept(alloc, findings, live, kept)?;
        return Ok(kept.entries);
    }
    let mut bytes = Vec::new(alloc);
    audit_row(alloc, files, basis, row, &mut bytes, findings, live)
}

/// What is read of the manifests of these rows, one after the other.
fn take_rows<F: Files>(
    alloc: Global,
    files: &F,
    known: &Known<'_>,
    basis: &Basis,
    rows: &[Shared<Row>],
) -> Result<Reading, RunFault>
    requires { IsKnown (F.gives files.now) known.now basis.now }
    ensures read { IfOk result (IsReadOf (F.gives files.now) basis.now rows.now) }
    ensures stops { IfErr result (MayStop (F.world files.now) (F.may_fail files.now) ⊥) }
{
    let mut findings = Items::new(alloc);
    let mut live = Vec::new(alloc);
    let mut entries: u128 = 0;
    'rows: for shared in rows {
        let row = shared.get();
        entries += take_row(alloc, files, known, basis, row, &mut findings, &mut live)? as u128;
    }
    Ok(Reading {
        manifests: rows.len(),
        entries,
        findings,
        live: Items::from_vec(live),
    })
}

/// What is found of a snapshot.
fn audit_snapshot<F: Files>(
    alloc: Global,
    files: &F,
    metadata: &Metadata,
    kept: &[Kept],
    listed: &Listed,
) -> Result<Audit, RunFault>
    requires kept { All (IsKept (F.gives files.now) (described metadata.now.json metadata.now.table)) kept.now }
    requires listed { IsListed (F.gives files.now) (described metadata.now.json metadata.now.table) listed.now }
    ensures read { IfOk result (IsAuditOf (F.gives files.now) (described metadata.now.json metadata.now.table)
        listed.now.snapshot) }
    ensures stops { IfErr result (MayStop (F.world files.now) (F.may_fail files.now) ⊥) }
{
    let target = Target::Snapshot(listed.snapshot);
    let schema = metadata.schema_for(&target).id;
    let subject = subject_in(alloc, metadata, &target)?;
    let Subject { list, basis, said } = subject;
    drop(list);
    let basis = Basis {
        has_deletes: listed.has_deletes,
        ..basis
    };
    let known = Known { kept, schema };
    let read = take_rows(alloc, files, &known, &basis, listed.rows.get().as_slice())?;
    Ok(read.whole(alloc, said.as_slice())?)
}

/// What is found of each of these snapshots.
pub fn audit_each<F: Files>(
    alloc: Global,
    files: &F,
    metadata: &Metadata,
    kept: &[Kept],
    listed: &[Listed],
) -> Result<Vec<SnapshotAudit>, RunFault>
    requires kept { All (IsKept (F.gives files.now) (described metadata.now.json metadata.now.table)) kept.now }
    requires listed { All (IsListed (F.gives files.now) (described metadata.now.json metadata.now.table)) listed.now }
    ensures read { IfOk result (λ audits. All (IsFound (F.gives files.now)
        (described metadata.now.json metadata.now.table)) audits.items) }
    ensures each { IfOk result (λ audits. map (λ (a : SnapshotAudit). a.snapshot) audits.items
        ≡ map (λ (l : Listed). l.snapshot) listed.now) }
    ensures stops { IfErr result (MayStop (F.world files.now) (F.may_fail files.now) ⊥) }
{
    let mut audits = Vec::with_capacity(alloc, listed.len())?;
    'listed: for each in listed {
        let rows = each.rows.share()?;
        let audit = audit_snapshot(alloc, files, metadata, kept, each)?;
        audits.push(SnapshotAudit {
            snapshot: each.snapshot,
            audit,
            rows,
        })?;
    }
    Ok(audits)
}
