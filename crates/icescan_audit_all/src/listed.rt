//! The manifests of each snapshot of a table.

ghost use Rattle.std.specs.Prelude.{◌≡◌, true, IfErr, IfOk, map};
ghost use Rattle.std.specs.List.{All};
ghost use Rattle.ice_meta.specs.Targets.{described};
ghost use Rattle.ice_meta.specs.declared.snapshot.Snapshot.{Snapshot};
ghost use Rattle.ice_manifest_reading.specs.declared.row.Row.{Row};
ghost use Rattle.icescan_audit.specs.AnyFiles.{MayStop};
ghost use Rattle.icescan_audit.specs.declared.subject.Subject.{Subject};
ghost use Rattle.icescan_audit_all.specs.Snapshots.{IsListed, AreRowsOf};

use contract_words::Items;
use ice_desk::Files;
use ice_manifest_reading::Row;
use ice_meta::{Metadata, Snapshot, Target};
use icescan_audit::{Subject, check_specs, subject_in};
use icescan_text::{RunFault, read_rows};
use shared_value::Shared;
use std::alloc::{AllocError, Global};
use std::cmp::Ordering;

/// A snapshot, and the rows of its manifest list.
#[derive(Debug, Drop)]
pub struct Listed {
    /// The snapshot's id.
    pub snapshot: i64,
    /// The id of the schema that counts for it.
    pub schema: i32,
    /// Whether a manifest of the list has deletes.
    pub has_deletes: bool,
    /// The rows, in the order of their paths.
    pub rows: Shared<Items<Shared<Row>>>,
}

/// Whether two rows are one.
pub fn is_same(a: &Row, b: &Row) -> bool
    ensures { result ≡ true → a.now ≡ b.now }
{
    *a == *b
}

/// The row, or an equal one that there is already.
fn shared_row(
    alloc: Global,
    before: Option<&Shared<Row>>,
    row: &Row,
) -> Result<Shared<Row>, AllocError>
    ensures { IfOk result (λ shared. shared ≡ row.now) }
{
    if let Some(before) = before {
        if is_same(before.get(), row) {
            return before.share();
        }
    }
    Ok(Shared::new(alloc, row.copy(alloc)?)?)
}

/// Where, from this place on, rows in the order of their paths have a path that is not before the row's.
fn place_of(rows: &[Shared<Row>], from: usize, row: &Row) -> usize {
    'rows: for i in from..rows.len() {
        if rows[i].get().path.as_bytes().cmp(row.path.as_bytes()) != Ordering::Less {
            return i;
        }
    }
    rows.len()
}

/// These rows, of which those that the snapshot before has too are shared with it.
fn shared_rows(
    alloc: Global,
    before: &[Shared<Row>],
    rows: &[Row],
) -> Result<Items<Shared<Row>>, AllocError>
    ensures { IfOk result (λ shared. shared ≡ rows.now) }
{
    let mut shared = Items::with_capacity(alloc, rows.len())?;
    let mut place = 0;
    'rows: for row in rows {
        place = place_of(before, place, row);
        let next = shared_row(alloc, before.get(place), row)?;
        shared.push(next)?;
    }
    Ok(shared)
}

/// The rows of a snapshot's manifest list, and whether a manifest of it has deletes.
fn rows_of<F: Files>(
    alloc: Global,
    files: &F,
    metadata: &Metadata,
    target: &Target,
) -> Result<(Vec<Row>, bool), RunFault>
    ensures given { IfOk result (λ listed. AreRowsOf (F.gives files.now)
        (described metadata.now.json metadata.now.table) target.now listed.0.items listed.1) }
    ensures stops { IfErr result (MayStop (F.world files.now) (F.may_fail files.now) ⊥) }
{
    let subject = subject_in(alloc, metadata, target)?;
    let Subject { list, basis, said } = subject;
    drop(said);
    let rows = read_rows(alloc, files, list.as_str())?;
    check_specs(basis.specs.as_slice(), &rows)?;
    let basis = basis.among(&rows);
    let has_deletes = basis.has_deletes;
    Ok((rows, has_deletes))
}

/// A snapshot's rows, of which those that the snapshot before has too are shared with it.
fn list_snapshot<F: Files>(
    alloc: Global,
    files: &F,
    metadata: &Metadata,
    id: i64,
    before: &[Shared<Row>],
) -> Result<Listed, RunFault>
    ensures given { IfOk result (λ listed. IsListed (F.gives files.now)
        (described metadata.now.json metadata.now.table) listed × (listed.snapshot ≡ id)) }
    ensures stops { IfErr result (MayStop (F.world files.now) (F.may_fail files.now) ⊥) }
{
    let target = Target::Snapshot(id);
    let schema = metadata.schema_for(&target).id;
    let listed = rows_of(alloc, files, metadata, &target)?;
    let (rows, has_deletes) = listed;
    Ok(Listed {
        snapshot: id,
        schema,
        has_deletes,
        rows: Shared::new(alloc, shared_rows(alloc, before, &rows)?)?,
    })
}

/// The rows of the last of these.
fn last_rows(listed: &[Listed]) -> &[Shared<Row>] {
    match listed.last() {
        Some(last) => last.rows.get().as_slice(),
        None => &[],
    }
}

/// The rows of each snapshot of a table, in the order of the metadata.
pub fn list_snapshots<F: Files>(
    alloc: Global,
    files: &F,
    metadata: &Metadata,
) -> Result<Vec<Listed>, RunFault>
    ensures given { IfOk result (λ listed. All (IsListed (F.gives files.now)
        (described metadata.now.json metadata.now.table)) listed.items) }
    ensures each { IfOk result (λ listed. map (λ (l : Listed). l.snapshot) listed.items
        ≡ map (λ (s : Snapshot). s.id) metadata.now.table.snapshots) }
    ensures stops { IfErr result (MayStop (F.world files.now) (F.may_fail files.now) ⊥) }
{
    let snapshots = metadata.table().snapshots.as_slice();
    let mut listed = Vec::with_capacity(alloc, snapshots.len())?;
    'snapshots: for snapshot in snapshots {
        let next = list_snapshot(alloc, files, metadata, snapshot.id, last_rows(&listed))?;
        listed.push(next)?;
    }
    Ok(listed)
}
