//! What was read of manifests, for all snapshots that have them.

ghost use Rattle.std.specs.Prelude.{◌≡◌, ◌≤◌, true, length, IfSome};
ghost use Rattle.std.specs.List.{Contains};
ghost use Rattle.icescan_audit_all.specs.Snapshots.{IsAlike};

use crate::listed::is_same;
use contract_words::Items;
use ice_manifest_reading::Row;
use icescan_audit::{Basis, Finding, LiveFile};
use shared_value::Shared;
use std::cmp::Ordering;

/// What was read of a manifest, held against what the snapshots of a class say.
#[derive(Debug, Drop)]
pub struct Kept {
    pub row: Shared<Row>,
    /// The id of the schema that counts for these snapshots.
    pub schema: i32,
    /// Whether their manifest lists have manifests of deletes.
    pub has_deletes: bool,
    /// How many live entries it has.
    pub entries: usize,
    /// What was found of it.
    pub findings: Items<Finding>,
    /// Its live files.
    pub live: Items<LiveFile>,
}

/// What was read, for a snapshot of this schema.
#[derive(Clone, Copy)]
pub struct Known<'a> {
    pub kept: &'a [Kept],
    pub schema: i32,
}

/// The place of the first, in the order of their paths, whose path isn't before the row's.
fn place_of(kept: &[Kept], row: &Row) -> usize
    ensures { result ≤ length kept.now }
{
    kept.partition_point(|one: &Kept| -> bool {
        one.row.get().path.as_bytes().cmp(row.path.as_bytes()) == Ordering::Less
    })
}

/// Whether this was read of the row, for snapshots of this schema, with deletes or without.
fn is_of(one: &Kept, schema: i32, has_deletes: bool, row: &Row) -> bool
    ensures { result ≡ true → (one.now.schema ≡ schema) × (one.now.has_deletes ≡ has_deletes)
        × (one.now.row ≡ row.now) }
{
    one.schema == schema && one.has_deletes == has_deletes && is_same(one.row.get(), row)
}

/// What was read of the row, for snapshots of this schema, with deletes or without.
pub fn found<'a>(kept: &'a [Kept], schema: i32, has_deletes: bool, row: &Row) -> Option<&'a Kept>
    ensures { IfSome result (λ one. Contains kept.now one.now × (one.now.schema ≡ schema)
        × (one.now.has_deletes ≡ has_deletes) × (one.now.row ≡ row.now)) }
{
    'kept: for i in place_of(kept, row)..kept.len() {
        if is_of(&kept[i], schema, has_deletes, row) {
            return Some(&kept[i]);
        }
        if kept[i].row.get().path != row.path {
            return None;
        }
    }
    None
}

/// What was read of the row, as the basis of a snapshot would have it.
pub fn known_of<'a>(known: &Known<'a>, basis: &Basis, row: &Row) -> Option<&'a Kept>
    ensures { IfSome result (λ one. IsAlike known.now basis.now row.now one.now) }
{
    let number = row.sequence_number.get();
    if (basis.last.get() < number) != (basis.snapshot.get() < number) {
        return None;
    }
    found(known.kept, known.schema, basis.has_deletes, row)
}
