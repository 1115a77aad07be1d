//! The sequence numbers that the metadata of a table leaves out where format version 1 wrote it.

ghost use Rattle.std.specs.Prelude.{◌≡◌, IfOk};
ghost use Rattle.serde_json.specs.View.{view, items_view};
ghost use Rattle.ice_meta_json.specs.Upgraded.{lacks_number, some_lacks, numbered, each_numbered, snapshot_items};
ghost use Rattle.ice_meta_json.specs.Upgraded.{filled};

use crate::objects::{inside, items_of, set};
use serde_json::{Value, push};
use std::alloc::{AllocError, Global};

/// The member with the snapshots of a table.
const SNAPSHOTS: &str = "snapshots";

/// The member with the sequence number of a snapshot.
const SEQUENCE_NUMBER: &str = "sequence-number";

/// The sequence number of a snapshot of format version 1.
const FIRST_NUMBER: u64 = 0;

/// Whether it is an object that leaves out its sequence number.
fn lacks_number(snapshot: &Value) -> bool
    ensures { result ≡ lacks_number (view snapshot.now) }
{
    snapshot.is_object() && snapshot.get(SEQUENCE_NUMBER).is_none()
}

fn some_lacks(snapshots: &Vec<Value>) -> bool
    ensures { result ≡ some_lacks (items_view snapshots.now.items) }
{
    'snapshots: for snapshot in snapshots {
        if lacks_number(snapshot) {
            return true;
        }
    }
    false
}

/// A copy of the snapshot, with its sequence number.
fn numbered(alloc: Global, snapshot: &Value) -> Result<Value, AllocError>
    ensures { IfOk result (λ full. view full ≡ numbered (view snapshot.now)) }
{
    let full = snapshot.clone()?;
    if lacks_number(snapshot) {
        set(alloc, full, SEQUENCE_NUMBER, Value::from(FIRST_NUMBER))
    } else {
        Ok(full)
    }
}

fn each_numbered(alloc: Global, snapshots: &Vec<Value>) -> Result<Vec<Value>, AllocError>
    ensures { IfOk result (λ full. items_view full.items ≡ each_numbered (items_view snapshots.now.items)) }
{
    let mut full = Vec::new(alloc);
    'snapshots: for snapshot in snapshots {
        push(&mut full, numbered(alloc, snapshot)?)?;
    }
    Ok(full)
}

/// Whether a snapshot of the document leaves out its number.
fn lacks_numbers(json: &Value) -> bool
    ensures { result ≡ some_lacks (snapshot_items (view json.now)) }
{
    match json.get(SNAPSHOTS) {
        Some(Value::Array(snapshots)) => some_lacks(snapshots),
        _ => false,
    }
}

/// The document with the sequence number of each snapshot, also where it is left out. All else stays.
#[tactic(auto, unfolding(crate::specs::Upgraded::filled))]
pub fn filled(alloc: Global, json: Value) -> Result<Value, AllocError>
    ensures { IfOk result (λ full. view full ≡ filled (view json)) }
{
    if !lacks_numbers(&json) {
        return Ok(json);
    }
    let snapshots = items_of(alloc, inside(&json, SNAPSHOTS)?);
    let full = each_numbered(alloc, &snapshots)?;
    set(alloc, json, SNAPSHOTS, Value::from(full))
}
