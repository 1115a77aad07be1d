//! The JSON of the metadata that a commit leaves.

ghost use Rattle.std.specs.Prelude.{◌≡◌, IfOk, IfSome};
ghost use Rattle.serde_json.specs.View.{view};
ghost use Rattle.ice_meta_json.specs.Objects.{set, whole};
ghost use Rattle.ice_meta.specs.Members.{member_name};
ghost use Rattle.ice_meta.specs.Committing.{IsLong, AreLongs, with_parent};
ghost use Rattle.ice_meta.specs.Committing.{summary_json, snapshot_json, log_json, branch_to, refs_json, with_refs};
ghost use Rattle.ice_meta.specs.Committing.{with_log, with_snapshots, uuid_json, next_json};

use crate::commit::NewSnapshot;
use crate::fault::Member;
use crate::log::SNAPSHOT_LOG;
use crate::table::Table;
use ice_meta_json::{inside, one_more, set};
use serde_json::{Map, Value};
use std::alloc::{AllocError, Global};
use uuid::Uuid;

/// The name of the branch whose snapshot is the current one.
const MAIN: &str = "main";

/// A JSON value that is written.
type Written = Result<Value, AllocError>;

/// The object in which a member has this value; what was no object has this member alone.
fn with(alloc: Global, json: Value, member: Member, value: Value) -> Written
    ensures { IfOk result (λ object. view object ≡ set (member_name member) (view value) (view json)) }
{
    set(alloc, json, member.name(), value)
}

/// A number as JSON.
#[tactic(auto, using(crate::proofs::Longs::is_long))]
fn whole(number: i64) -> Value
    ensures json { view result ≡ whole number }
    ensures long { IsLong number }
{
    Value::from(number)
}

/// The snapshot with the one that it was made from, where there is one.
fn with_parent(alloc: Global, json: Value, parent: Option<i64>) -> Written
    ensures json { IfOk result (λ snapshot. view snapshot ≡ with_parent parent (view json)) }
    ensures long { IfSome parent IsLong }
{
    match parent {
        Some(id) => with(alloc, json, Member::ParentSnapshotId, whole(id)),
        None => Ok(json),
    }
}

fn summary_json(alloc: Global, added: &NewSnapshot) -> Written
    ensures { IfOk result (λ summary. view summary ≡ summary_json added.now) }
{
    let operation = Value::try_from_str(alloc, added.operation.name())?;
    let summary = Value::from(Map::new(alloc));
    with(alloc, summary, Member::Operation, operation)
}

/// The new snapshot, among the snapshots of the table.
#[tactic(auto, unfolding(crate::specs::Committing::snapshot_json))]
fn snapshot_json(alloc: Global, table: &Table, added: &NewSnapshot) -> Written
    ensures json { IfOk result (λ snapshot. view snapshot ≡ snapshot_json table.now added.now) }
    ensures longs { IfOk result (λ _. AreLongs table.now added.now) }
{
    let sequence_number = Value::from(table.last_sequence_number.get() + 1);
    let manifest_list = Value::try_from_str(alloc, added.manifest_list.as_str())?;
    let schema_id = Value::from(table.current_schema_id);
    let json = Value::from(Map::new(alloc));
    let json = with(alloc, json, Member::SnapshotId, whole(added.id))?;
    let json = with(alloc, json, Member::SequenceNumber, sequence_number)?;
    let json = with(alloc, json, Member::TimestampMs, whole(added.timestamp_ms))?;
    let json = with(alloc, json, Member::ManifestList, manifest_list)?;
    let json = with(alloc, json, Member::SchemaId, schema_id)?;
    let json = with(alloc, json, Member::Summary, summary_json(alloc, added)?)?;
    with_parent(alloc, json, table.current_snapshot_id)
}

/// The element of the snapshot log.
#[tactic(auto, unfolding(crate::specs::Committing::log_json))]
fn log_json(alloc: Global, added: &NewSnapshot) -> Written
    ensures { IfOk result (λ element. view element ≡ log_json added.now) }
{
    let json = Value::from(Map::new(alloc));
    let json = with(alloc, json, Member::TimestampMs, whole(added.timestamp_ms))?;
    with(alloc, json, Member::SnapshotId, whole(added.id))
}

/// The branch, moved to a snapshot.
fn branch_to(alloc: Global, branch: Value, id: i64) -> Written
    ensures { IfOk result (λ moved. view moved ≡ branch_to id (view branch)) }
{
    let kind = Value::try_from_str(alloc, "branch")?;
    let branch = with(alloc, branch, Member::SnapshotId, whole(id))?;
    with(alloc, branch, Member::Type, kind)
}

/// The branches and tags, with `main` at the new snapshot.
#[tactic(auto, unfolding(crate::specs::Committing::refs_json))]
fn refs_json(alloc: Global, refs: Value, added: &NewSnapshot) -> Written
    ensures { IfOk result (λ moved. view moved ≡ refs_json added.now (view refs)) }
{
    let main = branch_to(alloc, inside(&refs, MAIN)?, added.id)?;
    set(alloc, refs, MAIN, main)
}

/// Moves `main` to the new snapshot.
fn with_refs(alloc: Global, json: Value, added: &NewSnapshot) -> Written
    ensures { IfOk result (λ next. view next ≡ with_refs added.now (view json)) }
{
    let refs = refs_json(alloc, inside(&json, Member::Refs.name())?, added)?;
    with(alloc, json, Member::Refs, refs)
}

/// Adds the element of the snapshot log.
fn with_log(alloc: Global, json: Value, added: &NewSnapshot) -> Written
    ensures { IfOk result (λ next. view next ≡ with_log added.now (view json)) }
{
    let log = one_more(alloc, inside(&json, SNAPSHOT_LOG)?, log_json(alloc, added)?)?;
    set(alloc, json, SNAPSHOT_LOG, log)
}

/// Adds the snapshot.
fn with_snapshots(alloc: Global, json: Value, table: &Table, added: &NewSnapshot) -> Written
    ensures json { IfOk result (λ next. view next ≡ with_snapshots table.now added.now (view json)) }
    ensures longs { IfOk result (λ _. AreLongs table.now added.now) }
{
    let snapshot = snapshot_json(alloc, table, added)?;
    let snapshots = one_more(alloc, inside(&json, Member::Snapshots.name())?, snapshot)?;
    with(alloc, json, Member::Snapshots, snapshots)
}

/// A uuid as text with hyphens, in lower case: the one form that every reader takes.
fn uuid_json(alloc: Global, uuid: Uuid) -> Written
    ensures { IfOk result (λ json. view json ≡ uuid_json uuid) }
{
    let mut buffer = Uuid::encode_buffer();
    Value::try_from_str(alloc, uuid.hyphenated().encode_lower(&mut buffer))
}

/// The metadata after the commit, in the room of the metadata before it.
#[tactic(auto, unfolding(crate::specs::Committing::next_json))]
pub fn into_next_json(
    alloc: Global,
    json: Value,
    table: &Table,
    added: &NewSnapshot,
) -> Result<Value, AllocError>
    ensures json { IfOk result (λ next. view next ≡ next_json table.now added.now (view json)) }
    ensures longs { IfOk result (λ _. AreLongs table.now added.now) }
{
    let sequence_number = Value::from(table.last_sequence_number.get() + 1);
    let next = with_refs(alloc, json, added)?;
    let next = with_log(alloc, next, added)?;
    let next = with_snapshots(alloc, next, table, added)?;
    let next = with(alloc, next, Member::CurrentSnapshotId, whole(added.id))?;
    let next = with(
        alloc,
        next,
        Member::LastUpdatedMs,
        whole(added.timestamp_ms),
    )?;
    let next = with(alloc, next, Member::LastSequenceNumber, sequence_number)?;
    let uuid = uuid_json(alloc, table.uuid)?;
    with(alloc, next, Member::TableUuid, uuid)
}

/// The metadata after the commit.
pub fn next_json(
    alloc: Global,
    json: &Value,
    table: &Table,
    added: &NewSnapshot,
) -> Result<Value, AllocError>
    ensures json { IfOk result (λ next. view next ≡ next_json table.now added.now (view json.now)) }
    ensures longs { IfOk result (λ _. AreLongs table.now added.now) }
{
    into_next_json(alloc, json.clone()?, table, added)
}
