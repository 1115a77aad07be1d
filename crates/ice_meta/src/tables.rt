//! What table metadata says, from its JSON.

ghost use Rattle.std.specs.Prelude.{◌≡◌, [], IfOk, true, map};
ghost use Rattle.std.specs.List.{IsDistinct};
ghost use Rattle.std.specs.Ordering.{int_eq};
ghost use Rattle.contract_words.specs.Outcome.{Gives};
ghost use Rattle.serde_json.specs.View.{view, items_view, members_view};
ghost use Rattle.ice_meta.specs.Reading.{is_among};
ghost use Rattle.ice_meta.specs.Tables.{if_second, version_in, uuid_in, if_short, location_in, if_among, if_snapshot};
ghost use Rattle.ice_meta.specs.Tables.{current_snapshot_in, numbered_in, schemas_in, id_among, has_schema};
ghost use Rattle.ice_meta.specs.Tables.{current_schema_in, if_few, specs_in, has_spec, default_spec_in};
ghost use Rattle.ice_meta.specs.Tables.{object_of, operation_of, operation_in, snapshots_in, kind_of};
ghost use Rattle.ice_meta.specs.Tables.{ref_of, each_ref, refs_in, HasCurrentSchema, HasDefaultSpec};
ghost use Rattle.ice_meta.specs.Tables.{HasDifferentSchemas, HasDifferentSpecs, HasDifferentSnapshots, schema_id};
ghost use Rattle.ice_meta.specs.Tables.{spec_id, snapshot_id, table_of};

use crate::fault::{Member, MetaFault};
use crate::from_json::{FromJson, each};
use crate::members::{
    int_at, kept, kept_text_at, long_at, objects_at, objects_of, optional_int, optional_long,
    optional_text, perhaps, sequence_number_at, sequence_number_or_zero, text_at,
};
use crate::numbered::{Numbered, is_among, once};
use crate::schema::Schema;
use crate::snapshot::{Ref, RefKind, Snapshot};
use crate::spec::{PartitionField, Spec};
use crate::table::Table;
use contract_words::{Items, Text};
use serde_json::{Map, Value};
use std::alloc::Global;
use uuid::Uuid;

/// How many bytes a location may have.
const LONGEST_LOCATION: usize = 65_000;

/// How many fields a partition spec may have.
const MOST_FIELDS: usize = 64;

/// Stops at another format version than 2.
#[tactic(auto, unfolding(crate::specs::Tables::version_in))]
fn version_at(json: &Value) -> Result<i64, MetaFault>
    ensures { Gives MetaFault.Memory (λ version. version) result (version_in (view json.now)) }
{
    let version = long_at(json, Member::FormatVersion)?;
    if version == 2 {
        Ok(version)
    } else {
        Err(MetaFault::Version(version))
    }
}

#[tactic(auto, unfolding(crate::specs::Tables::uuid_in))]
fn uuid_at(json: &Value) -> Result<Uuid, MetaFault>
    ensures { Gives MetaFault.Memory (λ uuid. uuid) result (uuid_in (view json.now)) }
{
    let text = text_at(json, Member::TableUuid)?;
    match Uuid::parse_str(text) {
        Ok(uuid) => Ok(uuid),
        Err(_) => Err(MetaFault::WrongKind(Member::TableUuid)),
    }
}

#[tactic(auto, unfolding(crate::specs::Tables::location_in))]
fn location_at(alloc: Global, json: &Value) -> Result<Text, MetaFault>
    ensures { Gives MetaFault.Memory (λ location. location) result (location_in (view json.now)) }
{
    let text = text_at(json, Member::Location)?;
    if text.len() > LONGEST_LOCATION {
        Err(MetaFault::WrongKind(Member::Location))
    } else {
        Ok(kept(alloc, text)?)
    }
}

/// The id of the current snapshot; -1 stands for none.
#[tactic(auto, unfolding(crate::specs::Tables::current_snapshot_in))]
fn current_snapshot_at(json: &Value) -> Result<Option<i64>, MetaFault>
    ensures { Gives MetaFault.Memory (λ id. id) result (current_snapshot_in (view json.now)) }
{
    match optional_long(json, Member::CurrentSnapshotId)? {
        Some(-1) => Ok(None),
        id => Ok(id),
    }
}

impl FromJson for PartitionField {
    ghost use Rattle.ice_meta.specs.Tables.{partition_field_of};

    ghost said = { partition_field_of };

    #[tactic(auto, unfolding(crate::specs::Tables::partition_field_of))]
    fn from_json(alloc: Global, json: &Value) -> Result<PartitionField, MetaFault> {
        Ok(PartitionField {
            source_id: int_at(json, Member::SourceId)?,
            field_id: int_at(json, Member::FieldId)?,
            name: kept_text_at(alloc, json, Member::Name)?,
            transform: kept_text_at(alloc, json, Member::Transform)?,
            source_type: None,
        })
    }
}

/// Stops where there are more than 64.
#[tactic(auto, using(crate::proofs::Steps::items_count))]
fn check_count(items: &Vec<Value>) -> Result<(), MetaFault>
    ensures { Gives MetaFault.Memory (λ _. items_view items.now.items) result (if_few (items_view items.now.items)) }
{
    if items.len() > MOST_FIELDS {
        Err(MetaFault::TooBig)
    } else {
        Ok(())
    }
}

impl FromJson for Spec {
    ghost use Rattle.ice_meta.specs.Tables.{spec_of};

    ghost said = { spec_of };

    #[tactic(auto, unfolding(crate::specs::Tables::spec_of))]
    fn from_json(alloc: Global, json: &Value) -> Result<Spec, MetaFault> {
        let id = int_at(json, Member::SpecId)?;
        let items = objects_at(json, Member::Fields)?;
        check_count(items)?;
        let fields = each(alloc, items)?;
        Ok(Spec {
            id,
            fields: once(alloc, fields)?,
        })
    }
}

/// What the objects of a member's array say, where no two have one id.
fn numbered_at<T: FromJson + Numbered>(
    alloc: Global,
    json: &Value,
    member: Member,
) -> Result<Items<T>, MetaFault>
    ensures read { Gives MetaFault.Memory (λ items. items) result (numbered_in T.said T.id_of member (view json.now)) }
    ensures different { IfOk result (λ items. IsDistinct int_eq (map T.id_of items)) }
{
    let items = objects_at(json, member)?;
    once(alloc, each(alloc, items)?)
}

#[tactic(auto, unfolding(crate::specs::Tables::schemas_in))]
fn schemas_at(alloc: Global, json: &Value) -> Result<Items<Schema>, MetaFault>
    ensures read { Gives MetaFault.Memory (λ schemas. schemas) result (schemas_in (view json.now)) }
    ensures different { IfOk result (λ schemas. IsDistinct int_eq (map schema_id schemas)) }
{
    numbered_at(alloc, json, Member::Schemas)
}

#[tactic(auto, unfolding(crate::specs::Tables::specs_in))]
fn specs_at(alloc: Global, json: &Value) -> Result<Items<Spec>, MetaFault>
    ensures read { Gives MetaFault.Memory (λ specs. specs) result (specs_in (view json.now)) }
    ensures different { IfOk result (λ specs. IsDistinct int_eq (map spec_id specs)) }
{
    numbered_at(alloc, json, Member::PartitionSpecs)
}

/// The id that a member says, where one of the items has it.
fn id_among<T: Numbered>(json: &Value, member: Member, items: &[T]) -> Result<i32, MetaFault>
    ensures read { Gives MetaFault.Memory (λ id. id) result (id_among T.id_of items.now member (view json.now)) }
    ensures named { IfOk result (λ id. is_among T.id_of id items.now ≡ true) }
{
    let id = int_at(json, member)?;
    if is_among(items, id) {
        Ok(id)
    } else {
        Err(MetaFault::Dangling(member))
    }
}

#[tactic(auto, unfolding(crate::specs::Tables::current_schema_in))]
fn current_schema_at(json: &Value, schemas: &[Schema]) -> Result<i32, MetaFault>
    ensures read { Gives MetaFault.Memory (λ id. id) result (current_schema_in schemas.now (view json.now)) }
    ensures named { IfOk result (λ id. has_schema id schemas.now ≡ true) }
{
    id_among(json, Member::CurrentSchemaId, schemas)
}

#[tactic(auto, unfolding(crate::specs::Tables::default_spec_in))]
fn default_spec_at(json: &Value, specs: &[Spec]) -> Result<i32, MetaFault>
    ensures read { Gives MetaFault.Memory (λ id. id) result (default_spec_in specs.now (view json.now)) }
    ensures named { IfOk result (λ id. has_spec id specs.now ≡ true) }
{
    id_among(json, Member::DefaultSpecId, specs)
}

/// Stops where the value of the member is no object.
fn check_object(json: &Value, member: Member) -> Result<(), MetaFault>
    ensures { Gives MetaFault.Memory (λ _. view json.now) result (object_of member (view json.now)) }
{
    if json.is_object() {
        Ok(())
    } else {
        Err(MetaFault::WrongKind(member))
    }
}

#[tactic(auto, unfolding(crate::specs::Tables::operation_of))]
fn operation_of(alloc: Global, json: &Value) -> Result<Option<Text>, MetaFault>
    ensures { Gives MetaFault.Memory (λ operation. operation) result (operation_of (view json.now)) }
{
    check_object(json, Member::Summary)?;
    optional_text(alloc, json, Member::Operation)
}

/// The operation that the summary names, where there is one.
fn operation_at(alloc: Global, json: &Value) -> Result<Option<Text>, MetaFault>
    ensures { Gives MetaFault.Memory (λ operation. operation) result (operation_in (view json.now)) }
{
    match perhaps(json, Member::Summary) {
        Some(summary) => operation_of(alloc, summary),
        None => Ok(None),
    }
}

impl FromJson for Snapshot {
    ghost use Rattle.ice_meta.specs.Tables.{snapshot_of};

    ghost said = { snapshot_of };

    #[tactic(auto, unfolding(crate::specs::Tables::snapshot_of))]
    fn from_json(alloc: Global, json: &Value) -> Result<Snapshot, MetaFault> {
        Ok(Snapshot {
            id: long_at(json, Member::SnapshotId)?,
            parent_id: optional_long(json, Member::ParentSnapshotId)?,
            sequence_number: sequence_number_or_zero(json, Member::SequenceNumber)?,
            timestamp_ms: long_at(json, Member::TimestampMs)?,
            manifest_list: optional_text(alloc, json, Member::ManifestList)?,
            operation: operation_at(alloc, json)?,
            schema_id: optional_int(json, Member::SchemaId)?,
        })
    }
}

#[tactic(auto, unfolding(crate::specs::Tables::snapshots_in))]
fn snapshots_at(alloc: Global, json: &Value) -> Result<Items<Snapshot>, MetaFault>
    ensures read { Gives MetaFault.Memory (λ snapshots. snapshots) result (snapshots_in (view json.now)) }
    ensures different { IfOk result (λ snapshots. IsDistinct int_eq (map snapshot_id snapshots)) }
{
    match perhaps(json, Member::Snapshots) {
        Some(value) => {
            let items = objects_of(value, Member::Snapshots)?;
            once(alloc, each(alloc, items)?)
        }
        None => Ok(Items::new(alloc)),
    }
}

/// A branch or a tag.
fn kind_of(text: &str) -> Result<RefKind, MetaFault>
    ensures { Gives MetaFault.Memory (λ kind. kind) result (kind_of text.now) }
{
    match text {
        "branch" => Ok(RefKind::Branch),
        "tag" => Ok(RefKind::Tag),
        _ => Err(MetaFault::WrongKind(Member::Type)),
    }
}

#[tactic(auto, unfolding(crate::specs::Tables::ref_of))]
fn ref_of(alloc: Global, name: &str, json: &Value) -> Result<Ref, MetaFault>
    ensures { Gives MetaFault.Memory (λ found. found) result (ref_of name.now (view json.now)) }
{
    check_object(json, Member::Refs)?;
    let snapshot_id = long_at(json, Member::SnapshotId)?;
    let kind = kind_of(text_at(json, Member::Type)?)?;
    Ok(Ref {
        name: kept(alloc, name)?,
        snapshot_id,
        kind,
    })
}

fn each_ref(alloc: Global, members: &Map<String, Value>) -> Result<Items<Ref>, MetaFault>
    ensures { Gives MetaFault.Memory (λ refs. refs) result (each_ref (members_view members.now.entries) []) }
{
    let mut refs = Items::new(alloc);
    'refs: for (name, value) in members.iter() {
        refs.push(ref_of(alloc, name.as_str(), value)?)?;
    }
    Ok(refs)
}

#[tactic(auto, unfolding(crate::specs::Tables::refs_in))]
fn refs_at(alloc: Global, json: &Value) -> Result<Items<Ref>, MetaFault>
    ensures { Gives MetaFault.Memory (λ refs. refs) result (refs_in (view json.now)) }
{
    let Some(value) = perhaps(json, Member::Refs) else {
        return Ok(Items::new(alloc));
    };
    match value.as_object() {
        Some(members) => each_ref(alloc, members),
        None => Err(MetaFault::WrongKind(Member::Refs)),
    }
}

/// What the metadata says, or its first fault in this order.
#[tactic(auto, unfolding(crate::specs::Tables::table_of))]
pub fn table_of(alloc: Global, json: &Value) -> Result<Table, MetaFault>
    ensures read { Gives MetaFault.Memory (λ table. table) result (table_of (view json.now)) }
    ensures current_schema { IfOk result (λ table. HasCurrentSchema table) }
    ensures default_spec { IfOk result (λ table. HasDefaultSpec table) }
    ensures schemas { IfOk result (λ table. HasDifferentSchemas table) }
    ensures specs { IfOk result (λ table. HasDifferentSpecs table) }
    ensures snapshots { IfOk result (λ table. HasDifferentSnapshots table) }
{
    version_at(json)?;
    let uuid = uuid_at(json)?;
    let location = location_at(alloc, json)?;
    let last_sequence_number = sequence_number_at(json, Member::LastSequenceNumber)?;
    let last_updated_ms = long_at(json, Member::LastUpdatedMs)?;
    let last_column_id = int_at(json, Member::LastColumnId)?;
    let schemas = schemas_at(alloc, json)?;
    let current_schema_id = current_schema_at(json, schemas.as_slice())?;
    let specs = specs_at(alloc, json)?;
    let default_spec_id = default_spec_at(json, specs.as_slice())?;
    Ok(Table {
        uuid,
        location,
        last_sequence_number,
        last_updated_ms,
        last_column_id,
        schemas,
        current_schema_id,
        specs,
        default_spec_id,
        last_partition_id: int_at(json, Member::LastPartitionId)?,
        current_snapshot_id: current_snapshot_at(json)?,
        snapshots: snapshots_at(alloc, json)?,
        refs: refs_at(alloc, json)?,
    })
}
