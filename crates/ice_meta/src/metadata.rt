//! Table metadata: the JSON value that it is, and what it says.

ghost use Rattle.std.specs.Prelude.{◌≡◌, ◌≢◌, ◌≤◌, IfOk, Some, Ok, Err, map, true, false};
ghost use Rattle.std.specs.List.{All};
ghost use Rattle.std.specs.Option.{option_copied, option_map, is_some};
ghost use Rattle.contract_words.specs.Outcome.{Gives};
ghost use Rattle.serde_json.specs.Data.{depth};
ghost use Rattle.serde_json.specs.Find.{as_object};
ghost use Rattle.serde_json.specs.Read.{max_depth};
ghost use Rattle.serde_json.specs.View.{view};
ghost use Rattle.serde_json.specs.Written.{has_float, compact_text, IsInOrder};
ghost use Rattle.ice_meta_json.specs.Upgraded.{IsFilled};
ghost use Rattle.ice_meta.specs.Committing.{CanFollow, HasTime, committed, next_metadata};
ghost use Rattle.ice_meta.specs.Tables.{HasCurrentSchema, HasDefaultSpec, HasDifferentSchemas, HasDifferentSpecs};
ghost use Rattle.ice_meta.specs.Tables.{HasDifferentSnapshots, text_json, json_of, table_of};
ghost use Rattle.ice_meta.specs.Different.{HasDifferentColumns, HasDifferentFields};
ghost use Rattle.ice_meta.specs.Order.{IsFirst, metadata_fault};
ghost use Rattle.ice_meta.specs.Logs.{newest_time};
ghost use Rattle.ice_meta.specs.SchemaTexts.{schema_in, schema_text};
ghost use Rattle.ice_meta.specs.Targets.{described, metadata_of, schema_with, spec_with, snapshot_with, ref_with};
ghost use Rattle.ice_meta.specs.Targets.{bound_field, bound_spec, bound_specs, is_main, current_id, named_id};
ghost use Rattle.ice_meta.specs.Targets.{target_id, resolved, list_of, if_tag, pinned_id, own_schema, pinned_schema};
ghost use Rattle.ice_meta.specs.Targets.{schema_for};

use crate::commit::NewSnapshot;
use crate::fault::{Member, MetaFault};
use crate::log::newest_time;
use crate::next::{into_next_json, next_json};
use crate::numbered::with_id;
use crate::schema::Schema;
use crate::schema_text::text_of_schema;
use crate::snapshot::{Ref, RefKind, Snapshot};
use crate::spec::{PartitionField, Spec};
use crate::table::Table;
use crate::tables::table_of;
use contract_words::{Items, Text};
use ice_meta_json::filled;
use serde_json::{Category, Value};
use std::alloc::{AllocError, Global};

/// What of a table is asked for.
#[derive(Debug, PartialEq, Drop)]
pub enum Target {
    /// The current snapshot.
    Main,
    /// The snapshot that a branch or tag names.
    Ref(Text),
    /// The snapshot of an id.
    Snapshot(i64),
}

/// The metadata of a table.
#[derive(Debug, Drop)]
pub struct Metadata {
    json: Value,
    table: Table,
    ghost named: { HasCurrentSchema table },
    ghost object: { is_some (as_object (view json)) ≡ true },
    ghost nests: { depth (view json) ≤ max_depth },
    ghost filled: { IsFilled (view json) },
    ghost says: { table_of (view json) ≡ Ok table },
}

/// The JSON of a text in UTF-8.
fn json_from(alloc: Global, bytes: &[u8]) -> Result<Value, MetaFault>
    ensures nests { IfOk result (λ json. depth (view json) ≤ max_depth) }
    ensures read { Gives MetaFault.Memory view result (text_json bytes.now) }
{
    let Ok(text) = str::from_utf8(bytes) else {
        return Err(MetaFault::NotJson);
    };
    match Value::from_str(alloc, text) {
        Ok(json) => Ok(json),
        Err(e) => match e.classify() {
            Category::Memory => Err(MetaFault::Memory),
            _ => Err(MetaFault::NotJson),
        },
    }
}

/// The JSON object of a text in UTF-8.
fn object_from(alloc: Global, bytes: &[u8]) -> Result<Value, MetaFault>
    ensures nests { IfOk result (λ json. depth (view json) ≤ max_depth) }
    ensures object { IfOk result (λ json. is_some (as_object (view json)) ≡ true) }
    ensures read { Gives MetaFault.Memory view result (json_of bytes.now) }
{
    let json = json_from(alloc, bytes)?;
    if json.is_object() {
        Ok(json)
    } else {
        Err(MetaFault::NotJson)
    }
}

impl Metadata {
    /// Reads metadata, or answers its first fault in the order in which the members are checked. What of it isn't read
    /// is kept as it is. A snapshot that leaves out its sequence number, as those of format version 1 do, has 0, and is
    /// kept with it.
    #[tactic(auto, using(crate::proofs::FirstFault::no_json), unfolding(crate::specs::Targets::metadata_of))]
    pub fn read(alloc: Global, bytes: &[u8]) -> Result<Metadata, MetaFault>
        ensures read { Gives MetaFault.Memory (λ metadata. described metadata.json metadata.table) result
            (metadata_of bytes.now) }
        ensures order { IsFirst result (metadata_fault bytes.now) }
        ensures current_schema { IfOk result (λ metadata. HasCurrentSchema metadata.table) }
        ensures default_spec { IfOk result (λ metadata. HasDefaultSpec metadata.table) }
        ensures schemas { IfOk result (λ metadata. HasDifferentSchemas metadata.table) }
        ensures specs { IfOk result (λ metadata. HasDifferentSpecs metadata.table) }
        ensures snapshots { IfOk result (λ metadata. HasDifferentSnapshots metadata.table) }
        ensures columns { IfOk result (λ metadata. All HasDifferentColumns metadata.table.schemas) }
        ensures fields { IfOk result (λ metadata. All HasDifferentFields metadata.table.specs) }
    {
        let json = object_from(alloc, bytes)?;
        let table = table_of(alloc, &json)?;
        let full = filled(alloc, json)?;
        Ok(Metadata { json: full, table })
    }

    /// The text of the metadata file: the JSON object, also what of it isn't read, without white space and with the
    /// members of each object in the order of their names' bytes. It reads as this metadata.
    pub fn write(&self, alloc: Global) -> Result<Vec<u8>, AllocError>
        ensures text { IfOk result (λ bytes. has_float (view self.now.json) ≡ false
            → bytes.items ≡ compact_text (view self.now.json)) }
        ensures order { IfOk result (λ bytes. IsInOrder bytes.items (view self.now.json)) }
        ensures read_back { IfOk result (λ bytes. metadata_of bytes.items ≡
            Ok (described self.now.json self.now.table)) }
    {
        let text = self.json.to_vec(alloc)?;
        Ok(text)
    }

    /// The metadata after a commit to this table: with the new snapshot, which is made from the current one and under
    /// the current schema, as the current one and as the branch `main`, the next sequence number, and one more element
    /// of the snapshot log. The table's uuid is written in its hyphenated form, in lower case, in whichever form it was
    /// read. All else is kept. It is refused where the table has a snapshot of this id, and after the last of all
    /// sequence numbers.
    pub fn with_snapshot(&self, alloc: Global, added: &NewSnapshot) -> Result<Metadata, MetaFault>
        ensures json { Gives MetaFault.Memory (λ next. described next.json next.table) result
            (committed (described self.now.json self.now.table) added.now) }
        ensures table { CanFollow self.now.table added.now
            → Gives MetaFault.Memory (λ next. described next.json next.table) result
            (Ok (next_metadata (described self.now.json self.now.table) added.now)) }
        ensures time { IfOk result (λ next. HasTime added.now.timestamp_ms (described next.json next.table)) }
    {
        let json = next_json(alloc, &self.json, &self.table, added)?;
        let table = table_of(alloc, &json)?;
        Ok(Self { json, table })
    }

    /// The metadata after a commit to this table, as by `with_snapshot`, in the room of the metadata before it.
    pub fn into_next(self, alloc: Global, added: &NewSnapshot) -> Result<Metadata, MetaFault>
        ensures json { Gives MetaFault.Memory (λ next. described next.json next.table) result
            (committed (described self.json self.table) added.now) }
        ensures table { CanFollow self.table added.now
            → Gives MetaFault.Memory (λ next. described next.json next.table) result
            (Ok (next_metadata (described self.json self.table) added.now)) }
        ensures time { IfOk result (λ next. HasTime added.now.timestamp_ms (described next.json next.table)) }
    {
        let Metadata {
            json: old,
            table: base,
        } = self;
        let json = into_next_json(alloc, old, &base, added)?;
        let table = table_of(alloc, &json)?;
        Ok(Self { json, table })
    }

    /// The same metadata.
    pub fn copy(&self, alloc: Global) -> Result<Metadata, AllocError>
        ensures { IfOk result (λ copied. described copied.json copied.table ≡ described self.now.json self.now.table) }
    {
        let json = self.json.clone()?;
        match table_of(alloc, &json) {
            Ok(table) => Ok(Self { json, table }),
            Err(MetaFault::Memory) => Err(AllocError),
            // What says a table once says it again.
            Err(_) => unreachable!(),
        }
    }

    /// The whole JSON object, with the members that aren't read.
    pub fn json(&self) -> &Value
        ensures { result.now ≡ self.now.json }
    {
        &self.json
    }

    /// What the metadata says.
    pub fn table(&self) -> &Table
        ensures { result.now ≡ self.now.table }
    {
        &self.table
    }

    /// When the newest snapshot of the snapshot log came to be the current one, in milliseconds since 1970-01-01 00:00
    /// UTC; none where the log has no entry, or its last one says no time of 64 bits.
    pub fn newest_time(&self) -> Option<i64>
        ensures { result ≡ newest_time (view self.now.json) }
    {
        newest_time(&self.json)
    }

    /// The schema of this id.
    pub fn schema(&self, id: i32) -> Option<&Schema>
        ensures { option_copied result ≡ schema_with id self.now.table }
    {
        with_id(self.table.schemas.as_slice(), id as i64)
    }

    /// The JSON text of the current schema, with the members that are read alone: without white space and with the
    /// members of each object in the order of their names' bytes.
    pub fn current_schema_text(&self, alloc: Global) -> Result<Text, AllocError>
        ensures { IfOk result (λ text. text ≡
            schema_text (schema_in self.now.table.current_schema_id (view self.now.json))) }
    {
        text_of_schema(alloc, &self.json, self.table.current_schema_id)
    }

    /// The spec of this id as it is written, without source types.
    fn written_spec(&self, id: i32) -> Option<&Spec>
        ensures { option_copied result ≡ spec_with id self.now.table }
    {
        with_id(self.table.specs.as_slice(), id as i64)
    }

    /// The spec of this id, with the types that its source columns have in the schema.
    pub fn spec(&self, alloc: Global, id: i32, schema: &Schema) -> Result<Option<Spec>, AllocError>
        ensures { IfOk result (λ spec. spec ≡ option_map (bound_spec schema.now) (spec_with id self.now.table)) }
    {
        match self.written_spec(id) {
            Some(spec) => Ok(Some(bound_spec(alloc, spec, schema)?)),
            None => Ok(None),
        }
    }

    /// All partition specs in the order of the file, with the types that their source columns have in the schema.
    pub fn specs(&self, alloc: Global, schema: &Schema) -> Result<Items<Spec>, AllocError>
        ensures { IfOk result (λ specs. specs ≡ bound_specs schema.now self.now.table) }
    {
        bound_specs(alloc, self.table.specs.as_slice(), schema)
    }

    /// The snapshot of this id.
    pub fn snapshot(&self, id: i64) -> Option<&Snapshot>
        ensures { option_copied result ≡ snapshot_with id self.now.table }
    {
        with_id(self.table.snapshots.as_slice(), id)
    }

    fn ref_with(&self, name: &Text) -> Option<&Ref>
        ensures { option_copied result ≡ ref_with name.now self.now.table }
    {
        self.table
            .refs
            .as_slice()
            .iter()
            .find(|found| found.name == *name)
    }

    fn current_id(&self) -> Result<i64, MetaFault>
        ensures { result ≡ current_id self.now.table }
    {
        match self.table.current_snapshot_id {
            Some(id) => Ok(id),
            None => Err(MetaFault::NoSnapshot),
        }
    }

    fn named_id(&self, name: &Text) -> Result<i64, MetaFault>
        ensures { result ≡ named_id name.now self.now.table }
    {
        match self.ref_with(name) {
            Some(found) => Ok(found.snapshot_id),
            None => Err(MetaFault::NoSuchRef),
        }
    }

    fn target_id(&self, target: &Target) -> Result<i64, MetaFault>
        ensures { result ≡ target_id target.now self.now.table }
    {
        match target {
            Target::Main => self.current_id(),
            Target::Ref(name) if is_main(name) => self.current_id(),
            Target::Ref(name) => self.named_id(name),
            Target::Snapshot(id) => Ok(*id),
        }
    }

    /// The id of the snapshot that is asked for; the table has it, and it has a manifest list.
    #[tactic(auto, unfolding(crate::specs::Targets::resolved))]
    pub fn resolve(&self, target: &Target) -> Result<i64, MetaFault>
        ensures { result ≡ resolved target.now self.now.table }
    {
        let id = self.target_id(target)?;
        match self.snapshot(id) {
            Some(snapshot) => match &snapshot.manifest_list {
                Some(_) => Ok(id),
                None => Err(MetaFault::Missing(Member::ManifestList)),
            },
            None => Err(MetaFault::NoSuchSnapshot),
        }
    }

    /// The path of the manifest list of the snapshot that is asked for.
    #[tactic(auto, unfolding(crate::specs::Targets::list_of))]
    pub fn manifest_list(&self, target: &Target) -> Result<&Text, MetaFault>
        ensures list { Gives MetaFault.Memory (λ list. list.now) result (list_of target.now self.now.table) }
        ensures memory { result ≢ Err MetaFault.Memory }
    {
        let id = self.target_id(target)?;
        let Some(snapshot) = self.snapshot(id) else {
            return Err(MetaFault::NoSuchSnapshot);
        };
        match &snapshot.manifest_list {
            Some(list) => Ok(list),
            None => Err(MetaFault::Missing(Member::ManifestList)),
        }
    }

    fn pinned_id(&self, target: &Target) -> Option<i64>
        ensures { result ≡ pinned_id target.now self.now.table }
    {
        match target {
            Target::Main => None,
            Target::Ref(name) if is_main(name) => None,
            Target::Ref(name) => if_tag(self.ref_with(name)?),
            Target::Snapshot(id) => Some(*id),
        }
    }

    fn own_schema(&self, id: i64) -> Option<&Schema>
        ensures { option_copied result ≡ own_schema id self.now.table }
    {
        self.schema(self.snapshot(id)?.schema_id?)
    }

    fn current_schema(&self) -> &Schema
        ensures { Some result.now ≡ schema_with self.now.table.current_schema_id self.now.table }
    {
        match self.schema(self.table.current_schema_id) {
            Some(schema) => schema,
            None => unreachable!(),
        }
    }

    /// The pinned snapshot's own schema.
    fn pinned_schema(&self, target: &Target) -> Option<&Schema>
        ensures { option_copied result ≡ pinned_schema target.now self.now.table }
    {
        self.own_schema(self.pinned_id(target)?)
    }

    /// The schema that filters of the target are bound to: a tag's or a snapshot's own, where the snapshot names one
    /// that is there, else the current one.
    #[tactic(auto, unfolding(crate::specs::Targets::schema_for))]
    pub fn schema_for(&self, target: &Target) -> &Schema
        ensures { Some result.now ≡ schema_for target.now self.now.table }
    {
        match self.pinned_schema(target) {
            Some(schema) => schema,
            None => self.current_schema(),
        }
    }
}

fn is_main(name: &Text) -> bool
    ensures { result ≡ is_main name.now }
{
    name.as_str() == "main"
}

/// The id of a tag's snapshot.
fn if_tag(found: &Ref) -> Option<i64>
    ensures { result ≡ if_tag found.now }
{
    match found.kind {
        RefKind::Branch => None,
        RefKind::Tag => Some(found.snapshot_id),
    }
}

/// The fields, with the types that their source columns have in the schema.
fn bound_fields(
    alloc: Global,
    fields: &[PartitionField],
    schema: &Schema,
) -> Result<Items<PartitionField>, AllocError>
    ensures { IfOk result (λ bound. bound ≡ map (bound_field schema.now) fields.now) }
{
    let mut bound = Items::new(alloc);
    'fields: for field in fields {
        bound.push(field.bound_to(alloc, schema)?)?;
    }
    Ok(bound)
}

/// The spec, with the types that its source columns have in the schema.
fn bound_spec(alloc: Global, spec: &Spec, schema: &Schema) -> Result<Spec, AllocError>
    ensures { IfOk result (λ bound. bound ≡ bound_spec schema.now spec.now) }
{
    Ok(Spec {
        id: spec.id,
        fields: bound_fields(alloc, spec.fields.as_slice(), schema)?,
    })
}

/// The specs, with the types that their source columns have in the schema.
fn bound_specs(alloc: Global, specs: &[Spec], schema: &Schema) -> Result<Items<Spec>, AllocError>
    ensures { IfOk result (λ bound. bound ≡ map (bound_spec schema.now) specs.now) }
{
    let mut bound = Items::new(alloc);
    'specs: for spec in specs {
        bound.push(bound_spec(alloc, spec, schema)?)?;
    }
    Ok(bound)
}
