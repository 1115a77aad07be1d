//! Writing a manifest.

ghost use Rattle.std.specs.Prelude.{◌≡◌, ◌≤◌, [], ◌∷◌, ℕ, List, true, map, length, codes, string_bytes, Ok, Some, IfOk};
ghost use Rattle.std.specs.Fmt.{signed_decimal};
ghost use Rattle.std.specs.List.{AllByRecursion};
ghost use Rattle.serde_json.specs.Data.{array};
ghost use Rattle.serde_json.specs.Read.{read};
ghost use Rattle.serde_json.specs.View.{view, items_view};
ghost use Rattle.avro_schema.specs.Tree.{Tree};
ghost use Rattle.avro_file.specs.Header.{Property as Shown};
ghost use Rattle.avro_file.specs.Files.{HoldsFile};
ghost use Rattle.avro_file.specs.Property.{shown_properties};
ghost use Rattle.avro_file.specs.Writing.{in_order};
ghost use Rattle.avro_file.specs.Writers.{WasGiven, WillWrite};
ghost use Rattle.ice_meta.specs.Committing.{IsLong};
ghost use Rattle.ice_meta.specs.declared.spec.PartitionField.{PartitionField as FieldValue};
ghost use Rattle.ice_manifest.specs.declared.new_file.NewFile.{NewFile as FileValue};
ghost use Rattle.ice_manifest_reading.specs.declared.row.Row.{Row as RowValue};
ghost use Rattle.ice_manifest.specs.Adding.{IsId, IsHeading, AreNewFiles, is_tuple_of, lent};
ghost use Rattle.ice_manifest.specs.Fitting.{FileFits};
ghost use Rattle.ice_manifest_reading.specs.Manifests.{entries_of};
ghost use Rattle.ice_manifest.specs.WrittenTypes.{json_of, written_tree};
ghost use Rattle.ice_manifest.specs.WrittenValues.{entry_value};
ghost use Rattle.ice_manifest.specs.Writing.{schema_text, version_property, partition_field_json as json_of_field};
ghost use Rattle.ice_manifest.specs.Writing.{partition_fields_json as json_of_fields, spec_text as text_of_spec};
ghost use Rattle.ice_manifest.specs.Writing.{content_name, manifest_type as type_of_manifest, properties_with};
ghost use Rattle.ice_manifest.specs.Writing.{manifest_properties, manifest_bytes, new_entries};

use crate::file_writing::begun;
use crate::heading::Heading;
use crate::json::{no_object, set_text, whole};
use crate::new_file::NewFile;
use crate::written_entries::entry_datum;
use crate::written_schemas::manifest_type;
use avro_file::{Property, Writer};
use contract_words::Text;
use ice_manifest_reading::ManifestContent;
use ice_meta::{PartitionField, Spec};
use ice_meta_json::set;
use serde_json::Value;
use std::alloc::{AllocError, Global};

/// A partition field, as table metadata has it.
fn partition_field_json(alloc: Global, field: &PartitionField) -> Result<Value, AllocError>
    ensures { IfOk result (λ json. view json ≡ json_of_field field.now) }
{
    let json = set_text(
        alloc,
        no_object(alloc),
        "transform",
        field.transform.as_str(),
    )?;
    let json = set_text(alloc, json, "name", field.name.as_str())?;
    let json = set(alloc, json, "field-id", whole(field.field_id))?;
    set(alloc, json, "source-id", whole(field.source_id))
}

fn partition_fields_json(alloc: Global, fields: &[PartitionField]) -> Result<Vec<Value>, AllocError>
    ensures { IfOk result (λ all. items_view all.items ≡ json_of_fields fields.now) }
{
    let mut all = Vec::new(alloc);
    'fields: for field in fields {
        all.push(partition_field_json(alloc, field)?)?;
    }
    Ok(all)
}

/// The text of a spec's fields.
fn spec_text(alloc: Global, spec: &Spec) -> Result<String, AllocError>
    ensures { IfOk result (λ text. string_bytes text ≡ text_of_spec spec.now) }
{
    Value::from(partition_fields_json(alloc, spec.fields.as_slice())?).to_string(alloc)
}

/// The text of the schema of a manifest's entries.
fn manifest_schema(alloc: Global, heading: &Heading) -> Result<String, AllocError>
    requires { IsHeading heading.now }
    ensures text { IfOk result (λ text. string_bytes text ≡ schema_text (type_of_manifest heading.now)) }
    ensures read { IfOk result (λ text. read (string_bytes text) ≡ Some (json_of (type_of_manifest heading.now))) }
    ensures ids { IfOk result (λ _. AllByRecursion (λ (p : FieldValue). IsId p.field_id) heading.now.spec.fields) }
{
    manifest_type(alloc, heading)?.to_string(alloc)
}

fn name_of(content: ManifestContent) -> &'static [u8]
    ensures { result.now ≡ content_name content }
{
    match content {
        ManifestContent::Data => b"data",
        ManifestContent::Deletes => b"deletes",
    }
}

/// What a manifest's file says of the table, as texts.
#[derive(Debug, Drop)]
struct Texts {
    schema: Text,
    schema_id: Text,
    spec: Text,
    spec_id: Text,
}

fn texts_of(alloc: Global, heading: &Heading) -> Result<Texts, AllocError>
    ensures schema { IfOk result (λ texts. texts.schema ≡ heading.now.schema) }
    ensures schema_id { IfOk result (λ texts. texts.schema_id ≡ signed_decimal heading.now.schema_id) }
    ensures spec { IfOk result (λ texts. texts.spec ≡ text_of_spec heading.now.spec) }
    ensures spec_id { IfOk result (λ texts. texts.spec_id ≡ signed_decimal heading.now.spec.id) }
{
    Ok(Texts {
        schema: heading.schema.copy(alloc)?,
        schema_id: Text::from_string(heading.schema_id.to_string(alloc)?),
        spec: Text::from_string(spec_text(alloc, &heading.spec)?),
        spec_id: Text::from_string(heading.spec.id.to_string(alloc)?),
    })
}

/// The metadata of a manifest's file.
fn properties_of<'a>(texts: &'a Texts, content: ManifestContent) -> [Property<'a>; 6]
    ensures { shown_properties result ≡ properties_with texts.now.schema texts.now.schema_id texts.now.spec
        texts.now.spec_id content }
{
    [
        Property {
            key: b"schema",
            value: texts.schema.as_bytes(),
        },
        Property {
            key: b"schema-id",
            value: texts.schema_id.as_bytes(),
        },
        Property {
            key: b"partition-spec",
            value: texts.spec.as_bytes(),
        },
        Property {
            key: b"partition-spec-id",
            value: texts.spec_id.as_bytes(),
        },
        Property {
            key: b"format-version",
            value: b"2",
        },
        Property {
            key: b"content",
            value: name_of(content),
        },
    ]
}

/// A manifest without entries.
fn without_entries(alloc: Global, heading: &Heading) -> Result<Writer, AllocError>
    requires { IsHeading heading.now }
    ensures given { IfOk result (λ w. WasGiven w
        (in_order (schema_text (type_of_manifest heading.now)) (manifest_properties heading.now))
        (written_tree (type_of_manifest heading.now)) []) }
    ensures exact { IfOk result (λ w. WillWrite w
        (in_order (schema_text (type_of_manifest heading.now)) (manifest_properties heading.now)) heading.now.sync []) }
    ensures ids { IfOk result (λ _. AllByRecursion (λ (p : FieldValue). IsId p.field_id) heading.now.spec.fields) }
{
    let schema = manifest_schema(alloc, heading)?;
    let texts = texts_of(alloc, heading)?;
    let metadata = properties_of(&texts, heading.content);
    begun(alloc, schema.as_str(), &metadata, heading.sync)
}

/// The manifest with the entries of these files.
fn with_files(
    alloc: Global,
    writer: Writer,
    heading: &Heading,
    files: &[&NewFile],
) -> Result<Writer, AllocError>
    requires { AllByRecursion (λ (f : FileValue). is_tuple_of heading.now.types f.tuple ≡ true) (lent files.now) }
    ensures given { (ps : List Shown) (s : Tree) → WasGiven writer ps s []
        → IfOk result (λ w. WasGiven w ps s (map (entry_value heading.now) (lent files.now))) }
    ensures exact { (ps : List Shown) (sync : List ℕ) → WillWrite writer ps sync []
        → IfOk result (λ w. WillWrite w ps sync (map (entry_value heading.now) (lent files.now))) }
    ensures fits { IfOk result (λ _. AllByRecursion FileFits (lent files.now)) }
    ensures snapshot { IsLong heading.now.snapshot_id }
{
    let _snapshot = heading.snapshot_id;
    let mut writer = writer;
    'files: for file in files {
        let datum = entry_datum(alloc, heading, file)?;
        writer.push(alloc, &datum)?;
    }
    Ok(writer)
}

/// The bytes of a manifest with an entry for each of these files, in their order: each is added by the heading's
/// snapshot and has no sequence numbers, so that it inherits those of its manifest's row. The entries are read again
/// under a row of the heading's content.
pub fn write_manifest(
    alloc: Global,
    heading: &Heading,
    files: &[&NewFile],
) -> Result<Vec<u8>, AllocError>
    requires heading { IsHeading heading.now }
    requires files { AreNewFiles heading.now (lent files.now) }
    ensures bytes { IfOk result (λ bytes. bytes.items ≡ manifest_bytes heading.now (lent files.now)) }
    ensures holds { IfOk result (λ bytes. HoldsFile (written_tree (type_of_manifest heading.now))
        (map (entry_value heading.now) (lent files.now)) bytes.items) }
    ensures read_back { IfOk result (λ bytes. (row : RowValue) → row.content ≡ heading.now.content
        → entries_of row heading.now.spec bytes.items ≡ Ok (new_entries row heading.now 0 (lent files.now))) }
{
    let writer = without_entries(alloc, heading)?;
    let writer = with_files(alloc, writer, heading, files)?;
    writer.finish()
}
