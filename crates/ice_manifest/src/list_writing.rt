//! Writing a manifest list.

ghost use Rattle.std.specs.Prelude.{◌≡◌, ◌≤◌, [], ◌∷◌, ℕ, List, map, length, codes, string_bytes, Ok, Some, IfOk};
ghost use Rattle.std.specs.List.{AllByRecursion};
ghost use Rattle.std.specs.List.Sorted.{IsStrictlySortedBy};
ghost use Rattle.serde_json.specs.Read.{read};
ghost use Rattle.avro_schema.specs.Tree.{Tree};
ghost use Rattle.avro_file.specs.Header.{Property as Shown};
ghost use Rattle.avro_file.specs.Files.{HoldsFile};
ghost use Rattle.avro_file.specs.Writing.{in_order};
ghost use Rattle.avro_file.specs.Writers.{WasGiven, WillWrite};
ghost use Rattle.ice_manifest_reading.specs.Lists.{rows_of, path_order};
ghost use Rattle.ice_manifest.specs.WrittenTypes.{json_of, written_tree};
ghost use Rattle.ice_manifest.specs.WrittenSchemas.{list_type as type_of_row};
ghost use Rattle.ice_manifest.specs.WrittenValues.{row_value};
ghost use Rattle.ice_manifest.specs.Fitting.{RowFits, IsReadable};
ghost use Rattle.ice_manifest.specs.Writing.{schema_text, version_property, list_bytes};

use crate::file_writing::begun;
use crate::written_schemas::list_type;
use crate::written_values::row_datum;
use avro_file::{Property, Writer};
use ice_manifest_reading::Row;
use std::alloc::{AllocError, Global};

/// The text of the schema of a list's rows.
fn list_schema(alloc: Global) -> Result<String, AllocError>
    ensures text { IfOk result (λ text. string_bytes text ≡ schema_text type_of_row) }
    ensures read { IfOk result (λ text. read (string_bytes text) ≡ Some (json_of type_of_row)) }
{
    list_type(alloc)?.to_string(alloc)
}

/// A list without rows.
fn without_rows(alloc: Global, sync: [u8; 16]) -> Result<Writer, AllocError>
    ensures given { IfOk result (λ w. WasGiven w (in_order (schema_text type_of_row) (version_property ∷ []))
        (written_tree type_of_row) []) }
    ensures exact { IfOk result (λ w.
        WillWrite w (in_order (schema_text type_of_row) (version_property ∷ [])) sync []) }
{
    let schema = list_schema(alloc)?;
    let version = Property {
        key: b"format-version",
        value: b"2",
    };
    begun(alloc, schema.as_str(), &[version], sync)
}

/// The list with these rows.
fn with_rows(alloc: Global, writer: Writer, rows: &[Row]) -> Result<Writer, AllocError>
    ensures given { (ps : List Shown) (s : Tree) → WasGiven writer ps s []
        → IfOk result (λ w. WasGiven w ps s (map row_value rows.now)) }
    ensures exact { (ps : List Shown) (sync : List ℕ) → WillWrite writer ps sync []
        → IfOk result (λ w. WillWrite w ps sync (map row_value rows.now)) }
    ensures fits { IfOk result (λ _. AllByRecursion RowFits rows.now) }
{
    let mut writer = writer;
    'rows: for row in rows {
        let datum = row_datum(alloc, row)?;
        writer.push(alloc, &datum)?;
    }
    Ok(writer)
}

/// The bytes of a manifest list with these rows, in their order, and this marker, which no other file should have. All
/// rows that can be read are read again, where no two of them have one path and they are in the order of the paths.
pub fn write_list(alloc: Global, rows: &[Row], sync: [u8; 16]) -> Result<Vec<u8>, AllocError>
    ensures bytes { IfOk result (λ bytes. bytes.items ≡ list_bytes rows.now sync) }
    ensures holds { AllByRecursion IsReadable rows.now
        → IfOk result (λ bytes. HoldsFile (written_tree type_of_row) (map row_value rows.now) bytes.items) }
    ensures read_back { AllByRecursion IsReadable rows.now → IsStrictlySortedBy path_order rows.now
        → length rows.now ≤ 65536 → IfOk result (λ bytes. rows_of bytes.items ≡ Ok rows.now) }
{
    let writer = with_rows(alloc, without_rows(alloc, sync)?, rows)?;
    writer.finish()
}
