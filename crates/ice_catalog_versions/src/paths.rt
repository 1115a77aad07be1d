//! The paths of the files that a commit adds.

ghost use Rattle.std.specs.Prelude.{◌≡◌, ◌++◌, IfOk, codes, string_bytes};
ghost use Rattle.std.specs.Fmt.{signed_decimal};
ghost use Rattle.ice_catalog_versions.specs.Adding.{metadata_path, manifest_name, list_name, manifest_path, list_path};

use contract_words::Text;
use ice_catalog_changes::Ids;
use ice_meta::Table;
use std::alloc::{AllocError, Global};
use uuid::Uuid;

/// The path of a file of this name in the table's folder for metadata.
fn metadata_path(alloc: Global, table: &Table, name: &str) -> Result<Text, AllocError>
    ensures { IfOk result (λ path. path ≡ metadata_path table.now name.now) }
{
    let location = table.location.as_str();
    let path = format!(in alloc; "{location}/metadata/{name}")?;
    Ok(Text::from_string(path))
}

fn manifest_name(alloc: Global, ids: &Ids, number: usize) -> Result<Text, AllocError>
    ensures { IfOk result (λ name. name ≡ manifest_name ids.now number) }
{
    let mut buffer = Uuid::encode_buffer();
    let uuid = ids.uuid.hyphenated().encode_lower(&mut buffer);
    let name = format!(in alloc; "{uuid}-m{number}.avro")?;
    Ok(Text::from_string(name))
}

fn number_text(alloc: Global, number: i64) -> Result<String, AllocError>
    ensures { IfOk result (λ text. string_bytes text ≡ signed_decimal number) }
{
    format!(in alloc; "{number}")
}

/// The name of the list of a snapshot's id and a uuid.
fn list_name_of(alloc: Global, snapshot: &str, uuid: &str) -> Result<Text, AllocError>
    ensures { IfOk result (λ name. name ≡ codes "snap-" ++ snapshot.now ++ codes "-" ++ uuid.now ++ codes ".avro") }
{
    let name = format!(in alloc; "snap-{snapshot}-{uuid}.avro")?;
    Ok(Text::from_string(name))
}

fn list_name(alloc: Global, ids: &Ids) -> Result<Text, AllocError>
    ensures { IfOk result (λ name. name ≡ list_name ids.now) }
{
    let mut buffer = Uuid::encode_buffer();
    let uuid = ids.uuid.hyphenated().encode_lower(&mut buffer);
    let snapshot = number_text(alloc, ids.snapshot)?;
    list_name_of(alloc, snapshot.as_str(), uuid)
}

/// The path of the new manifest of this number.
#[tactic(auto, unfolding(crate::specs::Adding::manifest_path))]
pub fn manifest_path(
    alloc: Global,
    table: &Table,
    ids: &Ids,
    number: usize,
) -> Result<Text, AllocError>
    ensures { IfOk result (λ path. path ≡ manifest_path table.now ids.now number) }
{
    metadata_path(alloc, table, manifest_name(alloc, ids, number)?.as_str())
}

/// The path of the new manifest list.
#[tactic(auto, unfolding(crate::specs::Adding::list_path))]
pub fn list_path(alloc: Global, table: &Table, ids: &Ids) -> Result<Text, AllocError>
    ensures { IfOk result (λ path. path ≡ list_path table.now ids.now) }
{
    metadata_path(alloc, table, list_name(alloc, ids)?.as_str())
}
