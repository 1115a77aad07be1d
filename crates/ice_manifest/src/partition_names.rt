//! What partition fields are called in a manifest.

ghost use Rattle.std.specs.Prelude.{◌≡◌, ◌++◌, [], ℕ, List, IfOk, OnOk, codes, chars, string_bytes, map};
ghost use Rattle.std.specs.Fmt.{signed_decimal};
ghost use Rattle.ice_manifest.specs.Adding.{IsId};
ghost use Rattle.ice_meta.specs.declared.spec.PartitionField.{PartitionField as DeclaredField};
ghost use Rattle.ice_manifest.specs.PartitionNames.{spelled, before, avro_name as name_in_avro};
ghost use Rattle.ice_manifest.specs.PartitionNames.{are_apart as names_are_apart, naming_of as naming_for};
ghost use Rattle.ice_manifest.specs.PartitionNames.{field_name as name_of_field};

use contract_words::Text;
use ice_meta::PartitionField;
use std::alloc::{AllocError, Global};

/// How a manifest calls the partition fields of its spec.
#[derive(Clone, Copy, Debug, PartialEq, Eq)]
pub enum Naming {
    /// By their own names, as Avro spells them.
    Own,
    /// By their ids.
    Numbered,
}

/// A letter and the id of a partition field.
#[tactic(auto, using(crate::proofs::Ids::is_id))]
pub fn with_id(alloc: Global, letter: &str, id: i32) -> Result<String, AllocError>
    ensures id { IsId id }
    ensures name { IfOk result (λ name. string_bytes name ≡ letter.now ++ signed_decimal id) }
{
    format!(in alloc; "{letter}{id}")
}

/// A character behind what stands of an Avro name.
fn push_spelled(alloc: Global, name: &mut String, c: char) -> Result<(), AllocError>
    ensures { OnOk result (string_bytes name.new ≡ string_bytes name.old ++ spelled c) }
{
    if c.is_ascii_alphanumeric() || c == '_' {
        name.push(c)
    } else {
        name.push_str(format!(in alloc; "_x{:X}", c as u32)?.as_str())
    }
}

/// What stands before the spelling of a name.
fn before_name(name: &str) -> &'static str
    ensures { result.now ≡ before (chars name.now) }
{
    match name.chars().next() {
        Some(c) if c.is_ascii_digit() => "_",
        _ => "",
    }
}

/// A name as Avro spells it.
#[tactic(auto, unfolding(crate::specs::PartitionNames::avro_name))]
fn avro_name(alloc: Global, name: &str) -> Result<String, AllocError>
    ensures { IfOk result (λ said. string_bytes said ≡ name_in_avro name.now) }
{
    let mut said = String::from_str(alloc, before_name(name))?;
    'characters: for c in name.chars() {
        push_spelled(alloc, &mut said, c)?;
    }
    Ok(said)
}

/// The names of the fields as Avro spells them.
fn avro_names(alloc: Global, fields: &[PartitionField]) -> Result<Vec<Text>, AllocError>
    ensures { IfOk result (λ names. names.items ≡ map (λ (p : DeclaredField). name_in_avro p.name) fields.now) }
{
    let mut names = Vec::with_capacity(alloc, fields.len())?;
    'fields: for field in fields {
        names.push(Text::from_string(avro_name(alloc, field.name.as_str())?))?;
    }
    Ok(names)
}

/// Whether no name is empty and no two are alike.
fn are_apart(names: &[Text]) -> bool
    ensures { result ≡ names_are_apart names.now }
{
    match names.split_first() {
        None => true,
        Some((first, others)) => {
            !first.as_bytes().is_empty() && !others.contains(first) && are_apart(others)
        }
    }
}

/// How a manifest calls the fields of its spec.
pub fn naming_of(alloc: Global, fields: &[PartitionField]) -> Result<Naming, AllocError>
    ensures { IfOk result (λ naming. naming ≡ naming_for fields.now) }
{
    if are_apart(avro_names(alloc, fields)?.as_slice()) {
        Ok(Naming::Own)
    } else {
        Ok(Naming::Numbered)
    }
}

/// What a manifest calls a field.
pub fn field_name(
    alloc: Global,
    naming: Naming,
    field: &PartitionField,
) -> Result<String, AllocError>
    ensures { IfOk result (λ name. string_bytes name ≡ name_of_field naming field.now) }
{
    match naming {
        Naming::Own => avro_name(alloc, field.name.as_str()),
        Naming::Numbered => with_id(alloc, "p", field.field_id),
    }
}
