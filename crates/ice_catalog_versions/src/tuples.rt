//! The partition values that new files may have.

ghost use Rattle.std.specs.Prelude.{◌≡◌, IfOk, map, fold, filter, option_map};
ghost use Rattle.std.specs.Option.{option_copied};
ghost use Rattle.ice_meta.specs.declared.spec.Spec.{Spec};
ghost use Rattle.ice_transform.specs.Values.{type_of};
ghost use Rattle.ice_project.specs.Fields.{transform_named, field_of};
ghost use Rattle.ice_project.specs.Summaries.{type_of_values};
ghost use Rattle.ice_manifest.specs.Adding.{is_partition_type};
ghost use Rattle.ice_catalog_versions.specs.Bases.{spec_in};
ghost use Rattle.ice_catalog_versions.specs.Outcome.{Refuses};
ghost use Rattle.ice_catalog_versions.specs.Refusals.{lesser_id, lesser_path, spec_id_of, is_unknown, is_wrong};
ghost use Rattle.ice_catalog_versions.specs.Refusals.{paths_where};
ghost use Rattle.ice_catalog_versions.specs.Refusals.{no_such_spec, wrong_tuple};
ghost use Rattle.ice_catalog_versions.specs.Partitionings.{specs_of};
ghost use Rattle.ice_catalog_versions.specs.Tuples.{allowed_of, allowed_of_type, allows, fit, fits_spec, written_type};

use crate::partitioning::Partitioning;
use crate::refusals::lesser_path;
use contract_words::{Items, Text};
use ice_catalog_changes::{Change, PrepareFault};
use ice_manifest::NewFile;
use ice_meta::{PartitionField, Spec};
use ice_project::transform_named;
use ice_value::{Cell, ColumnType};
use std::alloc::{AllocError, Global};

/// What the partition values of a field may be.
#[derive(Clone, Copy, Debug, PartialEq, Eq)]
pub enum Allowed {
    /// Null alone.
    Null,
    /// Null, or a value of this type.
    Value(ColumnType),
    /// No value can be written, and no null.
    Nothing,
}

/// Whether manifests can have partition values of the type.
fn is_partition_type(column_type: &ColumnType) -> bool
    ensures { result ≡ is_partition_type column_type.now }
{
    match column_type {
        ColumnType::Float | ColumnType::Double | ColumnType::Decimal { .. } => false,
        ColumnType::Fixed(size) => *size < 0x8000_0000,
        _ => true,
    }
}

/// The type of the values of the transform of this name over a source type.
fn type_over(
    alloc: Global,
    text: &str,
    source: &ColumnType,
) -> Result<Option<ColumnType>, AllocError>
    ensures { IfOk result (λ found. found ≡ type_of (transform_named text.now) source.now) }
{
    let transform = transform_named(alloc, text)?;
    Ok(transform.result_type(source))
}

/// The type of a field's values, where its transform gives one.
fn type_of_values(alloc: Global, field: &PartitionField) -> Result<Option<ColumnType>, AllocError>
    ensures { IfOk result (λ found. found ≡ type_of_values (field_of field.now)) }
{
    match &field.source_type {
        Some(source) => type_over(alloc, field.transform.as_str(), source),
        None => Ok(None),
    }
}

fn allowed_of_type(column_type: Option<ColumnType>) -> Allowed
    ensures { result ≡ allowed_of_type column_type }
{
    match column_type {
        Some(column_type) if is_partition_type(&column_type) => Allowed::Value(column_type),
        _ => Allowed::Nothing,
    }
}

/// What the partition values of a field may be.
fn allowed_of(alloc: Global, field: &PartitionField) -> Result<Allowed, AllocError>
    ensures { IfOk result (λ found. found ≡ allowed_of field.now) }
{
    if field.transform.as_str() == "void" {
        return Ok(Allowed::Null);
    }
    Ok(allowed_of_type(type_of_values(alloc, field)?))
}

/// What the partition values of each field may be.
pub fn each_allowed(alloc: Global, fields: &[PartitionField]) -> Result<Items<Allowed>, AllocError>
    ensures { IfOk result (λ found. found ≡ map allowed_of fields.now) }
{
    let mut found = Items::with_capacity(alloc, fields.len())?;
    'fields: for field in fields {
        found.push(allowed_of(alloc, field)?)?;
    }
    Ok(found)
}

/// The specs, with what their values may be.
pub fn partitionings<'a>(
    alloc: Global,
    specs: &'a [Spec],
) -> Result<Vec<Partitioning<'a>>, AllocError>
    ensures { IfOk result (λ found. specs_of found.items ≡ specs.now) }
{
    let mut found = Vec::with_capacity(alloc, specs.len())?;
    'specs: for spec in specs {
        found.push(Partitioning::new(alloc, spec)?)?;
    }
    Ok(found)
}

/// The spec of this id, with what its values may be.
pub fn partitioning_of<'a, 'b>(
    partitionings: &'b [Partitioning<'a>],
    id: i32,
) -> Option<&'b Partitioning<'a>>
    ensures { option_map (λ p. p.now.spec.now) result ≡ spec_in (specs_of partitionings.now) id }
{
    'partitionings: for partitioning in partitionings {
        if partitioning.spec.id == id {
            return Some(partitioning);
        }
    }
    None
}

impl Allowed {
    /// Whether the cell may be a value of the field.
    fn allows(self, cell: &Cell) -> bool
        ensures { result ≡ allows self cell.now }
    {
        match self {
            Allowed::Null => matches!(cell, Cell::Null),
            Allowed::Value(column_type) => matches!(cell, Cell::Null) || cell.is_of(&column_type),
            Allowed::Nothing => false,
        }
    }

    /// The type by which the values of the field are written.
    pub fn written_type(self) -> ColumnType
        ensures { result ≡ written_type self }
    {
        match self {
            Allowed::Value(column_type) => column_type,
            Allowed::Null | Allowed::Nothing => ColumnType::Int,
        }
    }
}

/// Whether there are as many cells as fields, each an allowed one.
fn fit(allowed: &[Allowed], tuple: &[Cell]) -> bool
    ensures { result ≡ fit allowed.now tuple.now }
{
    if allowed.len() != tuple.len() {
        return false;
    }
    'places: for place in 0..allowed.len() {
        if !allowed[place].allows(&tuple[place]) {
            return false;
        }
    }
    true
}

fn fits_spec(partitionings: &[Partitioning], file: &NewFile) -> bool
    ensures { result ≡ fits_spec (spec_in (specs_of partitionings.now) file.now.spec_id) file.now.tuple }
{
    match partitioning_of(partitionings, file.spec_id) {
        Some(partitioning) => fit(partitioning.allowed.as_slice(), file.tuple.as_slice()),
        None => false,
    }
}

fn lesser_id(least: Option<i32>, id: i32) -> Option<i32>
    ensures { result ≡ lesser_id least id }
{
    match least {
        None => Some(id),
        Some(least) => { if id < least { Some(id) } else { Some(least) } }
    }
}

/// The least id of a spec that isn't among these, and of the least so far.
fn least_unknown(
    mut least: Option<i32>,
    partitionings: &[Partitioning],
    files: &[NewFile],
) -> Option<i32>
    ensures { result
        ≡ fold lesser_id least (filter (is_unknown (specs_of partitionings.now)) (map spec_id_of files.now)) }
{
    'files: for file in files {
        if partitioning_of(partitionings, file.spec_id).is_none() {
            least = lesser_id(least, file.spec_id);
        }
    }
    least
}

/// Stops where a file names a spec that isn't among these.
pub fn check_specs(partitionings: &[Partitioning], change: &Change) -> Result<(), PrepareFault>
    ensures { Refuses result (no_such_spec (specs_of partitionings.now) change.now) }
{
    let least = least_unknown(None, partitionings, change.files.as_slice());
    match least_unknown(least, partitionings, change.deletes.as_slice()) {
        Some(id) => Err(PrepareFault::NoSuchSpec(id)),
        None => Ok(()),
    }
}

/// The least path of a file whose partition values don't fit its spec, and of the least so far.
fn least_wrong<'a>(
    mut least: Option<&'a Text>,
    partitionings: &[Partitioning],
    files: &'a [NewFile],
) -> Option<&'a Text>
    ensures { option_copied result
        ≡ fold lesser_path (option_copied least.entry) (paths_where (is_wrong (specs_of partitionings.now)) files.now) }
{
    'files: for file in files {
        if !fits_spec(partitionings, file) {
            least = lesser_path(least, &file.path);
        }
    }
    least
}

/// Stops where the partition values of a file don't fit its spec.
pub fn check_tuples(
    alloc: Global,
    partitionings: &[Partitioning],
    change: &Change,
) -> Result<(), PrepareFault>
    ensures { Refuses result (wrong_tuple (specs_of partitionings.now) change.now) }
{
    let least = least_wrong(None, partitionings, change.files.as_slice());
    match least_wrong(least, partitionings, change.deletes.as_slice()) {
        Some(path) => Err(PrepareFault::WrongTuple(path.copy(alloc)?)),
        None => Ok(()),
    }
}
