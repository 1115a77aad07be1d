//! Which file of a change is at fault.

use crate::case::Case;
use contract_words::Text;
use ice_catalog_changes::Change;
use ice_desk::Files;
use ice_meta::{Metadata, PartitionField, Spec, Target};
use icescan_hint_texts::{Hint, quoted};
use icescan_text::{ChangeFault, ChangeKind, ChangeMember, read_change};
use serde_json::Value;
use std::alloc::{AllocError, Global};

/// Whether a change of one file alone can be read.
fn is_read(alloc: Global, member: ChangeMember, file: &Value) -> Result<bool, AllocError> {
    let file = file.to_string(alloc)?;
    let file = file.as_str();
    let text = match member {
        ChangeMember::Deletes => format!(in alloc; "{{\"data\":[],\"deletes\":[{file}]}}")?,
        _ => format!(in alloc; "{{\"data\":[{file}],\"deletes\":[]}}")?,
    };
    let change = read_change(alloc, text.as_bytes(), ChangeKind::RowDelta).ok();
    let is_read = change.is_some();
    drop(change);
    Ok(is_read)
}

/// Which file of an array of the change file is at fault.
fn bad_file_text(
    alloc: Global,
    file: &Value,
    name: &str,
    place: usize,
) -> Result<String, AllocError> {
    match file.get("path").and_then(|path| path.as_str()) {
        Some(path) => {
            let path = quoted(alloc, path)?;
            format!(in alloc; "the file at fault is {path}, `{name}[{place}]` of the change file")
        }
        None => format!(in alloc; "the file at fault is `{name}[{place}]` of the change file"),
    }
}

/// Adds the first file of an array that can't be read. The answer says whether there is one.
fn add_first(
    hint: &mut Hint,
    alloc: Global,
    change: &Value,
    member: ChangeMember,
) -> Result<bool, AllocError> {
    let Some(files) = change.get(member.name()).and_then(|files| files.as_array()) else {
        return Ok(false);
    };
    for (place, file) in files.iter().enumerate() {
        if !is_read(alloc, member, file)? {
            hint.here(alloc, bad_file_text(alloc, file, member.name(), place)?)?;
            return Ok(true);
        }
    }
    Ok(false)
}

/// The JSON of the change file.
fn change_json<F: Files>(alloc: Global, case: &Case<'_, F>) -> Option<Value> {
    let bytes = case.read(alloc, case.commit()?.change.as_str())?;
    let text = str::from_utf8(&bytes).ok()?;
    Value::from_str(alloc, text).ok()
}

/// Adds the first file of a change that can't be read.
fn add_first_of_both(hint: &mut Hint, alloc: Global, change: &Value) -> Result<(), AllocError> {
    if !add_first(hint, alloc, change, ChangeMember::Data)? {
        add_first(hint, alloc, change, ChangeMember::Deletes)?;
    }
    Ok(())
}

/// Adds which file of the change file is at fault.
pub fn add_bad_file<F: Files>(
    hint: &mut Hint,
    alloc: Global,
    case: &Case<'_, F>,
    fault: ChangeFault,
) -> Result<(), AllocError> {
    if let ChangeFault::Bad(ChangeMember::Data | ChangeMember::Deletes) = fault {
        return Ok(());
    }
    let Some(change) = change_json(alloc, case) else {
        return Ok(());
    };
    let added = add_first_of_both(hint, alloc, &change);
    drop(change);
    added
}

/// The change that is to be committed.
fn change_of<F: Files>(alloc: Global, case: &Case<'_, F>) -> Option<Change> {
    let request = case.commit()?;
    let bytes = case.read(alloc, request.change.as_str())?;
    read_change(alloc, &bytes, request.kind).ok()
}

/// The spec of the file of a change at a path, and how many values its partition has.
fn partition_at(change: &Change, path: &Text) -> Option<(i32, usize)> {
    let data = change.files.as_slice().iter();
    let deletes = change.deletes.as_slice().iter();
    let file = data.chain(deletes).find(|file| file.path == *path)?;
    Some((file.spec_id, file.tuple.as_slice().len()))
}

/// The name of the column of an id in the current schema, or else the id.
fn source_name(alloc: Global, metadata: &Metadata, id: i32) -> Result<String, AllocError> {
    let schema = metadata.schema_for(&Target::Main);
    let column = schema
        .columns
        .as_slice()
        .iter()
        .find(|column| column.id == id);
    match column.and_then(|column| column.name.as_ref()) {
        Some(name) => quoted(alloc, name.as_str()),
        None => format!(in alloc; "column {id}"),
    }
}

/// A partition field, its transform and its column.
fn field_text(
    alloc: Global,
    metadata: &Metadata,
    field: &PartitionField,
) -> Result<String, AllocError> {
    let name = quoted(alloc, field.name.as_str())?;
    let source = source_name(alloc, metadata, field.source_id)?;
    format!(in alloc; "{name} ({} of {source})", field.transform.as_str())
}

/// The fields of a spec, each with its transform and its column.
fn fields_text(alloc: Global, metadata: &Metadata, spec: &Spec) -> Result<String, AllocError> {
    let mut text = String::new(alloc);
    for field in spec.fields.as_slice() {
        if !text.is_empty() {
            text.push_str(", ")?;
        }
        text.push_str(field_text(alloc, metadata, field)?.as_str())?;
    }
    if text.is_empty() {
        text.push_str("none")?;
    }
    Ok(text)
}

/// The fields of the spec of an id, where the metadata has one.
fn listed_spec(
    alloc: Global,
    metadata: &Metadata,
    spec_id: i32,
) -> Result<Option<String>, AllocError> {
    match metadata.spec(alloc, spec_id, metadata.schema_for(&Target::Main))? {
        Some(spec) => {
            let text = fields_text(alloc, metadata, &spec);
            drop(spec);
            Ok(Some(text?))
        }
        None => Ok(None),
    }
}

/// The fields of the spec of an id, where the metadata can be read and has one.
fn spec_text<F: Files>(
    alloc: Global,
    case: &Case<'_, F>,
    spec_id: i32,
) -> Result<Option<String>, AllocError> {
    match case.metadata(alloc) {
        Some(metadata) => {
            let text = listed_spec(alloc, &metadata, spec_id);
            drop(metadata);
            text
        }
        None => Ok(None),
    }
}

/// Adds the fields of the spec of an id, and how many values a partition has.
fn add_spec_fields<F: Files>(
    hint: &mut Hint,
    alloc: Global,
    case: &Case<'_, F>,
    spec_id: i32,
    values: usize,
) -> Result<(), AllocError> {
    match spec_text(alloc, case, spec_id)? {
        Some(fields) => hint.here(
            alloc,
            format!(in alloc;
                "the fields of spec {spec_id}: {fields}; values in the file's partition: {values}"
            )?,
        ),
        None => Ok(()),
    }
}

/// Adds the fields of the spec by which the file at a path is written.
pub fn add_fields<F: Files>(
    hint: &mut Hint,
    alloc: Global,
    case: &Case<'_, F>,
    path: &Text,
) -> Result<(), AllocError> {
    let Some(change) = change_of(alloc, case) else {
        return Ok(());
    };
    let partition = partition_at(&change, path);
    drop(change);
    match partition {
        Some((spec_id, values)) => add_spec_fields(hint, alloc, case, spec_id, values),
        None => Ok(()),
    }
}
