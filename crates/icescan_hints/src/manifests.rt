//! What of a manifest list or a manifest is at fault.

use crate::case::Case;
use crate::fields::field_name;
use crate::paths::add_named;
use contract_words::Text;
use ice_desk::Files;
use ice_manifest_reading::{EntryView, Keep, ListFault, Live, ManifestFault, Row, read_kept};
use ice_meta::{Metadata, Spec, Target};
use icescan_hint_texts::{Hint, quoted};
use icescan_words::{Command, Lists};
use std::alloc::{AllocError, Global};
use std::cell::Cell;

/// Keeps no entry, and remembers the position of the last that was read.
#[derive(Drop)]
struct LastRead {
    position: Cell<Option<u64>>,
}

impl Keep for LastRead {
    ghost use Rattle.std.specs.Prelude.{false};

    ghost kept = { λ last live. false };

    fn keeps(&self, _live: &Live<'_, '_>) -> bool {
        false
    }

    fn without_columns(&self, entry: &EntryView<'_>) -> Option<bool> {
        self.position.set(Some(entry.lent().position));
        Some(false)
    }
}

/// The position of the last live entry of a row's manifest that can be read.
fn last_read(alloc: Global, row: &Row, spec: &Spec, bytes: &[u8]) -> Option<u64> {
    let last = LastRead {
        position: Cell::new(None),
    };
    drop(read_kept(alloc, row, spec, &last, bytes));
    last.position.get()
}

/// The manifest list of a snapshot.
fn listed<'a>(metadata: &'a Option<Metadata>, target: &Target) -> Option<&'a str> {
    let list = metadata.as_ref()?.manifest_list(target).ok()?;
    Some(list.as_str())
}

/// The manifest list that is read.
fn list_of<'a, F: Files>(case: &Case<'a, F>, metadata: &'a Option<Metadata>) -> Option<&'a str> {
    match case.asked {
        Command::ListPlan(Lists::Folder(_, list), _) => Some(list.as_str()),
        Command::ListPlan(Lists::Bundle(list), _) => Some(list.as_ref()?.as_str()),
        _ => listed(metadata, case.target()?),
    }
}

/// The partition spec of a row; for a list that is planned without metadata it has no fields.
fn spec_of<F: Files>(
    alloc: Global,
    case: &Case<'_, F>,
    metadata: &Option<Metadata>,
    row: &Row,
) -> Option<Spec> {
    let Some(metadata) = metadata else {
        return Some(Spec::empty(alloc, row.spec_id));
    };
    let schema = metadata.schema_for(case.target()?);
    metadata.spec(alloc, row.spec_id, schema).ok()?
}

/// The row of the manifest at a path.
fn row_at<F: Files>(
    alloc: Global,
    case: &Case<'_, F>,
    metadata: &Option<Metadata>,
    path: &Text,
) -> Option<Row> {
    let rows = case.rows(alloc, list_of(case, metadata)?)?;
    let row = rows.iter().find(|row| row.path == *path)?;
    row.copy(alloc).ok()
}

/// Adds the name of the field of an id.
fn add_field(hint: &mut Hint, alloc: Global, id: i32) -> Result<(), AllocError> {
    match field_name(id) {
        Some(name) => hint.here(alloc, format!(in alloc; "the field {id} is `{name}`")?),
        None => Ok(()),
    }
}

/// Adds the position of the last entry that can be read, where there is one.
fn add_position(hint: &mut Hint, alloc: Global, last: Option<u64>) -> Result<(), AllocError> {
    match last {
        Some(position) => hint.here(
            alloc,
            format!(in alloc; "the entry at position {position} is the last that can be read")?,
        ),
        None => Ok(()),
    }
}

/// The position of the last entry of a row's manifest that can be read, where its spec is known.
fn last_of<F: Files>(
    alloc: Global,
    case: &Case<'_, F>,
    metadata: &Option<Metadata>,
    row: &Row,
    bytes: &[u8],
) -> Option<u64> {
    let spec = spec_of(alloc, case, metadata, row)?;
    let last = last_read(alloc, row, &spec, bytes);
    drop(spec);
    last
}

/// The position of the last entry of the manifest at a path that can be read.
fn last_position<F: Files>(
    alloc: Global,
    case: &Case<'_, F>,
    metadata: &Option<Metadata>,
    path: &Text,
) -> Option<u64> {
    let bytes = case.read(alloc, path.as_str())?;
    let row = row_at(alloc, case, metadata, path)?;
    let last = last_of(alloc, case, metadata, &row, &bytes);
    drop(row);
    last
}

/// Adds what of the manifest at a path is at fault.
pub fn add_manifest<F: Files>(
    hint: &mut Hint,
    alloc: Global,
    case: &Case<'_, F>,
    path: &Text,
    fault: &ManifestFault,
) -> Result<(), AllocError> {
    add_named(hint, alloc, "the manifest", path.as_str())?;
    match fault {
        ManifestFault::MissingField(id)
        | ManifestFault::WrongFieldType(id)
        | ManifestFault::OutOfRange(id) => add_field(hint, alloc, *id)?,
        _ => {}
    }
    let metadata = case.metadata(alloc);
    let last = last_position(alloc, case, &metadata, path);
    drop(metadata);
    add_position(hint, alloc, last)
}

/// Adds what of the manifest list is at fault.
pub fn add_list<F: Files>(
    hint: &mut Hint,
    alloc: Global,
    case: &Case<'_, F>,
    fault: &ListFault,
) -> Result<(), AllocError> {
    let metadata = case.metadata(alloc);
    if let Some(list) = list_of(case, &metadata) {
        let name = quoted(alloc, list)?;
        hint.here(alloc, format!(in alloc; "the manifest list is {name}")?)?;
    }
    match fault {
        ListFault::MissingField(id) | ListFault::WrongFieldType(id) | ListFault::OutOfRange(id) =>
            add_field(hint, alloc, *id),
        _ => Ok(()),
    }
}
