//! The file that says which files a commit adds.

ghost use Rattle.std.specs.Prelude.{◌≡◌};
ghost use Rattle.contract_words.specs.Outcome.{Gives};
ghost use Rattle.serde_json.specs.View.{items_view, view};
ghost use Rattle.icescan_text.specs.Changes.{allowed, change_in, change_of, each, json_of, new_file_of, text_json};

mod fault;
mod members;
mod new_file;

use crate::change::members::objects_at;
use crate::change::new_file::{FileKind, new_file_from};
use contract_words::Items;
pub use fault::{ChangeFault, ChangeMember};
use ice_catalog_changes::Change;
use ice_manifest::NewFile;
use serde_json::{Category, Value};
use std::alloc::Global;

/// What a commit may add.
#[derive(Clone, Copy, Debug, PartialEq, Eq)]
pub enum ChangeKind {
    /// Data files alone.
    Append,
    /// Data files and delete files.
    RowDelta,
}

/// The JSON of a text in UTF-8.
fn json_from(alloc: Global, bytes: &[u8]) -> Result<Value, ChangeFault>
    ensures { Gives ChangeFault.Memory view result (text_json bytes.now) }
{
    let Ok(text) = str::from_utf8(bytes) else {
        return Err(ChangeFault::NotJson);
    };
    match Value::from_str(alloc, text) {
        Ok(json) => Ok(json),
        Err(e) => match e.classify() {
            Category::Memory => Err(ChangeFault::Memory),
            _ => Err(ChangeFault::NotJson),
        },
    }
}

/// The JSON object of a text in UTF-8.
fn object_from(alloc: Global, bytes: &[u8]) -> Result<Value, ChangeFault>
    ensures { Gives ChangeFault.Memory view result (json_of bytes.now) }
{
    let json = json_from(alloc, bytes)?;
    if json.is_object() {
        Ok(json)
    } else {
        Err(ChangeFault::NotJson)
    }
}

/// Stops at an append with delete files.
fn check_allowed(kind: ChangeKind, deletes: &Vec<Value>) -> Result<(), ChangeFault>
    ensures { Gives ChangeFault.Memory (λ u. u) result (allowed kind (items_view deletes.now.items)) }
{
    if kind == ChangeKind::Append && !deletes.as_slice().is_empty() {
        return Err(ChangeFault::Bad(ChangeMember::Deletes));
    }
    Ok(())
}

/// The files of an array, of this kind.
fn files_from(
    alloc: Global,
    items: &Vec<Value>,
    kind: FileKind,
) -> Result<Items<NewFile>, ChangeFault>
    ensures { Gives ChangeFault.Memory (λ files. files) result (each (new_file_of kind) (items_view items.now.items)) }
{
    let mut files = Items::new(alloc);
    'files: for item in items {
        files.push(new_file_from(alloc, item, kind)?)?;
    }
    Ok(files)
}

/// The change of an object.
#[tactic(auto, unfolding(crate::specs::Changes::change_in))]
fn change_from(alloc: Global, json: &Value, kind: ChangeKind) -> Result<Change, ChangeFault>
    ensures { Gives ChangeFault.Memory (λ change. change) result (change_in kind (view json.now)) }
{
    let data = objects_at(json, ChangeMember::Data)?;
    let deletes = objects_at(json, ChangeMember::Deletes)?;
    check_allowed(kind, deletes)?;
    Ok(Change {
        files: files_from(alloc, data, FileKind::Data)?,
        deletes: files_from(alloc, deletes, FileKind::Deletes)?,
    })
}

/// The change that a file says, or its first fault in the order in which its members are read: both arrays, whether
/// there may be delete files, and then file by file.
#[tactic(auto, unfolding(crate::specs::Changes::change_of))]
pub fn read_change(alloc: Global, bytes: &[u8], kind: ChangeKind) -> Result<Change, ChangeFault>
    ensures { Gives ChangeFault.Memory (λ change. change) result (change_of kind bytes.now) }
{
    let json = object_from(alloc, bytes)?;
    change_from(alloc, &json, kind)
}
