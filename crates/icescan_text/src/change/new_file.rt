//! The files of a change.

ghost use Rattle.std.specs.Prelude.{◌≡◌};
ghost use Rattle.contract_words.specs.Outcome.{Gives};
ghost use Rattle.serde_json.specs.View.{view};
ghost use Rattle.icescan_text.specs.Changes.{as_delete_content, content_in, data_file_of, delete_file_of, file_of};
ghost use Rattle.icescan_text.specs.Changes.{new_file_of};

use crate::change::fault::{ChangeFault, ChangeMember};
use crate::change::members::{
    format_at, ids_at, int_at, kept_text_at, long_at, referenced_at, text_at, tuple_at,
};
use contract_words::Items;
use ice_manifest::NewFile;
use ice_value::FileContent;
use serde_json::Value;
use std::alloc::Global;

/// The kind of the files in an array of a change.
#[derive(Clone, Copy)]
pub enum FileKind {
    /// Data files.
    Data,
    /// Delete files.
    Deletes,
}

/// What is said of each file, as of a data file that names no other.
#[tactic(auto, unfolding(crate::specs::Changes::file_of))]
fn file_from(alloc: Global, json: &Value) -> Result<NewFile, ChangeFault>
    ensures { Gives ChangeFault.Memory (λ file. file) result (file_of (view json.now)) }
{
    Ok(NewFile {
        content: FileContent::Data,
        path: kept_text_at(alloc, json, ChangeMember::Path)?,
        format: format_at(alloc, json)?,
        spec_id: int_at(json, ChangeMember::SpecId)?,
        tuple: tuple_at(alloc, json)?,
        record_count: long_at(json, ChangeMember::RecordCount)?,
        file_size: long_at(json, ChangeMember::FileSize)?,
        equality_ids: Items::new(alloc),
        referenced: None,
    })
}

/// A data file.
#[tactic(auto, unfolding(crate::specs::Changes::data_file_of))]
fn data_file_from(alloc: Global, json: &Value) -> Result<NewFile, ChangeFault>
    ensures { Gives ChangeFault.Memory (λ file. file) result (data_file_of (view json.now)) }
{
    let said = file_from(alloc, json)?;
    let referenced = referenced_at(alloc, json)?;
    Ok(NewFile { referenced, ..said })
}

/// What a delete file deletes by.
#[tactic(auto, unfolding(crate::specs::Changes::content_in))]
fn content_at(json: &Value) -> Result<FileContent, ChangeFault>
    ensures { Gives ChangeFault.Memory (λ content. content) result (content_in (view json.now)) }
{
    match text_at(json, ChangeMember::Content)? {
        "position" => Ok(FileContent::PositionDeletes),
        "equality" => Ok(FileContent::EqualityDeletes),
        _ => Err(ChangeFault::Bad(ChangeMember::Content)),
    }
}

/// A delete file.
#[tactic(auto, unfolding(crate::specs::Changes::delete_file_of))]
fn delete_file_from(alloc: Global, json: &Value) -> Result<NewFile, ChangeFault>
    ensures { Gives ChangeFault.Memory (λ file. file) result (delete_file_of (view json.now)) }
{
    let file = file_from(alloc, json)?;
    Ok(NewFile {
        content: content_at(json)?,
        equality_ids: ids_at(alloc, json)?,
        referenced: referenced_at(alloc, json)?,
        ..file
    })
}

/// A file of a kind.
pub fn new_file_from(alloc: Global, json: &Value, kind: FileKind) -> Result<NewFile, ChangeFault>
    ensures { Gives ChangeFault.Memory (λ file. file) result (new_file_of kind (view json.now)) }
{
    match kind {
        FileKind::Data => data_file_from(alloc, json),
        FileKind::Deletes => delete_file_from(alloc, json),
    }
}
