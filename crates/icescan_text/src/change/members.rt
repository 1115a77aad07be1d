//! Members of a change file's objects, by their names and kinds.

ghost use Rattle.std.specs.Prelude.{◌≡◌, codes, option_and_then, option_map, IfOk, Ok};
ghost use Rattle.contract_words.specs.Outcome.{Gives};
ghost use Rattle.serde_json.specs.Find.{as_str, get};
ghost use Rattle.serde_json.specs.View.{items_view, view};
ghost use Rattle.ice_meta.specs.Members.{all_objects, if_int};
ghost use Rattle.icescan_text.specs.Changes.{as_bytes, as_cell, as_format, as_int, as_long, as_objects, asked, each};
ghost use Rattle.icescan_text.specs.Changes.{ids_in, ids_of};
ghost use Rattle.icescan_text.specs.Changes.{needed, referenced_in, there, tuple_in};
ghost use Rattle.ice_value.specs.declared.cell.Cell.TheVariants as cell;

use crate::change::fault::{ChangeFault, ChangeMember};
use contract_words::{Items, Text};
use hex::FromHexError;
use ice_value::{Cell, FileFormat};
use serde_json::Value;
use std::alloc::{AllocError, Global};

/// The value of a member.
fn there<'a>(json: &'a Value, member: ChangeMember) -> Result<&'a Value, ChangeFault>
    ensures { Gives ChangeFault.Memory (λ value. view value.now) result (there member (view json.now)) }
{
    match json.get(member.name()) {
        Some(value) => Ok(value),
        None => Err(ChangeFault::Bad(member)),
    }
}

/// A whole number of 64 bits.
pub fn long_at(json: &Value, member: ChangeMember) -> Result<i64, ChangeFault>
    ensures { Gives ChangeFault.Memory (λ number. number) result (needed as_long member (view json.now)) }
{
    match there(json, member)?.as_i64() {
        Some(number) => Ok(number),
        None => Err(ChangeFault::Bad(member)),
    }
}

fn if_int(number: i64) -> Option<i32>
    ensures { result ≡ if_int number }
{
    if number < -2147483648 || number > 2147483647 {
        None
    } else {
        Some(number as i32)
    }
}

fn as_int(json: &Value) -> Option<i32>
    ensures { result ≡ as_int (view json.now) }
{
    if_int(json.as_i64()?)
}

/// A whole number of 32 bits.
pub fn int_at(json: &Value, member: ChangeMember) -> Result<i32, ChangeFault>
    ensures { Gives ChangeFault.Memory (λ number. number) result (needed as_int member (view json.now)) }
{
    match as_int(there(json, member)?) {
        Some(number) => Ok(number),
        None => Err(ChangeFault::Bad(member)),
    }
}

/// A text.
pub fn text_at<'a>(json: &'a Value, member: ChangeMember) -> Result<&'a str, ChangeFault>
    ensures { Gives ChangeFault.Memory (λ text. text.now) result (needed as_str member (view json.now)) }
{
    match there(json, member)?.as_str() {
        Some(text) => Ok(text),
        None => Err(ChangeFault::Bad(member)),
    }
}

/// The same text.
fn kept(alloc: Global, text: &str) -> Result<Text, AllocError>
    ensures { IfOk result (λ kept. kept ≡ text.now) }
{
    Ok(Text::from_string(String::from_str(alloc, text)?))
}

/// A text that is kept.
pub fn kept_text_at(alloc: Global, json: &Value, member: ChangeMember) -> Result<Text, ChangeFault>
    ensures { Gives ChangeFault.Memory (λ text. text) result (needed as_str member (view json.now)) }
{
    Ok(kept(alloc, text_at(json, member)?)?)
}

/// The name of a file format, kept as it is written. Readers refuse a table whose files are in any other.
pub fn format_at(alloc: Global, json: &Value) -> Result<Text, ChangeFault>
    ensures { Gives ChangeFault.Memory (λ text. text) result (needed as_format ChangeMember.Format (view json.now)) }
{
    let name = text_at(json, ChangeMember::Format)?;
    match FileFormat::parse(name) {
        Some(_) => Ok(kept(alloc, name)?),
        None => Err(ChangeFault::Bad(ChangeMember::Format)),
    }
}

fn all_objects(items: &Vec<Value>) -> bool
    ensures { result ≡ all_objects (items_view items.now.items) }
{
    'items: for item in items {
        if !item.is_object() {
            return false;
        }
    }
    true
}

/// The objects of an array.
pub fn objects_at<'a>(json: &'a Value, member: ChangeMember) -> Result<&'a Vec<Value>, ChangeFault>
    ensures { Gives ChangeFault.Memory (λ items. items_view items.now.items) result
        (needed as_objects member (view json.now)) }
{
    match there(json, member)?.as_array() {
        Some(items) if all_objects(items) => Ok(items),
        _ => Err(ChangeFault::Bad(member)),
    }
}

/// The bytes of a text of hexadecimal digits.
fn bytes_of(alloc: Global, json: &Value) -> Result<Option<Items<u8>>, ChangeFault>
    ensures { Gives ChangeFault.Memory (λ bytes. bytes) result (Ok (as_bytes (view json.now))) }
{
    let Some(digits) = json.as_str() else {
        return Ok(None);
    };
    match hex::decode(alloc, digits) {
        Ok(bytes) => Ok(Some(Items::from_vec(bytes))),
        Err(FromHexError::OutOfMemory) => Err(ChangeFault::Memory),
        Err(_) => Ok(None),
    }
}

/// The bytes of an object with hexadecimal digits.
fn bytes_at(alloc: Global, json: &Value) -> Result<Cell, ChangeFault>
    ensures { Gives ChangeFault.Memory (λ cell. cell) result (asked ChangeMember.Partition
        (option_map cell.Bytes (option_and_then as_bytes (get (codes "hex") (view json.now))))) }
{
    let Some(digits) = json.get("hex") else {
        return Err(ChangeFault::Bad(ChangeMember::Partition));
    };
    match bytes_of(alloc, digits)? {
        Some(bytes) => Ok(Cell::Bytes(bytes)),
        None => Err(ChangeFault::Bad(ChangeMember::Partition)),
    }
}

/// A partition value.
#[tactic(auto, unfolding(crate::specs::Changes::as_cell))]
fn cell_from(alloc: Global, json: &Value) -> Result<Cell, ChangeFault>
    ensures { Gives ChangeFault.Memory (λ cell. cell) result (asked ChangeMember.Partition (as_cell (view json.now))) }
{
    match json {
        Value::Null => Ok(Cell::Null),
        Value::Bool(flag) => Ok(Cell::Bool(*flag)),
        Value::Number(_) => match json.as_i64() {
            Some(number) => Ok(Cell::Whole(number)),
            None => Err(ChangeFault::Bad(ChangeMember::Partition)),
        },
        Value::String(text) => Ok(Cell::Text(kept(alloc, text.as_str())?)),
        Value::Array(_) => Err(ChangeFault::Bad(ChangeMember::Partition)),
        Value::Object(_) => bytes_at(alloc, json),
    }
}

fn each_cell(alloc: Global, items: &Vec<Value>) -> Result<Items<Cell>, ChangeFault>
    ensures { Gives ChangeFault.Memory (λ cells. cells) result
        (each (λ item. asked ChangeMember.Partition (as_cell item)) (items_view items.now.items)) }
{
    let mut cells = Items::new(alloc);
    'cells: for item in items {
        cells.push(cell_from(alloc, item)?)?;
    }
    Ok(cells)
}

/// The partition values.
#[tactic(auto, unfolding(crate::specs::Changes::tuple_in))]
pub fn tuple_at(alloc: Global, json: &Value) -> Result<Items<Cell>, ChangeFault>
    ensures { Gives ChangeFault.Memory (λ cells. cells) result (tuple_in (view json.now)) }
{
    match there(json, ChangeMember::Partition)?.as_array() {
        Some(items) => each_cell(alloc, items),
        None => Err(ChangeFault::Bad(ChangeMember::Partition)),
    }
}

fn each_id(alloc: Global, items: &Vec<Value>) -> Result<Items<i32>, ChangeFault>
    ensures { Gives ChangeFault.Memory (λ ids. ids) result
        (each (λ item. asked ChangeMember.EqualityIds (as_int item)) (items_view items.now.items)) }
{
    let mut ids = Items::new(alloc);
    'ids: for item in items {
        let Some(id) = as_int(item) else {
            return Err(ChangeFault::Bad(ChangeMember::EqualityIds));
        };
        ids.push(id)?;
    }
    Ok(ids)
}

/// The ids of the columns whose values a delete file deletes by.
#[tactic(auto, unfolding(crate::specs::Changes::ids_in))]
pub fn ids_at(alloc: Global, json: &Value) -> Result<Items<i32>, ChangeFault>
    ensures { Gives ChangeFault.Memory (λ ids. ids) result (ids_in (view json.now)) }
{
    match json.get(ChangeMember::EqualityIds.name()) {
        None | Some(Value::Null) => Ok(Items::new(alloc)),
        Some(value) => match value.as_array() {
            Some(items) => each_id(alloc, items),
            None => Err(ChangeFault::Bad(ChangeMember::EqualityIds)),
        },
    }
}

/// The one data file that a file names as the one that it is about.
#[tactic(auto, unfolding(crate::specs::Changes::referenced_in))]
pub fn referenced_at(alloc: Global, json: &Value) -> Result<Option<Text>, ChangeFault>
    ensures { Gives ChangeFault.Memory (λ path. path) result (referenced_in (view json.now)) }
{
    match json.get(ChangeMember::ReferencedDataFile.name()) {
        None | Some(Value::Null) => Ok(None),
        Some(value) => match value.as_str() {
            Some(path) => Ok(Some(kept(alloc, path)?)),
            None => Err(ChangeFault::Bad(ChangeMember::ReferencedDataFile)),
        },
    }
}
