//! Members of JSON objects, by their names and kinds.

ghost use Rattle.std.specs.Prelude.{◌≡◌, option_map, IfOk};
ghost use Rattle.contract_words.specs.Outcome.{Gives};
ghost use Rattle.serde_json.specs.View.{view, items_view};
ghost use Rattle.ice_meta.specs.Members.{there, perhaps, long_of, if_int, int_of, if_natural, sequence_number_of};
ghost use Rattle.ice_meta.specs.Members.{text_of, flag_of, all_objects, if_objects, objects_of, long_in, int_in};
ghost use Rattle.ice_meta.specs.Members.{sequence_number_in, text_in, flag_in, objects_in, optional_long, optional_int};
ghost use Rattle.ice_meta.specs.Members.{optional_text, sequence_number_or_zero};

use crate::fault::{Member, MetaFault};
use contract_words::Text;
use ice_value::SequenceNumber;
use serde_json::Value;
use std::alloc::{AllocError, Global};

/// The value of a member that is needed.
pub fn there<'a>(json: &'a Value, member: Member) -> Result<&'a Value, MetaFault>
    ensures { Gives MetaFault.Memory (λ value. view value.now) result (there member (view json.now)) }
{
    match json.get(member.name()) {
        Some(value) => Ok(value),
        None => Err(MetaFault::Missing(member)),
    }
}

/// The value of a member that may be left out; null stands for no value.
pub fn perhaps<'a>(json: &'a Value, member: Member) -> Option<&'a Value>
    ensures { option_map (λ value. view value.now) result ≡ perhaps member (view json.now) }
{
    match json.get(member.name())? {
        Value::Null => None,
        value => Some(value),
    }
}

fn long_of(json: &Value, member: Member) -> Result<i64, MetaFault>
    ensures { Gives MetaFault.Memory (λ number. number) result (long_of member (view json.now)) }
{
    json.as_i64().ok_or(MetaFault::WrongKind(member))
}

fn if_int(number: i64) -> Option<i32>
    ensures { result ≡ if_int number }
{
    i32::try_from(number).ok()
}

fn int_of(json: &Value, member: Member) -> Result<i32, MetaFault>
    ensures { Gives MetaFault.Memory (λ number. number) result (int_of member (view json.now)) }
{
    match if_int(long_of(json, member)?) {
        Some(number) => Ok(number),
        None => Err(MetaFault::WrongKind(member)),
    }
}

fn sequence_number_of(json: &Value, member: Member) -> Result<SequenceNumber, MetaFault>
    ensures { Gives MetaFault.Memory (λ number. number) result (sequence_number_of member (view json.now)) }
{
    let Some(number) = json.as_u64() else {
        return Err(MetaFault::WrongKind(member));
    };
    match SequenceNumber::new(number) {
        Some(number) => Ok(number),
        None => Err(MetaFault::WrongKind(member)),
    }
}

fn text_of<'a>(json: &'a Value, member: Member) -> Result<&'a str, MetaFault>
    ensures { Gives MetaFault.Memory (λ text. text.now) result (text_of member (view json.now)) }
{
    match json.as_str() {
        Some(text) => Ok(text),
        None => Err(MetaFault::WrongKind(member)),
    }
}

fn all_objects(items: &Vec<Value>) -> bool
    ensures { result ≡ all_objects (items_view items.now.items) }
{
    items.iter().all(|item| item.is_object())
}

/// The objects of an array.
pub fn objects_of<'a>(json: &'a Value, member: Member) -> Result<&'a Vec<Value>, MetaFault>
    ensures { Gives MetaFault.Memory (λ items. items_view items.now.items) result (objects_of member (view json.now)) }
{
    let Some(items) = json.as_array() else {
        return Err(MetaFault::WrongKind(member));
    };
    if all_objects(items) {
        Ok(items)
    } else {
        Err(MetaFault::WrongKind(member))
    }
}

/// A whole number of 64 bits.
pub fn long_at(json: &Value, member: Member) -> Result<i64, MetaFault>
    ensures { Gives MetaFault.Memory (λ number. number) result (long_in member (view json.now)) }
{
    long_of(there(json, member)?, member)
}

/// A whole number of 32 bits.
pub fn int_at(json: &Value, member: Member) -> Result<i32, MetaFault>
    ensures { Gives MetaFault.Memory (λ number. number) result (int_in member (view json.now)) }
{
    int_of(there(json, member)?, member)
}

/// A sequence number.
pub fn sequence_number_at(json: &Value, member: Member) -> Result<SequenceNumber, MetaFault>
    ensures { Gives MetaFault.Memory (λ number. number) result (sequence_number_in member (view json.now)) }
{
    sequence_number_of(there(json, member)?, member)
}

/// A sequence number; 0 where it is left out, but not where it is null.
pub fn sequence_number_or_zero(json: &Value, member: Member) -> Result<SequenceNumber, MetaFault>
    ensures { Gives MetaFault.Memory (λ number. number) result (sequence_number_or_zero member (view json.now)) }
{
    match json.get(member.name()) {
        Some(value) => sequence_number_of(value, member),
        None => Ok(SequenceNumber::zero()),
    }
}

/// A text.
pub fn text_at<'a>(json: &'a Value, member: Member) -> Result<&'a str, MetaFault>
    ensures { Gives MetaFault.Memory (λ text. text.now) result (text_in member (view json.now)) }
{
    text_of(there(json, member)?, member)
}

/// The same text.
pub fn kept(alloc: Global, text: &str) -> Result<Text, AllocError>
    ensures { IfOk result (λ kept. kept ≡ text.now) }
{
    Ok(Text::from_string(String::from_str(alloc, text)?))
}

/// A text that is kept.
pub fn kept_text_at(alloc: Global, json: &Value, member: Member) -> Result<Text, MetaFault>
    ensures { Gives MetaFault.Memory (λ text. text) result (text_in member (view json.now)) }
{
    Ok(kept(alloc, text_at(json, member)?)?)
}

/// True or false.
pub fn flag_at(json: &Value, member: Member) -> Result<bool, MetaFault>
    ensures { Gives MetaFault.Memory (λ flag. flag) result (flag_in member (view json.now)) }
{
    match there(json, member)?.as_bool() {
        Some(flag) => Ok(flag),
        None => Err(MetaFault::WrongKind(member)),
    }
}

/// The objects of an array.
pub fn objects_at<'a>(json: &'a Value, member: Member) -> Result<&'a Vec<Value>, MetaFault>
    ensures { Gives MetaFault.Memory (λ items. items_view items.now.items) result (objects_in member (view json.now)) }
{
    objects_of(there(json, member)?, member)
}

/// A whole number of 64 bits, where there is one.
pub fn optional_long(json: &Value, member: Member) -> Result<Option<i64>, MetaFault>
    ensures { Gives MetaFault.Memory (λ number. number) result (optional_long member (view json.now)) }
{
    match perhaps(json, member) {
        Some(value) => Ok(Some(long_of(value, member)?)),
        None => Ok(None),
    }
}

/// A whole number of 32 bits, where there is one.
pub fn optional_int(json: &Value, member: Member) -> Result<Option<i32>, MetaFault>
    ensures { Gives MetaFault.Memory (λ number. number) result (optional_int member (view json.now)) }
{
    match perhaps(json, member) {
        Some(value) => Ok(Some(int_of(value, member)?)),
        None => Ok(None),
    }
}

/// A text that is kept, where there is one.
pub fn optional_text(alloc: Global, json: &Value, member: Member) -> Result<Option<Text>, MetaFault>
    ensures { Gives MetaFault.Memory (λ text. text) result (optional_text member (view json.now)) }
{
    match perhaps(json, member) {
        Some(value) => Ok(Some(kept(alloc, text_of(value, member)?)?)),
        None => Ok(None),
    }
}
