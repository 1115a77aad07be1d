//! Values as bytes.

ghost use Rattle.std.specs.Prelude.{◌≡◌, ◌++◌, ◌∷◌, [], ◌<◌, ◌^◌, pos, length, IfOk, replicate};
ghost use Rattle.avro_file.specs.View.{view, views, entry_views, pair_with, long_pairs, bytes_pairs};
ghost use Rattle.avro_file.specs.Value.{whole, run, values_of, entries_of};
ghost use Rattle.avro_file.specs.Writing.{groups_of, unsigned_of, long_bytes, run_bytes, block_bytes, written};
ghost use Rattle.avro_file.specs.Writing.{all_written, entries_written};

use crate::datum::Datum;
use std::alloc::AllocError;

/// Puts a number last, in its groups.
fn push_groups(bytes: Vec<u8>, number: u64) -> Result<Vec<u8>, AllocError>
    ensures { IfOk result (λ all. all.items ≡ bytes.items ++ groups_of 10 number) }
{
    let mut bytes = bytes;
    let mut rest = number;
    'groups: while rest >= 128 {
        bytes.push((rest % 128) as u8 + 128)?;
        rest /= 128;
    }
    bytes.push(rest as u8)?;
    Ok(bytes)
}

fn unsigned(number: i64) -> u64
    ensures { result ≡ unsigned_of number }
{
    if number < 0 {
        let below = -(number + 1);
        below as u64 * 2 + 1
    } else {
        number as u64 * 2
    }
}

/// Puts a whole number last.
fn push_long(bytes: Vec<u8>, number: i64) -> Result<Vec<u8>, AllocError>
    ensures { IfOk result (λ all. all.items ≡ bytes.items ++ long_bytes number) }
{
    push_groups(bytes, unsigned(number))
}

/// Puts a count, a length or a position last.
pub fn push_count(bytes: Vec<u8>, count: u64) -> Result<Vec<u8>, AllocError>
    requires { count < 2 ^ 63 }
    ensures { IfOk result (λ all. all.items ≡ bytes.items ++ long_bytes (pos count)) }
{
    push_groups(bytes, count * 2)
}

/// Puts a position last. One of 64 bits, which no schema has, is not written.
pub fn push_position(bytes: Vec<u8>, position: usize) -> Result<Vec<u8>, AllocError>
    ensures { IfOk result (λ all. all.items ≡ bytes.items ++ long_bytes (pos position)) }
{
    if position > i64::MAX as usize {
        return Err(AllocError);
    }
    push_count(bytes, position as u64)
}

/// Puts bytes last.
pub fn push_raw(bytes: Vec<u8>, run: &[u8]) -> Result<Vec<u8>, AllocError>
    ensures { IfOk result (λ all. all.items ≡ bytes.items ++ run.now) }
{
    let mut bytes = bytes;
    bytes.extend_from_slice(run)?;
    Ok(bytes)
}

/// Puts bytes last, and before them how many there are.
pub fn push_run(bytes: Vec<u8>, run: &[u8]) -> Result<Vec<u8>, AllocError>
    ensures { IfOk result (λ all. all.items ≡ bytes.items ++ run_bytes run.now) }
{
    let bytes = push_count(bytes, run.len() as u64)?;
    push_raw(bytes, run)
}

/// Puts a byte last.
pub fn push_byte(bytes: Vec<u8>, byte: u8) -> Result<Vec<u8>, AllocError>
    ensures { IfOk result (λ all. all.items ≡ bytes.items ++ byte ∷ []) }
{
    let mut bytes = bytes;
    bytes.push(byte)?;
    Ok(bytes)
}

/// Puts an int and a long last.
fn push_long_pair(bytes: Vec<u8>, pair: &(i32, i64)) -> Result<Vec<u8>, AllocError>
    ensures { IfOk result (λ all. all.items ≡ bytes.items ++ written (pair_with pair.now.0 (whole pair.now.1))) }
{
    let bytes = push_long(bytes, i64::from(pair.0))?;
    push_long(bytes, pair.1)
}

/// Puts ints and longs last, one after the other.
fn push_each_long_pair(bytes: Vec<u8>, pairs: &[(i32, i64)]) -> Result<Vec<u8>, AllocError>
    ensures { IfOk result (λ all. all.items ≡ bytes.items ++ all_written (values_of (long_pairs pairs.now))) }
{
    let mut bytes = bytes;
    'pairs: for pair in pairs {
        bytes = push_long_pair(bytes, pair)?;
    }
    Ok(bytes)
}

/// Puts an array of ints and longs last.
fn push_long_pairs(bytes: Vec<u8>, pairs: &[(i32, i64)]) -> Result<Vec<u8>, AllocError>
    ensures { IfOk result (λ all. all.items ≡
        bytes.items ++ block_bytes (length pairs.now) (all_written (values_of (long_pairs pairs.now)))) }
{
    if pairs.is_empty() {
        return push_byte(bytes, 0);
    }
    let bytes = push_count(bytes, pairs.len() as u64)?;
    let bytes = push_each_long_pair(bytes, pairs)?;
    push_byte(bytes, 0)
}

/// Puts an int and bytes last.
fn push_bytes_pair(bytes: Vec<u8>, pair: &(i32, &[u8])) -> Result<Vec<u8>, AllocError>
    ensures { IfOk result (λ all. all.items ≡ bytes.items ++ written (pair_with pair.now.0 (run pair.now.1.now))) }
{
    let bytes = push_long(bytes, i64::from(pair.0))?;
    push_run(bytes, pair.1)
}

/// Puts ints and bytes last, one after the other.
fn push_each_bytes_pair(bytes: Vec<u8>, pairs: &[(i32, &[u8])]) -> Result<Vec<u8>, AllocError>
    ensures { IfOk result (λ all. all.items ≡ bytes.items ++ all_written (values_of (bytes_pairs pairs.now))) }
{
    let mut bytes = bytes;
    'pairs: for pair in pairs {
        bytes = push_bytes_pair(bytes, pair)?;
    }
    Ok(bytes)
}

/// Puts an array of ints and bytes last.
fn push_bytes_pairs(bytes: Vec<u8>, pairs: &[(i32, &[u8])]) -> Result<Vec<u8>, AllocError>
    ensures { IfOk result (λ all. all.items ≡
        bytes.items ++ block_bytes (length pairs.now) (all_written (values_of (bytes_pairs pairs.now)))) }
{
    if pairs.is_empty() {
        return push_byte(bytes, 0);
    }
    let bytes = push_count(bytes, pairs.len() as u64)?;
    let bytes = push_each_bytes_pair(bytes, pairs)?;
    push_byte(bytes, 0)
}

/// Puts a value last.
#[cycle(write)]
#[tactic(auto, unfolding(crate::specs::Writing::written))]
pub fn push_datum(bytes: Vec<u8>, datum: &Datum<'_>) -> Result<Vec<u8>, AllocError>
    ensures { IfOk result (λ all. all.items ≡ bytes.items ++ written (view datum.now)) }
{
    match datum {
        Datum::Null => Ok(bytes),
        Datum::Boolean(false) => push_byte(bytes, 0),
        Datum::Boolean(true) => push_byte(bytes, 1),
        Datum::Int(number) => push_long(bytes, i64::from(*number)),
        Datum::Long(number) => push_long(bytes, *number),
        Datum::Float(run) => push_raw(bytes, run),
        Datum::Double(run) => push_raw(bytes, run),
        Datum::String(text) => push_run(bytes, text.as_bytes()),
        Datum::Bytes(run) => push_run(bytes, run),
        Datum::Fixed(run) => push_raw(bytes, run),
        Datum::Enum(position) => push_position(bytes, *position),
        Datum::Record(values) => push_all(bytes, values),
        Datum::Array(items) => push_items(bytes, items),
        Datum::LongPairs(pairs) => push_long_pairs(bytes, pairs),
        Datum::BytesPairs(pairs) => push_bytes_pairs(bytes, pairs),
        Datum::Repeated(count, item) => push_repeated(bytes, count.get(), item),
        Datum::Map(entries) => push_entries(bytes, entries),
        Datum::Union(position, value) => {
            let bytes = push_position(bytes, *position)?;
            push_datum(bytes, value)
        }
        Datum::NullBranch(position) => push_position(bytes, *position),
    }
}

/// Puts values last, one after the other.
#[cycle(write)]
fn push_all(bytes: Vec<u8>, values: &[Datum<'_>]) -> Result<Vec<u8>, AllocError>
    ensures { IfOk result (λ all. all.items ≡ bytes.items ++ all_written (values_of (views values.now))) }
{
    let mut bytes = bytes;
    'values: for value in values {
        bytes = push_datum(bytes, value)?;
    }
    Ok(bytes)
}

/// Puts an array last.
#[cycle(write)]
fn push_items(bytes: Vec<u8>, items: &[Datum<'_>]) -> Result<Vec<u8>, AllocError>
    ensures { IfOk result (λ all. all.items ≡
        bytes.items ++ block_bytes (length items.now) (all_written (values_of (views items.now)))) }
{
    if items.is_empty() {
        return push_byte(bytes, 0);
    }
    let bytes = push_count(bytes, items.len() as u64)?;
    let bytes = push_all(bytes, items)?;
    push_byte(bytes, 0)
}

/// Puts a value last so many times.
#[cycle(write)]
fn push_times(bytes: Vec<u8>, count: u64, item: &Datum<'_>) -> Result<Vec<u8>, AllocError>
    ensures { IfOk result (λ all. all.items ≡
        bytes.items ++ all_written (values_of (replicate count (view item.now)))) }
{
    let mut bytes = bytes;
    'times: for _ in 0..count {
        bytes = push_datum(bytes, item)?;
    }
    Ok(bytes)
}

/// Puts an array of so many times one item last.
#[cycle(write)]
fn push_repeated(bytes: Vec<u8>, count: u64, item: &Datum<'_>) -> Result<Vec<u8>, AllocError>
    requires { count < 2 ^ 63 }
    ensures { IfOk result (λ all. all.items ≡
        bytes.items ++ block_bytes count (all_written (values_of (replicate count (view item.now))))) }
{
    if count == 0 {
        return push_byte(bytes, 0);
    }
    let bytes = push_count(bytes, count)?;
    let bytes = push_times(bytes, count, item)?;
    push_byte(bytes, 0)
}

/// Puts keys and values last, one after the other.
#[cycle(write)]
fn push_pairs(bytes: Vec<u8>, pairs: &[(&str, Datum<'_>)]) -> Result<Vec<u8>, AllocError>
    ensures { IfOk result (λ all. all.items ≡ bytes.items ++ entries_written (entries_of (entry_views pairs.now))) }
{
    let mut bytes = bytes;
    'pairs: for pair in pairs {
        bytes = push_run(bytes, pair.0.as_bytes())?;
        bytes = push_datum(bytes, &pair.1)?;
    }
    Ok(bytes)
}

/// Puts a map last.
#[cycle(write)]
fn push_entries(bytes: Vec<u8>, entries: &[(&str, Datum<'_>)]) -> Result<Vec<u8>, AllocError>
    ensures { IfOk result (λ all. all.items ≡
        bytes.items ++ block_bytes (length entries.now) (entries_written (entries_of (entry_views entries.now)))) }
{
    if entries.is_empty() {
        return push_byte(bytes, 0);
    }
    let bytes = push_count(bytes, entries.len() as u64)?;
    let bytes = push_pairs(bytes, entries)?;
    push_byte(bytes, 0)
}
