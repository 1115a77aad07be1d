//! A quick look for where values end. Where it gives no end, the exact reader says what is there.

ghost use Rattle.std.specs.Prelude.{◌≡◌, ◌≢◌, ◌≤◌, ◌<◌, ◌+◌, ◌-◌, ◌^◌, ℕ, suc, List, length, Ok, IfSome, slice_range};
ghost use Rattle.std.specs.Prelude.{drop};
ghost use Rattle.avro_schema.specs.View.{tree, trees, parts, fields_of, branches_of};
ghost use Rattle.avro_file_parts.specs.Number.{number_at, long_at, int_at};
ghost use Rattle.avro_file_parts.specs.Parts.{boolean_at, run_at, bytes_at, string_at, symbol_at, count_at as items_at};
ghost use Rattle.avro_file.specs.Reading.{values_at, blocks_at, entry_at, datum_at, fields_at};
ghost use Rattle.avro_schema.specs.declared.schema.BytesKind.TheVariants.{Plain};
ghost use Rattle.avro_schema.specs.Tree.{long, octets, union};
ghost use Rattle.avro_file.specs.Pairs.{pair};
ghost use Rattle.avro_file.specs.Ending.{standing, EndsWith, Ends, EndsCounted};

use crate::ends::takes_bytes;
use crate::pairs::{Second, second_of_pair};
use crate::window::{WINDOW, is_ascii_run, window_pairs_end};
use avro_file_parts::unsigned_of;
use avro_schema::{Field, Schema};

/// The number at a place, and its end. An end of 0 stands for none.
#[inline(never)]
fn longer_number_at(bytes: &[u8], at: usize) -> (u64, usize)
    requires { at ≤ length bytes.now }
    ensures { result.1 ≢ 0 → EndsWith (number_at (2 ^ 64)) bytes.now at result.0 result.1 }
{
    match unsigned_of(&bytes[at..]) {
        Ok((value, rest)) => (value, bytes.len() - rest.len()),
        Err(_) => (0, 0),
    }
}

/// The same, at once where it has one group.
#[inline(always)]
fn number_at(bytes: &[u8], at: usize) -> (u64, usize)
    requires { at ≤ length bytes.now }
    ensures { result.1 ≢ 0 → EndsWith (number_at (2 ^ 64)) bytes.now at result.0 result.1 }
{
    if at < bytes.len() {
        let first = bytes[at];
        if first < 128 {
            return (u64::from(first), at + 1);
        }
    }
    longer_number_at(bytes, at)
}

/// Where the number at a place ends. One of four groups fits 32 bits.
#[inline(never)]
fn longer_number_end(bytes: &[u8], at: usize) -> Option<usize>
    requires { at ≤ length bytes.now }
    ensures long { IfSome result (λ end. Ends long_at bytes.now at end) }
    ensures int { IfSome result (λ end. end ≤ at + 4 → Ends int_at bytes.now at end) }
{
    let mut here = at;
    'groups: for _ in 0..9u32 {
        if here >= bytes.len() {
            return None;
        }
        if bytes[here] < 128 {
            return Some(here + 1);
        }
        here += 1;
    }
    // nine groups are 63 bits: one bit is left
    if here < bytes.len() && bytes[here] < 2 {
        return Some(here + 1);
    }
    None
}

/// Where a long ends.
#[inline(always)]
fn long_end(bytes: &[u8], at: usize) -> Option<usize>
    requires { at ≤ length bytes.now }
    ensures { IfSome result (λ end. Ends long_at bytes.now at end) }
{
    if at < bytes.len() && bytes[at] < 128 {
        return Some(at + 1);
    }
    longer_number_end(bytes, at)
}

/// Where an int ends.
#[inline(always)]
fn int_end(bytes: &[u8], at: usize) -> Option<usize>
    requires { at ≤ length bytes.now }
    ensures { IfSome result (λ end. Ends int_at bytes.now at end) }
{
    if at < bytes.len() && bytes[at] < 128 {
        return Some(at + 1);
    }
    let end = longer_number_end(bytes, at)?;
    if end > at && end - at <= 4 {
        Some(end)
    } else {
        None
    }
}

/// Where a run of so many bytes ends.
#[inline(always)]
fn run_end(len: u64, bytes: &[u8], at: usize) -> Option<usize>
    requires { at ≤ length bytes.now }
    ensures { IfSome result (λ end. Ends (run_at len) bytes.now at end) }
{
    if ((bytes.len() - at) as u64) < len {
        return None;
    }
    Some(at + len as usize)
}

/// Where the bytes behind a length begin and end. An end of 0 stands for none.
#[inline(always)]
fn run_within(bytes: &[u8], at: usize) -> (usize, usize)
    requires { at ≤ length bytes.now }
    ensures { result.1 ≢ 0 →
        (result.0 ≤ result.1) × EndsWith bytes_at bytes.now at (slice_range bytes.now result.0 result.1) result.1 }
{
    let (value, start) = number_at(bytes, at);
    if start == 0 || value % 2 != 0 {
        return (0, 0);
    }
    let len = value / 2;
    if ((bytes.len() - start) as u64) < len {
        return (0, 0);
    }
    (start, start + len as usize)
}

/// Where bytes behind their length end.
#[inline(always)]
fn bytes_end(bytes: &[u8], at: usize) -> Option<usize>
    requires { at ≤ length bytes.now }
    ensures { IfSome result (λ end. Ends bytes_at bytes.now at end) }
{
    let (_, end) = run_within(bytes, at);
    if end == 0 { None } else { Some(end) }
}

/// Where a text ends.
#[inline(always)]
fn text_end(bytes: &[u8], at: usize) -> Option<usize>
    requires { at ≤ length bytes.now }
    ensures { IfSome result (λ end. Ends string_at bytes.now at end) }
{
    let (start, end) = run_within(bytes, at);
    if end == 0 {
        return None;
    }
    if is_ascii_run(bytes, start, end) {
        return Some(end);
    }
    match str::from_utf8(&bytes[start..end]) {
        Ok(_) => Some(end),
        Err(_) => None,
    }
}

/// Where a position among so many symbols ends.
#[inline(always)]
fn symbol_end(count: usize, bytes: &[u8], at: usize) -> Option<usize>
    requires { at ≤ length bytes.now }
    ensures { IfSome result (λ end. Ends (symbol_at count) bytes.now at end) }
{
    let (value, end) = number_at(bytes, at);
    if end == 0 || value > u64::from(u32::MAX) || value % 2 != 0 || value / 2 >= count as u64 {
        return None;
    }
    Some(end)
}

/// Where a truth value ends.
#[inline(always)]
fn boolean_end(bytes: &[u8], at: usize) -> Option<usize>
    requires { at ≤ length bytes.now }
    ensures { IfSome result (λ end. Ends boolean_at bytes.now at end) }
{
    if at < bytes.len() && bytes[at] < 2 {
        return Some(at + 1);
    }
    None
}

/// Where a value that holds no others ends.
#[inline(always)]
fn leaf_end(schema: &Schema, bytes: &[u8], at: usize) -> Option<usize>
    requires { at ≤ length bytes.now }
    ensures { IfSome result (λ end. (left : ℕ) → EndsCounted (datum_at (tree schema.now)) bytes.now at left end left) }
{
    match schema {
        Schema::Null => Some(at),
        Schema::Boolean => boolean_end(bytes, at),
        Schema::Int => int_end(bytes, at),
        Schema::Long => long_end(bytes, at),
        Schema::Float => run_end(4, bytes, at),
        Schema::Double => run_end(8, bytes, at),
        Schema::Bytes(_) => bytes_end(bytes, at),
        Schema::String => text_end(bytes, at),
        Schema::Fixed(len, _) => run_end(u64::from(*len), bytes, at),
        Schema::Enum(count) => symbol_end(*count, bytes, at),
        _ => None,
    }
}

/// The count of a block's items, and where it ends. An end of 0 stands for none.
#[inline(always)]
fn count_at(bytes: &[u8], at: usize) -> (u64, usize)
    requires { at ≤ length bytes.now }
    ensures { result.1 ≢ 0 → (at < result.1) × (result.1 ≤ length bytes.now) × ((left : ℕ) → result.0 ≤ left →
        items_at (standing bytes.now at left) ≡ Ok (result.0, standing bytes.now result.1 (left - result.0))) }
{
    let (value, end) = number_at(bytes, at);
    if end == 0 || value % 2 == 0 {
        return (value / 2, end);
    }
    // behind a negative count stands a size
    match long_end(bytes, end) {
        Some(end) => (value / 2 + 1, end),
        None => (0, 0),
    }
}

/// Where so many ints and longs end, one after the other.
#[inline(never)]
fn each_long_pair_end(count: u64, bytes: &[u8], at: usize) -> Option<usize>
    requires { at ≤ length bytes.now }
    ensures { IfSome result (λ end. (left : ℕ) →
        EndsCounted (values_at (datum_at (pair long)) count) bytes.now at left end left) }
{
    let mut here = at;
    'items: for _ in 0..count {
        let value = int_end(bytes, here)?;
        here = long_end(bytes, value)?;
    }
    Some(here)
}

/// Where so many ints and longs end.
#[inline(never)]
fn long_pairs_end(count: u64, bytes: &[u8], at: usize) -> Option<usize>
    requires { at ≤ length bytes.now }
    ensures { IfSome result (λ end. (left : ℕ) →
        EndsCounted (values_at (datum_at (pair long)) count) bytes.now at left end left) }
{
    let mut here = at;
    let mut rest = count;
    'pairs: while rest > 0 {
        if bytes.len() - here >= WINDOW {
            let (pairs, end) = window_pairs_end(rest, bytes, here);
            if pairs > 0 {
                rest -= pairs;
                here = end;
                continue 'pairs;
            }
        }
        // a long number, or the last bytes
        let few = rest.min(8);
        here = each_long_pair_end(few, bytes, here)?;
        rest -= few;
    }
    Some(here)
}

/// Where an int and bytes end, at once where the int and the length have one group each.
#[inline(always)]
fn bytes_pair_end(bytes: &[u8], at: usize) -> Option<usize>
    requires { at ≤ length bytes.now }
    ensures { IfSome result (λ end. (left : ℕ) →
        EndsCounted (datum_at (pair (octets Plain))) bytes.now at left end left) }
{
    if bytes.len() - at >= 2 {
        let len = bytes[at + 1];
        if bytes[at] < 128
            && len < 128
            && len % 2 == 0
            && bytes.len() - at - 2 >= usize::from(len / 2)
        {
            return Some(at + 2 + usize::from(len / 2));
        }
    }
    let value = int_end(bytes, at)?;
    bytes_end(bytes, value)
}

/// Where so many ints and byte strings end.
#[inline(never)]
fn bytes_pairs_end(count: u64, bytes: &[u8], at: usize) -> Option<usize>
    requires { at ≤ length bytes.now }
    ensures { IfSome result (λ end. (left : ℕ) →
        EndsCounted (values_at (datum_at (pair (octets Plain))) count) bytes.now at left end left) }
{
    let mut here = at;
    'items: for _ in 0..count {
        here = bytes_pair_end(bytes, here)?;
    }
    Some(here)
}

/// Where a value ends, and how many items are left then.
#[cycle(quick)]
#[inline(always)]
pub fn value_end(schema: &Schema, bytes: &[u8], at: usize, left: &mut u64) -> Option<usize>
    requires { at ≤ length bytes.now }
    ensures { IfSome result (λ end. EndsCounted (datum_at (tree schema.now)) bytes.now at left.old end left.new) }
{
    match schema {
        Schema::Record(fields) => fields_end(fields, bytes, at, left),
        Schema::Array(items, _, _) => items_end(items, bytes, at, left),
        Schema::Map(values) => entries_end(values, bytes, at, left),
        Schema::Union(branches) => branch_end(branches, bytes, at, left),
        _ => leaf_end(schema, bytes, at),
    }
}

/// Where the fields of a record end.
#[cycle(quick)]
#[inline(never)]
fn fields_end(fields: &[Field], bytes: &[u8], at: usize, left: &mut u64) -> Option<usize>
    requires { at ≤ length bytes.now }
    ensures { IfSome result (λ end.
        EndsCounted (fields_at (fields_of (parts fields.now))) bytes.now at left.old end left.new) }
{
    let mut here = at;
    'fields: for field in fields {
        here = value_end(&field.schema, bytes, here, left)?;
    }
    Some(here)
}

/// Where a union's branch and its value end.
#[cycle(quick)]
#[inline(never)]
fn branch_end(branches: &[Schema], bytes: &[u8], at: usize, left: &mut u64) -> Option<usize>
    requires { at ≤ length bytes.now }
    ensures { IfSome result (λ end.
        EndsCounted (datum_at (union (branches_of (trees branches.now)))) bytes.now at left.old end left.new) }
{
    let (value, start) = number_at(bytes, at);
    if start == 0 || value % 2 != 0 || value / 2 >= branches.len() as u64 {
        return None;
    }
    value_end(&branches[(value / 2) as usize], bytes, start, left)
}

/// Where the blocks of an array end.
#[cycle(quick)]
#[inline(never)]
fn items_end(schema: &Schema, bytes: &[u8], at: usize, left: &mut u64) -> Option<usize>
    requires { at ≤ length bytes.now }
    ensures { IfSome result (λ end.
        EndsCounted (blocks_at (datum_at (tree schema.now)) (suc (length (drop at bytes.now)))) bytes.now at left.old
        end left.new) }
{
    let mut here = at;
    'each_block: loop {
        let (count, start) = count_at(bytes, here);
        if start == 0 || count > *left {
            return None;
        }
        *left -= count;
        if count == 0 {
            return Some(start);
        }
        here = some_end(schema, count, bytes, start, left)?;
    }
}

/// Where so many items end. Those that take no bytes end where they begin.
#[cycle(quick)]
#[inline(never)]
fn some_end(schema: &Schema, count: u64, bytes: &[u8], at: usize, left: &mut u64) -> Option<usize>
    requires { at ≤ length bytes.now }
    ensures { IfSome result (λ end.
        EndsCounted (values_at (datum_at (tree schema.now)) count) bytes.now at left.old end left.new) }
{
    match second_of_pair(schema) {
        Some(Second::Long) => return long_pairs_end(count, bytes, at),
        Some(Second::Bytes) => return bytes_pairs_end(count, bytes, at),
        None => {}
    }
    if !takes_bytes(schema) {
        return Some(at);
    }
    let mut here = at;
    'items: for _ in 0..count {
        here = value_end(schema, bytes, here, left)?;
    }
    Some(here)
}

/// Where the blocks of a map end.
#[cycle(quick)]
#[inline(never)]
fn entries_end(schema: &Schema, bytes: &[u8], at: usize, left: &mut u64) -> Option<usize>
    requires { at ≤ length bytes.now }
    ensures { IfSome result (λ end. EndsCounted (blocks_at (entry_at (datum_at (tree schema.now)))
        (suc (length (drop at bytes.now)))) bytes.now at left.old end left.new) }
{
    let mut here = at;
    'each_block: loop {
        let (count, start) = count_at(bytes, here);
        if start == 0 || count > *left {
            return None;
        }
        *left -= count;
        if count == 0 {
            return Some(start);
        }
        here = some_entries_end(schema, count, bytes, start, left)?;
    }
}

/// Where so many entries end.
#[cycle(quick)]
#[inline(never)]
fn some_entries_end(
    schema: &Schema,
    count: u64,
    bytes: &[u8],
    at: usize,
    left: &mut u64,
) -> Option<usize>
    requires { at ≤ length bytes.now }
    ensures { IfSome result (λ end. EndsCounted (values_at (entry_at (datum_at (tree schema.now))) count)
        bytes.now at left.old end left.new) }
{
    let mut here = at;
    'items: for _ in 0..count {
        let value = text_end(bytes, here)?;
        here = value_end(schema, bytes, value, left)?;
    }
    Some(here)
}
