//! Tests of lower and upper bounds.

ghost use Rattle.std.specs.Prelude.{◌≡◌, ◌&&◌, not};
ghost use Rattle.std.specs.List.{list_any};
ghost use Rattle.std.specs.Option.{option_copied, option_and_then};
ghost use Rattle.std.specs.Ordering.{is_lt, is_gt};
ghost use Rattle.std.specs.Str.{is_utf8};
ghost use Rattle.ice_value.specs.Cells.{order};
ghost use Rattle.ice_project.specs.Limits.{is_uuid, is_string, limit, text_is, text_begins, text_of, is_within};
ghost use Rattle.ice_project.specs.Limits.{in_bounds, may_begin_within};

use contract_words::Text;
use ice_filter::Test;
use ice_value::{Cell, ColumnType, compare_bound};
use std::cmp::Ordering;

/// The bounds of values of one type, as bytes.
#[derive(Drop)]
pub struct Limits<'a> {
    /// The type.
    pub column_type: ColumnType,
    /// No value is below it.
    pub low: Option<&'a [u8]>,
    /// No value is above it.
    pub high: Option<&'a [u8]>,
}

fn is_uuid(column_type: &ColumnType) -> bool
    ensures { result ≡ is_uuid column_type.now }
{
    matches!(column_type, ColumnType::Uuid)
}

/// The order of a bound and the literal, where the bound is read and of the literal's kind.
fn limit_order(column_type: &ColumnType, bound: Option<&[u8]>, literal: &Cell) -> Option<Ordering>
    ensures { result ≡ option_and_then (λ x. order x literal.now) (limit column_type.now (option_copied bound.entry)) }
{
    if is_uuid(column_type) {
        return None;
    }
    match bound {
        Some(bytes) => compare_bound(column_type, bytes, literal),
        None => None,
    }
}

fn is_string(column_type: &ColumnType) -> bool
    ensures { result ≡ is_string column_type.now }
{
    matches!(column_type, ColumnType::String)
}

/// Whether the bytes are UTF-8.
fn is_text(bytes: &[u8]) -> bool
    ensures { result ≡ is_utf8 bytes.now }
{
    match std::str::from_utf8(bytes) {
        Ok(_) => true,
        Err(_) => false,
    }
}

/// The text of a bound, where it is one.
fn limit_text<'a>(column_type: &ColumnType, bound: Option<&'a [u8]>) -> Option<&'a [u8]>
    ensures { option_copied result ≡ text_of (limit column_type.now (option_copied bound.entry)) }
{
    if !is_string(column_type) {
        return None;
    }
    match bound {
        Some(bytes) => { if is_text(bytes) { Some(bytes) } else { None } }
        None => None,
    }
}

/// Whether the text of an upper bound is below the start.
fn is_text_below(high: Option<&[u8]>, start: &[u8]) -> bool
    ensures { result ≡ text_is is_lt (option_copied high.entry) start.now }
{
    match high {
        Some(text) => matches!(text.cmp(start), Ordering::Less),
        None => false,
    }
}

/// Whether the text of a lower bound is above the start and doesn't begin with it.
fn is_text_past(low: Option<&[u8]>, start: &[u8]) -> bool
    ensures { result
        ≡ (text_is is_gt (option_copied low.entry) start.now && not (text_begins (option_copied low.entry) start.now)) }
{
    match low {
        Some(text) => matches!(text.cmp(start), Ordering::Greater) && !text.starts_with(start),
        None => false,
    }
}

impl<'a> Limits<'a> {
    /// Whether a literal is neither below the lower bound nor above the upper one.
    fn is_within(&self, literal: &Cell) -> bool
        ensures { result ≡ is_within (limit self.now.column_type (option_copied self.now.low))
            (limit self.now.column_type (option_copied self.now.high)) literal.now }
    {
        !matches!(self.low_order(literal), Some(Ordering::Greater))
            && !matches!(self.high_order(literal), Some(Ordering::Less))
    }

    /// The order of the lower bound and the literal.
    fn low_order(&self, literal: &Cell) -> Option<Ordering>
        ensures { result
            ≡ option_and_then (λ x. order x literal.now) (limit self.now.column_type (option_copied self.now.low)) }
    {
        limit_order(&self.column_type, self.low, literal)
    }

    /// The order of the upper bound and the literal.
    fn high_order(&self, literal: &Cell) -> Option<Ordering>
        ensures { result
            ≡ option_and_then (λ x. order x literal.now) (limit self.now.column_type (option_copied self.now.high)) }
    {
        limit_order(&self.column_type, self.high, literal)
    }

    /// Whether some literal is within the bounds.
    fn has_any_within(&self, literals: &[Cell]) -> bool
        ensures { result ≡ list_any (is_within (limit self.now.column_type (option_copied self.now.low))
            (limit self.now.column_type (option_copied self.now.high))) literals.now }
    {
        literals.iter().any(|literal| self.is_within(literal))
    }

    /// Whether a text within the bounds may start with this one.
    fn may_begin(&self, start: &Text) -> bool
        ensures { result ≡ may_begin_within (text_of (limit self.now.column_type (option_copied self.now.low)))
            (text_of (limit self.now.column_type (option_copied self.now.high))) start.now }
    {
        let low = limit_text(&self.column_type, self.low);
        let high = limit_text(&self.column_type, self.high);
        !is_text_below(high, start.as_bytes()) && !is_text_past(low, start.as_bytes())
    }

    /// Whether a value within the bounds may meet the test.
    pub fn may_meet(&self, test: &Test) -> bool
        ensures { result ≡ in_bounds test.now (limit self.now.column_type (option_copied self.now.low))
            (limit self.now.column_type (option_copied self.now.high)) }
    {
        match test {
            Test::Less(v) => !matches!(
                self.low_order(v),
                Some(Ordering::Equal | Ordering::Greater)
            ),
            Test::AtMost(v) => !matches!(self.low_order(v), Some(Ordering::Greater)),
            Test::More(v) => !matches!(self.high_order(v), Some(Ordering::Less | Ordering::Equal)),
            Test::AtLeast(v) => !matches!(self.high_order(v), Some(Ordering::Less)),
            Test::Among(literals) => self.has_any_within(literals.as_slice()),
            Test::StartsWith(start) => self.may_begin(start),
            Test::NotAmong(_) | Test::IsNull | Test::IsPresent => true,
        }
    }
}
