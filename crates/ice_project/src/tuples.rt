//! Tests of partition values.

ghost use Rattle.std.specs.Prelude.{◌≡◌, Bool};
ghost use Rattle.std.specs.List.{list_any, list_all};
ghost use Rattle.std.specs.Ordering.{is_eq, is_ne};
ghost use Rattle.ice_value.specs.Cells.{order};
ghost use Rattle.ice_filter.specs.Rows.{is_null};
ghost use Rattle.ice_project.specs.Tuples.{may, may_begin, may_present, passes};

use contract_words::Text;
use ice_filter::Test;
use ice_value::Cell;
use std::cmp::Ordering;

/// Whether the cell may equal the literal: it does, or it is of another kind.
fn may_equal(cell: &Cell, literal: &Cell) -> bool
    ensures { result ≡ passes is_eq (order cell.now literal.now) }
{
    matches!(cell.order(literal), Some(Ordering::Equal) | None)
}

/// Whether the cell may differ from the literal.
fn may_differ(cell: &Cell, literal: &Cell) -> bool
    ensures { result ≡ passes is_ne (order cell.now literal.now) }
{
    !matches!(cell.order(literal), Some(Ordering::Equal))
}

/// Whether the cell may equal one of the literals.
fn may_equal_any(cell: &Cell, literals: &[Cell]) -> bool
    ensures { result ≡ list_any (λ v. passes is_eq (order cell.now v)) literals.now }
{
    literals.iter().any(|literal| may_equal(cell, literal))
}

/// Whether the cell may differ from all literals.
fn may_differ_from_all(cell: &Cell, literals: &[Cell]) -> bool
    ensures { result ≡ list_all (λ v. passes is_ne (order cell.now v)) literals.now }
{
    literals.iter().all(|literal| may_differ(cell, literal))
}

/// Whether the cell may start with the text.
fn may_begin(cell: &Cell, start: &Text) -> bool
    ensures { result ≡ may_begin cell.now start.now }
{
    match cell {
        Cell::Text(text) => text.as_bytes().starts_with(start.as_bytes()),
        _ => true,
    }
}

/// What the test says of a cell that isn't null.
fn may_present(test: &Test, cell: &Cell) -> bool
    ensures { result ≡ may_present test.now cell.now }
{
    match test {
        Test::Less(v) => !matches!(cell.order(v), Some(Ordering::Equal | Ordering::Greater)),
        Test::AtMost(v) => !matches!(cell.order(v), Some(Ordering::Greater)),
        Test::More(v) => !matches!(cell.order(v), Some(Ordering::Equal | Ordering::Less)),
        Test::AtLeast(v) => !matches!(cell.order(v), Some(Ordering::Less)),
        Test::Among(vs) => may_equal_any(cell, vs.as_slice()),
        Test::NotAmong(vs) => may_differ_from_all(cell, vs.as_slice()),
        Test::IsNull => false,
        Test::IsPresent => true,
        Test::StartsWith(start) => may_begin(cell, start),
    }
}

fn is_null(cell: &Cell) -> bool
    ensures { result ≡ is_null cell.now }
{
    matches!(cell, Cell::Null)
}

/// Whether a partition value meets the test.
pub fn may(test: &Test, cell: &Cell) -> bool
    ensures { result ≡ may test.now cell.now }
{
    if is_null(cell) {
        matches!(test, Test::IsNull)
    } else {
        may_present(test, cell)
    }
}
