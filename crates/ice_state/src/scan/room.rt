//! How much memory the projections of a filter take, about.

use ice_filter::{Bound, Part, Test};
use ice_value::Cell;

/// So many bytes of projections are held: more than those of a filter and a table that were not made to be large.
pub(crate) const MOST_HELD: usize = 48 << 20;

/// So many bytes of projections that are not held may be made at once.
pub(crate) const MOST_MADE: usize = 24 << 20;

/// What a literal takes without its bytes, and what a test takes without its literals.
const SMALL: usize = 32;

/// The bytes of a literal.
fn bytes_of_cell(cell: &Cell) -> usize {
    match cell {
        Cell::Text(text) => text.as_bytes().len().saturating_add(SMALL),
        Cell::Bytes(bytes) => bytes.as_slice().len().saturating_add(SMALL),
        Cell::Null | Cell::Bool(_) | Cell::Whole(_) => SMALL,
    }
}

/// The bytes of literals.
fn bytes_of_cells(cells: &[Cell]) -> usize {
    let mut bytes: usize = 0;
    'cells: for cell in cells {
        bytes = bytes.saturating_add(bytes_of_cell(cell));
    }
    bytes
}

/// The bytes of a test.
fn bytes_of_test(test: &Test) -> usize {
    let literals = match test {
        Test::Less(v) | Test::AtMost(v) | Test::More(v) | Test::AtLeast(v) => bytes_of_cell(v),
        Test::Among(literals) | Test::NotAmong(literals) => bytes_of_cells(literals.as_slice()),
        Test::StartsWith(start) => start.as_bytes().len(),
        Test::IsNull | Test::IsPresent => 0,
    };
    literals.saturating_add(4 * SMALL)
}

/// The bytes of a filter.
pub(crate) fn bytes_of(filter: &Bound) -> usize {
    let mut bytes: usize = 0;
    'parts: for part in filter.parts.as_slice() {
        if let Part::Predicate(predicate) = part {
            bytes = bytes.saturating_add(bytes_of_test(&predicate.test));
        }
    }
    bytes
}
