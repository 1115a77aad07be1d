//! The value of a column in a row, and the order of values of one kind.

ghost use Rattle.std.specs.Prelude.{◌≡◌, ◌<◌, ◌↔◌, true, Some, IfErr, IfOk, IsSome, IsTrue, List};
ghost use Rattle.std.specs.Cmp.{IsTotalOrder, IsStrictWeakOrder};
ghost use Rattle.std.specs.declared.cmp.Ordering.{Ordering};
ghost use Rattle.std.specs.declared.cmp.Ordering.TheVariants.{Less, Equal};
ghost use Rattle.std.specs.Option.{option_map};
ghost use Rattle.std.specs.Ordering.{ordering_reverse, is_lt};
ghost use Rattle.ice_value.specs.Bounds.{fits_int, is_cell};
ghost use Rattle.ice_value.specs.Cells.{order, AreOfOneKind, same_cell, same_tuple, kind_of, is_at_most, cell_cmp};
ghost use Rattle.ice_value.specs.Cells.{tuple_cmp, KeepsBytes};
ghost use Rattle.ice_value.specs.declared.cell.Cell.{Cell};
ghost use Rattle.ice_value.specs.declared.column_type.ColumnType.{ColumnType};

use crate::column_type::ColumnType;
use contract_words::{Duplicate, Items, Text};
use std::alloc::{AllocError, Global};
use std::cmp::Ordering;

/// A column's value: null, or a value of one of four kinds.
#[derive(Debug, Drop)]
pub enum Cell {
    /// No value.
    Null,
    /// A boolean.
    Bool(bool),
    /// A whole number, a day number, or a time in microseconds.
    Whole(i64),
    /// A text.
    Text(Text),
    /// A byte string, or a number of 16 bytes.
    Bytes(Items<u8>),
}

impl PartialEq for Cell {
    ghost use Rattle.std.specs.Cmp.{partial_equiv_from_equiv};
    ghost use Rattle.ice_value.specs.Cells.{same_cell};
    ghost use Rattle.ice_value.specs.Equality.{same_cell_equiv};

    ghost eq = { same_cell };

    ghost laws = { partial_equiv_from_equiv same_cell_equiv };

    fn eq(&self, other: &Self) -> bool {
        match (self, other) {
            (Cell::Null, Cell::Null) => true,
            (Cell::Bool(a), Cell::Bool(b)) => a == b,
            (Cell::Whole(a), Cell::Whole(b)) => a == b,
            (Cell::Text(a), Cell::Text(b)) => a == b,
            (Cell::Bytes(a), Cell::Bytes(b)) => a == b,
            _ => false,
        }
    }
}

impl Eq for Cell {
    ghost use Rattle.ice_value.specs.Equality.{same_cell_equiv};

    ghost laws = { same_cell_equiv };
}

impl PartialOrd for Cell {
    ghost use Rattle.std.specs.Cmp.{po};
    ghost use Rattle.std.specs.Ordering.{as_partial_cmp};
    ghost use Rattle.ice_value.specs.Cells.{cell_cmp};
    ghost use Rattle.ice_value.specs.Equality.{cell_cmp_total, same_cell-by_cmp};

    ghost partial_cmp = { as_partial_cmp cell_cmp };

    ghost laws = { po cell_cmp_total same_cell-by_cmp };

    fn partial_cmp(&self, other: &Self) -> Option<Ordering> {
        Some(self.cmp(other))
    }
}

/// Null comes first, then booleans, whole numbers, texts and byte strings, each kind in its own order.
impl Ord for Cell {
    ghost use Rattle.std.specs.Prelude.{refl};
    ghost use Rattle.ice_value.specs.Cells.{cell_cmp};
    ghost use Rattle.ice_value.specs.Equality.{cell_cmp_total, same_cell-by_cmp};

    ghost cmp = { cell_cmp };

    ghost total = { cell_cmp_total };

    ghost matches_partial_cmp = { λ a b. refl };

    ghost matches_eq = { same_cell-by_cmp };

    fn cmp(&self, other: &Self) -> Ordering {
        self.order(other).unwrap_or(self.kind().cmp(&other.kind()))
    }
}

impl Duplicate for Cell {
    fn copy(&self, alloc: Global) -> Result<Cell, AllocError> {
        self.copied(alloc)
    }
}

impl Cell {
    /// The same cell. Only the copy of a text or of a byte string takes memory.
    pub fn copied(&self, alloc: Global) -> Result<Cell, AllocError>
        ensures same { IfOk result (λ copied. copied ≡ self.now) }
        ensures memory { IfErr result (λ _. KeepsBytes (Some self.now)) }
    {
        match self {
            Cell::Null => Ok(Cell::Null),
            Cell::Bool(truth) => Ok(Cell::Bool(*truth)),
            Cell::Whole(number) => Ok(Cell::Whole(*number)),
            Cell::Text(text) => Ok(Cell::Text(text.copy(alloc)?)),
            Cell::Bytes(bytes) => Ok(Cell::Bytes(bytes.copy(alloc)?)),
        }
    }

    /// Whether the cell is a value of the type. Null is of no type, no cell is of type float or double, and any bytes
    /// are of type decimal.
    pub fn is_of(&self, column_type: &ColumnType) -> bool
        ensures { result ≡ is_cell column_type.now self.now }
    {
        match self {
            Cell::Null => false,
            Cell::Bool(_) => matches!(column_type, ColumnType::Boolean),
            Cell::Whole(number) => is_number_of(*number, column_type),
            Cell::Text(text) => is_text_of(text.as_str(), column_type),
            Cell::Bytes(bytes) => are_bytes_of(bytes.as_slice(), column_type),
        }
    }

    /// The place of its kind among the kinds.
    fn kind(&self) -> u8
        ensures { result ≡ kind_of self.now }
    {
        match self {
            Cell::Null => 0,
            Cell::Bool(_) => 1,
            Cell::Whole(_) => 2,
            Cell::Text(_) => 3,
            Cell::Bytes(_) => 4,
        }
    }

    /// The order of two cells of one kind: false before true, whole numbers as numbers, texts and bytes by their
    /// unsigned bytes. None where a cell is null or the kinds differ.
    pub fn order(&self, other: &Cell) -> Option<Ordering>
        ensures { result ≡ order self.now other.now }
    {
        match (self, other) {
            (Cell::Bool(a), Cell::Bool(b)) => Some(a.cmp(b)),
            (Cell::Whole(a), Cell::Whole(b)) => Some(a.cmp(b)),
            (Cell::Text(a), Cell::Text(b)) => Some(a.as_bytes().cmp(b.as_bytes())),
            (Cell::Bytes(a), Cell::Bytes(b)) => Some(a.as_slice().cmp(b.as_slice())),
            _ => None,
        }
    }
}

fn is_number_of(number: i64, column_type: &ColumnType) -> bool
    ensures { result ≡ is_cell column_type.now (Cell.Whole number) }
{
    match column_type {
        ColumnType::Int | ColumnType::Date => is_int(number),
        ColumnType::Long | ColumnType::Time | ColumnType::Timestamp | ColumnType::Timestamptz =>
            true,
        _ => false,
    }
}

/// Whether the number fits 32 bits.
fn is_int(number: i64) -> bool
    ensures { result ≡ fits_int number }
{
    number >= -0x8000_0000 && number < 0x8000_0000
}

/// A `str` is UTF-8 by its type.
fn is_text_of(text: &str, column_type: &ColumnType) -> bool
    ensures { result ≡ is_cell column_type.now (Cell.Text text.now) }
{
    let _ = text;
    matches!(column_type, ColumnType::String)
}

fn are_bytes_of(bytes: &[u8], column_type: &ColumnType) -> bool
    ensures { result ≡ is_cell column_type.now (Cell.Bytes bytes.now) }
{
    match column_type {
        ColumnType::Uuid => bytes.len() == 16,
        ColumnType::Fixed(size) => bytes.len() == *size as usize,
        ColumnType::Binary | ColumnType::Decimal { .. } => true,
        _ => false,
    }
}

/// Whether two tuples have the same cells in the same places. Nulls are the same.
pub fn is_same_tuple(tuple: &[Cell], other: &[Cell]) -> bool
    ensures test { result ≡ same_tuple tuple.now other.now }
    ensures same { IsTrue result ↔ (tuple.now ≡ other.now) }
{
    tuple == other
}

/// The tests of cells and of tuples, which are what `==` gives for them, say whether they are the same.
pub fn equality_of_cells()
    ensures cells { (a b : Cell) → IsTrue (same_cell a b) ↔ (a ≡ b) }
    ensures tuples { (a b : List Cell) → IsTrue (same_tuple a b) ↔ (a ≡ b) }
{}

/// The order of cells is total among the cells of each kind, and a cell is equal to itself alone.
pub fn order_of_cells()
    ensures compared { (a b : Cell) → IsSome (order a b) ↔ AreOfOneKind a b }
    ensures itself { (a : Cell) → AreOfOneKind a a → order a a ≡ Some Equal }
    ensures no_other { (a b : Cell) → order a b ≡ Some Equal → a ≡ b }
    ensures turned { (a b : Cell) → order b a ≡ option_map ordering_reverse (order a b) }
    ensures less { (a b c : Cell) → order a b ≡ Some Less → order b c ≡ Some Less → order a c ≡ Some Less }
{}

/// The order in which `Ord` puts cells, and with them tuples, is total, and only the same cells and the same tuples
/// compare equal. Cells of one kind keep the order of that kind.
pub fn total_order_of_cells()
    ensures cells { IsTotalOrder cell_cmp }
    ensures same_cells { (a b : Cell) → (cell_cmp a b ≡ Equal) ↔ (a ≡ b) }
    ensures tuples { IsTotalOrder tuple_cmp }
    ensures same_tuples { (a b : List Cell) → (tuple_cmp a b ≡ Equal) ↔ (a ≡ b) }
    ensures of_one_kind { (a b : Cell) → AreOfOneKind a b → order a b ≡ Some (cell_cmp a b) }
    ensures of_kinds { (a b : Cell) → kind_of a < kind_of b → cell_cmp a b ≡ Less }
    ensures sortable { IsStrictWeakOrder (λ (a : List Cell) (b : List Cell). is_lt (tuple_cmp a b)) }
{}

/// Being at most another is an order among the cells of each kind.
pub fn cells_up_to_others()
    ensures itself { (a : Cell) → AreOfOneKind a a → is_at_most a a ≡ true }
    ensures further { (a b c : Cell) → is_at_most a b ≡ true → is_at_most b c ≡ true → is_at_most a c ≡ true }
    ensures both { (a b : Cell) → is_at_most a b ≡ true → is_at_most b a ≡ true → a ≡ b }
{}
