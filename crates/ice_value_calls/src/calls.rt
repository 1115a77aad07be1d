//! Public calls once more, each under the one clause that its wrong implementations turn.

ghost use Rattle.std.specs.Prelude.{◌≡◌, ◌≢◌, ◌<◌, ◌^◌, AllPairs, IfOk, OnOk, length};
ghost use Rattle.std.specs.Option.{SomeIff};
ghost use Rattle.ice_value.specs.Bounds.{order_in, written};
ghost use Rattle.ice_value.specs.Cells.{cell_cmp};
ghost use Rattle.ice_transform.specs.Values.{value_of};
ghost use Rattle.ice_deletes.specs.Unions.{Agree, AreBelow, IsUnion, renumbered};

use contract_words::Items;
use ice_deletes::DeleteIndex;
use ice_transform::Transform;
use ice_value::{Cell, ColumnType, SequenceNumber};
use std::alloc::{AllocError, Global};
use std::cmp::Ordering;

/// The sequence number, where it fits a long.
pub fn sequence_number(number: u64) -> Option<SequenceNumber>
    ensures { SomeIff result (number < 2 ^ 63) number }
{
    SequenceNumber::new(number)
}

/// The order of two values.
pub fn order_of_cells(a: &Cell, b: &Cell) -> Ordering
    ensures { result ≡ cell_cmp a.now b.now }
{
    a.cmp(b)
}

/// The order of the value that the bytes hold and the cell.
pub fn compare_bound(column_type: &ColumnType, bytes: &[u8], cell: &Cell) -> Option<Ordering>
    ensures { result ≡ order_in column_type.now bytes.now cell.now }
{
    ice_value::compare_bound(column_type, bytes, cell)
}

/// The bytes that hold the cell.
pub fn write_bound(
    alloc: Global,
    column_type: &ColumnType,
    cell: &Cell,
) -> Result<Option<Items<u8>>, AllocError>
    ensures { IfOk result (λ bytes. bytes ≡ written column_type.now cell.now) }
{
    ice_value::write_bound(alloc, column_type, cell)
}

/// The value of a cell by a transform.
pub fn apply(
    transform: &Transform,
    alloc: Global,
    source: &ColumnType,
    cell: &Cell,
) -> Result<Option<Cell>, AllocError>
    ensures { IfOk result (λ value. value ≡ value_of transform.now source.now cell.now) }
{
    transform.apply(alloc, source, cell)
}

/// Takes in the delete files of another index.
pub fn merge(index: &mut DeleteIndex, other: &DeleteIndex, to: &[u32]) -> Result<(), AllocError>
    requires below { AreBelow (length to.now) other.now }
    requires once { AllPairs (λ n m. n ≢ m) to.now }
    requires agree { Agree index.old (renumbered to.now other.now) }
    ensures { OnOk result (IsUnion index.old (renumbered to.now other.now) index.new) }
{
    index.merge(other, to)
}
