//! The delete files that apply to a data file, under the clause that wrong implementations turn.

ghost use Rattle.std.specs.Prelude.{◌↔◌, ℕ, Contains};
ghost use Rattle.ice_deletes.specs.Found.{AppliesAt, data_key, lent};

use ice_deletes::{DeleteIndex, Hits};
use ice_value::{Cell, SequenceNumber};

/// The delete files that apply to a data file.
pub fn for_data<'i>(
    index: &'i DeleteIndex,
    spec_id: i32,
    tuple: &[Cell],
    number: SequenceNumber,
    path: &[u8],
) -> Hits<'i>
    ensures { let x = data_key spec_id tuple.now number path.now in
        (n : ℕ) → Contains (lent result) n ↔ AppliesAt index.now x n }
{
    index.for_data(spec_id, tuple, number, path)
}
