//! What a manifest says of the columns of a file, by their ids.

ghost use Rattle.std.specs.Prelude.{◌≡◌, []};
ghost use Rattle.std.specs.Option.{option_copied};
ghost use Rattle.ice_value.specs.Columns.{count_of, bound_of};
ghost use Rattle.ice_value.specs.Pairs.{pairs_in, last_of, counts_said, bounds_said};

use std::alloc::Global;
use std::marker::Model;

/// Pairs of a column's id and what is said of it, in the file's order. They are lent where they lie as such pairs.
#[derive(Debug, Drop)]
enum Pairs<'a, T> {
    Lent(&'a [(i32, T)]),
    Made(Vec<(i32, T)>),
}

impl<'a, T> Pairs<'a, T> {
    fn as_slice(&self) -> &[(i32, T)]
        ensures { result.now ≡ pairs_in self.now }
    {
        match self {
            Pairs::Lent(pairs) => pairs,
            Pairs::Made(pairs) => pairs.as_slice(),
        }
    }
}

/// What is said of the column; of several the last counts.
fn find_last<T>(pairs: &[(i32, T)], column: i32) -> Option<&T>
    ensures { option_copied result ≡ last_of column pairs.now }
{
    pairs
        .iter()
        .rev()
        .find(|pair| pair.0 == column)
        .map(|pair| &pair.1)
}

/// Numbers of values of columns. Where a column stands twice the last number counts.
#[derive(Debug, Drop)]
pub struct ColumnCounts<'a> {
    pairs: Pairs<'a, i64>,
}

impl<'a> Model for ColumnCounts<'a> {
    ghost use Rattle.std.specs.Prelude.{List};
    ghost use Rattle.ice_value.specs.Columns.{ColumnCount};
    ghost use Rattle.ice_value.specs.Pairs.{pairs_in, counts_said};

    ghost Value = { List ColumnCount };

    ghost view = { λ c. counts_said (pairs_in c.pairs) };
}

impl<'a> ColumnCounts<'a> {
    /// No counts.
    pub fn none(alloc: Global) -> Self
        ensures { result ≡ [] }
    {
        Self::made(Vec::new(alloc))
    }

    /// These counts, lent.
    pub fn lent(pairs: &'a [(i32, i64)]) -> Self
        ensures { result ≡ counts_said pairs.now }
    {
        ColumnCounts {
            pairs: Pairs::Lent(pairs),
        }
    }

    /// These counts, without taking memory.
    pub fn made(pairs: Vec<(i32, i64)>) -> Self
        ensures { result ≡ counts_said pairs.items }
    {
        ColumnCounts {
            pairs: Pairs::Made(pairs),
        }
    }

    /// The columns' ids, each with its number of values, in the file's order.
    pub fn pairs(&self) -> &[(i32, i64)]
        ensures { counts_said result.now ≡ self.now }
    {
        self.pairs.as_slice()
    }

    /// The number of values of the column.
    pub fn get(&self, column: i32) -> Option<i64>
        ensures { result ≡ count_of column self.now }
    {
        find_last(self.pairs.as_slice(), column).copied()
    }
}

/// Bounds of columns, single values in bytes. Where a column stands twice the last bound counts.
#[derive(Debug, Drop)]
pub struct ColumnBounds<'a, 'd> {
    pairs: Pairs<'a, &'d [u8]>,
}

impl<'a, 'd> Model for ColumnBounds<'a, 'd> {
    ghost use Rattle.std.specs.Prelude.{List};
    ghost use Rattle.ice_value.specs.Columns.{ColumnBound};
    ghost use Rattle.ice_value.specs.Pairs.{pairs_in, bounds_said};

    ghost Value = { List ColumnBound };

    ghost view = { λ b. bounds_said (pairs_in b.pairs) };
}

impl<'a, 'd> ColumnBounds<'a, 'd> {
    /// No bounds.
    pub fn none(alloc: Global) -> Self
        ensures { result ≡ [] }
    {
        Self::made(Vec::new(alloc))
    }

    /// These bounds, lent.
    pub fn lent(pairs: &'a [(i32, &'d [u8])]) -> Self
        ensures { result ≡ bounds_said pairs.now }
    {
        ColumnBounds {
            pairs: Pairs::Lent(pairs),
        }
    }

    /// These bounds, without taking memory.
    pub fn made(pairs: Vec<(i32, &'d [u8])>) -> Self
        ensures { result ≡ bounds_said pairs.entry.items }
    {
        ColumnBounds {
            pairs: Pairs::Made(pairs),
        }
    }

    /// The columns' ids, each with its bound, in the file's order.
    pub fn pairs(&self) -> &[(i32, &'d [u8])]
        ensures { bounds_said result.now ≡ self.now }
    {
        self.pairs.as_slice()
    }

    /// The bytes of the column's bound.
    pub fn get(&self, column: i32) -> Option<&[u8]>
        ensures { option_copied result ≡ bound_of column self.now }
    {
        match find_last(self.pairs.as_slice(), column) {
            Some(bytes) => Some(*bytes),
            None => None,
        }
    }
}
