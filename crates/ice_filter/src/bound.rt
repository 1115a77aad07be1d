//! Filters whose predicates name columns by id.

ghost use Rattle.std.specs.Prelude.{◌≡◌, [], true};
ghost use Rattle.ice_filter.specs.Rows.{Row, row_meets};

use crate::parts::Parts;
use contract_words::{Duplicate, Items, Text};
use ice_value::{Cell, ColumnType};
use std::alloc::{AllocError, Global};

/// A test of a cell. Every comparison but `IsNull` is false on null.
#[derive(Debug, PartialEq, Drop)]
pub enum Test {
    /// Less than the literal.
    Less(Cell),
    /// Less than the literal or equal to it.
    AtMost(Cell),
    /// Greater than the literal.
    More(Cell),
    /// Greater than the literal or equal to it.
    AtLeast(Cell),
    /// Equal to one of the literals.
    Among(Items<Cell>),
    /// Neither null nor equal to one of the literals.
    NotAmong(Items<Cell>),
    /// Null.
    IsNull,
    /// Not null.
    IsPresent,
    /// A text that starts with this one.
    StartsWith(Text),
}

impl Duplicate for Test {
    fn copy(&self, alloc: Global) -> Result<Test, AllocError> {
        match self {
            Test::Less(literal) => Ok(Test::Less(literal.copy(alloc)?)),
            Test::AtMost(literal) => Ok(Test::AtMost(literal.copy(alloc)?)),
            Test::More(literal) => Ok(Test::More(literal.copy(alloc)?)),
            Test::AtLeast(literal) => Ok(Test::AtLeast(literal.copy(alloc)?)),
            Test::Among(literals) => Ok(Test::Among(literals.copy(alloc)?)),
            Test::NotAmong(literals) => Ok(Test::NotAmong(literals.copy(alloc)?)),
            Test::IsNull => Ok(Test::IsNull),
            Test::IsPresent => Ok(Test::IsPresent),
            Test::StartsWith(start) => Ok(Test::StartsWith(start.copy(alloc)?)),
        }
    }
}

/// A test of a column.
#[derive(Debug, PartialEq, Drop)]
pub struct BoundPredicate {
    /// The column's id.
    pub column: i32,
    /// The type of its values.
    pub column_type: ColumnType,
    /// What is asked of them.
    pub test: Test,
}

/// A filter over the columns of a schema.
#[derive(Debug, Drop)]
pub struct Bound {
    /// The filter, part by part.
    pub parts: Parts<BoundPredicate>,
}

impl Bound {
    /// The filter that every row meets: it has no parts. It takes no memory.
    pub fn always(alloc: Global) -> Bound
        ensures parts { result.parts ≡ [] }
        ensures met { (row : Row) → row_meets result.parts row ≡ true }
    {
        Bound {
            parts: Parts::always(alloc),
        }
    }
}
