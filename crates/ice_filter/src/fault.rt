//! Why a filter is refused.

ghost use Rattle.std.specs.Prelude.{◌≡◌};
ghost use Rattle.ice_filter.specs.declared.fault.FilterFault.TheVariants.{Memory};

use std::alloc::{AllocError, AllocFailed};

/// Why a text is no filter, or a filter cannot be asked of a schema.
#[derive(Clone, Copy, Debug, PartialEq, Eq)]
pub enum FilterFault {
    /// The text is no filter: the offset of the first token that cannot stand where it does, or the text's length.
    Syntax(usize),
    /// No column has the name.
    NoSuchColumn,
    /// The column takes no such literal.
    WrongLiteral,
    /// The column cannot be compared so.
    NotComparable,
    /// More than 1,000 predicates, 32 open parentheses or 1,000 literals in a list.
    TooBig,
    /// No memory was left.
    Memory,
}

impl From<AllocError> for FilterFault {
    ghost from_gives = { λ _ e. e ≡ Memory };

    fn from(_e: AllocError) -> FilterFault {
        FilterFault::Memory
    }
}

impl<T: Drop> From<AllocFailed<T>> for FilterFault {
    ghost from_gives = { λ _ e. e ≡ Memory };

    fn from(_e: AllocFailed<T>) -> FilterFault {
        FilterFault::Memory
    }
}
