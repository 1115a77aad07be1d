//! From a filter over the columns of a schema to its refusal.

ghost use Rattle.ice_filter_laws.specs.Faults.{BindsSoundPredicates, HasItsPredicatesInOrder, TellsTheFirst};

/// A filter is refused for its first predicate at fault, in the order of its text, and for the first of that
/// predicate's faults: no column has its names (`F2`), its column can't be asked so (`F4`), its column doesn't take one
/// of its literals (`F3`). It is bound exactly where no predicate is at fault.
pub fn bind_refuses_the_first_predicate_at_fault()
    ensures told { TellsTheFirst }
    ensures bound { BindsSoundPredicates }
    ensures order { HasItsPredicatesInOrder }
{}
