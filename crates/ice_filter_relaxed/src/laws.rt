//! What relaxed filters are. The function does nothing.

ghost use Rattle.ice_filter_relaxed.specs.Relaxing.{IsMetWhereTheFilterMayBe, IsReadFromItsText};

/// A row meets a relaxed filter exactly where it meets the filter itself for some truth of the predicates that are not
/// asked: so each row that an engine finds to meet the filter meets the relaxed one, whatever the engine makes of those
/// predicates. The text that a relaxed filter is shown as is read as that filter.
pub fn relaxed_filters_lose_no_row()
    ensures met { IsMetWhereTheFilterMayBe }
    ensures read { IsReadFromItsText }
{}
