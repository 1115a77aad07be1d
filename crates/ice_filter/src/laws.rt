//! Laws of filters as lists of parts.

ghost use Rattle.std.specs.Prelude.{◌≡◌, Bool, List};
ghost use Rattle.ice_filter.specs.Trees.{Tree, tree_of, parts_of, meaning, is_filter, map_predicates};
ghost use Rattle.ice_filter.specs.declared.parts.Part.{Part};

/// Every filter is the one that is read from its parts.
pub fn filters_of_parts<L>()
    ensures { (t : Tree L) → tree_of (parts_of t) ≡ t }
{}

/// A filter over other predicates has as many parts that wait at any time, and is met where the one before is.
pub fn filters_over_other_predicates<L, M>()
    ensures filter { (f : L → M) (parts : List (Part L)) → is_filter (map_predicates f parts) ≡ is_filter parts }
    ensures meaning { (f : L → M) (met : M → Bool) (parts : List (Part L)) →
        meaning met (tree_of (map_predicates f parts)) ≡ meaning (λ l. met (f l)) (tree_of parts) }
{}
