//! Laws of merging indexes. Their function does nothing.

ghost use Rattle.std.specs.Prelude.{ℕ, List, ◌↔◌, Contains};
ghost use Rattle.std.specs.List.Sorted.{IsPermutation};
ghost use Rattle.ice_value.specs.Applying.{DeleteKey};
ghost use Rattle.ice_deletes.specs.Found.{numbered_deletes};
ghost use Rattle.ice_deletes.specs.Trees.{Tree, EndsIn, files_of};
ghost use Rattle.ice_deletes.specs.Unions.{IsUnion};

/// Which indexes are merged in which order, and how often, changes nothing. Where a number names one file in all of
/// them, merging is commutative and associative, has one outcome, and any tree of merges ends in the index that is
/// built at once of all the files.
pub fn merging_of_indexes()
    ensures commutative { (a b ab : List (ℕ × DeleteKey)) → IsUnion a b ab → IsUnion b a ab }
    ensures associative { (a b c ab bc all : List (ℕ × DeleteKey)) → IsUnion a b ab → IsUnion b c bc →
        IsUnion ab c all ↔ IsUnion a bc all }
    ensures unique { (a b ab other : List (ℕ × DeleteKey)) → IsUnion a b ab → IsUnion a b other →
        IsPermutation ab other }
    ensures tree { (tree : Tree) (files : List DeleteKey) (index : List (ℕ × DeleteKey)) → EndsIn tree index →
        ((n : ℕ) (d : DeleteKey) → Contains (files_of tree) (n, d) ↔ Contains (numbered_deletes files) (n, d)) →
        IsPermutation (numbered_deletes files) index }
{}
