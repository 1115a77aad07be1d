//! What verdicts tell of a filter.

ghost use Rattle.std.specs.Prelude.{◌≡◌, ◌≤◌, ℕ, List, None, Some, true, false, length};
ghost use Rattle.std.specs.List.{Contains};
ghost use Rattle.ice_filter.specs.Trees.{meaning, tree_of};
ghost use Rattle.ice_filter.specs.declared.bound.BoundPredicate.{BoundPredicate};
ghost use Rattle.ice_filter.specs.declared.parts.Part.{Part};
ghost use Rattle.ice_manifest_reading.specs.declared.entry.Live.{Live};
ghost use Rattle.ice_manifest_reading.specs.declared.row.Row.{Row};
ghost use Rattle.ice_meta.specs.declared.spec.Spec.{Spec};
ghost use Rattle.ice_project.specs.Files.{file_may};
ghost use Rattle.ice_project.specs.Projection.{projection};
ghost use Rattle.ice_project.specs.Tuples.{part_meets};
ghost use Rattle.ice_state.specs.Pruning.{keeps, pruner_of, summaries_allow};
ghost use Rattle.ice_state.specs.Specs.{spec_of};
ghost use Rattle.icescan_explain.specs.Alone.{predicates, only};
ghost use Rattle.icescan_explain.specs.Asking.{ice_filter_tests, spec_tests};
ghost use Rattle.icescan_explain.specs.Fates.{file_fate, is_kept, row_fate};
ghost use Rattle.icescan_explain.specs.declared.verdict.Fate.TheVariants.{ByPartition, ByBounds};

/// A manifest is told as read, and a live file as kept, just where a scan reads and keeps it.
pub fn fates_are_those_of_scans()
    ensures row { (specs : List Spec) (filter : List (Part BoundPredicate)) (spec : Spec) (row : Row) →
        spec_of specs row.spec_id ≡ Some spec →
        is_kept (row_fate (spec_tests filter spec) row) ≡ (pruner_of filter specs).wants row }
    ensures file { (specs : List Spec) (filter : List (Part BoundPredicate)) (columns : List (List ℕ)) (spec : Spec)
        (l : Live) → spec_of specs l.entry.spec_id ≡ Some spec →
        is_kept (file_fate (ice_filter_tests specs filter columns) (spec_tests filter spec) l)
        ≡ keeps (pruner_of filter specs) l }
{}

/// What names a partition field or a column is left out by some predicate of the filter alone: by the projection of the
/// predicate a manifest and a file that the partition leaves out, by the predicate itself a file that its bounds leave
/// out.
pub fn named_predicates_say_no()
    ensures row { (filter : List (Part BoundPredicate)) (spec : Spec) (row : Row) (field : List ℕ) →
        row_fate (spec_tests filter spec) row ≡ ByPartition (Some field) →
        (predicate : BoundPredicate) × Contains (predicates filter) predicate
        × (summaries_allow (projection (only predicate) spec) row.partitions ≡ false) }
    ensures partition { (specs : List Spec) (filter : List (Part BoundPredicate)) (columns : List (List ℕ))
        (spec : Spec) (l : Live) (field : List ℕ) →
        file_fate (ice_filter_tests specs filter columns) (spec_tests filter spec) l ≡ ByPartition (Some field) →
        (predicate : BoundPredicate) × Contains (predicates filter) predicate
        × (part_meets (projection (only predicate) spec) l.entry.file.tuple ≡ false) }
    ensures bounds { (specs : List Spec) (filter : List (Part BoundPredicate)) (columns : List (List ℕ)) (spec : Spec)
        (l : Live) (column : List ℕ) →
        file_fate (ice_filter_tests specs filter columns) (spec_tests filter spec) l ≡ ByBounds (Some column) →
        (predicate : BoundPredicate) × Contains (predicates filter) predicate
        × (file_may (only predicate) l.bounds ≡ false) }
{}

/// What is left out names a partition field or a column, but where the filter is never met, whatever its predicates
/// are.
pub fn left_out_names_a_predicate()
    ensures row { (filter : List (Part BoundPredicate)) (spec : Spec) (row : Row) →
        row_fate (spec_tests filter spec) row ≡ ByPartition None →
        meaning (λ (l : BoundPredicate). true) (tree_of filter) ≡ false }
    ensures partition { (specs : List Spec) (filter : List (Part BoundPredicate)) (columns : List (List ℕ))
        (spec : Spec) (l : Live) →
        file_fate (ice_filter_tests specs filter columns) (spec_tests filter spec) l ≡ ByPartition None →
        meaning (λ (l : BoundPredicate). true) (tree_of filter) ≡ false }
    ensures bounds { (specs : List Spec) (filter : List (Part BoundPredicate)) (columns : List (List ℕ)) (spec : Spec)
        (l : Live) → length (predicates filter) ≤ length columns →
        file_fate (ice_filter_tests specs filter columns) (spec_tests filter spec) l ≡ ByBounds None → ⊥ }
{}
