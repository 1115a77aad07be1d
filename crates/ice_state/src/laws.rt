//! Laws of contents and plans, in words of their own. Their functions do nothing.

ghost use Rattle.std.specs.Prelude.{◌≡◌, ◌<◌, ◌≤◌, ◌↔◌, ℕ, ℤ, Ok, Err, IsSome, IsTrue, List, [], ◌∷◌, Bool, true};
ghost use Rattle.std.specs.Prelude.{false, length, map, filter, slice_index_or, Contains};
ghost use Rattle.std.specs.List.{flat_map, AllByRecursion};
ghost use Rattle.std.specs.List.Sorted.{IsSortedBy};
ghost use Rattle.ice_filter.specs.declared.bound.BoundPredicate.{BoundPredicate};
ghost use Rattle.ice_filter.specs.declared.parts.Part.{Part};
ghost use Rattle.ice_meta.specs.declared.spec.Spec.{Spec};
ghost use Rattle.ice_manifest_reading.specs.declared.entry.Entry.{Entry};
ghost use Rattle.ice_manifest_reading.specs.declared.entry.Live.{Live};
ghost use Rattle.ice_manifest_reading.specs.Manifests.{entries};
ghost use Rattle.ice_value.specs.declared.file_content.FileContent.TheVariants.{Data, PositionDeletes, EqualityDeletes};
ghost use Rattle.ice_manifest_reading.specs.declared.row.Row.{Row};
ghost use Rattle.ice_state.specs.declared.fault.FinishFault.{FinishFault};
ghost use Rattle.ice_state.specs.declared.fault.FinishFault.TheVariants.{PathTwice};
ghost use Rattle.ice_state.specs.declared.fault.ScanFault.TheVariants.{NoSuchSpec};
ghost use Rattle.ice_value.specs.Applying.{same_partition};
ghost use Rattle.ice_state.specs.Applying.{Applies, applies, data_key_of, delete_key_of};
ghost use Rattle.ice_state.specs.Contents.{Content, World, content};
ghost use Rattle.ice_state.specs.Covering.{AreCovered, HasSoundSummaries};
ghost use Rattle.ice_state.specs.Joins.{Agree, join, either};
ghost use Rattle.ice_state.specs.Lines.{OwnedLine};
ghost use Rattle.ice_state.specs.Outcomes.{by_path, plan_over, twice, outcome};
ghost use Rattle.ice_state.specs.Pruning.{Pruner, pruner_of, everything, holds, keeps, kept, SaysItsSpec, IsOpen};
ghost use Rattle.ice_state.specs.Runs.{Run, IsIn, TakeTheSame, takes, taken, after};
ghost use Rattle.ice_state.specs.Scans.{Scanned, pruner, row_before, scan_of, IsScanOf, IsFirstUnknown};
ghost use Rattle.ice_state.specs.Shares.{IsLeastShared, count_at};
ghost use Rattle.ice_state.specs.Snapshots.{live, AreKeptWanted, kept_of_wanted, plan_of_snapshot};
ghost use Rattle.ice_state.specs.Specs.{spec_of};

use ice_project::{
    projections_of_same_tuples, projections_of_unpartitioned_specs, summary_soundness,
};

/// A scan wants exactly the rows that its filter wants, in the order of their paths, and each of its rows has a spec.
/// It is refused for the row with the least path among those whose spec is missing. It finds the specs that the
/// caller's list has, whatever their order, and so keeps the same.
pub fn scanning()
    ensures made { (rows : List Row) (specs : List Spec) (filter : List (Part BoundPredicate)) (scan : Scanned) →
        scan_of rows specs filter ≡ Ok scan → (scan.filter ≡ filter) × IsScanOf rows specs scan }
    ensures wanted { (rows : List Row) (specs : List Spec) (scan : Scanned) (row : Row) → IsScanOf rows specs scan →
        (Contains scan.wanted row ↔ (Contains rows row × ((pruner scan).wants row ≡ true))) }
    ensures sorted { (rows : List Row) (specs : List Spec) (scan : Scanned) → IsScanOf rows specs scan →
        IsSortedBy row_before scan.wanted }
    ensures known { (rows : List Row) (specs : List Spec) (scan : Scanned) (row : Row) → IsScanOf rows specs scan →
        Contains rows row → IsSome (spec_of specs row.spec_id) }
    ensures same_specs { (rows : List Row) (specs : List Spec) (scan : Scanned) (id : ℤ) → IsScanOf rows specs scan →
        spec_of scan.specs id ≡ spec_of specs id }
    ensures same_pruner { (rows : List Row) (specs : List Spec) (scan : Scanned) → IsScanOf rows specs scan →
        pruner scan ≡ pruner_of scan.filter specs }
    ensures refused { (rows : List Row) (specs : List Spec) (filter : List (Part BoundPredicate)) (id : ℤ) →
        scan_of rows specs filter ≡ Err (NoSuchSpec id) → (row : Row) × IsFirstUnknown specs rows id row }
{}

/// What was taken fixes the content: after a tree of takes and merges over any number of states it is the content of
/// the world and of the rows that were taken. So trees that took the same rows, in whatever order, however often and on
/// however many states, end in one content and in one outcome.
pub fn sharing()
    ensures content { (world : World) (scan : Scanned) (run : Run) →
        IsIn world scan run → after scan run ≡ content world scan (taken scan run) }
    ensures rows { (scan : Scanned) (run : Run) (i : ℕ) → i < length scan.wanted →
        slice_index_or (taken scan run) i false ≡ takes run i }
    ensures contents { (world : World) (scan : Scanned) (run other : Run) →
        IsIn world scan run → IsIn world scan other → TakeTheSame run other → after scan run ≡ after scan other }
    ensures outcomes { (world : World) (scan : Scanned) (run other : Run) →
        IsIn world scan run → IsIn world scan other → TakeTheSame run other →
        outcome scan (after scan run) ≡ outcome scan (after scan other) }
{}

/// The union of contents is associative, commutative and idempotent, and it is the content of the union of the sets.
pub fn merging()
    ensures associative { (a b c : Content) → join (join a b) c ≡ join a (join b c) }
    ensures idempotent { (a : Content) → join a a ≡ a }
    ensures commutative { (a b : Content) → Agree a b → join a b ≡ join b a }
    ensures one_world { (world : World) (scan : Scanned) (ts us : List Bool) →
        Agree (content world scan ts) (content world scan us) }
    ensures united { (world : World) (scan : Scanned) (ts us : List Bool) →
        join (content world scan ts) (content world scan us) ≡ content world scan (either ts us) }
{}

/// The test of whether a delete file applies says what the rules say.
pub fn applying()
    ensures { (x d : Entry) → (applies x d ≡ true) ↔ Applies x d }
{}

/// A plan has a line for each of its data files, in their order, and with each exactly those delete files that apply
/// to it.
pub fn planning()
    ensures files { (deletes xs : List Entry) →
        map (λ line. line.file) (plan_over deletes xs) ≡ filter (holds Data) xs }
    ensures positions { (deletes xs : List Entry) (line : OwnedLine) (d : Entry) →
        Contains (plan_over deletes xs) line →
        (Contains line.positions d ↔
        (Contains deletes d × ((d.file.content ≡ PositionDeletes) × Applies line.file d))) }
    ensures equalities { (deletes xs : List Entry) (line : OwnedLine) (d : Entry) →
        Contains (plan_over deletes xs) line →
        (Contains line.equalities d ↔
        (Contains deletes d × ((d.file.content ≡ EqualityDeletes) × Applies line.file d))) }
{}

/// Of any filter under which each row with a kept entry is wanted: the kept entries of the wanted rows are those of all
/// rows, and the plan over the kept entries is the plan over the live entries of all rows.
pub fn pruning()
    ensures same_entries { (p : Pruner) (live : Row → List Live) (rows : List Row) → AreKeptWanted p live rows →
        kept p (flat_map live rows) ≡ kept_of_wanted p live rows }
    ensures plans { (p : Pruner) (world : World) (specs : List Spec) (rows : List Row) → IsOpen specs p →
        AreKeptWanted p (live world specs) rows →
        plan_over (by_path (entries (flat_map (live world specs) rows)))
        (by_path (kept_of_wanted p (live world specs) rows)) ≡
        plan_over (by_path (kept_of_wanted p (live world specs) rows))
        (by_path (kept_of_wanted p (live world specs) rows)) }
{}

/// What a filter of rows keeps of a table. Wherever its projection keeps a data file it keeps each delete file of the
/// same spec and partition values, and each one of a spec that partitions nothing: so each delete file that applies.
/// And of a row whose summaries tell the truth it doesn't say no where it keeps an entry.
pub fn filtering()
    ensures same_partition { (filter : List (Part BoundPredicate)) (specs : List Spec) (x d : Entry) →
        IsTrue (same_partition (data_key_of x) (delete_key_of d)) →
        (pruner_of filter specs).meets x.spec_id x.file.tuple ≡ true →
        (pruner_of filter specs).meets d.spec_id d.file.tuple ≡ true }
    ensures open_where_unpartitioned { (filter : List (Part BoundPredicate)) (specs : List Spec) →
        IsOpen specs (pruner_of filter specs) }
    ensures deletes { (filter : List (Part BoundPredicate)) (specs : List Spec) (x : Entry) (l : Live) →
        SaysItsSpec specs l.entry → Applies x l.entry →
        (pruner_of filter specs).meets x.spec_id x.file.tuple ≡ true → keeps (pruner_of filter specs) l ≡ true }
    ensures sound { (filter : List (Part BoundPredicate)) (specs : List Spec) →
        HasSoundSummaries specs (pruner_of filter specs) }
{
    projections_of_same_tuples();
    projections_of_unpartitioned_specs();
    summary_soundness();
}

/// With the filter that is always met every row is wanted and every live entry is kept.
pub fn unfiltered()
    ensures rows { (specs : List Spec) (row : Row) → IsSome (spec_of specs row.spec_id) →
        (pruner_of [] specs).wants row ≡ true }
    ensures entries { (specs : List Spec) (l : Live) → IsSome (spec_of specs l.entry.spec_id) →
        keeps (pruner_of [] specs) l ≡ true }
    ensures plans { (world : World) (rows : List Row) (specs : List Spec) (scan : Scanned) →
        scan_of rows specs [] ≡ Ok scan →
        plan_of_snapshot (pruner_of [] specs) world specs rows ≡ plan_of_snapshot everything world specs rows }
{}

/// Where the summaries tell the truth and the test of summaries is right, each row with a kept entry is wanted.
pub fn covering()
    ensures { (p : Pruner) (world : World) (specs : List Spec) (rows : List Row) →
        HasSoundSummaries specs p → AreCovered world specs rows → AreKeptWanted p (live world specs) rows }
{}

/// Specs without fields have rows that tell the truth, whatever their summaries say.
pub fn covering_without_fields()
    ensures { (world : World) (specs : List Spec) (rows : List Row) →
        AllByRecursion (λ spec. spec.fields ≡ []) specs → AreCovered world specs rows }
{}

/// The first of the paths that neighbours share is the least that two entries share, and there is none only where no
/// two share one.
pub fn sharing_paths()
    ensures found { (xs : List Entry) (p : List ℕ) (fs : List FinishFault) → twice (by_path xs) ≡ PathTwice p ∷ fs →
        IsLeastShared xs p }
    ensures none { (xs : List Entry) (p : List ℕ) → twice (by_path xs) ≡ [] → count_at xs p ≤ 1 }
{}
