//! What the plan of a snapshot has, in which order, and why there is none. The functions do nothing.

ghost use Rattle.std.specs.Prelude.{◌≡◌, ◌↔◌, ℕ, List, Bool, Ok, Err, ◌⊎◌};
ghost use Rattle.ice_filter.specs.declared.bound.BoundPredicate.{BoundPredicate};
ghost use Rattle.ice_filter.specs.declared.parts.Part.{Part};
ghost use Rattle.ice_meta.specs.declared.spec.Spec.{Spec};
ghost use Rattle.ice_manifest_fields.specs.declared.fault.ManifestFault.{ManifestFault};
ghost use Rattle.ice_manifest_reading.specs.declared.row.Row.{Row};
ghost use Rattle.ice_manifest_reading.specs.Laws.{HasEachPathOnce};
ghost use Rattle.ice_manifest_reading.specs.Lists.{rows_of};
ghost use Rattle.ice_state.specs.declared.fault.FinishFault.{FinishFault};
ghost use Rattle.ice_state.specs.declared.fault.FinishFault.TheVariants.{Bad, Missing, PathTwice};
ghost use Rattle.ice_state.specs.Contents.{Content, IsOf, World, content};
ghost use Rattle.ice_state.specs.Lines.{OwnedLine};
ghost use Rattle.ice_state.specs.Outcomes.{outcome};
ghost use Rattle.ice_state.specs.Pruning.{pruner_of};
ghost use Rattle.ice_state.specs.Scans.{IsScanOf, Scanned};
ghost use Rattle.ice_state.specs.Snapshots.{plan_of_snapshot};
ghost use Rattle.ice_state_laws.specs.Finishing.{IsLeastUntaken, TookAll};
ghost use Rattle.ice_state_laws.specs.Plans.{IsLeastBad, IsPathTwice, IsPlan};

use ice_manifest_reading::rows_are_a_set;
use ice_state::laws::{filtering, pruning, scanning};

/// The plan of a snapshot under a filter, over all its rows. There is one exactly where no wanted row is bad and no two
/// kept entries share a path. A file has a line exactly where it is a live data file of which the filter keeps the
/// partition values and the bounds. In the line stand exactly the live delete files, of whatever row, that apply to the
/// file. Lines and delete files stand by path, each path once. Else the bad wanted row with the least path is told, and
/// where none is bad the least path that is shared.
pub fn snapshot_plans()
    ensures planned { (world : World) (specs : List Spec) (filter : List (Part BoundPredicate)) (rows : List Row)
        (plan : List OwnedLine) →
        (plan_of_snapshot (pruner_of filter specs) world specs rows ≡ Ok plan) ↔
        IsPlan (pruner_of filter specs) world specs rows plan }
    ensures bad { (world : World) (specs : List Spec) (filter : List (Part BoundPredicate)) (rows : List Row)
        (path : List ℕ) (fault : ManifestFault) → HasEachPathOnce rows →
        (plan_of_snapshot (pruner_of filter specs) world specs rows ≡ Err (Bad path fault)) ↔
        IsLeastBad (pruner_of filter specs) world specs rows path fault }
    ensures twice { (world : World) (specs : List Spec) (filter : List (Part BoundPredicate)) (rows : List Row)
        (path : List ℕ) →
        (plan_of_snapshot (pruner_of filter specs) world specs rows ≡ Err (PathTwice path)) ↔
        IsPathTwice (pruner_of filter specs) world specs rows path }
    ensures nothing_else { (world : World) (specs : List Spec) (filter : List (Part BoundPredicate)) (rows : List Row)
        (told : FinishFault) → plan_of_snapshot (pruner_of filter specs) world specs rows ≡ Err told →
        ((path : List ℕ) × (fault : ManifestFault) × (told ≡ Bad path fault)) ⊎
        ((path : List ℕ) × (told ≡ PathTwice path)) }
{
    filtering();
    pruning();
}

/// What a state finishes with. `Missing` is told exactly where a wanted row wasn't taken, with the least path of these.
/// A state that took all of them has the plan of a snapshot of these rows alone, whatever the summaries of the others
/// say.
pub fn finished_plans()
    ensures missing { (rows : List Row) (specs : List Spec) (scan : Scanned) (c : Content) (path : List ℕ) →
        IsScanOf rows specs scan → IsOf scan c →
        (outcome scan c ≡ Err (Missing path)) ↔ IsLeastUntaken scan c path }
    ensures planned { (rows : List Row) (specs : List Spec) (scan : Scanned) (c : Content) (plan : List OwnedLine) →
        IsOf scan c → outcome scan c ≡ Ok plan → TookAll scan c }
    ensures taken { (world : World) (rows : List Row) (specs : List Spec) (scan : Scanned) (ts : List Bool) →
        IsScanOf rows specs scan → IsOf scan (content world scan ts) → TookAll scan (content world scan ts) →
        outcome scan (content world scan ts) ≡
        plan_of_snapshot (pruner_of scan.filter specs) world specs scan.wanted }
{
    filtering();
    pruning();
    scanning();
}

/// No two rows of a manifest list that can be read have one path.
pub fn lists_have_each_path_once()
    ensures { (bytes : List ℕ) (rows : List Row) → rows_of bytes ≡ Ok rows → HasEachPathOnce rows }
{
    rows_are_a_set();
}
