//! What a plan leaves out has no row that meets the filter. The functions do nothing.

ghost use Rattle.std.specs.Prelude.{◌≡◌, List, Bool, true, Ok, Contains};
ghost use Rattle.std.specs.List.{list_any};
ghost use Rattle.ice_value.specs.declared.file_content.FileContent.TheVariants.{Data};
ghost use Rattle.ice_filter.specs.Rows as table;
ghost use Rattle.ice_filter.specs.Rows.{row_meets};
ghost use Rattle.ice_filter.specs.declared.bound.BoundPredicate.{BoundPredicate};
ghost use Rattle.ice_filter.specs.declared.parts.Part.{Part};
ghost use Rattle.ice_meta.specs.declared.spec.Spec.{Spec};
ghost use Rattle.ice_manifest_reading.specs.declared.entry.Live.{Live};
ghost use Rattle.ice_manifest_reading.specs.declared.row.Row.{Row};
ghost use Rattle.ice_project.specs.Honesty.{NoneMeets};
ghost use Rattle.ice_state.specs.Contents.{IsOf, World, content};
ghost use Rattle.ice_state.specs.Covering.{RowCovers};
ghost use Rattle.ice_state.specs.Lines.{OwnedLine};
ghost use Rattle.ice_state.specs.Outcomes.{outcome};
ghost use Rattle.ice_state.specs.Pruning.{pruner_of};
ghost use Rattle.ice_state.specs.Scans.{IsScanOf, Scanned};
ghost use Rattle.ice_state.specs.Snapshots.{live, plan_of_snapshot};
ghost use Rattle.ice_state_laws.specs.Honesty.{IsHonest};
ghost use Rattle.ice_state_laws.specs.Plans.{HasLine, IsLive, Lacks};

use crate::plans::{finished_plans, snapshot_plans};
use crate::soundness::left_out_files;
use ice_state::laws::{filtering, scanning};

/// A live data file that the plan lacks, honest about its rows, has no row that meets the filter.
///
/// `snapshot` says it of the plan over all rows of the snapshot, `finished` of whatever states finish with, which took
/// the wanted rows alone: there the summaries of the file's manifest have to cover its partition values too. What other
/// files, manifests and summaries say may be wrong.
pub fn what_the_plan_lacks_has_no_match()
    ensures snapshot { (world : World) (specs : List Spec) (filter : List (Part BoundPredicate)) (rows : List Row)
        (plan : List OwnedLine) (l : Live) (file : List table.Row) →
        plan_of_snapshot (pruner_of filter specs) world specs rows ≡ Ok plan →
        IsLive world specs rows l → l.entry.file.content ≡ Data → IsHonest specs filter l file →
        Lacks plan l.entry → NoneMeets filter file }
    ensures finished { (world : World) (specs : List Spec) (rows : List Row) (scan : Scanned) (ts : List Bool)
        (plan : List OwnedLine) (row : Row) (l : Live) (file : List table.Row) →
        IsScanOf rows specs scan → IsOf scan (content world scan ts) → outcome scan (content world scan ts) ≡ Ok plan →
        Contains rows row → Contains (live world specs row) l → l.entry.file.content ≡ Data →
        IsHonest specs scan.filter l file → RowCovers specs row l.entry.file.tuple →
        Lacks plan l.entry → NoneMeets scan.filter file }
{
    what_has_a_match_is_planned();
}

/// The same the other way round: a live data file that has a row that meets the filter, and is honest about its rows,
/// has a line in the plan.
pub fn what_has_a_match_is_planned()
    ensures snapshot { (world : World) (specs : List Spec) (filter : List (Part BoundPredicate)) (rows : List Row)
        (plan : List OwnedLine) (l : Live) (file : List table.Row) →
        plan_of_snapshot (pruner_of filter specs) world specs rows ≡ Ok plan →
        IsLive world specs rows l → l.entry.file.content ≡ Data → IsHonest specs filter l file →
        list_any (row_meets filter) file ≡ true → HasLine plan l.entry }
    ensures finished { (world : World) (specs : List Spec) (rows : List Row) (scan : Scanned) (ts : List Bool)
        (plan : List OwnedLine) (row : Row) (l : Live) (file : List table.Row) →
        IsScanOf rows specs scan → IsOf scan (content world scan ts) → outcome scan (content world scan ts) ≡ Ok plan →
        Contains rows row → Contains (live world specs row) l → l.entry.file.content ≡ Data →
        IsHonest specs scan.filter l file → RowCovers specs row l.entry.file.tuple →
        list_any (row_meets scan.filter) file ≡ true → HasLine plan l.entry }
{
    left_out_files();
    filtering();
    scanning();
    snapshot_plans();
    finished_plans();
}
