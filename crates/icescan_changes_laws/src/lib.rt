//! Laws of changes: what two plans share changes nothing. Their functions do nothing, and nothing builds on this crate.
#![tactic(auto)]

ghost use Rattle.std.specs.Prelude.{◌≡◌, ℕ, Bool, false, List, Ok, Contains, filter};
ghost use Rattle.ice_filter.specs.declared.bound.BoundPredicate.{BoundPredicate};
ghost use Rattle.ice_filter.specs.declared.parts.Part.{Part};
ghost use Rattle.ice_manifest_reading.specs.declared.row.Row.{Row};
ghost use Rattle.ice_meta.specs.declared.spec.Spec.{Spec};
ghost use Rattle.ice_state.specs.Contents.{World};
ghost use Rattle.ice_state.specs.Lines.{OwnedLine};
ghost use Rattle.ice_state.specs.Pruning.{pruner_of};
ghost use Rattle.ice_state.specs.Snapshots.{plan_of_snapshot};
ghost use Rattle.icescan_changes.specs.Answers.{changes_in, changes_told};
ghost use Rattle.icescan_changes.specs.Changes.{line_changes, line_path};
ghost use Rattle.icescan_changes.specs.Lineage.{lineage_of};
ghost use Rattle.icescan_changes.specs.Meanings.{IsByPath};
ghost use Rattle.icescan_changes_laws.specs.Shared.{MayLeaveOut};
ghost use Rattle.icescan_forms.specs.declared.format.Format.{Format};
ghost use Rattle.icescan_requests.specs.Plans.{wanted_answer};
ghost use Rattle.icescan_text.specs.declared.request.ChangesRequest.{ChangesRequest};

use ice_manifest_reading::contents_fit;
use ice_state::laws::unfiltered;
use ice_state_laws::{finished_plans, snapshot_plans};

/// The lines of some paths may be left out of two plans where both plans have them: the changes stay the same.
pub fn what_both_plans_have_may_be_left_out()
    ensures { (keeps : List ℕ → Bool) (earlier later : List OwnedLine) → IsByPath earlier → IsByPath later →
        ((line : OwnedLine) → Contains earlier line → keeps (line_path line) ≡ false → Contains later line) →
        ((line : OwnedLine) → Contains later line → keeps (line_path line) ≡ false → Contains earlier line) →
        line_changes (filter (λ line. keeps (line_path line)) earlier) (filter (λ line. keeps (line_path line)) later)
        ≡ line_changes earlier later }
{}

/// Data manifests that two snapshots share may be left out of both where both have the same manifests of delete files:
/// the other rows have plans, and the changes between these are the changes between the whole plans. The filter and the
/// specs are the same for both.
pub fn shared_manifests_change_nothing()
    ensures { (world : World) (specs : List Spec) (parts : List (Part BoundPredicate)) (keeps : Row → Bool)
        (before after : List Row) (earlier later : List OwnedLine) → MayLeaveOut keeps before after →
        plan_of_snapshot (pruner_of parts specs) world specs before ≡ Ok earlier →
        plan_of_snapshot (pruner_of parts specs) world specs after ≡ Ok later →
        (first : List OwnedLine) × (second : List OwnedLine) ×
        (plan_of_snapshot (pruner_of parts specs) world specs (filter keeps before) ≡ Ok first) ×
        (plan_of_snapshot (pruner_of parts specs) world specs (filter keeps after) ≡ Ok second) ×
        (line_changes first second ≡ line_changes earlier later) }
{
    contents_fit();
    snapshot_plans();
}

/// The changes that are asked for are those between the two whole plans, wherever both requests have a plan: what both
/// lists share and is left out of both plans is not missed.
pub fn changes_are_of_whole_plans()
    ensures { (form : Format) (world : World) (metadata : List ℕ) (request : ChangesRequest)
        (earlier later : List OwnedLine) → lineage_of metadata request ≡ Ok tt →
        wanted_answer world metadata request.earlier ≡ Ok earlier →
        wanted_answer world metadata request.later ≡ Ok later →
        changes_in form world metadata request ≡ Ok (changes_told form earlier later) }
{
    finished_plans();
    unfiltered();
    shared_manifests_change_nothing();
}
