//! What the changes between two snapshots leave out has no row that meets the filter. The functions do nothing.

ghost use Rattle.std.specs.Prelude.{◌≡◌, ℕ, List, Ok};
ghost use Rattle.ice_state.specs.Contents.{World};
ghost use Rattle.ice_state.specs.Lines.{OwnedLine};
ghost use Rattle.icescan_changes.specs.Changes.{line_changes};
ghost use Rattle.icescan_requests.specs.Plans.{wanted_answer};
ghost use Rattle.icescan_text.specs.declared.request.Request.{Request};
ghost use Rattle.icescan_answer_laws.specs.Untold.{UntoldHasNoMatch};

use crate::answers::what_an_answer_lacks_has_no_match;
use icescan_changes::laws::{answers_are_by_path, what_one_plan_has_is_told};

/// A live data file of one of two snapshots, which is honest about its rows, whose path the plan of the other snapshot
/// has not, and of which the changes tell nothing, has no row that meets the filter: so a row that meets it, and stands
/// in a file of one snapshot alone, is in what is told.
///
/// `added` says it of a file of the later snapshot, `removed` of one of the earlier. As for the plan that is written,
/// the summaries of the file's own manifest have to cover its partition values.
pub fn what_changes_leave_out_has_no_match()
    ensures added { (world : World) (metadata : List ℕ) (before after : Request) (earlier later : List OwnedLine) →
        wanted_answer world metadata before ≡ Ok earlier → wanted_answer world metadata after ≡ Ok later →
        UntoldHasNoMatch world metadata after earlier (line_changes earlier later) }
    ensures removed { (world : World) (metadata : List ℕ) (before after : Request) (earlier later : List OwnedLine) →
        wanted_answer world metadata before ≡ Ok earlier → wanted_answer world metadata after ≡ Ok later →
        UntoldHasNoMatch world metadata before later (line_changes earlier later) }
{
    what_an_answer_lacks_has_no_match();
    what_one_plan_has_is_told();
    answers_are_by_path();
}
