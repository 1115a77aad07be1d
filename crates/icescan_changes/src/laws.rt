//! Laws of the changes from one plan to another. Their functions do nothing.

ghost use Rattle.std.specs.Prelude.{◌≡◌, ◌≢◌, ◌↔◌, ℕ, List, [], None, Ok, Contains};
ghost use Rattle.ice_state.specs.Contents.{Content, World};
ghost use Rattle.ice_state.specs.Lines.{OwnedLine};
ghost use Rattle.ice_state.specs.Outcomes.{outcome};
ghost use Rattle.ice_state.specs.Scans.{Scanned};
ghost use Rattle.icescan_changes.specs.Changes.{line_changes, line_path};
ghost use Rattle.icescan_changes.specs.Meanings.{AreAlike, IsByPath, after, changes_of, line_of, told_of};
ghost use Rattle.icescan_requests.specs.Plans.{wanted_answer};
ghost use Rattle.icescan_text.specs.declared.request.Request.{Request};

/// The changes say of each path what there is to tell of it by the lines that both plans have of it, and nothing else.
pub fn each_path_is_told()
    ensures { (earlier later : List OwnedLine) (path : List ℕ) → IsByPath earlier → IsByPath later →
        changes_of (line_changes earlier later) path ≡ told_of (line_of earlier path) (line_of later path) }
{}

/// The paths of any plan that a scan gives rise.
pub fn plans_are_by_path()
    ensures { (scan : Scanned) (content : Content) (plan : List OwnedLine) → outcome scan content ≡ Ok plan →
        IsByPath plan }
{}

/// Applied to the earlier plan they give the later one: the line of each path, or one of which there is nothing to tell.
pub fn changes_apply()
    ensures { (earlier later : List OwnedLine) (path : List ℕ) → IsByPath earlier → IsByPath later →
        AreAlike (after (changes_of (line_changes earlier later) path) (line_of earlier path)) (line_of later path) }
{}

/// The changes from one plan to a second and then those from the second to a third make of each path's line what the
/// changes from the first to the third make of it.
pub fn changes_compose()
    ensures { (first second third : List OwnedLine) (path : List ℕ) → IsByPath first → IsByPath second →
        IsByPath third → AreAlike
        (after (changes_of (line_changes second third) path)
        (after (changes_of (line_changes first second) path) (line_of first path)))
        (after (changes_of (line_changes first third) path) (line_of first path)) }
{}

/// What only one of two plans has is told: a line of the later whose path the earlier has not, and the other way round.
pub fn what_one_plan_has_is_told()
    ensures added { (earlier later : List OwnedLine) (line : OwnedLine) → IsByPath earlier → IsByPath later →
        Contains later line → line_of earlier (line_path line) ≡ None →
        changes_of (line_changes earlier later) (line_path line) ≢ [] }
    ensures removed { (earlier later : List OwnedLine) (line : OwnedLine) → IsByPath earlier → IsByPath later →
        Contains earlier line → line_of later (line_path line) ≡ None →
        changes_of (line_changes earlier later) (line_path line) ≢ [] }
{}

/// The paths of any plan that a request is answered with rise.
pub fn answers_are_by_path()
    ensures { (world : World) (metadata : List ℕ) (request : Request) (plan : List OwnedLine) →
        wanted_answer world metadata request ≡ Ok plan → IsByPath plan }
{}

/// Nothing is told of a path exactly where neither plan has a line of it, or both have one of which there is nothing to
/// tell.
pub fn untold_paths_are_alike()
    ensures { (earlier later : List OwnedLine) (path : List ℕ) → IsByPath earlier → IsByPath later →
        (changes_of (line_changes earlier later) path ≡ []) ↔ AreAlike (line_of earlier path) (line_of later path) }
{}

/// Nothing is told where both plans are one.
pub fn one_plan_has_no_changes()
    ensures { (plan : List OwnedLine) → line_changes plan plan ≡ [] }
{}
