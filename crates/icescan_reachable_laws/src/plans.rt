//! What plans name is reached. The functions do nothing.

ghost use Rattle.std.specs.Prelude.{◌≡◌, ℕ, List, Ok};
ghost use Rattle.ice_desk.specs.Given.{AreOf};
ghost use Rattle.ice_meta.specs.Targets.{Described, metadata_of};
ghost use Rattle.ice_state.specs.Contents.{World};
ghost use Rattle.ice_state.specs.Lines.{OwnedLine};
ghost use Rattle.icescan_reachable.specs.Given.{AreLinesGivenAt};
ghost use Rattle.icescan_reachable.specs.Reaches.{Reaches};
ghost use Rattle.icescan_requests.specs.GivenPlans.{IsPlanOfGiven, IsPlanOfGivenAt};
ghost use Rattle.icescan_text.specs.declared.request.Request.{Request};
ghost use Rattle.icescan_reachable_laws.specs.Named.{HasLine, NamesOnly};

use ice_desk::Files;

/// A plan of any snapshot of a table, under any filter, of what reads gave, names only files that the table reaches
/// (`reached`). So where reads give what a world has, none of them is missing in the lines of the files that the same
/// metadata reaches (`told`).
pub fn plans_name_reached_files<F: Files>(files: &F)
    ensures reached { (path bytes : List ℕ) (metadata : Described) (request : Request) (plan : List OwnedLine) →
        metadata_of bytes ≡ Ok metadata → IsPlanOfGiven (F.gives files.now) bytes request plan →
        NamesOnly (Reaches (F.gives files.now) metadata path) plan }
    ensures told { (world : World) (path : List ℕ) (request : Request) (lines : List (List ℕ))
        (plan : List OwnedLine) → AreOf (F.gives files.now) world →
        AreLinesGivenAt (F.gives files.now) path lines → IsPlanOfGivenAt (F.gives files.now) path request plan →
        NamesOnly (HasLine lines) plan }
{}
