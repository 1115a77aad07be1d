//! What a plan's JSON says.

ghost use Rattle.std.specs.Prelude.{◌≡◌, List, Some, map, option_and_then};
ghost use Rattle.serde_json.specs.Data.{Data};
ghost use Rattle.serde_json.specs.Read.{read};
ghost use Rattle.serde_json.specs.Written.{compact_text};
ghost use Rattle.ice_state.specs.PlacedFiles.{plan_of, PlanPlaces, ArePlaced};
ghost use Rattle.icescan_json.specs.declared.types.SpecTypes.{SpecTypes};
ghost use Rattle.icescan_json.specs.PlanJson.{plan_json};
ghost use Rattle.icescan_json.specs.Told.{by_key, paths_of, told, CanBeRead, HasFittingNumbers};
ghost use Rattle.icescan_json.specs.ToldWhole.{told_whole, task_of};

/// What `serde_json` reads of the text is the value that was written, the members of each object by key.
pub fn json_reads_back()
    ensures { (types : List SpecTypes) (residual : Data) (p : PlanPlaces) → CanBeRead residual →
        HasFittingNumbers p → ArePlaced p →
        read (compact_text (plan_json types residual p)) ≡ Some (by_key (plan_json types residual p)) }
{}

/// What `serde_json` reads of the text is the plan: the paths of the data files in their order, and for each those of
/// the delete files that apply to it, at the places that its references name.
pub fn json_is_the_plan()
    ensures { (types : List SpecTypes) (residual : Data) (p : PlanPlaces) → CanBeRead residual →
        HasFittingNumbers p → ArePlaced p →
        option_and_then told (read (compact_text (plan_json types residual p))) ≡ Some (map paths_of (plan_of p)) }
{}

/// What `serde_json` reads of the text is the plan in all that its files have: of each file its content, path, format,
/// spec, partition values, size, record count, sequence number, equality ids and the data file that it is about, and of
/// each task the filter.
pub fn json_tells_all()
    ensures { (types : List SpecTypes) (residual : Data) (p : PlanPlaces) → CanBeRead residual →
        HasFittingNumbers p → ArePlaced p →
        option_and_then told_whole (read (compact_text (plan_json types residual p)))
        ≡ Some (map (task_of types residual) (plan_of p)) }
{}
