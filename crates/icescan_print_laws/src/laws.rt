//! What the text of a plan tells.

ghost use Rattle.std.specs.Prelude.{◌≡◌, List, map};
ghost use Rattle.std.specs.List.{AllByRecursion};
ghost use Rattle.ice_state.specs.Lines.{OwnedLine};
ghost use Rattle.icescan_print.specs.PlanTexts.{plan_text};
ghost use Rattle.icescan_print_laws.specs.PlanTold.{told, line_of, FitsLine};

/// The text of a plan can be read back: a reader is told each data file with its path and numbers, and below it its
/// delete files. So plans with the same text agree in all that their lines have.
pub fn plan_text_determines_the_plan()
    ensures told { (plan : List OwnedLine) → AllByRecursion FitsLine plan →
        told (plan_text plan) ≡ map line_of plan }
    ensures same { (a b : List OwnedLine) → AllByRecursion FitsLine a → AllByRecursion FitsLine b →
        plan_text a ≡ plan_text b → map line_of a ≡ map line_of b }
{}
