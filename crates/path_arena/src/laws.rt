//! A law of runs of interns. Its function does nothing.

ghost use Rattle.std.specs.Prelude.{◌≡◌, ℕ, ◌++◌, List, IsOk};
ghost use Rattle.std.specs.List.{AllByRecursion};
ghost use Rattle.path_arena.specs.Strings.{Kept};
ghost use Rattle.path_arena.specs.Runs.{new_to, Answers, Run, HasRoomFor};

/// After room was made for n strings of b bytes in all, strings are interned one after another, known ones and new ones
/// mixed. As long as at most n are new, these have at most b bytes in all, none is longer than 65,535 bytes and the
/// numbers don't run out, each is taken in, and the new ones stand last, in the order in which they came.
pub fn reserved_interns_succeed()
    ensures succeed { (a b : Kept) (ss : List (List ℕ)) (answers : Answers) → Run a ss answers b →
        HasRoomFor a ss → AllByRecursion IsOk answers }
    ensures strings { (a b : Kept) (ss : List (List ℕ)) (answers : Answers) → Run a ss answers b →
        HasRoomFor a ss → b.strings ≡ a.strings ++ new_to a.strings ss }
{}
