//! What the lines come to.

ghost use Rattle.icescan_reachable.specs.Reaches.{TellsAllReached, TellsOnlyReached};

use ice_desk::Files;

/// The lines are those of the files that the table reaches: each is that of such a file, and where reads give what a
/// world has, each such file has its line.
pub fn lines_are_of_reached_files<F: Files>(files: &F)
    ensures only { TellsOnlyReached (F.gives files.now) }
    ensures all { TellsAllReached (F.gives files.now) }
{}
