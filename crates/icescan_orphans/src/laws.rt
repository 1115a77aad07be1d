//! What the files come to that are not reached.

ghost use Rattle.icescan_orphans.specs.NotReached.{AreNotReached};

use ice_desk::Files;

/// Where reads give what a world has, no orphan has a path that some snapshot of the table reaches, nor another
/// spelling of one.
pub fn orphans_are_not_reached<F: Files>(files: &F)
    ensures { AreNotReached (F.gives files.now) }
{}
