//! What the files come to that are none of those that are known.

ghost use Rattle.icescan_paths.specs.Strays.{AreNoKnownOrphans, AreOldOrphans};

/// An orphan is no known path in any spelling, and it is a file of the folder that was changed long enough ago.
pub fn orphans_are_unknown()
    ensures unknown { AreNoKnownOrphans }
    ensures old { AreOldOrphans }
{}
