//! What a commit comes to, and what filling in sequence numbers does.

ghost use Rattle.ice_meta.specs.Laws.{SaysTheNext, HasTheNew, MakesItCurrent, MovesMain, KeepsOtherSnapshots};
ghost use Rattle.ice_meta.specs.Laws.{KeepsOtherRefs, KeepsOtherTargets, KeepsHistory, KeepsSchemas, KeepsSpecs};
ghost use Rattle.ice_meta.specs.Laws.{WritesTheUuid, ReadsTheUuid, UpdatesAtItsTime, LogsItsTime, KeepsOtherMembers};
ghost use Rattle.ice_meta.specs.Laws.{SaysTheSame, StaysFilled};

/// The metadata after a commit says what the metadata before it said, and the commit.
pub fn a_commit_says_the_next_table()
    ensures { SaysTheNext }
{}

/// After a commit the new snapshot is there, is the current one, and is what the branch `main` names.
pub fn a_commit_adds_its_snapshot()
    ensures there { HasTheNew }
    ensures current { MakesItCurrent }
    ensures main { MovesMain }
{}

/// A commit writes the table's uuid as its text with hyphens, in lower case, in whichever form it was read; it is the
/// same uuid.
pub fn a_commit_writes_the_canonical_uuid()
    ensures written { WritesTheUuid }
    ensures same { ReadsTheUuid }
{}

/// What a commit writes says when it was made: as the time of the metadata, and as that of the newest element of the
/// snapshot log.
pub fn a_commit_tells_its_time()
    ensures updated { UpdatesAtItsTime }
    ensures log { LogsItsTime }
{}

/// A commit leaves the other snapshots, branches and tags, what they lead to, the schemas and the partition specs, and
/// each member that it doesn't write.
pub fn a_commit_keeps_the_rest()
    ensures members { KeepsOtherMembers }
    ensures snapshots { KeepsOtherSnapshots }
    ensures refs { KeepsOtherRefs }
    ensures targets { KeepsOtherTargets }
    ensures history { KeepsHistory }
    ensures schemas { KeepsSchemas }
    ensures specs { KeepsSpecs }
{}

/// Metadata of a table that was upgraded from format version 1 says the same with the sequence numbers that it leaves
/// out, and is refused for the same.
pub fn filling_in_says_the_same_table()
    ensures { SaysTheSame }
{}

/// A commit to metadata that has the sequence number of each snapshot leaves it so.
pub fn a_commit_keeps_sequence_numbers()
    ensures { StaysFilled }
{}
