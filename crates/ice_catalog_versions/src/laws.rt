//! What replaying comes to.

ghost use Rattle.ice_catalog_versions.specs.Covered.{EmptyIsCovered, KeepsCovering, NewRowsCover, StaysCovered};
ghost use Rattle.ice_catalog_versions.specs.LeastFaults.{PreparesWhereNoneIsThere, TellsTheLeast};
ghost use Rattle.ice_catalog_versions.specs.LiveAfter.{AddsItsFiles, EachIsLive, JoinsFiles, JoinsManifests};
ghost use Rattle.ice_catalog_versions.specs.NewNames.{CarriesItsUuid, MakesNewNames};
ghost use Rattle.ice_catalog_versions.specs.Replaying.{AddsAStep, IsTakenOff, HasEarlier, IsInParts};
ghost use Rattle.ice_catalog_versions.specs.Staying.{KeepsFiles, KeepsRows, KeepsEntries};

/// A history of one commit more leaves what that commit makes of what the history before it left; so each history
/// before one that leaves a state leaves one too, and two journals in a row leave what the second makes of what the
/// first left.
pub fn a_commit_is_one_step()
    ensures step { AddsAStep }
    ensures earlier { HasEarlier }
    ensures parts { IsInParts }
{}

/// The base of a history with one commit more is the history.
pub fn the_last_commit_is_taken_off()
    ensures { IsTakenOff }
{}

/// Commits whose files take the place of none leave every file as it was; so each manifest list has the rows that it
/// had, and each manifest the live entries, with their sequence numbers.
pub fn commits_leave_what_was_there()
    ensures files { KeepsFiles }
    ensures rows { KeepsRows }
    ensures entries { KeepsEntries }
{}

/// What is live after a commit that leaves what its base has and adds its own, as `prepare` says of each whose files
/// have new names: an entry is live exactly where it was live before, or is in one of the manifests that are added. The
/// entries of these are those of the change's files, with their values, their places, the commit's snapshot and the
/// next sequence number. So exactly what was live and the change's files are live, and each of the files is.
pub fn what_is_live_after_a_commit()
    ensures manifests { JoinsManifests }
    ensures entries { AddsItsFiles }
    ensures files { JoinsFiles }
    ensures each { EachIsLive }
{}

/// Summaries stay true. The row of each manifest that a commit adds covers the partition values of its files; so a
/// commit that leaves the live entries of its base as they were and adds those of its files leaves covered rows where
/// those of its base were covered. Every version has covered rows where those of the opening are covered, as they are
/// where it has no current snapshot, and where the names of each commit's files were new, as a uuid of its own makes
/// sure: that each commit added to the version before it holds of every `Version`, by its `grew`.
pub fn versions_stay_covered()
    ensures rows { NewRowsCover }
    ensures commit { KeepsCovering }
    ensures empty { EmptyIsCovered }
    ensures versions { StaysCovered }
{}

/// Of all that is at fault with a commit the least is told: what is asked first, and of faults of one kind that of the
/// least path or id. A commit is prepared exactly where nothing is at fault.
pub fn the_least_fault_is_told()
    ensures told { TellsTheLeast }
    ensures prepared { PreparesWhereNoneIsThere }
{}

/// Each file that a commit adds has the commit's uuid in its path. So where no file that is there has the text of the
/// uuid in its path, the files that are added take the place of none.
pub fn a_new_uuid_makes_new_names()
    ensures names { CarriesItsUuid }
    ensures new { MakesNewNames }
{}
