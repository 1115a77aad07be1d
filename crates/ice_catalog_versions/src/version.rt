//! A version of a table, which never changes.

ghost use Rattle.std.specs.Prelude.{◌≡◌, ◌↔◌, ◌<◌, [], ◌∷◌, ◌++◌, Some, Ok, length, map, IfOk, OnOk, IsTrue};
ghost use Rattle.std.specs.Arc.{arc_value};
ghost use Rattle.std.specs.Option.{option_map};
ghost use Rattle.contract_words.specs.Outcome.{Gives};
ghost use Rattle.ice_catalog_versions.specs.Covered.{BeganCovered, HasCoveredRows};
ghost use Rattle.ice_catalog_versions.specs.Histories.{openable, opened, state_of, Leaves, after, before};
ghost use Rattle.ice_catalog_versions.specs.Histories.{prepared_on, added_on};
ghost use Rattle.ice_catalog_versions.specs.Live.{AddsToBase, IsGrown};
ghost use Rattle.ice_catalog_versions.specs.States.{State, seen};

use crate::following::{into_next_metadata, put_files};
use crate::opening::Opening;
use crate::world::World;
use contract_words::{Items, Text};
use ice_catalog_changes::Commit;
use ice_meta::{MetaFault, Metadata, Target};
use std::alloc::{AllocError, Global};
use std::marker::Model;
use std::sync::Arc;

/// A table at one moment. Contracts see what it was opened on and the journal of the commits since; its metadata and
/// its files are what these leave.
#[derive(Drop)]
pub struct Version {
    opening: Arc<Opening>,
    journal: Vec<Arc<Commit>>,
    metadata: Metadata,
    world: World,
}

impl Model for Version {
    ghost use Rattle.std.specs.Prelude.{◌≡◌, Some, map};
    ghost use Rattle.std.specs.Arc.{arc_value};
    ghost use Rattle.ice_catalog_versions.specs.Codes.{history_code};
    ghost use Rattle.ice_catalog_versions.specs.Histories.{History, Leaves};
    ghost use Rattle.ice_catalog_versions.specs.Live.{IsGrown};
    ghost use Rattle.ice_catalog_versions.specs.States.{seen};

    ghost Value = { History };

    ghost coded = { history_code };

    ghost view = { λ v. record { opening = arc_value v.opening; journal = map (λ c. arc_value c) v.journal.items } };

    ghost invariant = { λ v.
        Leaves (record { opening = arc_value v.opening; journal = map (λ c. arc_value c) v.journal.items })
        (seen v.metadata) v.world
        × IsGrown (record { opening = arc_value v.opening; journal = map (λ c. arc_value c) v.journal.items }) };
}

impl Version {
    /// A version with no commits, of a table's metadata and the files that it names. The metadata is refused as reading
    /// it is, and where it names a current snapshot that isn't there or has no list; a table without a current snapshot
    /// is not refused.
    pub fn open(alloc: Global, bytes: &[u8], world: World) -> Result<Version, MetaFault>
        ensures version { Gives MetaFault.Memory (λ v. v) result
            (opened (record { bytes = bytes.now; world = world })) }
        ensures no_commits { IfOk result (λ v. v.journal ≡ []) }
    {
        let metadata = openable(alloc, bytes)?;
        let files = world.copy()?;
        let bytes = Items::from_vec(Vec::from_slice(alloc, bytes)?);
        let opening = Arc::new(alloc, Opening { bytes, world })?;
        Ok(Version {
            opening,
            journal: Vec::new(alloc),
            metadata,
            world: files,
        })
    }

    /// How many commits there were.
    pub fn number(&self) -> u64
        ensures { result ≡ length self.now.journal }
    {
        self.journal.len() as u64
    }

    /// What it was opened on.
    pub fn opening(&self) -> &Opening
        ensures { result.now ≡ self.now.opening }
    {
        &*self.opening
    }

    /// The commits since, the oldest first.
    pub fn journal(&self) -> &[Arc<Commit>]
        ensures { map (λ c. arc_value c) result.now ≡ self.now.journal }
    {
        &self.journal
    }

    /// The metadata and the files: what the commits leave of the opening.
    pub fn state(&self) -> (&Metadata, &World)
        ensures { Leaves self.now (seen result.0.now) result.1.now }
    {
        (&self.metadata, &self.world)
    }

    /// The metadata that the commits leave.
    pub fn metadata(&self) -> &Metadata
        ensures { option_map (λ s. s.metadata) (state_of self.now) ≡ Some (seen result.now) }
    {
        self.state().0
    }

    /// The files that the commits leave.
    pub fn world(&self) -> &World
        ensures { option_map (λ s. s.world) (state_of self.now) ≡ Some result.now }
    {
        self.state().1
    }

    /// Each commit since the opening left the rows and the live entries that it met, and added its own, wherever the
    /// names of its files were new. So the summaries of this version's rows are true of their live entries where those
    /// of the opening's rows are and the names of each commit's files were new, as a uuid of its own makes sure. What
    /// is left to be known is of the data alone. It does nothing.
    pub fn grew(&self)
        ensures grown { IsGrown self.now }
        ensures covered { (state : State) → state_of self.now ≡ Some state → BeganCovered self.now
            → HasCoveredRows state }
    {
        // what is known of every version is known where one of its fields is seen
        let _journal = &self.journal;
    }

    /// The same version.
    pub fn copy(&self, alloc: Global) -> Result<Version, AllocError>
        ensures { IfOk result (λ v. v ≡ self.now) }
    {
        let opening = Arc::try_clone(&self.opening)?;
        let journal = self.shared_journal(alloc)?;
        let metadata = self.metadata.copy(alloc)?;
        let world = self.world.copy()?;
        Ok(Version {
            opening,
            journal,
            metadata,
            world,
        })
    }

    /// The journal, without copying what its commits hold, with room for one more.
    fn shared_journal(&self, alloc: Global) -> Result<Vec<Arc<Commit>>, AllocError>
        ensures { IfOk result (λ journal. map (λ c. arc_value c) journal.items ≡ self.now.journal) }
    {
        let mut journal = Vec::with_capacity(alloc, self.journal.len() + 1)?;
        push_shared(&mut journal, &self.journal)?;
        Ok(journal)
    }

    /// The version after one more commit, which adds these files, in the room of this one.
    pub(crate) fn into_after(
        self,
        alloc: Global,
        commit: &Arc<Commit>,
        files: &[(Text, Items<u8>)],
    ) -> Result<Version, AllocError>
        requires prepared { prepared_on self (arc_value commit.now)
            ≡ Ok (record { base = self; commit = arc_value commit.now }) }
        requires adds { AddsToBase self (arc_value commit.now) }
        requires files { added_on self (arc_value commit.now) ≡ Some files.now }
        ensures { IfOk result (λ v. v ≡ after self (arc_value commit.now)) }
    {
        let Version {
            opening,
            mut journal,
            metadata,
            mut world,
        } = self;
        let next = into_next_metadata(alloc, metadata, &commit.change, &commit.ids)?;
        put_files(alloc, &mut world, files)?;
        push_commit(&mut journal, commit)?;
        Ok(Version {
            opening,
            journal,
            metadata: next,
            world,
        })
    }

    /// Whether a version has one commit more than this one, and all else alike.
    pub(crate) fn is_before(&self, next: &Version) -> bool
        requires { 0 < length next.now.journal }
        ensures { IsTrue result ↔ (self.now ≡ before next.now) }
    {
        let earlier = next.journal.len() - 1;
        self.opening.is_same(&next.opening) && are_same(&self.journal, &next.journal[..earlier])
    }
}

/// The metadata on which a version can be opened, or the first fault.
fn openable(alloc: Global, bytes: &[u8]) -> Result<Metadata, MetaFault>
    ensures { Gives MetaFault.Memory (λ m. seen m) result (openable bytes.now) }
{
    let metadata = Metadata::read(alloc, bytes)?;
    match metadata.resolve(&Target::Main) {
        Ok(_) | Err(MetaFault::NoSnapshot) => Ok(metadata),
        Err(fault) => Err(fault),
    }
}

/// Puts a commit last, without copying what it holds.
fn push_commit(to: &mut Vec<Arc<Commit>>, commit: &Arc<Commit>) -> Result<(), AllocError>
    ensures { OnOk result (map (λ c. arc_value c) to.new.items
        ≡ map (λ c. arc_value c) to.old.items ++ arc_value commit.now ∷ []) }
{
    to.push(Arc::try_clone(commit)?)?;
    Ok(())
}

/// Puts these commits last, without copying what they hold.
fn push_shared(to: &mut Vec<Arc<Commit>>, commits: &[Arc<Commit>]) -> Result<(), AllocError>
    ensures { OnOk result (map (λ c. arc_value c) to.new.items
        ≡ map (λ c. arc_value c) to.old.items ++ map (λ c. arc_value c) commits.now) }
{
    'commits: for commit in commits {
        to.push(Arc::try_clone(commit)?)?;
    }
    Ok(())
}

/// Whether both are the same commits in the same order.
fn are_same(left: &[Arc<Commit>], right: &[Arc<Commit>]) -> bool
    ensures { IsTrue result ↔ (map (λ c. arc_value c) left.now ≡ map (λ c. arc_value c) right.now) }
{
    left == right
}
