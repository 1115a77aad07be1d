//! A commit that is prepared on a version.

ghost use Rattle.std.specs.Prelude.{◌≡◌, ◌↔◌, Some, Ok, IfOk, IsTrue};
ghost use Rattle.std.specs.Arc.{arc_value};
ghost use Rattle.ice_catalog_versions.specs.Histories.{prepared_on, after, added_on, IsReceiptOf};
ghost use Rattle.ice_catalog_versions.specs.Live.{AddsToBase};

use crate::receipt::Receipt;
use crate::version::Version;
use contract_words::{Items, Text};
use ice_catalog_changes::Commit;
use std::alloc::{AllocError, AllocFailed, Global};
use std::marker::Model;
use std::sync::Arc;

/// A commit on a base, with the whole version after it. Contracts see the base and the commit.
#[derive(Drop)]
pub struct Prepared {
    version: Arc<Version>,
    commit: Arc<Commit>,
    files: Vec<(Text, Items<u8>)>,
}

impl Model for Prepared {
    ghost use Rattle.std.specs.Arc.{arc_value};
    ghost use Rattle.ice_catalog_versions.specs.Codes.{step_code};
    ghost use Rattle.ice_catalog_versions.specs.Histories.{Step, before, EndsWith};

    ghost Value = { Step };

    ghost coded = { step_code };

    ghost view = { λ p. record { base = before (arc_value p.version); commit = arc_value p.commit } };

    ghost invariant = { λ p. EndsWith (arc_value p.version) (arc_value p.commit) p.files.items };
}

impl Prepared {
    /// A commit on this base, which adds these files, in the room of the base.
    pub(crate) fn over(
        alloc: Global,
        base: Version,
        commit: Arc<Commit>,
        files: Vec<(Text, Items<u8>)>,
    ) -> Result<Prepared, AllocError>
        requires prepared { prepared_on base (arc_value commit)
            ≡ Ok (record { base = base; commit = arc_value commit }) }
        requires adds { AddsToBase base (arc_value commit) }
        requires files { added_on base (arc_value commit) ≡ Some files.items }
        ensures { IfOk result (λ p. p ≡ record { base = base; commit = arc_value commit }) }
    {
        let version = base.into_after(alloc, &commit, &files)?;
        Ok(Prepared {
            version: Arc::new(alloc, version)?,
            commit,
            files,
        })
    }

    /// The version after the commit.
    pub fn version(&self) -> &Version
        ensures { result.now ≡ after self.now.base self.now.commit }
    {
        &*self.version
    }

    /// The files that the commit adds, each with its path: the new manifests in the order of their numbers, then the
    /// new list. The new metadata isn't among them.
    pub fn files(&self) -> &[(Text, Items<u8>)]
        ensures { added_on self.now.base self.now.commit ≡ Some result.now }
    {
        &self.files
    }

    /// What the commit is given once it is made.
    pub fn receipt(&self) -> Receipt
        ensures { IsReceiptOf result self.now }
    {
        let version: &Version = &*self.version;
        Receipt {
            number: version.number(),
            snapshot: self.commit.ids.snapshot,
            sequence: version.metadata().table().last_sequence_number,
        }
    }

    /// Whether the commit was prepared on this version.
    pub fn is_on(&self, version: &Version) -> bool
        ensures { IsTrue result ↔ (self.now.base ≡ version.now) }
    {
        version.is_before(&*self.version)
    }

    /// The version after the commit, without taking memory.
    pub fn into_version(self) -> Arc<Version>
        ensures { arc_value result ≡ after self.base self.commit }
    {
        let Prepared {
            version,
            commit: _,
            files: _,
        } = self;
        version
    }
}
