//! Public calls once more, each under the one clause that a wrong implementation turns, so that the gate can try that
//! implementation cheaply.

ghost use Rattle.std.specs.Prelude.{◌≡◌, IfOk, length, vec_len};
ghost use Rattle.contract_words.specs.Outcome.{Gives};
ghost use Rattle.ice_catalog_versions.specs.Histories.{opened, prepared_on};

use ice_catalog::{Event, Reply};
use ice_catalog_changes::{Change, Ids, PrepareFault};
use ice_catalog_versions::{Prepared, Version, World};
use ice_meta::MetaFault;
use std::alloc::{AllocError, Global};

/// A version with no commits, or the first fault of its metadata.
pub fn open(alloc: Global, bytes: &[u8], world: World) -> Result<Version, MetaFault>
    ensures { Gives MetaFault.Memory (λ v. v) result (opened (record { bytes = bytes.now; world = world })) }
{
    Version::open(alloc, bytes, world)
}

/// A commit of this change on a version, or the first reason for which it is refused.
pub fn prepare(
    alloc: Global,
    base: &Version,
    change: &Change,
    ids: Ids,
) -> Result<Prepared, PrepareFault>
    ensures { Gives PrepareFault.Memory (λ p. p) result
        (prepared_on base.now (record { change = change.now; ids = ids })) }
{
    ice_catalog_versions::prepare(alloc, base, change, ids)
}

/// Each event has a reply.
pub fn run_events(
    alloc: Global,
    version: &Version,
    events: &[Event],
) -> Result<Vec<Reply>, AllocError>
    ensures { IfOk result (λ replies. vec_len replies ≡ length events.now) }
{
    ice_catalog::run_events(alloc, version, events)
}
