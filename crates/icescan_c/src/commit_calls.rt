//! The calls on commits.

ghost use Rattle.std.specs.Prelude.{◌≡◌};
ghost use Rattle.icescan_c.specs.Calls.{Asked, Becomes, HandsFile, OnHandle, ids_of};
ghost use Rattle.icescan_c.specs.Making.{changing};
ghost use Rattle.icescan_c.specs.Readings.{IsCount, Reads, added_in, at_place, bytes_of, count_of, metadata_in};
ghost use Rattle.icescan_c.specs.Readings.{name_of, next_in};
ghost use Rattle.icescan_c_files.specs.Lent.{AreLent};

use crate::handle::Handle;
use crate::held::Held;
use ice_catalog_changes::Ids;
use icescan_c_lent::Bytes;
use icescan_c_requests::{Refusal, status};
use std::alloc::Global;
use uuid::Uuid;

/// The names that a commit takes, its uuid as two halves, and its time.
#[tactic(auto, unfolding(crate::specs::Calls::ids_of))]
fn ids_of(snapshot: i64, uuid_high: u64, uuid_low: u64, now_ms: i64) -> Ids
    ensures { result ≡ ids_of snapshot uuid_high uuid_low now_ms }
{
    Ids {
        snapshot,
        uuid: Uuid::from_u64_pair(uuid_high, uuid_low),
        now_ms,
    }
}

/// Has a handle hold a commit of the change that a text says, or the line of the fault; without memory for it, what it
/// held.
fn ask(
    alloc: Global,
    commit: &mut Handle,
    metadata: &[u8],
    change: &[u8],
    ids: Ids,
) -> Result<(), Refusal>
    ensures { Becomes (changing metadata.now change.now ids) commit.old.held result commit.new.held }
{
    let mut held = Held::Nothing;
    let ended = held.ask_commit(alloc, metadata, change, ids);
    commit.hold(alloc, held)?;
    ended
}

/// Asks for a commit of a change to the table whose metadata these are the bytes of. The names that it takes are the
/// id of its snapshot and a uuid, of which the upper and the lower half are handed in.
#[unsafe(no_mangle)]
pub extern "C" fn icescan_commit_new(
    alloc: Global,
    commit: &mut Handle,
    metadata: &[u8],
    change: &[u8],
    snapshot: i64,
    uuid_high: u64,
    uuid_low: u64,
    now_ms: i64,
) -> u32
    ensures { Asked (changing metadata.now change.now (ids_of snapshot uuid_high uuid_low now_ms)) commit.old.held
        result commit.new.held }
{
    let ids = ids_of(snapshot, uuid_high, uuid_low, now_ms);
    status(ask(alloc, commit, metadata, change, ids))
}

/// Lends the path of the file of the table that is to be handed in next.
#[unsafe(no_mangle)]
pub extern "C" fn icescan_commit_wanted(alloc: Global, commit: &mut Handle, path: &mut Bytes) -> u32
    ensures told { Reads AreLent next_in commit.old.held path.old result path.new }
    ensures unchanged { commit.new.held ≡ commit.old.held }
{
    let Some(held) = commit.take(alloc) else {
        return status(Err(Refusal::Kind));
    };
    let ended = held.lend_next(path);
    commit.put(held);
    status(ended)
}

/// Hands in the next file of the table, which has these bytes.
#[unsafe(no_mangle)]
pub extern "C" fn icescan_commit_take(alloc: Global, commit: &mut Handle, bytes: &[u8]) -> u32
    ensures { OnHandle (HandsFile bytes.now) commit.old.held result commit.new.held }
{
    let Some(mut held) = commit.take(alloc) else {
        return status(Err(Refusal::Kind));
    };
    let ended = held.hand_file(alloc, bytes);
    commit.put(held);
    status(ended)
}

/// Tells how many files the commit adds.
#[unsafe(no_mangle)]
pub extern "C" fn icescan_commit_count(alloc: Global, commit: &mut Handle, count: &mut usize) -> u32
    ensures told { Reads IsCount (λ held. count_of (added_in held)) commit.old.held count.old result count.new }
    ensures unchanged { commit.new.held ≡ commit.old.held }
{
    let Some(held) = commit.take(alloc) else {
        return status(Err(Refusal::Kind));
    };
    let ended = held.count_added(count);
    commit.put(held);
    status(ended)
}

/// Lends the file `i` that the commit adds: its path, and its bytes.
#[unsafe(no_mangle)]
pub extern "C" fn icescan_commit_file(
    alloc: Global,
    commit: &mut Handle,
    i: usize,
    path: &mut Bytes,
    bytes: &mut Bytes,
) -> u32
    ensures path { Reads AreLent (λ held. name_of (at_place (added_in held) i)) commit.old.held path.old result
        path.new }
    ensures bytes { Reads AreLent (λ held. bytes_of (at_place (added_in held) i)) commit.old.held bytes.old result
        bytes.new }
    ensures unchanged { commit.new.held ≡ commit.old.held }
{
    let Some(held) = commit.take(alloc) else {
        return status(Err(Refusal::Kind));
    };
    let ended = held.lend_added(i, path, bytes);
    commit.put(held);
    status(ended)
}

/// Lends the bytes of the metadata file that the commit writes.
#[unsafe(no_mangle)]
pub extern "C" fn icescan_commit_metadata(
    alloc: Global,
    commit: &mut Handle,
    bytes: &mut Bytes,
) -> u32
    ensures told { Reads AreLent metadata_in commit.old.held bytes.old result bytes.new }
    ensures unchanged { commit.new.held ≡ commit.old.held }
{
    let Some(held) = commit.take(alloc) else {
        return status(Err(Refusal::Kind));
    };
    let ended = held.lend_metadata(bytes);
    commit.put(held);
    status(ended)
}
