//! The calls on relaxed filters.

ghost use Rattle.std.specs.Prelude.{◌≡◌, [], ◌∷◌};
ghost use Rattle.icescan_c.specs.Calls.{Selects};
ghost use Rattle.icescan_c.specs.Making.{made};
ghost use Rattle.icescan_c.specs.Readings.{IsCount, Reads, at_place, count_of, filter_of, relaxed_in, unasked_of};
ghost use Rattle.icescan_c_files.specs.Lent.{AreLent};
ghost use Rattle.icescan_c_requests.specs.Requests.{by_id, by_name};

use crate::handle::Handle;
use crate::scan_calls::ask;
use crate::working::Making;
use icescan_c_lent::Bytes;
use icescan_c_requests::{Refusal, request_by_id, request_by_name, status};
use std::alloc::Global;

/// Relaxes a filter for the snapshot that a branch or tag names, for the current one where the name is empty.
#[unsafe(no_mangle)]
pub extern "C" fn icescan_relax_new(
    alloc: Global,
    relaxed: &mut Handle,
    metadata: &[u8],
    name: &[u8],
    filter: &[u8],
) -> u32
    ensures { Selects (made Making.Relaxed metadata.now) (name.now ∷ filter.now ∷ [])
        (by_name name.now filter.now) relaxed.old.held result relaxed.new.held }
{
    status(ask(
        alloc,
        Making::Relaxed,
        relaxed,
        metadata,
        request_by_name(alloc, name, filter),
    ))
}

/// Relaxes a filter for the snapshot of an id.
#[unsafe(no_mangle)]
pub extern "C" fn icescan_relax_new_at(
    alloc: Global,
    relaxed: &mut Handle,
    metadata: &[u8],
    snapshot: i64,
    filter: &[u8],
) -> u32
    ensures { Selects (made Making.Relaxed metadata.now) (filter.now ∷ []) (by_id snapshot filter.now)
        relaxed.old.held result relaxed.new.held }
{
    status(ask(
        alloc,
        Making::Relaxed,
        relaxed,
        metadata,
        request_by_id(alloc, snapshot, filter),
    ))
}

/// Lends the text of the relaxed filter.
#[unsafe(no_mangle)]
pub extern "C" fn icescan_relax_filter(alloc: Global, relaxed: &mut Handle, text: &mut Bytes) -> u32
    ensures told { Reads AreLent (λ held. filter_of (relaxed_in held)) relaxed.old.held text.old result text.new }
    ensures unchanged { relaxed.new.held ≡ relaxed.old.held }
{
    let Some(held) = relaxed.take(alloc) else {
        return status(Err(Refusal::Kind));
    };
    let ended = held.lend_filter(text);
    relaxed.put(held);
    status(ended)
}

/// Tells how many predicates the relaxed filter does not ask.
#[unsafe(no_mangle)]
pub extern "C" fn icescan_relax_count(alloc: Global, relaxed: &mut Handle, count: &mut usize) -> u32
    ensures told { Reads IsCount (λ held. count_of (unasked_of (relaxed_in held))) relaxed.old.held count.old result
        count.new }
    ensures unchanged { relaxed.new.held ≡ relaxed.old.held }
{
    let Some(held) = relaxed.take(alloc) else {
        return status(Err(Refusal::Kind));
    };
    let ended = held.count_unasked(count);
    relaxed.put(held);
    status(ended)
}

/// Lends the text of the predicate `i` that the relaxed filter does not ask.
#[unsafe(no_mangle)]
pub extern "C" fn icescan_relax_unasked(
    alloc: Global,
    relaxed: &mut Handle,
    i: usize,
    text: &mut Bytes,
) -> u32
    ensures told { Reads AreLent (λ held. at_place (unasked_of (relaxed_in held)) i) relaxed.old.held text.old result
        text.new }
    ensures unchanged { relaxed.new.held ≡ relaxed.old.held }
{
    let Some(held) = relaxed.take(alloc) else {
        return status(Err(Refusal::Kind));
    };
    let ended = held.lend_unasked(i, text);
    relaxed.put(held);
    status(ended)
}
