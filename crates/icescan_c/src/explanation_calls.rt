//! The calls that ask for explanations.

ghost use Rattle.std.specs.Prelude.{◌≡◌, [], ◌∷◌};
ghost use Rattle.icescan_c.specs.Calls.{HandsFile, OnHandle, Selects};
ghost use Rattle.icescan_c.specs.Making.{made};
ghost use Rattle.icescan_c.specs.Readings.{Reads, next_in};
ghost use Rattle.icescan_c_files.specs.Lent.{AreLent};
ghost use Rattle.icescan_c_requests.specs.Requests.{by_id, by_name};

use crate::handle::Handle;
use crate::scan_calls::ask;
use crate::working::Making;
use icescan_c_lent::Bytes;
use icescan_c_requests::{Refusal, request_by_id, request_by_name, status};
use std::alloc::Global;

/// Asks for an explanation of the plan of the snapshot that a branch or tag names, of the current one where the name is
/// empty, under a filter where its text is not empty.
#[unsafe(no_mangle)]
pub extern "C" fn icescan_explanation_new(
    alloc: Global,
    explanation: &mut Handle,
    metadata: &[u8],
    name: &[u8],
    filter: &[u8],
) -> u32
    ensures { Selects (made Making.Explanation metadata.now) (name.now ∷ filter.now ∷ []) (by_name name.now filter.now)
        explanation.old.held result explanation.new.held }
{
    status(ask(
        alloc,
        Making::Explanation,
        explanation,
        metadata,
        request_by_name(alloc, name, filter),
    ))
}

/// Asks for an explanation of the plan of the snapshot of an id, under a filter where its text is not empty.
#[unsafe(no_mangle)]
pub extern "C" fn icescan_explanation_new_at(
    alloc: Global,
    explanation: &mut Handle,
    metadata: &[u8],
    snapshot: i64,
    filter: &[u8],
) -> u32
    ensures { Selects (made Making.Explanation metadata.now) (filter.now ∷ []) (by_id snapshot filter.now)
        explanation.old.held result explanation.new.held }
{
    status(ask(
        alloc,
        Making::Explanation,
        explanation,
        metadata,
        request_by_id(alloc, snapshot, filter),
    ))
}

/// Lends the path of the file of the table that is to be handed in next.
#[unsafe(no_mangle)]
pub extern "C" fn icescan_explanation_wanted(
    alloc: Global,
    explanation: &mut Handle,
    path: &mut Bytes,
) -> u32
    ensures told { Reads AreLent next_in explanation.old.held path.old result path.new }
    ensures unchanged { explanation.new.held ≡ explanation.old.held }
{
    let Some(held) = explanation.take(alloc) else {
        return status(Err(Refusal::Kind));
    };
    let ended = held.lend_next(path);
    explanation.put(held);
    status(ended)
}

/// Hands in the next file of the table, which has these bytes.
#[unsafe(no_mangle)]
pub extern "C" fn icescan_explanation_take(
    alloc: Global,
    explanation: &mut Handle,
    bytes: &[u8],
) -> u32
    ensures { OnHandle (HandsFile bytes.now) explanation.old.held result explanation.new.held }
{
    let Some(mut held) = explanation.take(alloc) else {
        return status(Err(Refusal::Kind));
    };
    let ended = held.hand_file(alloc, bytes);
    explanation.put(held);
    status(ended)
}
