//! The calls on states.

ghost use Rattle.std.specs.Prelude.{◌≡◌, None};
ghost use Rattle.icescan_c.specs.Calls.{Begins, Finishes, Merges, MergesOf, OfOther, OnHandle, Takes};

use crate::handle::Handle;
use crate::held::Held;
use crate::states::State;
use icescan_c_requests::{Refusal, status};
use std::alloc::Global;

/// Has a handle hold the state of a scan in which no manifest is taken: `Kind` where what was lent is no scan, or
/// `Memory`, and then the handle holds what it held.
fn begin(alloc: Global, scan: &Held, state: &mut Handle) -> Result<(), Refusal>
    ensures { Begins scan.now state.old.held result state.new.held }
{
    let Held::Scan(scan) = scan else {
        return Err(Refusal::Kind);
    };
    let made = State::new(alloc, scan)?;
    state.hold(alloc, Held::State(made))?;
    Ok(())
}

/// Has a handle hold the state of a scan in which no manifest is taken.
#[unsafe(no_mangle)]
pub extern "C" fn icescan_state_new(alloc: Global, scan: &mut Handle, state: &mut Handle) -> u32
    ensures unchanged { scan.new.held ≡ scan.old.held }
    ensures made { OfOther Begins scan.old.held state.old.held result state.new.held }
{
    let Some(held) = scan.take(alloc) else {
        return status(Err(Refusal::Kind));
    };
    let ended = begin(alloc, &held, state);
    scan.put(held);
    status(ended)
}

/// Takes the manifest `i` that the scan wants, which has these bytes.
#[unsafe(no_mangle)]
pub extern "C" fn icescan_state_take(
    alloc: Global,
    state: &mut Handle,
    i: usize,
    manifest: &[u8],
) -> u32
    ensures { OnHandle (Takes i manifest.now) state.old.held result state.new.held }
{
    let Some(mut held) = state.take(alloc) else {
        return status(Err(Refusal::Kind));
    };
    let ended = held.take(i, manifest);
    state.put(held);
    status(ended)
}

/// Takes over what another state took.
fn merge(alloc: Global, state: &mut Handle, other: &Held) -> u32
    ensures { OnHandle (Merges other.now) state.old.held result state.new.held }
{
    let Some(mut held) = state.take(alloc) else {
        return status(Err(Refusal::Kind));
    };
    let ended = held.merge(other);
    state.put(held);
    status(ended)
}

/// Takes over what another state of the same scan took, which stays as it is.
#[unsafe(no_mangle)]
pub extern "C" fn icescan_state_merge(alloc: Global, state: &mut Handle, other: &mut Handle) -> u32
    ensures unchanged { other.new.held ≡ other.old.held }
    ensures merged { MergesOf other.old.held state.old.held result state.new.held }
{
    let Some(held) = other.take(alloc) else {
        return status(Err(Refusal::Kind));
    };
    let ended = merge(alloc, state, &held);
    other.put(held);
    ended
}

/// Takes over what another state took, which nobody needs any more.
fn absorb(alloc: Global, state: &mut Handle, other: Held) -> u32
    ensures { OnHandle (Merges other) state.old.held result state.new.held }
{
    match state.take(alloc) {
        Some(mut held) => {
            let ended = held.absorb(other);
            state.put(held);
            status(ended)
        }
        None => {
            drop(other);
            status(Err(Refusal::Kind))
        }
    }
}

/// Takes over what another state of the same scan took. The other handle holds nothing then, however the call ends.
#[unsafe(no_mangle)]
pub extern "C" fn icescan_state_absorb(alloc: Global, state: &mut Handle, other: &mut Handle) -> u32
    ensures emptied { other.new.held ≡ None }
    ensures merged { MergesOf other.old.held state.old.held result state.new.held }
{
    match other.take(alloc) {
        Some(held) => absorb(alloc, state, Box::into_inner(held)),
        None => status(Err(Refusal::Kind)),
    }
}

/// Finishes a state: the handle holds the plan then, or what keeps the state from being one.
#[unsafe(no_mangle)]
pub extern "C" fn icescan_finish(alloc: Global, state: &mut Handle) -> u32
    ensures { OnHandle Finishes state.old.held result state.new.held }
{
    let Some(mut held) = state.take(alloc) else {
        return status(Err(Refusal::Kind));
    };
    let ended = held.finish(alloc);
    state.put(held);
    status(ended)
}
