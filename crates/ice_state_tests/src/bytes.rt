//! States that travel as bytes, and are joined on the way.

ghost use Rattle.ice_state.specs.Contents.{IsOf};

use crate::answers::is_plan;
use crate::cases::{Case, state_after, whole_case};
use ice_state::Partial;
use ice_state_bytes::{StateFault, joined_bytes, state_bytes, state_of_bytes};
use std::alloc::Global;

/// The name of the scan that the states are of.
static NAME: [u8; 32] = [7; 32];

/// The name of another.
static ANOTHER: [u8; 32] = [8; 32];

/// The bytes of a state that took these rows.
fn bytes_after(alloc: Global, case: &Case, order: &[usize]) -> Result<Vec<u8>, StateFault> {
    let state = state_after(alloc, case, order)?;
    state_bytes(alloc, &case.scan, &NAME, &state)
}

/// The bytes of two states together, which both took the second row.
fn bytes_of_both(alloc: Global, case: &Case) -> Result<Vec<u8>, StateFault> {
    let one = bytes_after(alloc, case, &[0, 1])?;
    let other = bytes_after(alloc, case, &[2, 1])?;
    joined_bytes(alloc, &one, &other)
}

/// Whether a state has the plan of all manifests.
fn has_plan(state: Partial, case: &Case) -> bool
    requires { IsOf case.now.scan state }
{
    match state.into_plan(&case.scan) {
        Ok(plan) => is_plan(&plan.lines()),
        Err(_) => false,
    }
}

/// Whether bytes are a state of the scan, which has the plan of all manifests.
fn are_whole(alloc: Global, case: &Case, bytes: &[u8]) -> bool {
    match state_of_bytes(alloc, &case.scan, &NAME, bytes) {
        Ok(state) => has_plan(state, case),
        Err(_) => false,
    }
}

/// Whether bytes are refused for a scan of another name.
fn are_of_another(alloc: Global, case: &Case, bytes: &[u8]) -> bool {
    match state_of_bytes(alloc, &case.scan, &ANOTHER, bytes) {
        Ok(_) => false,
        Err(fault) => fault == StateFault::OtherScan,
    }
}

/// Whether two states are joined as bytes, and their scan alone reads them.
fn travel(alloc: Global, case: &Case) -> bool {
    match bytes_of_both(alloc, case) {
        Ok(bytes) => are_whole(alloc, case, &bytes) && are_of_another(alloc, case, &bytes),
        Err(_) => false,
    }
}

#[test]
fn of_two_states(rt: HostRuntime) {
    let is_right = match whole_case(rt.alloc()) {
        Ok(case) => travel(rt.alloc(), &case),
        Err(_) => false,
    };
    assert!(rt; is_right);
}
