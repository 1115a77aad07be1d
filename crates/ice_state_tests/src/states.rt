//! States that take, merge and absorb in some order. `of_steps` is run with each allocation refused in turn, by
//! `tools/trials/refuse --test`: the call succeeds when it is repeated, and the state gives the answer of all that it took.

ghost use Rattle.std.specs.Prelude.{IfOk};
ghost use Rattle.ice_state.specs.Contents.{IsOf};

use crate::answers::is_plan;
use crate::cases::{Case, state_after, take, whole_case};
use ice_state::{Partial, ScanFault};
use std::alloc::{AllocError, Global};

/// What happens to a state.
#[derive(Clone, Copy)]
enum Step {
    /// It takes the row at this place.
    Take(usize),
    /// It merges with a state that took these rows.
    Merge(&'static [usize]),
    /// It absorbs a state that took these rows.
    Absorb(&'static [usize]),
}

use Step::{Absorb, Merge, Take};

/// Steps after which a state has all rows.
static STEPS: [&[Step]; 4] = [
    &[Take(2), Take(0), Take(1)],
    &[Take(2), Merge(&[0]), Merge(&[1, 0])],
    &[Merge(&[]), Merge(&[2, 1, 0]), Merge(&[2, 1])],
    // the first outgrows the state, and took none of what it took
    &[Take(2), Absorb(&[1]), Absorb(&[2, 0])],
];

/// The case, also where a growth was refused at first.
pub fn case_at_last(alloc: Global) -> Result<Case, ScanFault> {
    match whole_case(alloc) {
        Ok(case) => Ok(case),
        Err(_) => whole_case(alloc),
    }
}

/// The state that took these, also where a growth was refused at first.
pub fn state_at_last(alloc: Global, case: &Case, order: &[usize]) -> Result<Partial, AllocError>
    ensures { IfOk result (λ state. IsOf case.now.scan state) }
{
    match state_after(alloc, case, order) {
        Ok(state) => Ok(state),
        Err(_) => state_after(alloc, case, order),
    }
}

fn make_step(alloc: Global, state: &mut Partial, case: &Case, step: Step) -> Result<(), AllocError>
    requires { IsOf case.now.scan state.old }
    ensures { IsOf case.now.scan state.new }
{
    match step {
        Take(place) => take(state, case, place),
        Merge(order) => state.merge(&state_after(alloc, case, order)?),
        Absorb(order) => state.absorb(state_after(alloc, case, order)?),
    }
}

/// The state after these steps, each taken again where a growth was refused.
fn state_by(alloc: Global, case: &Case, steps: &[Step]) -> Result<Partial, AllocError>
    ensures { IfOk result (λ state. IsOf case.now.scan state) }
{
    let mut state = state_at_last(alloc, case, &[])?;
    'steps: for next in steps {
        if make_step(alloc, &mut state, case, *next).is_err() {
            make_step(alloc, &mut state, case, *next)?;
        }
    }
    Ok(state)
}

/// Whether the state has the plan.
fn has_plan(state: &Partial, case: &Case) -> bool
    requires { IsOf case.now.scan state.now }
{
    match state.finish(&case.scan) {
        Ok(plan) => is_plan(&plan.lines()),
        Err(_) => false,
    }
}

/// Whether the steps lead to a state that has the plan.
fn leads_to_plan(alloc: Global, case: &Case, steps: &[Step]) -> bool {
    match state_by(alloc, case, steps) {
        Ok(state) => has_plan(&state, case) || has_plan(&state, case),
        Err(_) => false,
    }
}

fn lead_to_plan(alloc: Global, case: &Case) -> bool {
    for steps in &STEPS {
        if !leads_to_plan(alloc, case, steps) {
            return false;
        }
    }
    true
}

#[test]
fn of_steps(rt: HostRuntime) {
    let is_right = match case_at_last(rt.alloc()) {
        Ok(case) => lead_to_plan(rt.alloc(), &case),
        Err(_) => false,
    };
    assert!(rt; is_right);
}

/// Whether the three delete files of a state wait, and no index is made of them yet.
fn await_one_index(alloc: Global, state: &Partial) -> bool {
    match format!(in alloc; "{state:?}") {
        Ok(text) => text.matches("FileNumber {").count() == 3
            && text.matches("Delete {").count() == 0,
        Err(_) => false,
    }
}

/// Whether the steps lead to a state whose delete files wait for one index.
fn leads_to_waiting(alloc: Global, case: &Case, steps: &[Step]) -> bool {
    match state_by(alloc, case, steps) {
        Ok(state) => await_one_index(alloc, &state),
        Err(_) => false,
    }
}

fn lead_to_waiting(alloc: Global, case: &Case) -> bool {
    for steps in &STEPS {
        if !leads_to_waiting(alloc, case, steps) {
            return false;
        }
    }
    true
}

/// Delete files wait until reading ends, so that a table of many small manifests costs one index and not one a manifest.
#[test]
fn makes_no_index_before_reading_ends(rt: HostRuntime) {
    let is_right = match case_at_last(rt.alloc()) {
        Ok(case) => lead_to_waiting(rt.alloc(), &case),
        Err(_) => false,
    };
    assert!(rt; is_right);
}
