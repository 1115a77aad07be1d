//! Plans that are kept, and plans that take a state over. The test is run with each allocation refused in turn, by
//! `tools/trials/refuse --test`: the call succeeds when it is repeated, and the plan is the same.

ghost use Rattle.ice_state.specs.Contents.{IsOf};

use crate::answers::is_plan;
use crate::cases::Case;
use crate::states::{case_at_last, state_at_last};
use ice_state::{FinishFault, OwnedPlan, Partial, Plan};
use std::alloc::{AllocError, Global};

fn finished_at_last<'a>(state: &'a Partial, case: &Case) -> Result<Plan<'a>, FinishFault>
    requires { IsOf case.now.scan state.now }
{
    match state.finish(&case.scan) {
        Err(FinishFault::Memory) => state.finish(&case.scan),
        finished => finished,
    }
}

fn kept_at_last(alloc: Global, plan: &Plan<'_>) -> Result<OwnedPlan, AllocError> {
    match plan.keep(alloc) {
        Ok(kept) => Ok(kept),
        Err(_) => plan.keep(alloc),
    }
}

/// The plan that is kept of the state that took all.
fn kept(alloc: Global, case: &Case) -> Result<OwnedPlan, FinishFault> {
    let state = state_at_last(alloc, case, &[0, 1, 2])?;
    let plan = finished_at_last(&state, case)?;
    Ok(kept_at_last(alloc, &plan)?)
}

/// The plan that takes such a state over, which is made anew where a growth was refused.
fn taken_over(alloc: Global, case: &Case) -> Result<OwnedPlan, FinishFault> {
    match state_at_last(alloc, case, &[0, 1, 2])?.into_plan(&case.scan) {
        Err(FinishFault::Memory) => {
            state_at_last(alloc, case, &[0, 1, 2])?.into_plan(&case.scan)
        }
        planned => planned,
    }
}

fn is_whole(planned: &Result<OwnedPlan, FinishFault>) -> bool {
    match planned {
        Ok(plan) => is_plan(&plan.lines()),
        Err(_) => false,
    }
}

fn are_whole(alloc: Global) -> bool {
    match case_at_last(alloc) {
        Ok(case) => is_whole(&kept(alloc, &case)) && is_whole(&taken_over(alloc, &case)),
        Err(_) => false,
    }
}

#[test]
fn of_plans(rt: HostRuntime) {
    assert!(rt; are_whole(rt.alloc()));
}
