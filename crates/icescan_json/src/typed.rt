//! Plans beside the types of their partition values.

ghost use Rattle.std.specs.Prelude.{◌≡◌, ◌⊎◌, ℕ, List, Ok, OnOk, IfOk, IfErr, IsErrOf, map};
ghost use Rattle.icescan_json.specs.Expressions.{asked_text};
ghost use Rattle.icescan_json.specs.JsonAnswers.{IsJsonOfPlan};
ghost use Rattle.icescan_json.specs.Types.{spec_types};
ghost use Rattle.icescan_print.specs.Written.{Appends, AppendsFront};

use crate::expressions::Expression;
use crate::plan::{write_typed_plan, write_typed_plan_by_workers};
use crate::residuals::planned_expression;
use crate::types::{SpecTypes, types_of_specs};
use contract_words::Items;
use ice_state::OwnedPlan;
use icescan_print::Sink;
use icescan_requests::TablePlan;
use icescan_text::{Request, RunFault, Workers};
use std::alloc::{AllocError, Global};
use std::thread::Threads;

/// A plan, the types by which the partition values of its files are written as JSON, and the filter that was asked.
#[derive(Debug, Drop)]
pub struct TypedPlan {
    /// What is known of the partition specs that it was asked under; of a manifest list alone nothing is.
    pub types: Items<SpecTypes>,
    /// The filter that was asked for, as an expression: rows of the plan's files are still to meet it.
    pub residual: Expression,
    /// The plan.
    pub plan: OwnedPlan,
}

impl TypedPlan {
    /// The plan that was made of a table's metadata and a request, with the types of the specs and the filter.
    pub(crate) fn of(
        alloc: Global,
        planned: TablePlan,
        metadata: &[u8],
        request: &Request,
    ) -> Result<TypedPlan, AllocError>
        ensures types { IfOk result (λ typed. typed.types ≡ map spec_types planned.specs) }
        ensures residual { IfOk result (λ typed. asked_text metadata.now request.now ≡ Ok typed.residual) }
        ensures plan { IfOk result (λ typed. typed.plan ≡ planned.plan) }
    {
        let residual = planned_expression(alloc, metadata, request)?;
        let types = types_of_specs(alloc, planned.specs.as_slice())?;
        Ok(TypedPlan {
            types: Items::from_vec(types),
            residual,
            plan: planned.plan,
        })
    }
}

/// Writes a plan as JSON and nothing else. It refuses when out of memory, and then nothing was written, or where a
/// write fails, and then a front of the text was.
pub(crate) fn write_json<W: Sink>(
    alloc: Global,
    typed: &TypedPlan,
    output: &mut W,
) -> Result<(), RunFault>
    ensures all { OnOk result ((text : List ℕ) × IsJsonOfPlan typed.now text
        × Appends (W.taken output.old) (W.taken output.new) text) }
    ensures causes { IfErr result (λ e. (e ≡ RunFault.Memory) ⊎ (e ≡ RunFault.Write)) }
    ensures nothing { IsErrOf result RunFault.Memory → W.taken output.new ≡ W.taken output.old }
    ensures front { IsErrOf result RunFault.Write → (text : List ℕ) × IsJsonOfPlan typed.now text
        × AppendsFront (W.taken output.old) (W.taken output.new) text }
    ensures cause { IsErrOf result RunFault.Write → W.may_fail output.old }
{
    write_typed_plan(
        alloc,
        typed.types.as_slice(),
        &typed.residual,
        &typed.plan.lines(),
        output,
    )
}

/// The same as `write_json`, the text of ranges of tasks made by so many workers.
pub(crate) fn write_json_by_workers<R: Threads + Sync, W: Sink>(
    rt: &R,
    alloc: Global,
    typed: &TypedPlan,
    workers: Workers,
    output: &mut W,
) -> Result<(), RunFault>
    ensures all { OnOk result ((text : List ℕ) × IsJsonOfPlan typed.now text
        × Appends (W.taken output.old) (W.taken output.new) text) }
    ensures causes { IfErr result (λ e. (e ≡ RunFault.Memory) ⊎ (e ≡ RunFault.Write)) }
    ensures nothing { IsErrOf result RunFault.Memory → W.taken output.new ≡ W.taken output.old }
    ensures front { IsErrOf result RunFault.Write → (text : List ℕ) × IsJsonOfPlan typed.now text
        × AppendsFront (W.taken output.old) (W.taken output.new) text }
    ensures cause { IsErrOf result RunFault.Write → W.may_fail output.old }
{
    write_typed_plan_by_workers(
        rt,
        alloc,
        typed.types.as_slice(),
        &typed.residual,
        &typed.plan.lines(),
        workers,
        output,
    )
}
