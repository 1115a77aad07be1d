//! What the library tells as lines of JSON.

ghost use Rattle.std.specs.Prelude.{◌≡◌, IfOk};
ghost use Rattle.contract_words.specs.Outcome.{Gives};
ghost use Rattle.icescan_c_requests.specs.Texts.{IsJsonOfAsked, as_memory};
ghost use Rattle.icescan_columns.specs.Columns.{columns_of};
ghost use Rattle.icescan_forms.specs.declared.format.Format.TheVariants as format;

use contract_words::Items;
use ice_meta::Target;
use ice_state::OwnedPlan;
use icescan_columns::run_columns;
use icescan_forms::Format;
use icescan_json::{SpecTypes, planned_expression, write_typed_plan};
use icescan_text::{Request, RunFault};
use std::alloc::{AllocError, Global};

/// Memory can't be written where it can't grow.
pub fn as_memory(fault: RunFault) -> RunFault
    ensures { result ≡ as_memory fault }
{
    match fault {
        RunFault::Write => RunFault::Memory,
        fault => fault,
    }
}

/// The columns that a filter of the target names and the partition specs, of the table whose metadata these are the
/// bytes of, as lines of JSON.
#[tactic(auto, using(crate::proofs::InMemory::told))]
pub fn columns_json(alloc: Global, metadata: &[u8], target: &Target) -> Result<Items<u8>, RunFault>
    ensures { Gives RunFault.Memory (λ text. text) result (columns_of format.Json metadata.now target.now) }
{
    let mut text = Vec::new(alloc);
    match run_columns(alloc, metadata, target, Format::Json, &mut text) {
        Ok(()) => Ok(Items::from_vec(text)),
        Err(fault) => Err(as_memory(fault)),
    }
}

/// A plan as JSON, in one line, that was made of a request and of the table whose metadata these are the bytes of. The
/// specs of its files have these types.
pub fn plan_json(
    alloc: Global,
    metadata: &[u8],
    request: &Request,
    types: &[SpecTypes],
    plan: &OwnedPlan,
) -> Result<Items<u8>, AllocError>
    ensures { IfOk result (IsJsonOfAsked metadata.now request.now types.now plan.now) }
{
    let residual = planned_expression(alloc, metadata, request)?;
    let mut text = Vec::new(alloc);
    match write_typed_plan(alloc, types, &residual, &plan.lines(), &mut text) {
        Ok(()) => Ok(Items::from_vec(text)),
        Err(fault) => {
            drop(fault);
            Err(AllocError)
        }
    }
}
