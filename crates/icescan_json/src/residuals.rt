//! The filters that requests ask for, as expressions.

ghost use Rattle.std.specs.Prelude.{◌≡◌, IfOk, Ok};
ghost use Rattle.contract_words.specs.Outcome.{Gives};
ghost use Rattle.ice_meta.specs.Targets.{described, metadata_of};
ghost use Rattle.icescan_json.specs.Expressions.{asked_text, filter_text};
ghost use Rattle.icescan_text.specs.Faults.{of_meta};
ghost use Rattle.icescan_text.specs.Reads.{as_run};

use crate::expressions::Expression;
use ice_filter::parse;
use ice_meta::{Metadata, Target};
use icescan_text::{Request, RunFault};
use std::alloc::{AllocError, Global};

/// The metadata that a file has.
fn read_metadata(alloc: Global, bytes: &[u8]) -> Result<Metadata, RunFault>
    ensures { Gives RunFault.Memory (λ metadata. described metadata.json metadata.table) result
        (as_run of_meta (metadata_of bytes.now)) }
{
    Ok(Metadata::read(alloc, bytes)?)
}

/// The expression of a filter's text.
#[tactic(auto, unfolding(crate::specs::Expressions::filter_text))]
fn filter_expression(
    alloc: Global,
    metadata: &[u8],
    target: &Target,
    text: &str,
) -> Result<Expression, RunFault>
    ensures { Gives RunFault.Memory (λ made. made) result (filter_text metadata.now target.now text.now) }
{
    let metadata = read_metadata(alloc, metadata)?;
    let filter = parse(alloc, text)?;
    Ok(Expression::of_filter(alloc, metadata.schema_for(target), &filter)?)
}

/// The expression of what a request asks for of the table whose metadata these are the bytes of. Without a filter the
/// metadata are not read.
#[tactic(auto, unfolding(crate::specs::Expressions::asked_text))]
fn asked_expression(
    alloc: Global,
    metadata: &[u8],
    request: &Request,
) -> Result<Expression, RunFault>
    ensures { Gives RunFault.Memory (λ made. made) result (asked_text metadata.now request.now) }
{
    match &request.filter {
        Some(text) => filter_expression(alloc, metadata, &request.target, text.as_str()),
        None => Ok(Expression::every_row(alloc)?),
    }
}

/// The same, of bytes and a request that a plan was made of: there memory alone can be short.
pub fn planned_expression(
    alloc: Global,
    metadata: &[u8],
    request: &Request,
) -> Result<Expression, AllocError>
    ensures { IfOk result (λ made. asked_text metadata.now request.now ≡ Ok made) }
{
    match asked_expression(alloc, metadata, request) {
        Ok(made) => Ok(made),
        Err(_) => Err(AllocError),
    }
}
