//! The hint of a filter that is refused.

use crate::asked::Asked;
use crate::caret::add_caret;
use crate::columns::{add_first_missing, add_types};
use crate::filter::of_filter;
use crate::habits::add_habit;
use crate::hint::Hint;
use crate::literals::add_wrong_literal;
use ice_filter::{FilterFault, parse};
use ice_meta::Schema;
use std::alloc::{AllocError, Global};

/// Adds which place of a filter's text is at fault.
pub fn add_syntax(
    hint: &mut Hint,
    alloc: Global,
    text: &str,
    offset: usize,
) -> Result<(), AllocError> {
    add_caret(hint, alloc, text, offset)?;
    add_habit(hint, alloc, text, offset)
}

/// Adds what of a filter the columns don't take.
fn add_refused(
    hint: &mut Hint,
    alloc: Global,
    asked: &Asked<'_>,
    fault: FilterFault,
) -> Result<(), AllocError> {
    match fault {
        FilterFault::NoSuchColumn => add_first_missing(hint, alloc, asked),
        FilterFault::WrongLiteral => add_wrong_literal(hint, alloc, asked),
        _ => add_types(hint, alloc, asked),
    }
}

/// Adds what of a filter's text the columns of a schema don't take.
pub fn add_unbound(
    hint: &mut Hint,
    alloc: Global,
    text: &str,
    schema: &Schema,
    fault: FilterFault,
) -> Result<(), AllocError> {
    let Ok(filter) = parse(alloc, text) else {
        return Ok(());
    };
    let asked = Asked {
        filter: &filter,
        schema,
    };
    let added = add_refused(hint, alloc, &asked, fault);
    drop(filter);
    added
}

/// The hint of a filter's text that is refused under a schema: what the refusal says, what it is about, and what to do.
pub fn hint_of_filter(
    alloc: Global,
    text: &str,
    schema: &Schema,
    fault: FilterFault,
) -> Result<Hint, AllocError> {
    let mut hint = Hint::new(alloc);
    let sentence = of_filter(fault);
    hint.say(alloc, &sentence)?;
    match fault {
        FilterFault::Syntax(offset) => add_syntax(&mut hint, alloc, text, offset)?,
        FilterFault::TooBig | FilterFault::Memory => {}
        _ => add_unbound(&mut hint, alloc, text, schema, fault)?,
    }
    hint.advise(alloc, &sentence)?;
    Ok(hint)
}
