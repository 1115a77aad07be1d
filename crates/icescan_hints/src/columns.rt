//! What a refused filter asks of which column.

use crate::case::Case;
use contract_words::Text;
use ice_desk::Files;
use ice_filter::FilterFault;
use icescan_hint_texts::{Hint, add_syntax, add_unbound};
use icescan_text::Request;
use std::alloc::{AllocError, Global};

/// Adds what of the filter the columns of the table don't take.
fn add_bound<F: Files>(
    hint: &mut Hint,
    alloc: Global,
    case: &Case<'_, F>,
    request: &Request,
    text: &Text,
    fault: FilterFault,
) -> Result<(), AllocError> {
    match case.metadata(alloc) {
        Some(metadata) => {
            let schema = metadata.schema_for(&request.target);
            let added = add_unbound(hint, alloc, text.as_str(), schema, fault);
            drop(metadata);
            added
        }
        None => Ok(()),
    }
}

/// Adds what of a filter is refused.
pub fn add_filter<F: Files>(
    hint: &mut Hint,
    alloc: Global,
    case: &Case<'_, F>,
    fault: FilterFault,
) -> Result<(), AllocError> {
    let (Some(request), Some(text)) = (case.request(), case.filter()) else {
        return Ok(());
    };
    match fault {
        FilterFault::Syntax(offset) => add_syntax(hint, alloc, text.as_str(), offset),
        FilterFault::TooBig | FilterFault::Memory => Ok(()),
        _ => add_bound(hint, alloc, case, request, text, fault),
    }
}
