//! Laws of filters: their language, their columns and their refusals.
#![tactic(auto)]

mod columns;
mod faults;
mod laws;

pub use columns::columns_are_found_by_name;
pub use faults::bind_refuses_the_first_predicate_at_fault;
pub use laws::{texts_are_kept_as_parts, texts_say_filters, tokens_are_spelled};
