//! What surrounds the sections of a scan's state where it is bytes: the scan's name, which rows the sections are of,
//! and a digest of all. Envelopes are joined without a look into their sections.
#![tactic(auto)]

mod closing;
mod envelope;
mod fault;
mod joining;
mod laws;
mod opening;
mod section;
mod written;

pub use envelope::Envelope;
pub use fault::EnvelopeFault;
pub use laws::{joins_are_unions, no_fault_is_memory, opened_is_in_order, trees_of_joins};
pub use section::Section;
pub use written::{counted_run_of, push_long, push_number, push_run};

#[cfg(test)]
mod tests;
