//! Tests of icescan_text, of the sinks that its lines go to and of icescan_requests: the line and the status of each
//! fault and what is read of a change file, against texts written by hand; reads that fail, that a signal interrupts or
//! whose end comes late, and files that refuse to be opened, written or kept.
#![tactic(auto)]

mod calls;
#[cfg(test)]
mod changes;
#[cfg(test)]
mod faults;
#[cfg(test)]
mod inputs;
#[cfg(test)]
mod placing;
#[cfg(test)]
mod sinks;

pub use calls::{parse_words, place, put_lines, shows_hints, shows_progress};
