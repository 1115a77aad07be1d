//! The states of a scan as bytes, which travel from machine to machine and are joined on the way.
#![tactic(auto)]

mod fault;
mod joining;
pub mod laws;
mod reading;
mod writing;

pub use fault::StateFault;
pub use joining::joined_bytes;
pub use reading::state_of_bytes;
pub use writing::state_bytes;
