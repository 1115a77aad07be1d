//! What a row of a scan gave, as bytes: its kept entries, or its manifest's fault.
#![tactic(auto)]

mod adding;
mod before;
mod entries;
mod entry_writing;
mod fault_writing;
mod faults;
mod file;
mod fits;
mod parts;
mod section;
mod section_fault;
mod value_writing;
mod values;

pub use section::{bad_section, good_section, section_of};
pub use section_fault::SectionFault;
