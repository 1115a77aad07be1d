//! The newest metadata of a table in a folder, by the names of its files.
#![tactic(auto)]

mod names;
mod newest;
mod newest_fault;

pub use names::{MetadataName, metadata_name, number_of};
pub use newest::newest_metadata;
pub use newest_fault::NewestFault;
