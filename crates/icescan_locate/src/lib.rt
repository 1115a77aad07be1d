//! The newest metadata of a table in a folder, and the words by which other commands are told of it.
#![tactic(auto)]

mod dated;
mod located;
mod running;

pub use dated::DatedFile;
pub use running::{locate_all, locate_folder, newest_name};
