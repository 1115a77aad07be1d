//! The files below a folder that no snapshot of a table needs.
#![tactic(auto)]

mod aged_folders;
mod known;
mod laws;
mod running;
mod told;
mod walk;

pub use aged_folders::AgedFolders;
pub use laws::orphans_are_not_reached;
pub use running::{Search, orphans_file};
