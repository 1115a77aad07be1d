//! The files of a table by its snapshots: those that are reached without some of them, and those that these alone
//! reach.
#![tactic(auto)]

mod apart;
mod ids;
mod kept;
mod laws;
mod named;
mod running;
mod snapshots;
mod told;

pub use apart::path_of;
pub use laws::{none_let_go_is_needed, parts_are_apart};
pub use running::part_file;
pub use told::{lines_in, path_told};
