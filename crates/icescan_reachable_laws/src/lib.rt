//! Laws of the files that tables reach. Nothing of the program builds on this crate.
#![tactic(auto)]

mod calls;
mod plans;

pub use calls::{put_files, rows_of_table};
pub use plans::plans_name_reached_files;
