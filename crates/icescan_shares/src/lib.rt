//! Plans that several machines make: shares of what a scan reads, what a share gave as the bytes of a state, states as
//! one, and the plan of states.
#![tactic(auto)]

mod finishing;
mod joining;
pub mod laws;
mod names;
mod selecting;
mod shares;
mod states;
mod taking;

pub use finishing::{finish_file, finish_table};
pub use joining::join_files;
pub use names::scan_name;
pub use shares::rows_of_share;
pub use taking::{take_file, take_table};
