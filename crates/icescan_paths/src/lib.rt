//! Paths of files: whether one is among others, as it stands or in another spelling, and which files of a folder are
//! strays.
#![tactic(auto)]

mod aged;
mod laws;
mod path_set;
mod spelling;

pub use aged::{AgedFile, Stray, StrayKind, strays};
pub use laws::orphans_are_unknown;
pub use path_set::PathSet;
pub use spelling::plain_spelling;
