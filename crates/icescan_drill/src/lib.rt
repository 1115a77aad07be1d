//! Drills: threads that commit to one table in memory at once, and see that no commit is lost.
#![tactic(auto)]

mod drill_text;
mod drilled_table;
mod drilling;
mod watch;

pub use drill_text::run_drill;
pub use drilling::drill_table;
pub use icescan_text::Drill;
pub use watch::Watch;
