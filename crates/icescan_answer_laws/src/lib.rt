//! Laws of what requests are answered: that no file is left out that has a match. Nothing builds on this crate.
#![tactic(auto)]

mod answers;
mod changes;
mod given;
mod relaxed;

pub use answers::{filters_mean_their_texts, what_an_answer_lacks_has_no_match};
pub use changes::what_changes_leave_out_has_no_match;
pub use given::{commits_of_a_world, plans_of_a_world};
pub use relaxed::what_a_relaxed_answer_lacks_has_no_match;
