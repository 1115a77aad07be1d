//! The lines of a hint, and what they say of a filter and of words that a shell split.
#![tactic(auto)]

mod asked;
mod caret;
mod columns;
mod filter;
mod habits;
mod hint;
mod literals;
mod moments;
mod nearest;
mod predicates;
mod reading;
mod refused;
mod sentence;
mod split;
mod units;

pub use asked::Asked;
pub use filter::of_filter;
pub use hint::{Hint, quoted, quoted_list};
pub use nearest::add_none_named;
pub use reading::reading_of;
pub use refused::{add_syntax, add_unbound, hint_of_filter};
pub use sentence::{MEMORY, Sentence};
pub use split::add_split;
pub use units::add_unlikely;
