//! Which delete files apply to a data file, found in lists sorted by place and sequence number.
#![tactic(auto)]

mod delete;
mod finder;
mod group;
mod growth;
mod index;
mod keyed;
mod laws;
mod merging;
mod numbers;
mod placing;
mod record;
mod search_key;
mod shelf;

pub use finder::Finder;
pub use index::{DeleteIndex, Hits};
pub use laws::merging_of_indexes;
pub use record::Record;
