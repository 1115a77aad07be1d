//! The JSON of table metadata: members and items that change, and the sequence numbers that an upgraded table leaves
//! out.
#![tactic(auto)]

mod laws;
mod objects;
mod upgraded;

pub use laws::filling_in_adds_what_is_left_out;
pub use objects::{inside, items_of, one_more, set};
pub use upgraded::filled;
