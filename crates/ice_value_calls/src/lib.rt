//! Public calls of ice_value, ice_transform and ice_deletes once more, each under the clause that its wrong
//! implementations turn, so that the gate can try these cheaply.
#![tactic(auto)]

mod applying;
mod calls;

pub use applying::for_data;
pub use calls::{apply, compare_bound, merge, order_of_cells, sequence_number, write_bound};
