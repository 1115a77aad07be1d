//! Public calls of books and of desks once more, each under the one clause that its wrong implementations turn, and the
//! step by which a desk draws, so that the gate can try these cheaply.
#![tactic(auto)]

mod books;
mod desks;

pub use books::{pin, swap_in};
pub use desks::{draw_ticket, plan_scan};
