//! Where a scan's files come from, the desk where workers draw tickets for them, and the plan of a scan by workers.
#![tactic(auto)]

mod claims;
mod desk;
mod fault;
mod files;
mod hand;
mod left;
mod plan;
mod tickets;
mod wanted;
mod workers;

pub use desk::{Claim, Desk, Seat};
pub use fault::{PlanFault, WantedFault};
pub use files::{Files, ReadFault};
pub use hand::{Hand, Size};
pub use left::{Left, Served};
pub use plan::{MOST_WORKERS, plan_scan, take_by_workers};
pub use tickets::Tickets;
pub use wanted::take_wanted;
pub use workers::{Gate, work};
