//! The core of a scan: what partial states contain, and the plan that they finish with.
#![tactic(auto)]

mod fault;
mod finish;
mod kept;
pub mod laws;
mod partial;
mod plan;
mod scan;

pub use fault::{FinishFault, ScanFault};
pub use kept::handing::Given;
pub use partial::Partial;
pub use plan::lines::{Line, Lines, PlanFile, PlanFiles};
pub use plan::placed_files::PlacedFiles;
pub use plan::{OwnedPlan, Plan};
pub use scan::Scan;
