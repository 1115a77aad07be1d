//! What is asked of tables, by how many workers, and why the program ends without an answer, with the line and the
//! status that tell it; reading files that have to be there; writing a plan; and change files. The texts of plans and
//! tables, and the sinks that they go to, are in `icescan_print`.
#![tactic(auto)]

mod change;
mod drill;
mod drill_fault;
mod fault;
mod fault_text;
mod lineage_fault;
mod reading;
mod reporting;
mod request;
mod share;
mod state_flaw;
mod workers;
mod write;

pub use change::{ChangeFault, ChangeKind, ChangeMember, read_change};
pub use drill::Drill;
pub use drill_fault::DrillFault;
pub use fault::RunFault;
pub use fault_text::put_fault;
pub use lineage_fault::LineageFault;
pub use reading::{read_file, read_file_into, read_rows};
pub use reporting::report;
pub use request::{ChangesRequest, CommitRequest, Request, Separator};
pub use share::Share;
pub use state_flaw::StateFlaw;
pub use workers::Workers;
pub use write::{write_plan, write_plan_by_workers};
