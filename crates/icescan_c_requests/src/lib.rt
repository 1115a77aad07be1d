//! What a program in C asks of a table and hands in of it, and how its calls end.
#![tactic(auto)]

mod asking;
mod copies;
mod endings;
mod handed;
mod hints;
mod lines;
mod reason;
mod texts;

pub use asking::{request_by_id, request_by_name};
pub use copies::copy_request;
pub use endings::{Refusal, status};
pub use handed::HandedFiles;
pub use hints::filter_hint;
pub use lines::fault_line;
pub use reason::Reason;
pub use texts::{as_memory, columns_json, plan_json};
