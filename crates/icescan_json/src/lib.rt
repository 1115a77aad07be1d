//! Plans as the JSON with which an Iceberg REST catalog answers a scan that was planned: of manifest lists and of
//! tables, over any files.
#![tactic(auto)]

mod answers;
mod dates;
mod decimals;
mod expressions;
mod files;
mod finished;
mod laws;
mod list_plans;
mod literals;
mod named;
mod plan;
mod residuals;
mod table_plans;
mod tasks;
mod typed;
mod types;
mod values;

pub use answers::{json_answers_are_plans, json_answers_tell_plans};
pub use expressions::Expression;
pub use finished::finish_file_json;
pub use laws::{json_is_the_plan, json_reads_back, json_tells_all};
pub use list_plans::run_list_plan_json;
pub use plan::{write_plan_json, write_typed_plan, write_typed_plan_by_workers};
pub use residuals::planned_expression;
pub use table_plans::plan_file_json;
pub use typed::TypedPlan;
pub use types::{SpecTypes, types_of, types_of_specs};
