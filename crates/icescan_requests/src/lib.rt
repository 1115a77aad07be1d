//! What is asked of tables as calls, over any files and sinks: plans of lists and of tables, and what a table holds.
#![tactic(auto)]

mod copies;
mod list_plans;
mod planning;
mod selected_rows;
mod selection;
mod show;
mod table_plans;
mod table_texts;

pub use copies::copied_spec;
pub use list_plans::{plan_list, run_list_plan};
pub use planning::{OpenGate, plan_rows_by_workers};
pub use selected_rows::{SelectedRows, select_rows};
pub use selection::{Selection, select};
pub use show::{run_show, show_file};
pub use table_plans::{TablePlan, plan_table, plan_table_at, plans_of_true_summaries};
pub use table_texts::{plan_file, run_plan, run_plan_with};
