//! The columns of a table as a filter names them, and the fields of its partition specs, as text or as lines of JSON;
//! and what a table's metadata says as lines of JSON.
#![tactic(auto)]

mod asked;
mod json_lines;
mod json_types;
mod lines;
mod names;
mod running;
mod told;
mod type_names;

pub use running::{columns_file, run_columns, show_file_json};
