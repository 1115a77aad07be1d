//! What is lent to C of a plan's files: their numbers, their paths, and their partition values.
#![tactic(auto)]

mod file;
mod value;
mod value_type;

pub use file::File;
pub use value::Value;
pub use value_type::ValueType;
