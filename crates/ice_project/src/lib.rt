//! The projection of filters through partition specs: which partition tuples the files with matching rows may have.
#![tactic(auto)]

mod field;
mod files;
mod laws;
mod limits;
mod part_filter;
mod projection;
mod summaries;
mod table;
mod tuples;

pub use field::transform_named;
pub use files::bounds_may;
pub use laws::{projections_of_same_tuples, projections_of_unpartitioned_specs, summary_soundness};
pub use part_filter::{FieldTest, PartFilter};
pub use projection::project;
pub use summaries::summary_may;
