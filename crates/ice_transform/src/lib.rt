//! Partition transforms: the value of a partition field for a column's value.
#![tactic(auto)]

mod calendar;
mod floors;
mod laws;
mod murmur;
mod names;
mod parameter;
mod texts;
mod transform;

pub use laws::{
    cut_texts, equal_cells, identity_values, null_values, rising_values, texts_of_transforms,
    typed_values, values_of_transforms,
};
pub use murmur::murmur3;
pub use parameter::Parameter;
pub use texts::has_points;
pub use transform::Transform;
