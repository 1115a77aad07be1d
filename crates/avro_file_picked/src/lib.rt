//! Wanted values of the objects of an Avro file, by the ids of their fields, without the others.
#![tactic(auto)]

mod found;
mod guide;
mod layout;
mod places;
mod row;

pub use found::Found;
pub use guide::{Guide, GuidedObject};
pub use layout::Layout;
pub use places::Places;
