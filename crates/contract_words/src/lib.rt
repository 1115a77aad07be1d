//! Words that the contracts of every crate use, and the small types that hold lists and texts where contracts compare
//! them. The README of this crate explains them.
#![tactic(auto)]

mod duplicate;
mod items;
mod text;

pub use duplicate::Duplicate;
pub use items::Items;
pub use text::Text;
