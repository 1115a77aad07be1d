//! The newest version of a table and how commits replace it, by one thread or by many. What versions are and how
//! commits are prepared on them is in `ice_catalog_versions`.
#![tactic(auto)]

mod book;
mod catalog;

pub use book::{Book, Conflict};
pub use catalog::{Catalog, Seat};
