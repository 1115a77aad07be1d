//! Entries that are kept, by their numbers. Each path stands once, in an arena, and so does what many entries have in
//! common: an entry itself costs a record of one size, which owns nothing.
#![tactic(auto)]

mod common;
mod commons;
mod entries;
mod origin;
mod origins;
mod paths;
mod record;
mod spelling;
mod spellings;
mod table;

pub use entries::{Entries, EntryNumber, Room};
