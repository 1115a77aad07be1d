//! Workers at one desk.

mod table;
mod threads;
