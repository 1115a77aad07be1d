//! The parts of an Avro file that need no schema: numbers, runs of bytes, texts, counts of items and heads of blocks.
//! Each is read at the front of the bytes, with what stands behind it, or with the first fault.
#![tactic(auto)]

mod count;
mod head;
mod leaf;
mod number;
mod place;
mod refusal;

pub use count::count_of;
pub use head::{Head, head_of};
pub use leaf::{boolean_of, bytes_of, run_of_len, symbol_of, text_of};
pub use number::{int_of, long_of, unsigned_of};
pub use place::Place;
pub use refusal::Refusal;
