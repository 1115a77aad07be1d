//! The forms of an answer: text, or lines of JSON; and the pieces that JSON is written in.
#![tactic(auto)]

mod format;
mod object_lines;
mod objects;
mod part;
mod pieces;
mod quotes;
mod texts;

pub use format::Format;
pub use object_lines::ObjectLines;
pub use objects::{Value, put_object};
pub use part::Part;
pub use pieces::{comma_before, put_ids, put_quoted};
pub use quotes::{hex_digit, put_escaped};
pub use texts::{push_int, push_long, push_number, push_path};
