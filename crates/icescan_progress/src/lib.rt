//! What a terminal is sent beside an answer: while a command reads, a line that reports how much was read, which the
//! next one overwrites, and which is gone before anything else is written; after a fault, the lines of its hint. And
//! whether it is sent them, by the words of the command line.
#![tactic(auto)]

mod asked;
mod cleared;
mod progress_line;
mod progress_text;
mod showing;
mod watched;

pub use asked::{Terminals, refuses_links, shows_hints, shows_progress};
pub use cleared::Cleared;
pub use progress_line::{ProgressLine, Screen};
pub use showing::put_lines;
pub use watched::{Progress, Silent, Watched};
