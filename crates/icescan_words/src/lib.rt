//! The words on the command line, and the command that they ask for.
#![tactic(auto)]

mod answer_format;
mod changes_command;
mod columns_command;
mod command;
mod command_line;
mod explain_command;
mod heard;
mod help_texts;
mod locate_command;
mod matches;
mod orphans_command;
mod parameter;
mod parameters;
mod parsing;
mod reachable_command;
mod shares_commands;

pub use command::{Asked, Command, Lists, Located, Place, Relaxed, Source, States};
pub use parsing::parse_words;
