//! From the words of a command line to the command that they ask for.

ghost use Rattle.std.specs.Prelude.{◌≡◌, IfErr, IfOk, map, string_bytes};
ghost use Rattle.icescan_words.specs.CommandLines.{IsWordsFault, ReadAs, asks_first_list};
ghost use Rattle.icescan_words.specs.Heard.{AsksFor};

use crate::command::{Command, Lists};
use crate::command_line::program;
use crate::heard::asks_for;
use crate::matches::{matched, misread};
use clap::Error;
use clap::error::ErrorKind;
use contract_words::Text;
use icescan_forms::Format;
use icescan_text::RunFault;
use std::alloc::{AllocError, Global};

/// What is shown in place of an answer: a text that was asked for, or why the words are not understood.
fn shown(alloc: Global, error: &Error) -> Result<Command, RunFault>
    ensures { IfErr result IsWordsFault }
{
    if error.kind() == ErrorKind::OutOfMemory {
        return Err(RunFault::Memory);
    }
    let Ok(text) = format!(in alloc; "{error}") else {
        return Err(RunFault::Memory);
    };
    let text = Text::from_string(text);
    if error.use_stderr() {
        Err(RunFault::Words(text))
    } else {
        Ok(Command::Text(text))
    }
}

/// The command that the parser makes of the words.
fn parsed(alloc: Global, words: &[String]) -> Result<Command, RunFault>
    ensures { IfErr result IsWordsFault }
{
    match program(alloc)?.try_get_matches_from(words) {
        Ok(matches) => matched(alloc, matches),
        Err(error) => {
            let command = shown(alloc, &error);
            drop(error);
            command
        }
    }
}

/// Why there is no command where the words don't ask for the one that was made of them, or it can't be told.
fn unasked(alloc: Global, asked: Result<bool, AllocError>) -> RunFault
    ensures { IsWordsFault result }
{
    match asked {
        Ok(_) => misread(alloc),
        Err(_) => RunFault::Memory,
    }
}

/// The same, where the words themselves ask for it.
fn heard(alloc: Global, words: &[String]) -> Result<Command, RunFault>
    ensures asked { IfOk result (AsksFor (map string_bytes words.now)) }
    ensures causes { IfErr result IsWordsFault }
{
    let command = parsed(alloc, words)?;
    match asks_for(alloc, words, &command) {
        Ok(true) => Ok(command),
        asked => {
            drop(command);
            Err(unasked(alloc, asked))
        }
    }
}

/// Whether the words are none, or `list-plan --bundle`.
fn asks_first_list(words: &[String]) -> bool
    ensures { result ≡ asks_first_list (map string_bytes words.now) }
{
    match words {
        [] => true,
        [command, way] => command.as_str() == "list-plan" && way.as_str() == "--bundle",
        _ => false,
    }
}

/// The command that the words ask for. No words, and `list-plan --bundle`, ask for the plan of a bundle's first file,
/// as text. The refusal is `Words` with the text that says why, or `Memory`.
pub fn parse_words(alloc: Global, words: &[String]) -> Result<Command, RunFault>
    ensures { ReadAs (map string_bytes words.now) result }
{
    if asks_first_list(words) {
        return Ok(Command::ListPlan(Lists::Bundle(None), Format::Text));
    }
    heard(alloc, words)
}
