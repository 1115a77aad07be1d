//! Words that are not understood.

use crate::hint::Hint;
use std::alloc::{AllocError, Global};

/// What may follow a column in a filter.
const SIGNS: [&str; 12] = [
    "=", "==", "!=", "<>", "<", "<=", ">", ">=", "in", "not", "is", "starts",
];

/// The word after the first word of a filter, which stands after `--filter`.
fn after_filter(words: &[String]) -> Option<&str> {
    let mut rest = words
        .iter()
        .skip_while(|word| !word.as_str().starts_with("--filter"));
    let option = rest.next()?;
    if option.as_str() == "--filter" {
        rest.next()?;
    }
    Some(rest.next()?.as_str())
}

/// Whether a filter was split into several words.
fn is_split(words: &[String]) -> bool {
    match after_filter(words) {
        Some(word) => SIGNS.iter().any(|sign| word.eq_ignore_ascii_case(sign)),
        None => false,
    }
}

/// The commands that read a table's metadata.
const OF_TABLES: [&str; 10] = [
    "plan",
    "append",
    "row-delta",
    "show",
    "columns",
    "audit",
    "explain",
    "changes",
    "reachable",
    "orphans",
];

/// Whether a command of a table is not told where the files are.
fn lacks_files(words: &[String]) -> bool {
    let Some(command) = words.first() else {
        return false;
    };
    let has_files = words.iter().any(|word| word.as_str() == "--bundle"
        || word.as_str().starts_with("--dir"));
    !has_files && OF_TABLES.iter().any(|name| command.as_str() == *name)
}

/// Adds what is to be said of words that are not understood.
pub fn add_split(hint: &mut Hint, alloc: Global, words: &[String]) -> Result<(), AllocError> {
    if is_split(words) {
        hint.tell(
            alloc,
            "a filter is one word: put all of it in quotes, as `--filter \"id = 42\"`",
        )
    } else if lacks_files(words) {
        hint.tell(
            alloc,
            "`icescan locate FOLDER` prints the words that name a table in a folder: `--dir`, `--prefix` and METADATA",
        )
    } else {
        Ok(())
    }
}
