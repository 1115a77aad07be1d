//! The text of a filter with a mark below the place at fault.

use crate::hint::Hint;
use std::alloc::{AllocError, Global};

/// The most characters of a filter that are shown.
const WIDTH: usize = 72;

/// The character that is shown in place of one that would move the mark.
fn steady(c: char) -> char {
    if c.is_control() { ' ' } else { c }
}

/// How many characters of a text begin before a byte.
fn column_of(text: &str, offset: usize) -> usize {
    text.char_indices().filter(|(at, _)| *at < offset).count()
}

/// So many characters of a text, from one on.
fn window(alloc: Global, text: &str, first: usize) -> Result<String, AllocError> {
    let mut shown = String::new(alloc);
    for c in text.chars().skip(first).take(WIDTH) {
        shown.push(steady(c))?;
    }
    Ok(shown)
}

/// A mark behind so many spaces.
fn mark(alloc: Global, column: usize) -> Result<String, AllocError> {
    let mut shown = String::new(alloc);
    for _ in 0..column {
        shown.push(' ')?;
    }
    shown.push('^')?;
    Ok(shown)
}

/// Adds the text of a filter and a mark below the byte at an offset. Of a long text what is near it is shown.
pub fn add_caret(
    hint: &mut Hint,
    alloc: Global,
    text: &str,
    offset: usize,
) -> Result<(), AllocError> {
    let column = column_of(text, offset);
    let first = column.saturating_sub(WIDTH - 10);
    let shown = window(alloc, text, first)?;
    let mark = mark(alloc, column - first)?;
    hint.line(format!(in alloc; "    {shown}")?)?;
    hint.line(format!(in alloc; "    {mark}")?)
}
