//! Plans in words.

use ice_state::{Lines, PlanFiles};

/// The plan of all three manifests. Equality deletes of the data file's own sequence number do not apply to it.
pub const PLAN: &str = "plan data mem://t/a.parquet pos mem://t/p.parquet eq mem://t/e.parquet";

/// What stands in a text behind a word and a path.
pub fn behind<'a>(text: &'a [u8], word: &[u8], path: &[u8]) -> Option<&'a [u8]> {
    text.strip_prefix(word)?.strip_prefix(path)
}

/// What stands in a text behind files, each with this word before it.
fn behind_files<'a>(text: &'a [u8], word: &[u8], files: &PlanFiles<'_>) -> Option<&'a [u8]> {
    let mut left = text;
    for i in 0..files.len() {
        left = behind(left, word, files.file(i).path())?;
    }
    Some(left)
}

/// What stands in a text behind a plan, by its files.
fn behind_plan<'a>(text: &'a [u8], lines: &Lines<'_>) -> Option<&'a [u8]> {
    let mut left = text.strip_prefix(b"plan")?;
    for i in 0..lines.len() {
        let line = lines.line(i);
        left = behind(left, b" data ", line.file().path())?;
        left = behind_files(left, b" pos ", &line.positions())?;
        left = behind_files(left, b" eq ", &line.equalities())?;
    }
    Some(left)
}

/// Whether a text is a plan, by its files.
pub fn is_plan(text: &str, lines: &Lines<'_>) -> bool {
    behind_plan(text.as_bytes(), lines) == Some(b"".as_slice())
}
