//! What is to be known of an answer: how its filter was read, and where it may not be what was meant.

ghost use Rattle.icescan_progress.specs.Hints.{AppendsPlain};

use crate::case::Case;
use contract_words::Text;
use ice_desk::Files;
use ice_filter::{Filter, bind, parse};
use ice_manifest_reading::Row;
use icescan_hint_texts::{Asked, Hint, add_split, add_unlikely, reading_of};
use icescan_print::Sink;
use icescan_progress::put_lines;
use icescan_words::{Command, Lists};
use std::alloc::{AllocError, Global};

/// When notes are written.
#[derive(Clone, Copy)]
enum When {
    Before,
    After,
}

/// Adds what is to be known of a filter that its columns take: before the answer how it is read, after it a number that
/// hardly stands for the time that is meant.
fn add_bound(
    hint: &mut Hint,
    alloc: Global,
    asked: &Asked<'_>,
    when: When,
) -> Result<(), AllocError> {
    if bind(alloc, asked.filter, asked.schema).err().is_some() {
        return Ok(());
    }
    match when {
        When::Before => {
            let reading = reading_of(alloc, asked)?;
            hint.note(alloc, format!(in alloc; "the filter is read as {reading}")?)
        }
        When::After => add_unlikely(hint, alloc, asked),
    }
}

/// The same, where the table's metadata can be read.
fn add_read<F: Files>(
    hint: &mut Hint,
    alloc: Global,
    case: &Case<'_, F>,
    filter: &Filter,
    when: When,
) -> Result<(), AllocError> {
    let Some(request) = case.request() else {
        return Ok(());
    };
    match case.metadata(alloc) {
        Some(metadata) => {
            let schema = metadata.schema_for(&request.target);
            let added = add_bound(hint, alloc, &Asked { filter, schema }, when);
            drop(metadata);
            added
        }
        None => Ok(()),
    }
}

/// Adds what is to be known of the filter of a plan.
fn add_filter<F: Files>(
    hint: &mut Hint,
    alloc: Global,
    case: &Case<'_, F>,
    when: When,
) -> Result<(), AllocError> {
    let Some(text) = case.filter() else {
        return Ok(());
    };
    let Ok(filter) = parse(alloc, text.as_str()) else {
        return Ok(());
    };
    let added = add_read(hint, alloc, case, &filter, when);
    drop(filter);
    added
}

/// Whether a row of a manifest list is that of a partitioned table.
fn has_partitions(row: &Row) -> bool {
    let summaries = row.partitions.as_ref();
    row.spec_id != 0 || summaries.is_some_and(|summaries| !summaries.as_slice().is_empty())
}

/// Adds that a list that was planned without metadata is that of a table with partitions.
fn add_partitions<F: Files>(
    hint: &mut Hint,
    alloc: Global,
    case: &Case<'_, F>,
    list: &str,
) -> Result<(), AllocError> {
    let Some(rows) = case.rows(alloc, list) else {
        return Ok(());
    };
    match rows.iter().find(|row| has_partitions(row)) {
        Some(row) => hint.note(
            alloc,
            format!(in alloc;
                "the table has partitions, as in its spec {}, and `list-plan` is right for tables without any: it may give data files too many delete files. Use `icescan plan` with the table's metadata",
                row.spec_id
            )?,
        ),
        None => Ok(()),
    }
}

/// The lines before an answer, and those after it.
fn notes<F: Files>(alloc: Global, case: &Case<'_, F>, when: When) -> Result<Hint, AllocError> {
    let mut hint = Hint::new(alloc);
    match (when, case.asked) {
        (When::Before, Command::Explain(..)) => add_filter(&mut hint, alloc, case, when)?,
        (When::Before, _) => {}
        (When::After, Command::ListPlan(Lists::Folder(_, list), _)) => {
            add_partitions(&mut hint, alloc, case, list.as_str())?
        }
        (When::After, _) => add_filter(&mut hint, alloc, case, when)?,
    }
    Ok(hint)
}

/// Writes how the filter of an explained plan is read, as far as it can be written: lines in which no control character
/// stands. Nothing is written of other commands.
pub fn put_reading<F: Files, S: Sink>(alloc: Global, case: &Case<'_, F>, errors: &mut S)
    ensures plain { AppendsPlain (S.taken errors.old) (S.taken errors.new) }
    ensures still { S.may_fail errors.new → S.may_fail errors.old }
{
    if let Ok(hint) = notes(alloc, case, When::Before) {
        put_lines(alloc, hint.lines(), errors);
    }
}

/// Writes where an answer may not be what was meant, as far as it can be written: lines in which no control character
/// stands.
pub fn put_notes<F: Files, S: Sink>(alloc: Global, case: &Case<'_, F>, errors: &mut S)
    ensures { AppendsPlain (S.taken errors.old) (S.taken errors.new) }
{
    if let Ok(hint) = notes(alloc, case, When::After) {
        put_lines(alloc, hint.lines(), errors);
    }
}

/// The lines that say which predicates are not asked, one for each.
fn unasked_lines(alloc: Global, unasked: &[Text]) -> Result<Vec<Text>, AllocError> {
    let mut lines = Vec::new(alloc);
    for predicate in unasked {
        let predicate = predicate.as_str();
        lines.push(Text::from_string(format!(in alloc; "icescan: not asked: {predicate}")?))?;
    }
    Ok(lines)
}

/// Writes which predicates of a relaxed filter are not asked, as far as it can be written: a line for each, in which no
/// control character stands.
pub fn put_unasked<S: Sink>(alloc: Global, unasked: &[Text], errors: &mut S)
    ensures { AppendsPlain (S.taken errors.old) (S.taken errors.new) }
{
    if let Ok(lines) = unasked_lines(alloc, unasked) {
        put_lines(alloc, &lines, errors);
    }
}

/// Writes what is to be said of words that are not understood, as far as it can be written: lines in which no control
/// character stands.
pub fn put_words_hint<S: Sink>(alloc: Global, words: &[String], errors: &mut S)
    ensures { AppendsPlain (S.taken errors.old) (S.taken errors.new) }
{
    let mut hint = Hint::new(alloc);
    if add_split(&mut hint, alloc, words).is_ok() {
        put_lines(alloc, hint.lines(), errors);
    }
}
