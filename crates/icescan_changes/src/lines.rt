//! The text of what became of a plan.

ghost use Rattle.std.specs.Prelude.{◌≡◌, ◌∷◌, [], ◌++◌, IfOk, OnOk, codes};
ghost use Rattle.std.specs.List.{count_by, flat_map};
ghost use Rattle.std.specs.Fmt.{signed_decimal};
ghost use Rattle.icescan_print.specs.PlanTexts.{equality_text, file_text, ids_text, line_text, numbered_path};
ghost use Rattle.icescan_print.specs.PlanTexts.{position_text, size_text};
ghost use Rattle.icescan_changes.specs.Texts.{change_text, equality_change, equality_line, is_kind};
ghost use Rattle.icescan_changes.specs.Texts.{position_change, position_line, text_of, totals_text};

use crate::changes::{Change, FileChange, Kind};
use ice_state::{Line, PlanFile, PlanFiles};
use icescan_forms::{push_int, push_long, push_number, push_path};
use std::alloc::{AllocError, Global};

// ---- pieces

/// Puts a file's path and sequence number last.
fn push_numbered_path(
    text: &mut Vec<u8>,
    name: &[u8],
    file: &PlanFile<'_>,
) -> Result<(), AllocError>
    ensures { OnOk result (text.new.items ≡ text.old.items ++ numbered_path name.now file.now) }
{
    push_path(text, name, file.path())?;
    push_number(text, b" seq ", file.sequence_number().get())
}

fn push_more_ids(text: &mut Vec<u8>, ids: &[i32]) -> Result<(), AllocError>
    ensures { OnOk result (text.new.items ≡ text.old.items ++ flat_map (λ i. 44 ∷ signed_decimal i) ids.now) }
{
    'ids: for id in ids {
        push_int(text, b",", *id)?;
    }
    Ok(())
}

/// Puts ids last, with commas between them, or `-`.
pub(crate) fn push_ids(text: &mut Vec<u8>, ids: &[i32]) -> Result<(), AllocError>
    ensures { OnOk result (text.new.items ≡ text.old.items ++ ids_text ids.now) }
{
    match ids {
        [] => text.extend_from_slice(b"-"),
        [first, rest @ ..] => {
            push_int(text, b"", *first)?;
            push_more_ids(text, rest)
        }
    }
}

// ---- lines

/// Puts a file's rows and bytes last.
fn push_size(text: &mut Vec<u8>, file: &PlanFile<'_>) -> Result<(), AllocError>
    ensures { OnOk result (text.new.items ≡ text.old.items ++ size_text file.now) }
{
    push_long(text, b" rows ", file.record_count())?;
    push_long(text, b" size ", file.file_size())
}

/// Puts the line of a data file last.
#[tactic(auto, unfolding(icescan_print::specs::PlanTexts::file_text))]
fn push_file(text: &mut Vec<u8>, file: &PlanFile<'_>) -> Result<(), AllocError>
    ensures { OnOk result (text.new.items ≡ text.old.items ++ file_text file.now) }
{
    push_numbered_path(text, b"data ", file)?;
    push_int(text, b" spec ", file.spec_id())?;
    push_size(text, file)?;
    text.extend_from_slice(b"\n")
}

/// Puts the line of a position delete file last, behind this name.
fn push_position(text: &mut Vec<u8>, name: &[u8], file: &PlanFile<'_>) -> Result<(), AllocError>
    ensures { OnOk result (text.new.items ≡ text.old.items ++ position_line name.now file.now) }
{
    push_numbered_path(text, name, file)?;
    text.extend_from_slice(b"\n")
}

/// Puts the line of an equality delete file last, behind this name.
fn push_equality(text: &mut Vec<u8>, name: &[u8], file: &PlanFile<'_>) -> Result<(), AllocError>
    ensures { OnOk result (text.new.items ≡ text.old.items ++ equality_line name.now file.now) }
{
    push_numbered_path(text, name, file)?;
    text.extend_from_slice(b" ids ")?;
    push_ids(text, file.equality_ids())?;
    text.extend_from_slice(b"\n")
}

/// Puts the lines of position delete files last, as a plan has them.
#[tactic(auto, unfolding(icescan_print::specs::PlanTexts::position_text))]
fn push_positions(text: &mut Vec<u8>, files: &PlanFiles<'_>) -> Result<(), AllocError>
    ensures { OnOk result (text.new.items ≡ text.old.items ++ flat_map position_text files.now) }
{
    for i in 0..files.len() {
        push_position(text, b"  pos ", &files.file(i))?;
    }
    Ok(())
}

/// Puts the lines of equality delete files last, as a plan has them.
#[tactic(auto, unfolding(icescan_print::specs::PlanTexts::equality_text))]
fn push_equalities(text: &mut Vec<u8>, files: &PlanFiles<'_>) -> Result<(), AllocError>
    ensures { OnOk result (text.new.items ≡ text.old.items ++ flat_map equality_text files.now) }
{
    for i in 0..files.len() {
        push_equality(text, b"  eq ", &files.file(i))?;
    }
    Ok(())
}

/// Puts a data file last, and below it the delete files that apply to it.
#[tactic(auto, unfolding(icescan_print::specs::PlanTexts::line_text))]
fn push_line(text: &mut Vec<u8>, line: &Line<'_>) -> Result<(), AllocError>
    ensures { OnOk result (text.new.items ≡ text.old.items ++ line_text line.now) }
{
    push_file(text, &line.file())?;
    push_positions(text, &line.positions())?;
    push_equalities(text, &line.equalities())
}

// ---- changes

/// Puts last what became of a position delete file.
fn push_position_change(text: &mut Vec<u8>, change: &FileChange<'_>) -> Result<(), AllocError>
    ensures { OnOk result (text.new.items ≡ text.old.items ++ position_change change.now) }
{
    match change {
        FileChange::Removed(file) => push_position(text, b"  - pos ", file),
        FileChange::Added(file) => push_position(text, b"  + pos ", file),
    }
}

/// Puts last what became of an equality delete file.
fn push_equality_change(text: &mut Vec<u8>, change: &FileChange<'_>) -> Result<(), AllocError>
    ensures { OnOk result (text.new.items ≡ text.old.items ++ equality_change change.now) }
{
    match change {
        FileChange::Removed(file) => push_equality(text, b"  - eq ", file),
        FileChange::Added(file) => push_equality(text, b"  + eq ", file),
    }
}

/// Puts last what became of position delete files.
fn push_position_changes(text: &mut Vec<u8>, changes: &[FileChange<'_>]) -> Result<(), AllocError>
    ensures { OnOk result (text.new.items ≡ text.old.items ++ flat_map position_change changes.now) }
{
    'changes: for change in changes {
        push_position_change(text, change)?;
    }
    Ok(())
}

/// Puts last what became of equality delete files.
fn push_equality_changes(text: &mut Vec<u8>, changes: &[FileChange<'_>]) -> Result<(), AllocError>
    ensures { OnOk result (text.new.items ≡ text.old.items ++ flat_map equality_change changes.now) }
{
    'changes: for change in changes {
        push_equality_change(text, change)?;
    }
    Ok(())
}

/// Puts last a data file to which other delete files apply.
fn push_altered(
    text: &mut Vec<u8>,
    line: &Line<'_>,
    positions: &[FileChange<'_>],
    equalities: &[FileChange<'_>],
) -> Result<(), AllocError>
    ensures { OnOk result (text.new.items ≡ text.old.items ++ (codes "~ " ++ (file_text line.now.file
        ++ (flat_map position_change positions.now ++ flat_map equality_change equalities.now)))) }
{
    text.extend_from_slice(b"~ ")?;
    push_file(text, &line.file())?;
    push_position_changes(text, positions)?;
    push_equality_changes(text, equalities)
}

/// Puts last what became of a data file.
fn push_change(text: &mut Vec<u8>, change: &Change<'_>) -> Result<(), AllocError>
    ensures { OnOk result (text.new.items ≡ text.old.items ++ change_text change.now) }
{
    match change {
        Change::Removed(line) => {
            text.extend_from_slice(b"- ")?;
            push_file(text, &line.file())
        }
        Change::Added(line) => {
            text.extend_from_slice(b"+ ")?;
            push_line(text, line)
        }
        Change::Altered(line, positions, equalities) => {
            push_altered(text, line, positions.as_slice(), equalities.as_slice())
        }
    }
}

/// Whether a change is of this kind.
fn is_kind(kind: Kind, change: &Change<'_>) -> bool
    ensures { result ≡ is_kind kind change.now }
{
    match (kind, change) {
        (Kind::Removed, Change::Removed(_)) => true,
        (Kind::Added, Change::Added(_)) => true,
        (Kind::Altered, Change::Altered(_, _, _)) => true,
        _ => false,
    }
}

/// How many changes are of this kind.
pub(crate) fn count_kind(changes: &[Change<'_>], kind: Kind) -> usize
    ensures { result ≡ count_by (is_kind kind) changes.now }
{
    let mut count = 0;
    'changes: for change in changes {
        if is_kind(kind, change) {
            count += 1;
        }
    }
    count
}

/// Puts last how many data files were added, removed and altered.
#[tactic(auto, unfolding(crate::specs::Texts::totals_text))]
fn push_totals(text: &mut Vec<u8>, changes: &[Change<'_>]) -> Result<(), AllocError>
    ensures { OnOk result (text.new.items ≡ text.old.items ++ totals_text changes.now) }
{
    push_number(text, b"added ", count_kind(changes, Kind::Added))?;
    push_number(text, b" removed ", count_kind(changes, Kind::Removed))?;
    push_number(text, b" altered ", count_kind(changes, Kind::Altered))?;
    text.extend_from_slice(b"\n")
}

/// Puts the lines of changes last.
fn push_lines(text: &mut Vec<u8>, changes: &[Change<'_>]) -> Result<(), AllocError>
    ensures { OnOk result (text.new.items ≡ text.old.items ++ flat_map change_text changes.now) }
{
    'changes: for change in changes {
        push_change(text, change)?;
    }
    Ok(())
}

/// The text of changes, and then their numbers.
#[tactic(auto, unfolding(crate::specs::Texts::text_of))]
pub(crate) fn text_of(alloc: Global, changes: &[Change<'_>]) -> Result<Vec<u8>, AllocError>
    ensures { IfOk result (λ text. text.items ≡ text_of changes.now) }
{
    let mut text = Vec::new(alloc);
    push_lines(&mut text, changes)?;
    push_totals(&mut text, changes)?;
    Ok(text)
}
