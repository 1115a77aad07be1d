//! What became of a plan's lines, and of the delete files of a line.

ghost use Rattle.std.specs.Prelude.{◌≡◌, ◌++◌, ◌<◌, ◌^◌, IfOk, OnOk, drop, map};
ghost use Rattle.std.specs.Cmp.Lexicographic.{slice_cmp};
ghost use Rattle.std.specs.Ordering.{nat_cmp};
ghost use Rattle.icescan_changes.specs.Changes.{altered, file_changes, file_path, files_told, line_changes, line_path};
ghost use Rattle.icescan_changes.specs.Changes.{lines_told};
ghost use Rattle.icescan_changes.specs.Walks.{first_told, past_earlier, past_later};
ghost use Rattle.icescan_changes.specs.declared.changes.Change.{Change};
ghost use Rattle.icescan_changes.specs.declared.changes.FileChange.{FileChange};

use crate::same::is_same_file;
use contract_words::Items;
use ice_state::{Line, Lines, PlanFile, PlanFiles};
use std::alloc::{AllocError, Global};
use std::cmp::Ordering;

/// What became of a delete file of a data file.
#[derive(Debug, Drop)]
pub enum FileChange<'a> {
    /// It no longer applies.
    Removed(PlanFile<'a>),
    /// It applies now.
    Added(PlanFile<'a>),
}

/// What became of a data file.
#[derive(Debug, Drop)]
pub enum Change<'a> {
    /// Only the earlier plan has it.
    Removed(Line<'a>),
    /// Only the later plan has it.
    Added(Line<'a>),
    /// Both plans have it, as the line of the later; what became of its position delete files, and of its equality
    /// delete files.
    Altered(Line<'a>, Items<FileChange<'a>>, Items<FileChange<'a>>),
}

/// The kinds of changes of a data file.
#[derive(Clone, Copy, Debug)]
pub enum Kind {
    Removed,
    Added,
    Altered,
}

/// The next place in the earlier list, where the first things of both lists have paths in this order.
fn past_earlier(order: Ordering, i: usize) -> usize
    requires { i < 2 ^ 63 }
    ensures { result ≡ past_earlier order i }
{
    match order {
        Ordering::Less | Ordering::Equal => i + 1,
        Ordering::Greater => i,
    }
}

/// The next place in the later list.
fn past_later(order: Ordering, j: usize) -> usize
    requires { j < 2 ^ 63 }
    ensures { result ≡ past_later order j }
{
    match order {
        Ordering::Less => j,
        Ordering::Equal | Ordering::Greater => j + 1,
    }
}

// ---- delete files

/// Puts last what is told of two delete files of one path.
fn push_files_told<'a>(
    changes: &mut Vec<FileChange<'a>>,
    before: PlanFile<'a>,
    after: PlanFile<'a>,
) -> Result<(), AllocError>
    ensures { OnOk result (changes.new.items ≡ changes.old.items ++ files_told before.entry after.entry) }
{
    if !is_same_file(&before, &after) {
        changes.push(FileChange::Removed(before))?;
        changes.push(FileChange::Added(after))?;
    }
    Ok(())
}

/// Puts last what is told of the first delete files of two lists, and says in which order their paths are.
fn push_first_files<'a>(
    changes: &mut Vec<FileChange<'a>>,
    before: PlanFile<'a>,
    after: PlanFile<'a>,
) -> Result<Ordering, AllocError>
    ensures order { IfOk result (λ o. o ≡ slice_cmp nat_cmp (file_path before.entry) (file_path after.entry)) }
    ensures told { OnOk result (changes.new.items ≡ changes.old.items
        ++ first_told file_path FileChange.Removed FileChange.Added files_told before.entry after.entry) }
{
    let order = before.path().cmp(after.path());
    match order {
        Ordering::Less => changes.push(FileChange::Removed(before))?,
        Ordering::Equal => push_files_told(changes, before, after)?,
        Ordering::Greater => changes.push(FileChange::Added(after))?,
    }
    Ok(order)
}

/// Puts last the delete files from a place on, as such that no longer apply.
fn push_removed_files<'a>(
    changes: &mut Vec<FileChange<'a>>,
    files: &PlanFiles<'a>,
    start: usize,
) -> Result<(), AllocError>
    ensures { OnOk result (changes.new.items ≡ changes.old.items ++ map FileChange.Removed (drop start files.now)) }
{
    for i in start..files.len() {
        changes.push(FileChange::Removed(files.file(i)))?;
    }
    Ok(())
}

/// Puts last the delete files from a place on, as such that apply now.
fn push_added_files<'a>(
    changes: &mut Vec<FileChange<'a>>,
    files: &PlanFiles<'a>,
    start: usize,
) -> Result<(), AllocError>
    ensures { OnOk result (changes.new.items ≡ changes.old.items ++ map FileChange.Added (drop start files.now)) }
{
    for i in start..files.len() {
        changes.push(FileChange::Added(files.file(i)))?;
    }
    Ok(())
}

/// What became of delete files.
pub fn file_changes<'a>(
    alloc: Global,
    earlier: &PlanFiles<'a>,
    later: &PlanFiles<'a>,
) -> Result<Items<FileChange<'a>>, AllocError>
    ensures { IfOk result (λ changes. changes ≡ file_changes earlier.now later.now) }
{
    let mut changes = Vec::new(alloc);
    let mut i = 0;
    let mut j = 0;
    'files: while i < earlier.len() && j < later.len() {
        let order = push_first_files(&mut changes, earlier.file(i), later.file(j))?;
        i = past_earlier(order, i);
        j = past_later(order, j);
    }
    push_removed_files(&mut changes, earlier, i)?;
    push_added_files(&mut changes, later, j)?;
    Ok(Items::from_vec(changes))
}

// ---- lines

/// Puts a data file last by what became of its delete files, if anything did.
fn push_altered<'a>(
    changes: &mut Vec<Change<'a>>,
    line: Line<'a>,
    positions: Items<FileChange<'a>>,
    equalities: Items<FileChange<'a>>,
) -> Result<(), AllocError>
    ensures { OnOk result (changes.new.items ≡ changes.old.items
        ++ altered line.entry positions.entry equalities.entry) }
{
    if !positions.as_slice().is_empty() || !equalities.as_slice().is_empty() {
        changes.push(Change::Altered(line, positions, equalities))?;
    }
    Ok(())
}

/// Puts last what is told of two lines of one path.
fn push_lines_told<'a>(
    changes: &mut Vec<Change<'a>>,
    alloc: Global,
    before: Line<'a>,
    after: Line<'a>,
) -> Result<(), AllocError>
    ensures { OnOk result (changes.new.items ≡ changes.old.items ++ lines_told before.entry after.entry) }
{
    if !is_same_file(&before.file(), &after.file()) {
        changes.push(Change::Removed(before))?;
        changes.push(Change::Added(after))?;
        return Ok(());
    }
    let positions = file_changes(alloc, &before.positions(), &after.positions())?;
    let equalities = file_changes(alloc, &before.equalities(), &after.equalities())?;
    push_altered(changes, after, positions, equalities)
}

/// Puts last what is told of the first lines of two plans, and says in which order their paths are.
fn push_first_lines<'a>(
    changes: &mut Vec<Change<'a>>,
    alloc: Global,
    before: Line<'a>,
    after: Line<'a>,
) -> Result<Ordering, AllocError>
    ensures order { IfOk result (λ o. o ≡ slice_cmp nat_cmp (line_path before.entry) (line_path after.entry)) }
    ensures told { OnOk result (changes.new.items ≡ changes.old.items
        ++ first_told line_path Change.Removed Change.Added lines_told before.entry after.entry) }
{
    let order = before.file().path().cmp(after.file().path());
    match order {
        Ordering::Less => changes.push(Change::Removed(before))?,
        Ordering::Equal => push_lines_told(changes, alloc, before, after)?,
        Ordering::Greater => changes.push(Change::Added(after))?,
    }
    Ok(order)
}

/// Puts last the lines from a place on, as such that only the earlier plan has.
fn push_removed_lines<'a>(
    changes: &mut Vec<Change<'a>>,
    lines: &Lines<'a>,
    start: usize,
) -> Result<(), AllocError>
    ensures { OnOk result (changes.new.items ≡ changes.old.items ++ map Change.Removed (drop start lines.now)) }
{
    for i in start..lines.len() {
        changes.push(Change::Removed(lines.line(i)))?;
    }
    Ok(())
}

/// Puts last the lines from a place on, as such that only the later plan has.
fn push_added_lines<'a>(
    changes: &mut Vec<Change<'a>>,
    lines: &Lines<'a>,
    start: usize,
) -> Result<(), AllocError>
    ensures { OnOk result (changes.new.items ≡ changes.old.items ++ map Change.Added (drop start lines.now)) }
{
    for i in start..lines.len() {
        changes.push(Change::Added(lines.line(i)))?;
    }
    Ok(())
}

/// What became of the data files of a plan, in the order of their paths.
pub fn line_changes<'a>(
    alloc: Global,
    earlier: &Lines<'a>,
    later: &Lines<'a>,
) -> Result<Vec<Change<'a>>, AllocError>
    ensures { IfOk result (λ changes. changes.items ≡ line_changes earlier.now later.now) }
{
    let mut changes = Vec::new(alloc);
    let mut i = 0;
    let mut j = 0;
    'lines: while i < earlier.len() && j < later.len() {
        let order = push_first_lines(&mut changes, alloc, earlier.line(i), later.line(j))?;
        i = past_earlier(order, i);
        j = past_later(order, j);
    }
    push_removed_lines(&mut changes, earlier, i)?;
    push_added_lines(&mut changes, later, j)?;
    Ok(changes)
}
