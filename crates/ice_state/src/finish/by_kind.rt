//! The files of kept entries, by what they hold.

ghost use Rattle.std.specs.Prelude.{◌≡◌, ◌++◌, ◌∷◌, [], IfOk, IfSome, IsTrue, length, List, OnOk, option_map};
ghost use Rattle.std.specs.List.{range_with_len};
ghost use Rattle.std.specs.List.Sorted.{IsPermutation};
ghost use Rattle.ice_state_entries.specs.Kept.{entries_at as entries_in};
ghost use Rattle.ice_manifest_reading.specs.declared.entry.Entry.{Entry};
ghost use Rattle.ice_state.specs.ByKind.{AreFilesOf, HasFilesOf};
ghost use Rattle.ice_state.specs.KeptDeletes.{IsState};
ghost use Rattle.ice_state.specs.Orders.{runs_at};
ghost use Rattle.ice_state.specs.Outcomes.{by_path, entries_in as entries_given};
ghost use Rattle.ice_state.specs.Segments.{AreKept, entries_at, entry_at, IsKept, segment_at, Segmented};
ghost use Rattle.ice_state.specs.Slots.{contents, given, HasNumbers, HaveNumbers, IsIn};

use crate::kept::deletes::KeptDeletes;
use crate::kept::ordered::Ordered;
use crate::kept::segments::{FileNumber, Segments};
use crate::kept::taken::Taken;
use ice_value::FileContent;
use std::alloc::{AllocError, Global};

/// Data files and delete files.
#[derive(Debug, Drop)]
pub struct FilesByKind {
    pub data_files: Vec<FileNumber>,
    pub delete_files: Vec<FileNumber>,
}

impl FilesByKind {
    /// None yet, with room for so many of each kind.
    fn with_capacity(
        alloc: Global,
        data_files: usize,
        delete_files: usize,
    ) -> Result<FilesByKind, AllocError>
        ensures { (kept : Segmented) → IfOk result (HasFilesOf kept []) }
    {
        Ok(FilesByKind {
            data_files: Vec::with_capacity(alloc, data_files)?,
            delete_files: Vec::with_capacity(alloc, delete_files)?,
        })
    }

    /// Puts a file last.
    fn push(&mut self, entries: &Segments, file: FileNumber) -> Result<(), AllocError>
        requires { IsKept entries.now file }
        ensures { (xs : List Entry) → HasFilesOf entries.now xs self.old →
            OnOk result (HasFilesOf entries.now (xs ++ entry_at entries.now file ∷ []) self.new) }
    {
        if entries.content(file) != FileContent::Data {
            self.delete_files.push(file)?;
        } else {
            self.data_files.push(file)?;
        }
        Ok(())
    }
}

/// Puts files last, as they stand.
fn push_files(
    found: &mut FilesByKind,
    entries: &Segments,
    files: &[FileNumber],
) -> Result<(), AllocError>
    requires { AreKept entries.now files.now }
    ensures { (xs : List Entry) → HasFilesOf entries.now xs found.old →
        OnOk result (HasFilesOf entries.now (xs ++ entries_at entries.now files.now) found.new) }
{
    'files: for file in files {
        found.push(entries, *file)?;
    }
    Ok(())
}

/// The files of kept entries, by path.
fn files_in_order(
    alloc: Global,
    entries: &Segments,
    ordered: &Ordered,
) -> Result<Vec<FileNumber>, AllocError>
    requires { IsIn entries.now ordered.now }
    ensures kept { IfOk result (λ files. AreKept entries.now files.items) }
    ensures all { IfOk result (λ files. entries_at entries.now files.items
        ≡ by_path (entries_in (segment_at entries.now ordered.now.segment) ordered.now.numbers)) }
{
    let numbers = ordered.numbers.as_slice();
    let mut files = Vec::with_capacity(alloc, numbers.len())?;
    'order: for place in ordered.order.as_slice() {
        files.push(FileNumber {
            segment: ordered.segment,
            number: numbers[*place as usize],
        })?;
    }
    Ok(files)
}

/// Puts the files of what a row gave last, by path.
fn push_row(
    alloc: Global,
    files: &mut FilesByKind,
    entries: &Segments,
    slot: &Option<Taken>,
) -> Result<(), AllocError>
    requires { IfSome slot.now (HasNumbers entries.now) }
    ensures { (xs : List Entry) → HasFilesOf entries.now xs files.old →
        OnOk result (HasFilesOf entries.now
        (xs ++ by_path (entries_given (option_map (given entries.now) slot.now))) files.new) }
{
    match slot {
        Some(Taken::Good(ordered)) => {
            let row = files_in_order(alloc, entries, ordered)?;
            push_files(files, entries, &row)
        }
        _ => Ok(()),
    }
}

/// The same, of files that are not asked what they hold.
fn push_whole_row(
    alloc: Global,
    files: &mut Vec<FileNumber>,
    entries: &Segments,
    slot: &Option<Taken>,
) -> Result<(), AllocError>
    requires { IfSome slot.now (HasNumbers entries.now) }
    ensures { (xs : List Entry) → AreFilesOf entries.now xs files.old.items →
        OnOk result (AreFilesOf entries.now
        (xs ++ by_path (entries_given (option_map (given entries.now) slot.now))) files.new.items) }
{
    match slot {
        Some(Taken::Good(ordered)) => {
            let mut row = files_in_order(alloc, entries, ordered)?;
            files.append(&mut row)
        }
        _ => Ok(()),
    }
}

/// How many entries are kept of all rows.
fn count(slots: &[Option<Taken>]) -> usize {
    let mut count: usize = 0;
    for slot in slots {
        if let Some(Taken::Good(ordered)) = slot {
            count = count.saturating_add(ordered.order.as_slice().len());
        }
    }
    count
}

/// The files of all kept entries: row by row, those of each row by path.
fn files_of_rows(
    alloc: Global,
    entries: &Segments,
    slots: &[Option<Taken>],
    rows: &[u32],
) -> Result<Vec<FileNumber>, AllocError>
    requires numbers { HaveNumbers entries.now slots.now }
    requires rows { IsPermutation (range_with_len 0 (length slots.now)) rows.now }
    ensures { IfOk result (λ files. AreFilesOf entries.now (runs_at (contents entries.now slots.now) rows.now) files.items) }
{
    let mut files = Vec::with_capacity(alloc, count(slots))?;
    'rows: for row in rows {
        push_whole_row(alloc, &mut files, entries, &slots[*row as usize])?;
    }
    Ok(files)
}

/// The same by what they hold, of which about so many hold deletes.
fn kinds_of_rows(
    alloc: Global,
    entries: &Segments,
    slots: &[Option<Taken>],
    rows: &[u32],
    deletes: usize,
) -> Result<FilesByKind, AllocError>
    requires numbers { HaveNumbers entries.now slots.now }
    requires rows { IsPermutation (range_with_len 0 (length slots.now)) rows.now }
    ensures { IfOk result (HasFilesOf entries.now (runs_at (contents entries.now slots.now) rows.now)) }
{
    let data_files = count(slots).saturating_sub(deletes);
    let mut files = FilesByKind::with_capacity(alloc, data_files, deletes)?;
    'rows: for row in rows {
        push_row(alloc, &mut files, entries, &slots[*row as usize])?;
    }
    Ok(files)
}

/// The files of all kept entries by what they hold: row by row, those of each row by path. Where there are no delete
/// files, all hold data.
pub fn gathered(
    alloc: Global,
    entries: &Segments,
    slots: &[Option<Taken>],
    deletes: &Option<KeptDeletes>,
    rows: &[u32],
) -> Result<FilesByKind, AllocError>
    requires state { IsState entries.now slots.now deletes.now }
    requires rows { IsPermutation (range_with_len 0 (length slots.now)) rows.now }
    ensures { IfOk result (HasFilesOf entries.now (runs_at (contents entries.now slots.now) rows.now)) }
{
    match deletes {
        Some(deletes) if deletes.is_empty() => Ok(FilesByKind {
            data_files: files_of_rows(alloc, entries, slots, rows)?,
            delete_files: Vec::new(alloc),
        }),
        Some(deletes) => kinds_of_rows(alloc, entries, slots, rows, deletes.count()),
        None => kinds_of_rows(alloc, entries, slots, rows, 0),
    }
}
