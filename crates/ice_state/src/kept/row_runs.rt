//! Whether the files of rows rise, one row behind the other.

ghost use Rattle.std.specs.Prelude.{◌≡◌, ◌<◌, [], false, filter, IfOk, IfSome, IsTrue, length, option_map};
ghost use Rattle.ice_value.specs.declared.file_content.FileContent.TheVariants.{Data};
ghost use Rattle.ice_state_entries.specs.Kept.{AreKept as AreKeptIn, entries_at as entries_in};
ghost use Rattle.ice_state.specs.Orders.{runs_at};
ghost use Rattle.ice_state.specs.Outcomes.{by_path, entries_in as entries_given, twice};
ghost use Rattle.ice_state.specs.Apart.{path_at};
ghost use Rattle.ice_state.specs.Lines.{AreWithin};
ghost use Rattle.ice_state.specs.Pruning.{holds};
ghost use Rattle.ice_state.specs.Rising.{HaveRisingPaths, IsRunOf};
ghost use Rattle.ice_state.specs.Segments.{segment_at};
ghost use Rattle.ice_state.specs.Slots.{contents, given, HasNumbers, HaveNumbers, IsIn};

use crate::finish::by_kind::FilesByKind;
use crate::kept::ordered::Ordered;
use crate::kept::segments::Segments;
use crate::kept::taken::Taken;
use ice_state_entries::{Entries, EntryNumber};
use ice_value::FileContent;
use std::alloc::{AllocError, Global};

/// The first and the last path of what a row gave, and whether the paths from one to the other rise.
#[derive(Clone, Copy, Debug)]
pub(crate) struct Run<'a> {
    pub(crate) first: &'a [u8],
    pub(crate) last: &'a [u8],
    pub(crate) rise: bool,
}

/// The path at a place in the order of what a manifest gave.
fn path_in<'a>(entries: &'a Segments, ordered: &Ordered, place: usize) -> &'a [u8]
    requires ordered { IsIn entries.now ordered.now }
    requires place { place < length ordered.now.order }
    ensures { result.now ≡ path_at
        (by_path (entries_in (segment_at entries.now ordered.now.segment) ordered.now.numbers)) place }
{
    let number = ordered.numbers.as_slice()[ordered.order.as_slice()[place] as usize];
    entries.segment(ordered.segment).path(number)
}

/// The run of a row; none where it gave no files.
fn run_of<'a>(entries: &'a Segments, slot: &Option<Taken>) -> Option<Run<'a>>
    requires { IfSome slot.now (HasNumbers entries.now) }
    ensures { IsRunOf (by_path (entries_given (option_map (given entries.now) slot.now))) result }
{
    let Some(Taken::Good(ordered)) = slot else {
        return None;
    };
    let count = ordered.order.as_slice().len();
    if count == 0 {
        return None;
    }
    Some(Run {
        first: path_in(entries, ordered, 0),
        last: path_in(entries, ordered, count - 1),
        rise: ordered.rise,
    })
}

/// Whether the files of rows rise by path, one row behind the other: then they stand in order, and no path twice.
pub(crate) fn rows_rise(entries: &Segments, slots: &[Option<Taken>], rows: &[u32]) -> bool
    requires numbers { HaveNumbers entries.now slots.now }
    requires rows { AreWithin (length slots.now) rows.now }
    ensures sorted { IsTrue result → by_path (runs_at (contents entries.now slots.now) rows.now)
        ≡ runs_at (contents entries.now slots.now) rows.now }
    ensures once { IsTrue result → twice (runs_at (contents entries.now slots.now) rows.now) ≡ [] }
{
    // No path stands before an empty one, so that a first row which begins with one is left to be sorted.
    let mut before: &[u8] = &[];
    'rows: for row in rows {
        if let Some(run) = run_of(entries, &slots[*row as usize]) {
            if !run.rise || !before.cmp(run.first).is_lt() {
                return false;
            }
            before = run.last;
        }
    }
    true
}

/// Whether one of some entries holds data.
fn hold_data(entries: &Entries, numbers: &[EntryNumber]) -> bool
    requires { AreKeptIn entries.now numbers.now }
    ensures { result ≡ false → filter (holds Data) (entries_in entries.now numbers.now) ≡ [] }
{
    'numbers: for number in numbers {
        if entries.content(*number) == FileContent::Data {
            return true;
        }
    }
    false
}

/// Whether a row gave data files.
fn has_data(entries: &Segments, slot: &Option<Taken>) -> bool
    requires { IfSome slot.now (HasNumbers entries.now) }
    ensures { result ≡ false → filter (holds Data) (by_path
        (entries_given (option_map (given entries.now) slot.now))) ≡ [] }
{
    match slot {
        Some(Taken::Good(ordered)) => {
            let numbers = ordered.numbers.as_slice();
            hold_data(entries.segment(ordered.segment), numbers)
        }
        _ => false,
    }
}

/// Those of the rows that gave data files.
fn rows_with_data(
    alloc: Global,
    entries: &Segments,
    slots: &[Option<Taken>],
    rows: &[u32],
) -> Result<Vec<u32>, AllocError>
    requires numbers { HaveNumbers entries.now slots.now }
    requires rows { AreWithin (length slots.now) rows.now }
    ensures within { IfOk result (λ found. AreWithin (length slots.now) found.items) }
    ensures same { IfOk result (λ found. filter (holds Data) (runs_at (contents entries.now slots.now) found.items)
        ≡ filter (holds Data) (runs_at (contents entries.now slots.now) rows.now)) }
{
    let mut found = Vec::new(alloc);
    'rows: for row in rows {
        if has_data(entries, &slots[*row as usize]) {
            found.push(*row)?;
        }
    }
    Ok(found)
}

/// Whether the data files of rows rise, as far as rows tell: where those that gave some do so one behind the other.
pub(crate) fn data_files_rise(
    alloc: Global,
    entries: &Segments,
    slots: &[Option<Taken>],
    rows: &[u32],
    files: &FilesByKind,
) -> Result<bool, AllocError>
    requires numbers { HaveNumbers entries.now slots.now }
    requires rows { AreWithin (length slots.now) rows.now }
    ensures { IfOk result (λ rise. IsTrue rise →
        HaveRisingPaths (filter (holds Data) (runs_at (contents entries.now slots.now) rows.now))) }
{
    // Where few files hold data, it is sooner seen from these.
    if files.data_files.len() < files.delete_files.len() {
        return Ok(false);
    }
    let found = rows_with_data(alloc, entries, slots, rows)?;
    Ok(rows_rise(entries, slots, &found))
}
