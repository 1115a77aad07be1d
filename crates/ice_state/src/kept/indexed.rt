//! Delete files that are indexed, and those of manifests.

ghost use Rattle.std.specs.Prelude.{◌≡◌, ◌++◌, filter, length, IfOk, IfSome, List, OnOk, option_map, Some};
ghost use Rattle.std.specs.List.Sorted.{IsPermutation};
ghost use Rattle.ice_state_entries.specs.Kept.{entries_at as entries_in};
ghost use Rattle.ice_manifest_reading.specs.declared.entry.Entry.{Entry};
ghost use Rattle.ice_state.specs.KeptDeletes.{HasPlaces, IsIndexOf};
ghost use Rattle.ice_state.specs.Outcomes.{entries_in as entries_given, kept_in};
ghost use Rattle.ice_state.specs.Parts.{gain_of, gains, holds_deletes};
ghost use Rattle.ice_state.specs.Segments.{AreBefore, AreKept, entries_at, segment_at, Segmented};
ghost use Rattle.ice_state.specs.Slots.{contents, given, HasNumbers, HaveNumbers, IsIn};

use crate::finish::deletes::records;
use crate::finish::ranks::places_from;
use crate::kept::ordered::Ordered;
use crate::kept::segments::{FileNumber, Segments};
use crate::kept::taken::Taken;
use ice_deletes::DeleteIndex;
use ice_value::FileContent;
use std::alloc::{AllocError, Global};

/// Delete files, and their index, where a file's number is its place among them.
#[derive(Debug, Drop)]
pub struct IndexedDeletes {
    pub files: Vec<FileNumber>,
    pub index: DeleteIndex,
}

impl IndexedDeletes {
    /// These delete files, indexed.
    pub fn build(
        alloc: Global,
        entries: &Segments,
        files: Vec<FileNumber>,
    ) -> Result<IndexedDeletes, AllocError>
        requires { AreKept entries.now files.items }
        ensures places { IfOk result HasPlaces }
        ensures index { (xs : List Entry) → entries_at entries.now files.items ≡ filter holds_deletes xs →
            IfOk result (IsIndexOf entries.now xs) }
        ensures moved { (xs : List Entry) →
            IsPermutation (filter holds_deletes xs) (entries_at entries.now files.items) →
            IfOk result (IsIndexOf entries.now xs) }
    {
        let records = records(alloc, entries, &files)?;
        let index = DeleteIndex::build(alloc, &records)?;
        Ok(IndexedDeletes { files, index })
    }

    /// These delete files and those of another, indexed. Where one has none, no memory is needed.
    pub fn with(self, alloc: Global, other: IndexedDeletes) -> Result<IndexedDeletes, AllocError>
        requires places { HasPlaces self }
        requires others { HasPlaces other }
        ensures { (kept : Segmented) (xs ys : List Entry) → IsIndexOf kept xs self → IsIndexOf kept ys other →
            IfOk result (IsIndexOf kept (xs ++ ys)) }
    {
        if other.files.is_empty() {
            return Ok(self);
        }
        if self.files.is_empty() {
            return Ok(other);
        }
        self.joined(alloc, &other)
    }

    /// The same of another that is lent.
    pub fn joined(self, alloc: Global, other: &IndexedDeletes) -> Result<IndexedDeletes, AllocError>
        requires places { HasPlaces self }
        requires others { HasPlaces other.now }
        ensures { (kept : Segmented) (xs ys : List Entry) → IsIndexOf kept xs self → IsIndexOf kept ys other.now →
            IfOk result (IsIndexOf kept (xs ++ ys)) }
    {
        let to = places_from(alloc, self.files.len(), other.files.len())?;
        let mut index = self.index;
        index.merge(&other.index, &to)?;
        let mut files = self.files;
        files.extend_from_slice(&other.files)?;
        Ok(IndexedDeletes { files, index })
    }

    /// The same where so many segments stand before their own.
    pub fn behind(self, before: u32) -> IndexedDeletes
        ensures places { HasPlaces self → HasPlaces result }
        ensures index { (firsts kept : Segmented) (xs : List Entry) → AreBefore before firsts kept → IsIndexOf kept xs self →
            IsIndexOf (firsts ++ kept) xs result }
    {
        let mut files = self.files;
        put_files_behind(&mut files, before);
        IndexedDeletes {
            files,
            index: self.index,
        }
    }
}

/// Makes the files' numbers those of so many segments further on.
pub fn put_files_behind(files: &mut Vec<FileNumber>, before: u32)
    ensures many { length files.new.items ≡ length files.old.items }
    ensures kept { (firsts kept : Segmented) → AreBefore before firsts kept → AreKept kept files.old.items →
        AreKept (firsts ++ kept) files.new.items }
    ensures same { (firsts kept : Segmented) → AreBefore before firsts kept → AreKept kept files.old.items →
        entries_at (firsts ++ kept) files.new.items ≡ entries_at kept files.old.items }
{
    'files: for i in 0..files.len() {
        files[i] = files[i].behind(before);
    }
}

/// Puts the delete files of a manifest last.
fn push_deletes(
    found: &mut Vec<FileNumber>,
    entries: &Segments,
    ordered: &Ordered,
) -> Result<(), AllocError>
    requires { IsIn entries.now ordered.now }
    ensures kept { AreKept entries.now found.old.items → AreKept entries.now found.new.items }
    ensures pushed { OnOk result (entries_at entries.now found.new.items ≡ entries_at entries.now found.old.items
        ++ filter holds_deletes (entries_in (segment_at entries.now ordered.now.segment) ordered.now.numbers)) }
{
    let segment = entries.segment(ordered.segment);
    'numbers: for number in ordered.numbers.as_slice() {
        if segment.content(*number) != FileContent::Data {
            found.push(FileNumber {
                segment: ordered.segment,
                number: *number,
            })?;
        }
    }
    Ok(())
}

/// Puts the delete files of what a manifest gave last.
pub fn push_taken(
    found: &mut Vec<FileNumber>,
    entries: &Segments,
    taken: &Taken,
) -> Result<(), AllocError>
    requires { HasNumbers entries.now taken.now }
    ensures kept { AreKept entries.now found.old.items → AreKept entries.now found.new.items }
    ensures pushed { OnOk result (entries_at entries.now found.new.items ≡ entries_at entries.now found.old.items
        ++ filter holds_deletes (entries_given (Some (given entries.now taken.now)))) }
{
    match taken {
        Taken::Good(ordered) => push_deletes(found, entries, ordered),
        Taken::Bad(_) => Ok(()),
    }
}

/// Puts the delete files of a row last that the second slot took and the first did not.
fn push_gain(
    found: &mut Vec<FileNumber>,
    slot: &Option<Taken>,
    entries: &Segments,
    other: &Option<Taken>,
) -> Result<(), AllocError>
    requires { IfSome other.now (HasNumbers entries.now) }
    ensures kept { AreKept entries.now found.old.items → AreKept entries.now found.new.items }
    ensures pushed { (kept : Segmented) → OnOk result (entries_at entries.now found.new.items
        ≡ entries_at entries.now found.old.items ++ filter holds_deletes (entries_given
        (gain_of (option_map (given kept) slot.now) (option_map (given entries.now) other.now)))) }
{
    match (slot, other) {
        (None, Some(taken)) => push_taken(found, entries, taken),
        _ => Ok(()),
    }
}

/// The delete files of the rows that the second slots took and the first did not.
fn gained_files(
    alloc: Global,
    slots: &[Option<Taken>],
    entries: &Segments,
    other: &[Option<Taken>],
) -> Result<Vec<FileNumber>, AllocError>
    requires same { length slots.now ≡ length other.now }
    requires numbers { HaveNumbers entries.now other.now }
    ensures kept { IfOk result (λ found. AreKept entries.now found.items) }
    ensures all { (kept : Segmented) → IfOk result (λ found. entries_at entries.now found.items
        ≡ filter holds_deletes (kept_in (gains (contents kept slots.now) (contents entries.now other.now)))) }
{
    let mut found = Vec::new(alloc);
    for i in 0..slots.len() {
        push_gain(&mut found, &slots[i], entries, &other[i])?;
    }
    Ok(found)
}

/// Files by their numbers.
fn by_number(files: Vec<FileNumber>) -> Vec<FileNumber>
    ensures { IsPermutation files.items result.items }
{
    let mut files = files;
    files.sort_unstable_by(|a, b| a.order(b));
    files
}

/// The same by their numbers, so that each is found again by its own.
pub fn files_by_number(
    alloc: Global,
    slots: &[Option<Taken>],
    entries: &Segments,
    other: &[Option<Taken>],
) -> Result<Vec<FileNumber>, AllocError>
    requires same { length slots.now ≡ length other.now }
    requires numbers { HaveNumbers entries.now other.now }
    ensures kept { IfOk result (λ files. AreKept entries.now files.items) }
    ensures all { (kept : Segmented) → IfOk result (λ files.
        IsPermutation (filter holds_deletes (kept_in (gains (contents kept slots.now) (contents entries.now other.now))))
        (entries_at entries.now files.items)) }
{
    let files = gained_files(alloc, slots, entries, other)?;
    Ok(by_number(files))
}
