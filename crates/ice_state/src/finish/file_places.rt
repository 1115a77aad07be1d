//! Where files stand among files.

ghost use Rattle.std.specs.Prelude.{◌≡◌, ◌<◌, IfOk, IfSome, IsTrue, length, slice_index_or};
ghost use Rattle.ice_state.specs.Lines.{AreWithin, entries_at as entries_at_places};
ghost use Rattle.ice_state.specs.Segments.{Segmented, entries_at};
ghost use Rattle.ice_state.specs.declared.kept.segments.FileNumber.{FileNumber};

use crate::kept::segments::FileNumber;
use contract_words::Items;
use ice_state_entries::EntryNumber;
use std::alloc::{AllocError, Global};

/// The places of some of the files among all of them, where each is found: behind the one before it, or else as numbers
/// rise. More than 4 bytes can number count as want of memory.
pub fn places_among(
    alloc: Global,
    files: &[FileNumber],
    some: &[FileNumber],
) -> Result<Option<Items<u32>>, AllocError>
    ensures within { IfOk result (λ found. IfSome found (AreWithin (length files.now))) }
    ensures same { (kept : Segmented) → IfOk result (λ found. IfSome found (λ places.
        entries_at_places (entries_at kept files.now) places ≡ entries_at kept some.now)) }
{
    let numbered = places_by_number(alloc, files)?;
    let mut places = Vec::with_capacity(alloc, some.len())?;
    let mut near = 0;
    'some: for file in some {
        let Some(place) = place_of(files, &numbered, *file, near) else {
            return Ok(None);
        };
        let Ok(number) = u32::try_from(place) else {
            return Err(AllocError);
        };
        places.push(number)?;
        near = place + 1;
    }
    Ok(Some(Items::from_vec(places)))
}

/// The place of a file: the one where it is looked for first, or the one noted for its number, or else one that is found
/// as numbers rise.
fn place_of(
    files: &[FileNumber],
    numbered: &[Vec<u32>],
    file: FileNumber,
    near: usize,
) -> Option<usize>
    ensures within { IfSome result (λ i. i < length files.now) }
    ensures there { (d : FileNumber) → IfSome result (λ i. slice_index_or files.now i d ≡ file) }
{
    if is_at(files, near, file) {
        return Some(near);
    }
    let noted = noted_place(numbered, file);
    if is_at(files, noted, file) {
        return Some(noted);
    }
    match files.binary_search_by(|other| other.order(&file)) {
        Ok(i) if is_at(files, i, file) => Some(i),
        _ => None,
    }
}

/// For each segment, and each number of a record there, the place of the file with it; 0 for a number that none has.
fn places_by_number(alloc: Global, files: &[FileNumber]) -> Result<Vec<Vec<u32>>, AllocError> {
    let mut numbered = Vec::new(alloc);
    'files: for i in 0..files.len() {
        let Ok(place) = u32::try_from(i) else {
            return Err(AllocError);
        };
        note_place(alloc, &mut numbered, files[i], place)?;
    }
    Ok(numbered)
}

/// Notes the place of a file. Clashes are left out.
fn note_place(
    alloc: Global,
    numbered: &mut Vec<Vec<u32>>,
    file: FileNumber,
    place: u32,
) -> Result<(), AllocError> {
    let EntryNumber::Record(number) = file.number else {
        return Ok(());
    };
    for _ in numbered.len()..file.segment as usize + 1 {
        numbered.push(Vec::new(alloc))?;
    }
    match numbered.get_mut(file.segment as usize) {
        Some(places) => put_place(places, number as usize, place),
        None => Ok(()),
    }
}

/// Puts a place at a number, and 0 at those that are lacking before it.
fn put_place(places: &mut Vec<u32>, number: usize, place: u32) -> Result<(), AllocError> {
    if places.len() <= number {
        places.resize(number.saturating_add(1), 0)?;
    }
    if let Some(noted) = places.get_mut(number) {
        *noted = place;
    }
    Ok(())
}

/// The place that was noted for a file's number; 0 for a clash.
fn noted_place(numbered: &[Vec<u32>], file: FileNumber) -> usize {
    let EntryNumber::Record(number) = file.number else {
        return 0;
    };
    let Some(places) = numbered.get(file.segment as usize) else {
        return 0;
    };
    match places.get(number as usize) {
        Some(place) => *place as usize,
        None => 0,
    }
}

/// Whether a file stands at a place.
fn is_at(files: &[FileNumber], i: usize, file: FileNumber) -> bool
    ensures within { IsTrue result → i < length files.now }
    ensures there { IsTrue result → (d : FileNumber) → slice_index_or files.now i d ≡ file }
{
    match files.get(i) {
        Some(other) => *other == file,
        None => false,
    }
}
