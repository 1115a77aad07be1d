//! Data files that were looked up not long ago.

ghost use Rattle.std.specs.Prelude.{◌<◌, IfSome, length};
ghost use Rattle.ice_state.specs.Segments.{AreKept};
ghost use Rattle.ice_state.specs.Stretches.{IsLikeBefore};

use crate::kept::segments::{FileNumber, Segments};
use ice_manifest_reading::LentEntry;
use ice_value::Cell;
use std::alloc::{AllocError, Global};
use std::hash::{FoldHasher, Hasher};

/// How many places are remembered at most.
const SLOTS: usize = 4096;

/// Places of data files that were looked up, the last of each slot: those that are alike have the same slot. Which are
/// remembered decides how often a file is looked up, and nothing else.
#[derive(Debug, Drop)]
pub struct Recent {
    places: Vec<u32>,
}

impl Recent {
    /// None yet.
    pub fn new(alloc: Global) -> Result<Recent, AllocError> {
        Ok(Recent {
            places: vec![in alloc; u32::MAX; SLOTS]?,
        })
    }

    /// The place of a file before this one that is like it, where it is remembered; else this one is remembered.
    pub fn like(&mut self, entries: &Segments, files: &[FileNumber], place: usize) -> Option<usize>
        requires files { AreKept entries.now files.now }
        requires place { place < length files.now }
        ensures { IfSome result (IsLikeBefore entries.now files.now place) }
    {
        let slot = slot_of(&entries.entry(files[place]));
        let Some(noted) = self.places.get_mut(slot) else {
            return None;
        };
        let other = *noted as usize;
        if other < place && entries.are_alike(files[other], files[place]) {
            return Some(other);
        }
        if let Ok(number) = u32::try_from(place) {
            *noted = number;
        }
        None
    }
}

/// The slot of a file, by its spec, its sequence number and its partition values.
fn slot_of(entry: &LentEntry<'_>) -> usize {
    let mut hasher = FoldHasher::default();
    hasher.write_i32(entry.spec_id);
    hasher.write_u64(entry.sequence_number.get());
    for cell in entry.tuple {
        feed(&mut hasher, cell);
    }
    (hasher.finish() % SLOTS as u64) as usize
}

/// Feeds a hasher a partition value.
fn feed(hasher: &mut FoldHasher, cell: &Cell) {
    match cell {
        Cell::Null => hasher.write_u8(0),
        Cell::Bool(value) => hasher.write_u8(*value as u8),
        Cell::Whole(value) => hasher.write_i64(*value),
        Cell::Text(text) => hasher.write(text.as_bytes()),
        Cell::Bytes(bytes) => hasher.write(bytes.as_slice()),
    }
}
