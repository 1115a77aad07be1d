//! Rows that are handed out as they were taken, and rows that are put in.

ghost use Rattle.std.specs.Prelude.{◌≡◌, ◌<◌, false, IfOk, length, map, vec_len};
ghost use Rattle.ice_manifest_reading.specs.Lending.{lent};
ghost use Rattle.ice_state_entries.specs.Kept.{AreKept as AreKeptIn, entries_at as entries_in};
ghost use Rattle.ice_state.specs.Contents.{is_row_taken, with_row};
ghost use Rattle.ice_state.specs.Handing.{handed, HaveShortPaths};
ghost use Rattle.ice_state.specs.KeptDeletes.{IsState};
ghost use Rattle.ice_state.specs.Readings.{Good};
ghost use Rattle.ice_state.specs.Segments.{Keeps, segment_at};
ghost use Rattle.ice_state.specs.Slots.{contents, given, HasNumbers};

use crate::kept::deletes::{KeptDeletes, with_taken};
use crate::kept::ordered::Ordered;
use crate::kept::segments::Segments;
use crate::kept::slots::put_row;
use crate::kept::taken::Taken;
use ice_manifest_reading::{Entry, LentEntry, ManifestFault};
use ice_state_entries::{Entries, EntryNumber};
use std::alloc::{AllocError, Global};

/// What a row gave: its kept entries in the order of their positions, or why its manifest can't be read.
#[derive(Debug, Drop)]
pub enum Given<'a> {
    Good(Vec<LentEntry<'a>>),
    Bad(&'a ManifestFault),
}

/// The entries of these numbers.
fn lent_entries<'a>(
    alloc: Global,
    entries: &'a Entries,
    numbers: &[EntryNumber],
) -> Result<Vec<LentEntry<'a>>, AllocError>
    requires { AreKeptIn entries.now numbers.now }
    ensures { IfOk result (λ found. map lent found.items ≡ entries_in entries.now numbers.now) }
{
    let mut found = Vec::with_capacity(alloc, numbers.len())?;
    'numbers: for number in numbers {
        if found.push(entries.entry(*number)).is_err() {
            return Err(AllocError);
        }
    }
    Ok(found)
}

/// What a manifest gave that was taken.
pub fn given_by<'a>(
    alloc: Global,
    entries: &'a Segments,
    taken: &'a Taken,
) -> Result<Given<'a>, AllocError>
    requires { HasNumbers entries.now taken.now }
    ensures { IfOk result (λ out. handed out ≡ given entries.now taken.now) }
{
    match taken {
        Taken::Good(ordered) => {
            let theirs = entries.segment(ordered.segment);
            let numbers = ordered.numbers.as_slice();
            match lent_entries(alloc, theirs, numbers) {
                Ok(found) => Ok(Given::Good(found)),
                Err(refusal) => Err(refusal),
            }
        }
        Taken::Bad(fault) => Ok(Given::Bad(fault)),
    }
}

/// Puts entries to a segment. A refusal, for want of memory, forgets none that was kept.
fn add_all(
    alloc: Global,
    entries: &mut Segments,
    segment: u32,
    added: &[Entry],
) -> Result<Vec<EntryNumber>, AllocError>
    requires there { segment < length entries.old }
    requires short { HaveShortPaths added.now }

    ensures there { segment < length entries.new }
    ensures keeps { Keeps entries.old entries.new }
    ensures kept { IfOk result (λ numbers. AreKeptIn (segment_at entries.new segment) numbers.items) }
    ensures ok { IfOk result (λ numbers. entries_in (segment_at entries.new segment) numbers.items ≡ added.now) }
{
    let mut numbers = Vec::with_capacity(alloc, added.len())?;
    'added: for entry in added {
        numbers.push(entries.add(segment, &entry.lent())?)?;
    }
    Ok(numbers)
}

/// What a manifest gave with these kept entries, by the numbers of entries that are put to the last segment.
pub fn taken_of(alloc: Global, entries: &mut Segments, added: &[Entry]) -> Result<Taken, AllocError>
    requires { HaveShortPaths added.now }

    ensures keeps { Keeps entries.old entries.new }
    ensures numbers { IfOk result (HasNumbers entries.new) }
    ensures given { IfOk result (λ taken. given entries.new taken ≡ Good added.now) }
{
    let segment = entries.begin(alloc, added.len())?;
    let numbers = add_all(alloc, entries, segment, added)?;
    Ok(Taken::Good(Ordered::new(alloc, entries.segment(segment), segment, numbers)?))
}

/// Adds a row that wasn't taken, and gives the delete files with those of the row.
pub fn put_new(
    alloc: Global,
    entries: &Segments,
    slots: &mut Vec<Option<Taken>>,
    deletes: Option<KeptDeletes>,
    i: usize,
    taken: Taken,
) -> Option<KeptDeletes>
    requires row { i < vec_len slots.old }
    requires new { is_row_taken (contents entries.now slots.old.items) i ≡ false }
    requires state { IsState entries.now slots.old.items deletes }
    requires numbers { HasNumbers entries.now taken }

    ensures state { IsState entries.now slots.new.items result }
    ensures row { contents entries.now slots.new.items
        ≡ with_row (contents entries.now slots.old.items) i (given entries.now taken) }
{
    let deletes = with_taken(alloc, deletes, entries, &taken);
    put_row(slots, i, taken);
    deletes
}
