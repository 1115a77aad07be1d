//! Entries that are kept in segments.

ghost use Rattle.std.specs.Prelude.{◌≡◌, ◌<◌, ◌++◌, ◌^◌, ◌↔◌, [], length, IfOk, IsTrue, OnErr, OnOk};
ghost use Rattle.ice_state_entries.specs.Kept.{AreKept as AreKeptIn, entries_at as entries_in};
ghost use Rattle.ice_state_entries.specs.Kept.{IsKept as IsKeptIn, entry_at as entry_in, nothing_kept};
ghost use Rattle.ice_state_entries.specs.Alike.{AreAlike};
ghost use Rattle.ice_manifest_reading.specs.Lending.{lent, HasShortPaths};
ghost use Rattle.ice_state.specs.Segments.{AreBefore, entry_at, IsKept, Keeps, segment_at, Segmented};
ghost use Rattle.ice_state.specs.Segments.{StandsBehind};

use ice_manifest_reading::LentEntry;
use ice_state_entries::{Entries, EntryNumber, Room};
use ice_value::{FileContent, is_same_tuple};
use std::alloc::{AllocError, Global};
use std::cmp::Ordering;
use std::marker::Model;

/// The number of an entry that is kept: that of its segment, and its own there.
#[derive(Clone, Copy, Debug, PartialEq)]
pub(crate) struct FileNumber {
    pub(crate) segment: u32,
    pub(crate) number: EntryNumber,
}

impl FileNumber {
    /// Its segment, whether it is a clash there, and which of these it is.
    fn key(&self) -> (u32, bool, u32) {
        match self.number {
            EntryNumber::Record(number) => (self.segment, false, number),
            EntryNumber::Clash(number) => (self.segment, true, number),
        }
    }

    /// How it stands to another where numbers rise.
    pub(crate) fn order(&self, other: &FileNumber) -> Ordering {
        self.key().cmp(&other.key())
    }

    /// The number of the same entry where so many segments stand before its own.
    pub(crate) fn behind(self, before: u32) -> FileNumber
        ensures { (firsts kept : Segmented) → AreBefore before firsts kept → IsKept kept self →
            StandsBehind firsts kept self result }
    {
        FileNumber {
            segment: self.segment.saturating_add(before),
            number: self.number,
        }
    }
}

/// How many entries a segment may have, so that those of one more manifest are put to it. The index of so many paths
/// stays in a processor's cache, where a path is soon looked up, and there are few segments still.
const FULL: usize = 49_152;

/// For how many entries a further segment has room from the start, and a first one at most, so that it seldom grows:
/// what grows is made anew, and leaves holes in memory.
const ROOM: usize = 65_536;

/// A manifest of fewer entries is small. Between the entries of two that are read much else comes to the cache, so that
/// only a smaller index stays there.
pub(crate) const SMALL: usize = 4096;

/// A segment of small manifests has one part in so many of the entries and of the room of others.
const PARTS: usize = 4;

/// Whether a segment of so many entries is full, where a manifest of about so many is to be put to it.
fn is_full(entries: usize, expected: usize) -> bool {
    let most = if expected < SMALL { FULL / PARTS } else { FULL };
    entries >= most
}

/// For how many entries a further segment has room that begins with a manifest of about so many.
fn room_for(expected: usize) -> usize {
    if expected < SMALL { ROOM / PARTS } else { ROOM }
}

/// A segment that keeps nothing yet, with room for so many entries.
fn new_segment(alloc: Global, room: usize) -> Result<Entries, AllocError>
    ensures { IfOk result (λ segment. segment ≡ nothing_kept) }
{
    let mut segment = Entries::new(alloc);
    segment.reserve(Room::of_entries(room))?;
    Ok(segment)
}

/// The number of a place. More places than can be numbered count as want of memory.
fn number_of(place: usize) -> Result<u32, AllocError>
    ensures { IfOk result (λ number. number ≡ place) }
{
    let Ok(number) = u32::try_from(place) else {
        return Err(AllocError);
    };
    Ok(number)
}

/// Entries that are kept in segments, to the last of which entries are put.
#[derive(Debug, Drop)]
pub(crate) struct Segments {
    list: Vec<Entries>,
}

impl Model for Segments {
    ghost use Rattle.ice_state.specs.Segments.{Segmented};

    ghost Value = { Segmented };

    ghost view = { λ s. s.list.items };
}

impl Segments {
    /// None, so that nothing is kept yet.
    pub(crate) fn new(alloc: Global) -> Segments
        ensures { result ≡ [] }
    {
        Segments {
            list: Vec::new(alloc),
        }
    }

    /// The number of the segment to which the entries of one more manifest are put: the last one, or a new one where
    /// that is full; the first has room for the entries that are expected. More segments than can be numbered count as
    /// want of memory. A refusal leaves all as it was.
    pub(crate) fn begin(&mut self, alloc: Global, expected: usize) -> Result<u32, AllocError>
        ensures keeps { Keeps self.old self.new }
        ensures ok { IfOk result (λ segment. segment < length self.new) }
        ensures err { OnErr result (self.new ≡ self.old) }
    {
        let count = self.list.len();
        if count > 0 && !is_full(self.list[count - 1].len(), expected) {
            return number_of(count - 1);
        }
        let segment = number_of(count)?;
        let room = if count > 0 {
            room_for(expected)
        } else {
            expected.min(ROOM)
        };
        self.list.push(new_segment(alloc, room)?)?;
        Ok(segment)
    }

    /// The segment of a number.
    pub(crate) fn segment(&self, number: u32) -> &Entries
        requires { number < length self.now }
        ensures { result.now ≡ segment_at self.now number }
    {
        &self.list[number as usize]
    }

    /// The entry of a number.
    pub(crate) fn entry(&self, number: FileNumber) -> LentEntry<'_>
        requires { IsKept self.now number }
        ensures { lent result ≡ entry_at self.now number }
    {
        self.segment(number.segment).entry(number.number)
    }

    /// What the file of an entry holds.
    pub(crate) fn content(&self, number: FileNumber) -> FileContent
        requires { IsKept self.now number }
        ensures { result ≡ (entry_at self.now number).file.content }
    {
        self.segment(number.segment).content(number.number)
    }

    /// Whether the files of two entries are alike: they hold the same and are of one spec, with the same partition
    /// values and the same sequence number.
    pub(crate) fn are_alike(&self, a: FileNumber, b: FileNumber) -> bool
        requires first { IsKept self.now a }
        requires second { IsKept self.now b }
        ensures { IsTrue result ↔ AreAlike (entry_at self.now a) (entry_at self.now b) }
    {
        if a.segment == b.segment {
            return self.segment(a.segment).are_alike(a.number, b.number);
        }
        are_alike(&self.entry(a), &self.entry(b))
    }

    /// The path of an entry.
    pub(crate) fn path(&self, number: FileNumber) -> &[u8]
        requires { IsKept self.now number }
        ensures { result.now ≡ (entry_at self.now number).file.path }
    {
        self.segment(number.segment).path(number.number)
    }

    /// Puts an entry to a segment. A refusal, for want of memory, forgets none that was kept.
    pub(crate) fn add(
        &mut self,
        segment: u32,
        entry: &LentEntry<'_>,
    ) -> Result<EntryNumber, AllocError>
        requires there { segment < length self.old }
        requires short { HasShortPaths entry.now }

        ensures keeps { Keeps self.old self.new }
        ensures kept { IfOk result (λ number. IsKeptIn (segment_at self.new segment) number) }
        ensures ok { IfOk result (λ number. entry_in (segment_at self.new segment) number ≡ lent entry.now) }
    {
        self.list[segment as usize].add(entry)
    }

    /// Makes room in a segment. A refusal, for want of memory, forgets nothing.
    pub(crate) fn reserve(&mut self, segment: u32, room: Room) -> Result<(), AllocError>
        requires { segment < length self.old }
        ensures { self.new ≡ self.old }
    {
        self.list[segment as usize].reserve(room)
    }

    /// Makes room for entries that are put next, where they are no more than one segment has: of more, each manifest's
    /// own are made room for. A refusal, for want of memory, forgets nothing.
    pub(crate) fn make_room(&mut self, alloc: Global, room: Room) -> Result<(), AllocError>
        ensures { Keeps self.old self.new }
    {
        if room.entries() > ROOM {
            return Ok(());
        }
        let segment = self.begin(alloc, room.entries())?;
        self.reserve(segment, room)
    }

    /// Puts entries that others keep to a segment. A refusal, for want of memory, forgets none that was kept.
    pub(crate) fn add_kept(
        &mut self,
        segment: u32,
        others: &Entries,
        numbers: &[EntryNumber],
    ) -> Result<Vec<EntryNumber>, AllocError>
        requires there { segment < length self.old }
        requires numbers { AreKeptIn others.now numbers.now }

        ensures there { segment < length self.new }
        ensures keeps { Keeps self.old self.new }
        ensures kept { IfOk result (λ added. AreKeptIn (segment_at self.new segment) added.items) }
        ensures ok { IfOk result (λ added. entries_in (segment_at self.new segment) added.items
            ≡ entries_in others.now numbers.now) }
    {
        self.list[segment as usize].add_kept(others, numbers)
    }

    /// Puts other segments behind, and says how many stand before them. More than can be numbered count as want of
    /// memory. A refusal leaves all as it was.
    pub(crate) fn append(&mut self, others: Segments) -> Result<u32, AllocError>
        ensures before { IfOk result (λ before. before ≡ length self.old) }
        ensures ok { OnOk result (self.new ≡ self.old ++ others) }
        ensures few { OnOk result (length (self.old ++ others) < 2 ^ 32) }
        ensures err { OnErr result (self.new ≡ self.old) }
    {
        let mut list = others.list;
        let before = self.list.len();
        let Ok(_) = u32::try_from(before.saturating_add(list.len())) else {
            return Err(AllocError);
        };
        self.list.append(&mut list)?;
        Ok(before as u32)
    }

    /// The same segments.
    pub(crate) fn copy(&self, alloc: Global) -> Result<Segments, AllocError>
        ensures { IfOk result (λ copied. copied ≡ self.now) }
    {
        Ok(Segments {
            list: copied_segments(alloc, &self.list)?,
        })
    }
}

/// The same of entries that are lent.
fn are_alike(a: &LentEntry<'_>, b: &LentEntry<'_>) -> bool
    ensures { IsTrue result ↔ AreAlike (lent a.now) (lent b.now) }
{
    a.content == b.content
        && a.spec_id == b.spec_id
        && a.sequence_number == b.sequence_number
        && is_same_tuple(a.tuple, b.tuple)
}

fn copied_segments(alloc: Global, segments: &[Entries]) -> Result<Vec<Entries>, AllocError>
    ensures { IfOk result (λ copied. copied.items ≡ segments.now) }
{
    let mut copied = Vec::with_capacity(alloc, segments.len())?;
    'segments: for segment in segments {
        copied.push(segment.copy(alloc)?)?;
    }
    Ok(copied)
}
