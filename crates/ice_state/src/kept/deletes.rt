//! The delete files of a state's taken rows as they come: indexed, or waiting to be.

ghost use Rattle.std.specs.Prelude.{◌≡◌, ◌++◌, [], filter, length, IfOk, IfSome, IsTrue, List, Some};
ghost use Rattle.std.specs.List.Sorted.{IsPermutation};
ghost use Rattle.ice_manifest_reading.specs.declared.entry.Entry.{Entry};
ghost use Rattle.ice_state.specs.KeptDeletes.{AreDeletes, AreDeletesOf, HasPlaces, IsIndexOf};
ghost use Rattle.ice_state.specs.Outcomes.{entries_in as entries_given, kept_in};
ghost use Rattle.ice_state.specs.Parts.{gains, holds_deletes};
ghost use Rattle.ice_state.specs.Segments.{AreBefore, AreKept, entries_at, Segmented};
ghost use Rattle.ice_state.specs.Slots.{contents, given, HasNumbers, HaveNumbers};

use crate::kept::indexed::{IndexedDeletes, files_by_number, push_taken, put_files_behind};
use crate::kept::merging::are_apart;
use crate::kept::segments::{FileNumber, Segments};
use crate::kept::taken::Taken;
use std::alloc::{AllocError, Global};

/// An index of fewer files than one in so many of another's is not merged into that one: its files wait there.
const FEW: usize = 16;

/// Up to so many delete files wait until reading ends: one index of all is sooner made than one that grows.
const MOST_WAITING: usize = 1 << 20;

/// Delete files: those that are indexed, and behind them those that wait. Where many wait, and as many as are indexed,
/// they are put into the index: its files double then, so that n files cost n log n however few come at a time.
#[derive(Debug, Drop)]
pub struct KeptDeletes {
    pub indexed: IndexedDeletes,
    pub waiting: Vec<FileNumber>,
}

impl KeptDeletes {
    /// These, of which none waits.
    fn of_index(alloc: Global, indexed: IndexedDeletes) -> KeptDeletes
        ensures { (kept : Segmented) (xs : List Entry) → IsIndexOf kept xs indexed → AreDeletesOf kept xs result }
    {
        KeptDeletes {
            indexed,
            waiting: Vec::new(alloc),
        }
    }

    /// These, which all wait.
    pub fn of_files(
        alloc: Global,
        entries: &Segments,
        files: Vec<FileNumber>,
    ) -> Result<KeptDeletes, AllocError>
        requires { AreKept entries.now files.items }
        ensures { (xs : List Entry) → IsPermutation (filter holds_deletes xs) (entries_at entries.now files.items) →
            IfOk result (AreDeletesOf entries.now xs) }
    {
        Ok(KeptDeletes {
            indexed: IndexedDeletes::build(alloc, entries, Vec::new(alloc))?,
            waiting: files,
        })
    }

    /// How many, about.
    pub fn count(&self) -> usize {
        self.indexed.files.len().saturating_add(self.waiting.len())
    }

    /// Whether there are none.
    pub fn is_empty(&self) -> bool
        ensures { IsTrue result → (self.now.indexed.files.items ≡ []) × (self.now.waiting.items ≡ []) }
    {
        self.indexed.files.is_empty() && self.waiting.is_empty()
    }

    /// These and others, which wait.
    fn with_files(self, files: Vec<FileNumber>) -> Result<KeptDeletes, AllocError>
        ensures { (kept : Segmented) (xs ys : List Entry) → AreDeletesOf kept xs self → AreKept kept files.items →
            IsPermutation (filter holds_deletes ys) (entries_at kept files.items) →
            IfOk result (AreDeletesOf kept (xs ++ ys)) }
    {
        let mut waiting = self.waiting;
        let mut files = files;
        waiting.append(&mut files)?;
        Ok(KeptDeletes {
            indexed: self.indexed,
            waiting,
        })
    }

    /// These and those of a manifest, which wait.
    fn with_manifest(self, entries: &Segments, taken: &Taken) -> Result<KeptDeletes, AllocError>
        requires { HasNumbers entries.now taken.now }
        ensures { (xs : List Entry) → AreDeletesOf entries.now xs self → IfOk result
            (AreDeletesOf entries.now (xs ++ entries_given (Some (given entries.now taken.now)))) }
    {
        let mut waiting = self.waiting;
        push_taken(&mut waiting, entries, taken)?;
        Ok(KeptDeletes {
            indexed: self.indexed,
            waiting,
        })
    }

    /// All of them, indexed.
    fn into_index(self, alloc: Global, entries: &Segments) -> Result<IndexedDeletes, AllocError>
        requires { AreDeletes entries.now self }
        ensures { (xs : List Entry) → AreDeletesOf entries.now xs self → IfOk result (IsIndexOf entries.now xs) }
    {
        let more = IndexedDeletes::build(alloc, entries, self.waiting)?;
        self.indexed.with(alloc, more)
    }

    /// The same, of which none waits.
    pub fn all_indexed(self, alloc: Global, entries: &Segments) -> Result<KeptDeletes, AllocError>
        requires { AreDeletes entries.now self }
        ensures { (xs : List Entry) → AreDeletesOf entries.now xs self → IfOk result (AreDeletesOf entries.now xs) }
    {
        if self.waiting.is_empty() {
            return Ok(self);
        }
        Ok(KeptDeletes::of_index(alloc, self.into_index(alloc, entries)?))
    }

    /// The index of all, which leaves these as they are: the index that is kept is merged into that of those that wait.
    pub fn index_of_all(
        &self,
        alloc: Global,
        entries: &Segments,
    ) -> Result<IndexedDeletes, AllocError>
        requires { AreDeletes entries.now self.now }
        ensures { (xs : List Entry) → AreDeletesOf entries.now xs self.now → IfOk result (IsIndexOf entries.now xs) }
    {
        let waiting = self.waiting.as_slice().to_vec(alloc)?;
        let index = IndexedDeletes::build(alloc, entries, waiting)?;
        index.joined(alloc, &self.indexed)
    }

    /// The same, of which none waits where many waited, and as many as are indexed.
    fn grown(self, alloc: Global, entries: &Segments) -> Result<KeptDeletes, AllocError>
        requires { AreDeletes entries.now self }
        ensures { (xs : List Entry) → AreDeletesOf entries.now xs self → IfOk result (AreDeletesOf entries.now xs) }
    {
        if self.waiting.len() < self.indexed.files.len().max(MOST_WAITING) {
            return Ok(self);
        }
        self.all_indexed(alloc, entries)
    }

    /// These and those of another index, which is merged into theirs. What waits goes on to wait.
    fn with_index(self, alloc: Global, other: IndexedDeletes) -> Result<KeptDeletes, AllocError>
        requires mine { HasPlaces self.indexed }
        requires others { HasPlaces other }
        ensures { (kept : Segmented) (xs ys : List Entry) → AreDeletesOf kept xs self → IsIndexOf kept ys other →
            IfOk result (AreDeletesOf kept (xs ++ ys)) }
    {
        let waiting = self.waiting;
        Ok(KeptDeletes {
            indexed: self.indexed.with(alloc, other)?,
            waiting,
        })
    }

    /// These and the files of another index, which is merged into theirs unless it has few.
    fn with_indexed(self, alloc: Global, other: IndexedDeletes) -> Result<KeptDeletes, AllocError>
        requires mine { HasPlaces self.indexed }
        requires others { HasPlaces other }
        ensures { (kept : Segmented) (xs ys : List Entry) → AreDeletesOf kept xs self → IsIndexOf kept ys other →
            IfOk result (AreDeletesOf kept (xs ++ ys)) }
    {
        if other.files.len() < self.indexed.files.len() / FEW {
            return self.with_files(other.files);
        }
        self.with_index(alloc, other)
    }

    /// These and those of another.
    fn with(self, alloc: Global, other: KeptDeletes) -> Result<KeptDeletes, AllocError>
        requires mine { HasPlaces self.indexed }
        requires others { HasPlaces other.indexed }
        ensures { (kept : Segmented) (xs ys : List Entry) → AreDeletesOf kept xs self → AreDeletesOf kept ys other →
            IfOk result (AreDeletesOf kept (xs ++ ys)) }
    {
        let both = self.with_indexed(alloc, other.indexed)?;
        both.with_files(other.waiting)
    }

    /// The same where so many segments stand before their own.
    fn behind(self, before: u32) -> KeptDeletes
        ensures { (firsts kept : Segmented) (xs : List Entry) → AreBefore before firsts kept →
            AreDeletesOf kept xs self → AreDeletesOf (firsts ++ kept) xs result }
    {
        let mut waiting = self.waiting;
        put_files_behind(&mut waiting, before);
        KeptDeletes {
            indexed: self.indexed.behind(before),
            waiting,
        }
    }
}

/// The delete files and those of a manifest; none where they were dropped, or memory is refused.
pub fn with_taken(
    alloc: Global,
    deletes: Option<KeptDeletes>,
    entries: &Segments,
    taken: &Taken,
) -> Option<KeptDeletes>
    requires numbers { HasNumbers entries.now taken.now }
    requires deletes { IfSome deletes (AreDeletes entries.now) }
    ensures { (xs : List Entry) → IfSome deletes (AreDeletesOf entries.now xs) →
        IfSome result (AreDeletesOf entries.now (xs ++ entries_given (Some (given entries.now taken.now)))) }
{
    let deletes = deletes?;
    let more = deletes.with_manifest(entries, taken).ok()?;
    more.grown(alloc, entries).ok()
}

/// The delete files and those of the gained rows; none where they were dropped, or memory is refused.
pub fn with_gained(
    alloc: Global,
    deletes: Option<KeptDeletes>,
    slots: &[Option<Taken>],
    entries: &Segments,
    gained: &[Option<Taken>],
) -> Option<KeptDeletes>
    requires same { length slots.now ≡ length gained.now }
    requires numbers { HaveNumbers entries.now gained.now }
    requires deletes { IfSome deletes (AreDeletes entries.now) }
    ensures { (kept : Segmented) (xs : List Entry) → IfSome deletes (AreDeletesOf entries.now xs) →
        IfSome result (AreDeletesOf entries.now
        (xs ++ kept_in (gains (contents kept slots.now) (contents entries.now gained.now)))) }
{
    let deletes = deletes?;
    let files = files_by_number(alloc, slots, entries, gained).ok()?;
    let more = deletes.with_files(files).ok()?;
    more.grown(alloc, entries).ok()
}

/// Whether there are none, or they were dropped.
fn are_none(deletes: &Option<KeptDeletes>) -> bool
    ensures { IsTrue result → IfSome deletes.now (λ deletes.
        (deletes.indexed.files.items ≡ []) × (deletes.waiting.items ≡ [])) }
{
    match deletes {
        Some(deletes) => deletes.is_empty(),
        None => true,
    }
}

/// The delete files of the rows that another state gains these slots: all of its own where it took no row that is taken
/// here, or has none. None where memory is refused.
pub fn absorbed_deletes(
    alloc: Global,
    slots: &[Option<Taken>],
    entries: &Segments,
    other: &[Option<Taken>],
    deletes: Option<KeptDeletes>,
) -> Option<KeptDeletes>
    requires same { length slots.now ≡ length other.now }
    requires numbers { HaveNumbers entries.now other.now }
    requires deletes { IfSome deletes (AreDeletesOf entries.now (kept_in (contents entries.now other.now))) }
    ensures { (kept : Segmented) → IfSome result (AreDeletesOf entries.now
        (kept_in (gains (contents kept slots.now) (contents entries.now other.now)))) }
{
    if are_apart(slots, other) {
        return deletes;
    }
    if are_none(&deletes) {
        return deletes;
    }
    let files = files_by_number(alloc, slots, entries, other).ok()?;
    KeptDeletes::of_files(alloc, entries, files).ok()
}

/// The delete files of another state, whose own segments so many stand before.
pub fn absorbed_behind(deletes: Option<KeptDeletes>, before: u32) -> Option<KeptDeletes>
    ensures { (firsts kept : Segmented) (xs : List Entry) → AreBefore before firsts kept →
        IfSome deletes (AreDeletesOf kept xs) → IfSome result (AreDeletesOf (firsts ++ kept) xs) }
{
    let deletes = deletes?;
    Some(deletes.behind(before))
}

/// The delete files and those of another state; none where either were dropped, or memory is refused.
pub fn with_absorbed(
    alloc: Global,
    deletes: Option<KeptDeletes>,
    entries: &Segments,
    absorbed: Option<KeptDeletes>,
) -> Option<KeptDeletes>
    requires deletes { IfSome deletes (AreDeletes entries.now) }
    requires absorbed { IfSome absorbed (AreDeletes entries.now) }
    ensures { (xs ys : List Entry) → IfSome deletes (AreDeletesOf entries.now xs) →
        IfSome absorbed (AreDeletesOf entries.now ys) → IfSome result (AreDeletesOf entries.now (xs ++ ys)) }
{
    let deletes = deletes?;
    let absorbed = absorbed?;
    let both = deletes.with(alloc, absorbed).ok()?;
    both.grown(alloc, entries).ok()
}

/// The same, of which none waits; none where they were dropped, or memory is refused.
pub fn with_index_of_all(
    alloc: Global,
    deletes: Option<KeptDeletes>,
    entries: &Segments,
) -> Option<KeptDeletes>
    requires { IfSome deletes (AreDeletes entries.now) }
    ensures { (xs : List Entry) → IfSome deletes (AreDeletesOf entries.now xs) →
        IfSome result (AreDeletesOf entries.now xs) }
{
    let deletes = deletes?;
    deletes.all_indexed(alloc, entries).ok()
}
