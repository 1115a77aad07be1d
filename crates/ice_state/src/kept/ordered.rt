//! The kept entries of a manifest, by position and by path.

ghost use Rattle.std.specs.Prelude.{◌≡◌, ◌<◌, [], All, IfOk, IfSome, IsTrue, List, length, map, slice_index_or};
ghost use Rattle.std.specs.List.{range_with_len};
ghost use Rattle.std.specs.List.Sorted.{IsPermutation};
ghost use Rattle.ice_state_entries.specs.Kept.{AreKept, Kept, entries_at};
ghost use Rattle.ice_state_entries.specs.declared.entries.EntryNumber.TheVariants.{Record};
ghost use Rattle.ice_manifest_reading.specs.declared.entry.Entry.{Entry};
ghost use Rattle.ice_state.specs.Lines.{AreWithin, entries_at as entries_at_places};
ghost use Rattle.ice_state.specs.Orders.{AreOrdered, IsOrder};
ghost use Rattle.ice_state.specs.Outcomes.{by_path, twice};
ghost use Rattle.ice_state.specs.Placed.{AreEachPlaced, ArePlaced, entries_placed, place_of};
ghost use Rattle.ice_state.specs.Segments.{AreKept as AreKeptFiles, entries_at as entries_of, Keeps, segment_at};
ghost use Rattle.ice_state.specs.Slots.{HasNumbers, HaveNumbers};

use crate::finish::helpers::{Helpers, NoHelpers};
use crate::finish::ranks::ranks;
use crate::kept::segments::{FileNumber, Segments};
use crate::kept::sorting::{Placed, sort_by_path};
use crate::kept::taken::Taken;
use contract_words::Items;
use ice_manifest_reading::EntryView;
use ice_state_entries::{Entries, EntryNumber};
use std::alloc::{AllocError, Global};

/// Kept entries: the segment that keeps them, their numbers there in the order of their positions, and the places of
/// these numbers in the order of the entries' paths.
#[derive(Debug, Drop)]
pub struct Ordered {
    pub segment: u32,
    pub numbers: Items<EntryNumber>,
    pub order: Items<u32>,
    /// Whether the paths rise in that order, so that none stands twice.
    pub rise: bool,
}

impl Ordered {
    /// Puts entries in order that the segment keeps by these numbers.
    pub fn new(
        alloc: Global,
        entries: &Entries,
        segment: u32,
        numbers: Vec<EntryNumber>,
    ) -> Result<Ordered, AllocError>
        requires { AreKept entries.now numbers.items }
        ensures segment { IfOk result (λ ordered. ordered.segment ≡ segment) }
        ensures same { IfOk result (λ ordered. ordered.numbers ≡ numbers.items) }
        ensures ordered { IfOk result (AreOrdered entries.now) }
    {
        let SortedPlaces { order, rise } = places_in_order(alloc, entries, &numbers)?;
        Ok(Ordered {
            segment,
            numbers: Items::from_vec(numbers),
            order,
            rise,
        })
    }

    /// Puts entries of a manifest to a segment in the order of their paths: so they lie there as plans go through them.
    pub fn of_views(
        alloc: Global,
        entries: &mut Segments,
        segment: u32,
        views: &[EntryView<'_>],
    ) -> Result<Ordered, AllocError>
        requires there { segment < length entries.old }
        ensures keeps { Keeps entries.old entries.new }
        ensures there { segment < length entries.new }
        ensures segment { IfOk result (λ ordered. ordered.segment ≡ segment) }
        ensures same { IfOk result (λ ordered.
            entries_at (segment_at entries.new segment) ordered.numbers ≡ views.now) }
        ensures ordered { IfOk result (AreOrdered (segment_at entries.new segment)) }
    {
        let SortedPlaces { order, rise } = places_of_views(alloc, views)?;
        let by_path = add_in_order(alloc, entries, segment, views, order.as_slice())?;
        let numbers = by_position(alloc, &by_path, order.as_slice())?;
        Ok(Ordered {
            segment,
            numbers: Items::from_vec(numbers),
            order,
            rise,
        })
    }
}

/// Puts the entries at places to a segment, as these come. A refusal, for want of memory, forgets none that was kept.
fn add_in_order(
    alloc: Global,
    entries: &mut Segments,
    segment: u32,
    views: &[EntryView<'_>],
    order: &[u32],
) -> Result<Vec<EntryNumber>, AllocError>
    requires there { segment < length entries.old }
    requires within { AreWithin (length views.now) order.now }
    ensures there { segment < length entries.new }
    ensures keeps { Keeps entries.old entries.new }
    ensures kept { IfOk result (λ numbers. AreKept (segment_at entries.new segment) numbers.items) }
    ensures same { IfOk result (λ numbers. entries_at (segment_at entries.new segment) numbers.items
        ≡ entries_at_places views.now order.now) }
{
    let mut numbers = Vec::with_capacity(alloc, order.len())?;
    'order: for place in order {
        numbers.push(entries.add(segment, &views[*place as usize].lent())?)?;
    }
    Ok(numbers)
}

/// The numbers of entries in the order of their positions, by those in the order of their paths.
fn by_position(
    alloc: Global,
    by_path: &[EntryNumber],
    order: &[u32],
) -> Result<Vec<EntryNumber>, AllocError>
    requires many { length by_path.now ≡ length order.now }
    requires all { IsPermutation (range_with_len 0 (length order.now)) order.now }
    requires within { AreWithin (length order.now) order.now }
    ensures kept { (kept : Kept) → AreKept kept by_path.now → IfOk result (λ numbers. AreKept kept numbers.items) }
    ensures same { (kept : Kept) (entries : List Entry) → length entries ≡ length order.now →
        entries_at kept by_path.now ≡ entries_at_places entries order.now →
        IfOk result (λ numbers. entries_at kept numbers.items ≡ entries) }
{
    let ranks = ranks(alloc, order)?;
    numbers_at(alloc, by_path, &ranks)
}

/// The numbers at places.
fn numbers_at(
    alloc: Global,
    numbers: &[EntryNumber],
    places: &[u32],
) -> Result<Vec<EntryNumber>, AllocError>
    requires { All (λ p. p < length numbers.now) places.now }
    ensures { IfOk result (λ found. found.items
        ≡ map (λ p. slice_index_or numbers.now p (Record 0)) places.now) }
{
    let mut found = Vec::with_capacity(alloc, places.len())?;
    'places: for place in places {
        found.push(numbers[*place as usize])?;
    }
    Ok(found)
}

/// The places of entries in the order of their paths, and whether these rise.
fn places_of_views(alloc: Global, views: &[EntryView<'_>]) -> Result<SortedPlaces, AllocError>
    ensures order { IfOk result (λ places. IsOrder views.now places.order) }
    ensures once { IfOk result (λ places. IsTrue places.rise → twice (by_path views.now) ≡ []) }
{
    let placed = paths_of_views(alloc, views)?;
    sorted_places(&NoHelpers, alloc, placed)
}

/// The places of entries in the order of their paths, and whether these rise. More entries than can be numbered count
/// as want of memory.
fn places_in_order(
    alloc: Global,
    entries: &Entries,
    numbers: &[EntryNumber],
) -> Result<SortedPlaces, AllocError>
    requires { AreKept entries.now numbers.now }
    ensures order { IfOk result (λ places. IsOrder (entries_at entries.now numbers.now) places.order) }
    ensures once { IfOk result (λ places. IsTrue places.rise →
        twice (by_path (entries_at entries.now numbers.now)) ≡ []) }
{
    let placed = paths_of(alloc, entries, numbers)?;
    sorted_places(&NoHelpers, alloc, placed)
}

/// The same of entries in many segments.
pub fn places_by_path<H: Helpers>(
    helpers: &H,
    alloc: Global,
    entries: &Segments,
    files: &[FileNumber],
) -> Result<SortedPlaces, AllocError>
    requires ready { H.ready helpers.now }
    requires files { AreKeptFiles entries.now files.now }
    ensures order { IfOk result (λ places. IsOrder (entries_of entries.now files.now) places.order) }
    ensures once { IfOk result (λ places. IsTrue places.rise →
        twice (by_path (entries_of entries.now files.now)) ≡ []) }
{
    let placed = paths_of_files(alloc, entries, files)?;
    sorted_places(helpers, alloc, placed)
}

/// The order alone.
pub fn order_of_files(
    alloc: Global,
    entries: &Segments,
    files: &[FileNumber],
) -> Result<Items<u32>, AllocError>
    requires { AreKeptFiles entries.now files.now }
    ensures { IfOk result (IsOrder (entries_of entries.now files.now)) }
{
    let places = places_by_path(&NoHelpers, alloc, entries, files)?;
    Ok(places.order)
}

/// The paths of entries, each beside its place.
fn paths_of<'a>(
    alloc: Global,
    entries: &'a Entries,
    numbers: &[EntryNumber],
) -> Result<Vec<Placed<'a>>, AllocError>
    requires { AreKept entries.now numbers.now }
    ensures placed { IfOk result (λ placed. ArePlaced (entries_at entries.now numbers.now) placed.items) }
    ensures places { IfOk result (λ placed. map place_of placed.items ≡ range_with_len 0 (length numbers.now)) }
    ensures all { IfOk result (λ placed. entries_placed (entries_at entries.now numbers.now) placed.items
        ≡ entries_at entries.now numbers.now) }
{
    let mut placed = Vec::with_capacity(alloc, numbers.len())?;
    'numbers: for i in 0..numbers.len() {
        let Ok(place) = u32::try_from(i) else {
            return Err(AllocError);
        };
        placed.push(Placed {
            key: 0,
            path: entries.path(numbers[i]),
            key_end: 0,
            place,
        })?;
    }
    Ok(placed)
}

/// The paths of entries that a manifest lends, each beside its place.
fn paths_of_views<'a>(
    alloc: Global,
    views: &'a [EntryView<'_>],
) -> Result<Vec<Placed<'a>>, AllocError>
    ensures placed { IfOk result (λ placed. ArePlaced views.now placed.items) }
    ensures places { IfOk result (λ placed. map place_of placed.items ≡ range_with_len 0 (length views.now)) }
    ensures all { IfOk result (λ placed. entries_placed views.now placed.items ≡ views.now) }
{
    let mut placed = Vec::with_capacity(alloc, views.len())?;
    'views: for i in 0..views.len() {
        let Ok(place) = u32::try_from(i) else {
            return Err(AllocError);
        };
        placed.push(Placed {
            key: 0,
            path: views[i].lent().path,
            key_end: 0,
            place,
        })?;
    }
    Ok(placed)
}

/// The paths of entries in many segments, each beside its place.
fn paths_of_files<'a>(
    alloc: Global,
    entries: &'a Segments,
    files: &[FileNumber],
) -> Result<Vec<Placed<'a>>, AllocError>
    requires { AreKeptFiles entries.now files.now }
    ensures placed { IfOk result (λ placed. ArePlaced (entries_of entries.now files.now) placed.items) }
    ensures places { IfOk result (λ placed. map place_of placed.items ≡ range_with_len 0 (length files.now)) }
    ensures all { IfOk result (λ placed. entries_placed (entries_of entries.now files.now) placed.items
        ≡ entries_of entries.now files.now) }
{
    let mut placed = Vec::with_capacity(alloc, files.len())?;
    'files: for i in 0..files.len() {
        let Ok(place) = u32::try_from(i) else {
            return Err(AllocError);
        };
        placed.push(Placed {
            key: 0,
            path: entries.path(files[i]),
            key_end: 0,
            place,
        })?;
    }
    Ok(placed)
}

/// The places of slots, in the order of the first paths that their rows gave. A row without entries has the least.
pub fn rows_by_first_path(
    alloc: Global,
    entries: &Segments,
    slots: &[Option<Taken>],
) -> Result<Items<u32>, AllocError>
    requires { HaveNumbers entries.now slots.now }
    ensures { IfOk result (λ rows. IsPermutation (range_with_len 0 (length slots.now)) rows) }
{
    let mut placed = first_paths(alloc, entries, slots)?;
    let _ = sort_by_path(&NoHelpers, &mut placed)?;
    places_of(alloc, &placed)
}

/// The first path of each row, beside the row's place.
fn first_paths<'a>(
    alloc: Global,
    entries: &'a Segments,
    slots: &[Option<Taken>],
) -> Result<Vec<Placed<'a>>, AllocError>
    requires { HaveNumbers entries.now slots.now }
    ensures { IfOk result (λ placed. map place_of placed.items ≡ range_with_len 0 (length slots.now)) }
{
    let mut placed = Vec::with_capacity(alloc, slots.len())?;
    'slots: for i in 0..slots.len() {
        let Ok(place) = u32::try_from(i) else {
            return Err(AllocError);
        };
        placed.push(Placed {
            key: 0,
            path: first_path(entries, &slots[i]),
            key_end: 0,
            place,
        })?;
    }
    Ok(placed)
}

/// The least path of what a row gave; an empty one where it gave none.
fn first_path<'a>(entries: &'a Segments, slot: &Option<Taken>) -> &'a [u8]
    requires { IfSome slot.now (HasNumbers entries.now) }
{
    let Some(Taken::Good(ordered)) = slot else {
        return &[];
    };
    let Some(place) = ordered.order.as_slice().first() else {
        return &[];
    };
    let number = ordered.numbers.as_slice()[*place as usize];
    entries.segment(ordered.segment).path(number)
}

/// Places of entries in the order of their paths.
#[derive(Debug, Drop)]
pub struct SortedPlaces {
    pub order: Items<u32>,
    /// Whether the paths rise, so that none stands twice.
    pub rise: bool,
}

/// The places of all entries, in the order of the paths.
fn sorted_places<H: Helpers>(
    helpers: &H,
    alloc: Global,
    placed: Vec<Placed<'_>>,
) -> Result<SortedPlaces, AllocError>
    requires { H.ready helpers.now }
    ensures order { (entries : List Entry) → AreEachPlaced entries placed.entry.items →
        IfOk result (λ places. IsOrder entries places.order) }
    ensures once { (entries : List Entry) → AreEachPlaced entries placed.entry.items →
        IfOk result (λ places. IsTrue places.rise → twice (by_path entries) ≡ []) }
{
    let mut placed = placed;
    let rise = sort_by_path(helpers, &mut placed)?;
    let order = places_of(alloc, &placed)?;
    Ok(SortedPlaces { order, rise })
}

/// The places alone.
fn places_of(alloc: Global, placed: &[Placed<'_>]) -> Result<Items<u32>, AllocError>
    ensures { IfOk result (λ places. places ≡ map place_of placed.now) }
{
    let mut places = Vec::with_capacity(alloc, placed.len())?;
    'placed: for p in placed {
        places.push(p.place)?;
    }
    Ok(Items::from_vec(places))
}
