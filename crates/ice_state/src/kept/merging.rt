//! What a merge adds to slots.

ghost use Rattle.std.specs.Prelude.{◌≡◌, ◌↔◌, ◌&&◌, is_some, length, IfOk, IfSome, IsTrue, option_map};
ghost use Rattle.ice_state.specs.Joins.{TookAllOf};
ghost use Rattle.ice_state.specs.Parts.{AreApart, gain_of, gains, is_gain};
ghost use Rattle.ice_state.specs.Segments.{Keeps, Segmented};
ghost use Rattle.ice_state.specs.Slots.{contents, given, HasNumbers, HaveNumbers};

use crate::kept::ordered::Ordered;
use crate::kept::segments::{SMALL, Segments};
use crate::kept::taken::Taken;
use contract_words::Items;
use ice_state_entries::Room;
use std::alloc::{AllocError, Global};

/// Whether each row that the second slots took is taken in the first.
pub fn has_taken_all_of(slots: &[Option<Taken>], other: &[Option<Taken>]) -> bool
    requires { length slots.now ≡ length other.now }
    ensures { (kept others : Segmented) →
        (IsTrue result ↔ TookAllOf (contents kept slots.now) (contents others other.now)) }
{
    for i in 0..slots.len() {
        if is_gain(&slots[i], &other[i]) {
            return false;
        }
    }
    true
}

/// Whether no row is taken in both.
pub fn are_apart(slots: &[Option<Taken>], other: &[Option<Taken>]) -> bool
    requires { length slots.now ≡ length other.now }
    ensures { (kept others : Segmented) →
        (IsTrue result ↔ AreApart (contents kept slots.now) (contents others other.now)) }
{
    for i in 0..slots.len() {
        if are_taken(&slots[i], &other[i]) {
            return false;
        }
    }
    true
}

/// Whether a row was taken in both slots.
fn are_taken(slot: &Option<Taken>, other: &Option<Taken>) -> bool
    ensures { result ≡ (is_some slot.now && is_some other.now) }
{
    slot.is_some() && other.is_some()
}

/// Whether a row that isn't taken in the first slot was taken in the other.
fn is_gain(slot: &Option<Taken>, other: &Option<Taken>) -> bool
    ensures { (kept others : Segmented) →
        result ≡ is_gain (option_map (given kept) slot.now) (option_map (given others) other.now) }
{
    matches!((slot, other), (None, Some(_)))
}

/// The room, and that which the entries take that a manifest gave.
fn room_of_taken(room: Room, others: &Segments, taken: &Taken) -> Room
    requires { HasNumbers others.now taken.now }
{
    match taken {
        Taken::Good(ordered) => {
            let theirs = others.segment(ordered.segment);
            let numbers = ordered.numbers.as_slice();
            theirs.room_with(numbers, room)
        }
        Taken::Bad(_) => room,
    }
}

/// The room, and that which the entries of a row take, where it is gained.
fn room_of_gain(room: Room, slot: &Option<Taken>, others: &Segments, other: &Option<Taken>) -> Room
    requires { IfSome other.now (HasNumbers others.now) }
{
    match (slot, other) {
        (None, Some(taken)) => room_of_taken(room, others, taken),
        _ => room,
    }
}

/// The room that the entries of all gained rows take.
fn room_of_gains(slots: &[Option<Taken>], others: &Segments, other: &[Option<Taken>]) -> Room
    requires same { length slots.now ≡ length other.now }
    requires numbers { HaveNumbers others.now other.now }
{
    let mut room = Room::none();
    for i in 0..slots.len() {
        room = room_of_gain(room, &slots[i], others, &other[i]);
    }
    room
}

/// What the first slots lack of the second, by the numbers of entries that are put to those of the first. Room for all
/// of them is made first.
pub fn gained(
    alloc: Global,
    entries: &mut Segments,
    slots: &[Option<Taken>],
    others: &Segments,
    other: &[Option<Taken>],
) -> Result<Vec<Option<Taken>>, AllocError>
    requires same { length slots.now ≡ length other.now }
    requires numbers { HaveNumbers others.now other.now }

    ensures keeps { Keeps entries.old entries.new }
    ensures numbers { IfOk result (λ gained. HaveNumbers entries.new gained.items) }
    ensures gained { (kept : Segmented) → IfOk result (λ gained. contents entries.new gained.items
        ≡ gains (contents kept slots.now) (contents others.now other.now)) }
{
    entries.make_room(alloc, room_of_gains(slots, others, other))?;
    let mut gained = Vec::with_capacity(alloc, slots.len())?;
    for i in 0..slots.len() {
        gained.push(gain(alloc, entries, &slots[i], others, &other[i])?)?;
    }
    Ok(gained)
}

fn gain(
    alloc: Global,
    entries: &mut Segments,
    slot: &Option<Taken>,
    others: &Segments,
    other: &Option<Taken>,
) -> Result<Option<Taken>, AllocError>
    requires { IfSome other.now (HasNumbers others.now) }

    ensures keeps { Keeps entries.old entries.new }
    ensures numbers { IfOk result (λ gained. IfSome gained (HasNumbers entries.new)) }
    ensures gained { (kept : Segmented) → IfOk result (λ gained. option_map (given entries.new) gained
        ≡ gain_of (option_map (given kept) slot.now) (option_map (given others.now) other.now)) }
{
    match (slot, other) {
        (None, Some(taken)) => Ok(Some(put_taken(alloc, entries, others, taken)?)),
        _ => Ok(None),
    }
}

/// What a manifest gave, by the numbers of entries that are put to the last segment.
fn put_taken(
    alloc: Global,
    entries: &mut Segments,
    others: &Segments,
    taken: &Taken,
) -> Result<Taken, AllocError>
    requires { HasNumbers others.now taken.now }

    ensures keeps { Keeps entries.old entries.new }
    ensures numbers { IfOk result (HasNumbers entries.new) }
    ensures given { IfOk result (λ put. given entries.new put ≡ given others.now taken.now) }
{
    match taken {
        Taken::Good(ordered) => {
            let theirs = others.segment(ordered.segment);
            let numbers = ordered.numbers.as_slice();
            // Nothing is read in between, so that rows are put to segments as large manifests are.
            let segment = entries.begin(alloc, numbers.len().max(SMALL))?;
            entries.reserve(segment, theirs.room_with(numbers, Room::none()))?;
            let added = entries.add_kept(segment, theirs, numbers)?;
            Ok(Taken::Good(Ordered {
                segment,
                numbers: Items::from_vec(added),
                order: Items::from_vec(ordered.order.as_slice().to_vec(alloc)?),
                rise: ordered.rise,
            }))
        }
        Taken::Bad(fault) => Ok(Taken::Bad(fault.copy(alloc)?)),
    }
}
