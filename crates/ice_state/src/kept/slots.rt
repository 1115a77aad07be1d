//! A slot for each wanted row: what its manifest gave, where it was taken.

ghost use Rattle.std.specs.Prelude.{◌≡◌, ◌<◌, ◌≤◌, ◌++◌, vec_len};
ghost use Rattle.ice_state.specs.Contents.{with_row};
ghost use Rattle.ice_state.specs.Joins.{join};
ghost use Rattle.ice_state.specs.Segments.{AreBefore, Segmented};
ghost use Rattle.ice_state.specs.Slots.{contents, given, HasNumbers, HaveNumbers};

use crate::kept::ordered::Ordered;
use crate::kept::taken::Taken;

/// Adds a row.
pub fn put_row(slots: &mut Vec<Option<Taken>>, i: usize, taken: Taken)
    requires { i < vec_len slots.old }
    ensures len { vec_len slots.new ≡ vec_len slots.old }
    ensures row { (kept : Segmented) →
        contents kept slots.new.items ≡ with_row (contents kept slots.old.items) i (given kept taken) }
    ensures numbers { (kept : Segmented) → HaveNumbers kept slots.old.items → HasNumbers kept taken →
        HaveNumbers kept slots.new.items }
{
    if slots[i].is_none() {
        slots[i] = Some(taken);
    }
}

/// Adds all that was gained.
pub fn put_all(slots: &mut Vec<Option<Taken>>, mut gained: Vec<Option<Taken>>)
    requires { vec_len gained ≤ vec_len slots.old }
    ensures rows { (kept : Segmented) →
        contents kept slots.new.items ≡ join (contents kept slots.old.items) (contents kept gained.items) }
    ensures numbers { (kept : Segmented) → HaveNumbers kept slots.old.items → HaveNumbers kept gained.items →
        HaveNumbers kept slots.new.items }
{
    while let Some(slot) = gained.pop() {
        if let Some(taken) = slot {
            put_row(slots, gained.len(), taken);
        }
    }
}

/// What a manifest gave, where so many segments stand before its own.
fn behind(taken: Taken, before: u32) -> Taken
    ensures numbers { (firsts kept : Segmented) → AreBefore before firsts kept → HasNumbers kept taken →
        HasNumbers (firsts ++ kept) result }
    ensures given { (firsts kept : Segmented) → AreBefore before firsts kept → HasNumbers kept taken →
        given (firsts ++ kept) result ≡ given kept taken }
{
    match taken {
        Taken::Good(ordered) => Taken::Good(Ordered {
            segment: ordered.segment.saturating_add(before),
            numbers: ordered.numbers,
            order: ordered.order,
            rise: ordered.rise,
        }),
        Taken::Bad(fault) => Taken::Bad(fault),
    }
}

/// Adds all that was gained in another state, where so many segments stand before its own.
pub fn put_behind(slots: &mut Vec<Option<Taken>>, mut gained: Vec<Option<Taken>>, before: u32)
    requires { vec_len gained ≤ vec_len slots.old }
    ensures rows { (firsts kept : Segmented) → AreBefore before firsts kept → HaveNumbers kept gained.items →
        contents (firsts ++ kept) slots.new.items
        ≡ join (contents (firsts ++ kept) slots.old.items) (contents kept gained.items) }
    ensures numbers { (firsts kept : Segmented) → AreBefore before firsts kept → HaveNumbers kept gained.items →
        HaveNumbers (firsts ++ kept) slots.old.items → HaveNumbers (firsts ++ kept) slots.new.items }
{
    while let Some(slot) = gained.pop() {
        if let Some(taken) = slot {
            put_row(slots, gained.len(), behind(taken, before));
        }
    }
}
