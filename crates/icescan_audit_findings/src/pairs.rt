//! Pairs of a column's id and what is said of it, whose ids rise.

ghost use Rattle.std.specs.Prelude.{◌≡◌, ◌≤◌, true, IfNone, IfSome, length};
ghost use Rattle.icescan_audit_findings.specs.Ids.{AreRising, HasNone, IsBefore, IsBehind, IsOf};

/// Whether the id of each pair is above that of the one before.
fn are_rising<T>(pairs: &[(i32, T)]) -> bool
    ensures { result ≡ true → AreRising pairs.now }
{
    'pairs: for i in 1..pairs.len() {
        if pairs[i - 1].0 >= pairs[i].0 {
            return false;
        }
    }
    true
}

/// Whether the id of the pair before a place is below an id, or there is none.
fn is_behind<T>(pairs: &[(i32, T)], place: usize, id: i32) -> bool
    requires { place ≤ length pairs.now }
    ensures { result ≡ true → IsBehind pairs.now place id }
{
    place == 0 || pairs[place - 1].0 < id
}

/// Whether the id of the pair at a place is above an id, or there is none.
fn is_before<T>(pairs: &[(i32, T)], place: usize, id: i32) -> bool
    requires { place ≤ length pairs.now }
    ensures { result ≡ true → IsBefore pairs.now place id }
{
    place == pairs.len() || id < pairs[place].0
}

/// Whether no pair, of those whose ids rise, has the id, since it lies between those of the pairs beside this place.
fn is_gap<T>(pairs: &[(i32, T)], place: usize, id: i32) -> bool
    requires { AreRising pairs.now }
    ensures { result ≡ true → HasNone pairs.now id }
{
    if place > pairs.len() {
        return false;
    }
    is_behind(pairs, place, id) && is_before(pairs, place, id)
}

/// The place of an id among those of pairs, which rise; quicker where there is none, and this would be its place.
#[inline(never)]
fn place_searched<T>(pairs: &[(i32, T)], near: usize, id: i32) -> Option<usize>
    requires { AreRising pairs.now }
    ensures there { IfSome result (IsOf pairs.now id) }
    ensures absent { IfNone result (HasNone pairs.now id) }
{
    if is_gap(pairs, near, id) {
        None
    } else {
        pairs.binary_search_by_key(&id, |pair| pair.0).ok()
    }
}

/// The same; quickest where it is this one.
#[inline(always)]
fn place_among<T>(pairs: &[(i32, T)], near: usize, id: i32) -> Option<usize>
    requires { AreRising pairs.now }
    ensures there { IfSome result (IsOf pairs.now id) }
    ensures absent { IfNone result (HasNone pairs.now id) }
{
    if near < pairs.len() && pairs[near].0 == id {
        return Some(near);
    }
    place_searched(pairs, near, id)
}

/// Pairs of an id and what is said of it, whose ids rise.
#[derive(Drop)]
pub struct RisingPairs<'a, T> {
    pub pairs: &'a [(i32, T)],
    /// The place at which an id is looked for first.
    next: usize,
    ghost rises: { AreRising pairs.now },
}

impl<'a, T: Copy> RisingPairs<'a, T> {
    ghost use Rattle.ice_value.specs.Pairs.{last_of};

    /// These pairs, if their ids rise.
    pub fn new(pairs: &'a [(i32, T)]) -> Option<Self>
        ensures { IfSome result (λ rising. rising.pairs.now ≡ pairs.now) }
    {
        if are_rising(pairs) {
            Some(RisingPairs { pairs, next: 0 })
        } else {
            None
        }
    }

    /// The same pairs, to be gone through from the first on.
    pub fn anew(&self) -> Self
        ensures { result.pairs ≡ self.now.pairs }
    {
        RisingPairs {
            pairs: self.pairs,
            next: 0,
        }
    }

    /// What the pairs say of an id. It is found quickest where it comes next behind the one that was found before.
    #[inline(always)]
    pub fn said_of(&mut self, id: i32) -> Option<T>
        ensures said { result ≡ last_of id self.old.pairs.now }
        ensures same { self.new.pairs ≡ self.old.pairs }
    {
        let place = place_among(self.pairs, self.next, id)?;
        self.next = place + 1;
        Some(self.pairs[place].1)
    }
}
