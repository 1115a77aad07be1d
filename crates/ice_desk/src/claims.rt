//! What a seat does at its desk.

ghost use Rattle.std.specs.Prelude.{◌≡◌, ◌*◌, ◌+◌, ◌<◌, ◌≤◌, ◌^◌, ℕ, IfOk, IsTrue, vec_len, length, false, [], Some};
ghost use Rattle.std.specs.Prelude.{slice_get};
ghost use Rattle.std.specs.List.{All};
ghost use Rattle.ice_desk.specs.Tickets.{once_below, times, one_seat, marking};
ghost use Rattle.ice_desk.specs.Seats.{IsSeatOf, IsFresh, hand_of, had_done, Claims, Saw, limit_of};
ghost use Rattle.ice_desk.specs.Seats.{drawn_in, marked_in, seen_in};

use crate::desk::{Claim, Desk, Seat};
use crate::hand::{Hand, Size};
use crate::tickets::{Cut, Draw, Gather, Look, Mark, Tickets};
use atomic_table::{Seat as Place, Table};
use std::alloc::{AllocError, Global};

impl Desk {
    /// A desk for so many manifests, each drawn in so many rounds, and its seats.
    pub fn new(
        alloc: Global,
        manifests: usize,
        rounds: usize,
        seats: usize,
    ) -> Result<(Desk, Vec<Seat>), AllocError>
        requires manifests { manifests ≤ 65536 }
        requires rounds { (0 < rounds) × (rounds ≤ 3) }
        requires seats { (0 < seats) × (seats ≤ 64) }
        ensures desk { IfOk result (λ r. (r.0.manifests ≡ manifests) × (r.0.rounds ≡ rounds) × (r.0.seats ≡ seats)) }
        ensures count { IfOk result (λ r. vec_len r.1 ≡ seats) }
        ensures seats { IfOk result (λ r. All (IsSeatOf r.0) r.1.items) }
        ensures fresh { IfOk result (λ r. All IsFresh r.1.items) }
    {
        let words = vec![in alloc; 0; manifests + 1]?;
        let size = Size {
            manifests: manifests as u64,
            limit: (manifests * rounds) as u64,
            seats: seats as u64,
        };
        let (table, place) = Table::<(), Hand, Size, Tickets, Global>::of_words(
            alloc,
            words.as_slice(),
            &size,
        )?;
        let desk = Desk {
            table,
            manifests,
            rounds,
            seats,
        };
        let seats = desk.cut(alloc, place)?;
        Ok((desk, seats))
    }

    /// How many manifests there are.
    pub fn manifests(&self) -> usize
        ensures { result ≡ self.now.manifests }
    {
        self.manifests
    }

    /// The desk's seats, out of one that stands for them all.
    fn cut(&self, alloc: Global, mut place: Place<(), Hand>) -> Result<Vec<Seat>, AllocError>
        requires table { place.table_id ≡ self.now.table.shared.table_id }
        requires all { (place.me.0 ≡ record one_seat { seats = self.now.seats }) }
        requires free { place.me.1 ≡ [] }
        ensures count { IfOk result (λ r. vec_len r ≡ self.now.seats) }
        ensures seats { IfOk result (λ r. All (IsSeatOf self.now) r.items) }
        ensures fresh { IfOk result (λ r. All IsFresh r.items) }
    {
        let mut seats = Vec::with_capacity(alloc, self.seats)?;
        for _ in 1..self.seats {
            let one = self.table.shared.split_seat::<Cut>(&mut place);
            seats.push(Seat {
                place: one,
                done: false,
            })?;
        }
        seats.push(Seat { place, done: false })?;
        Ok(seats)
    }

    /// The next ticket's manifest. A seat that had `Done` draws no more.
    pub fn claim(&self, seat: &mut Seat) -> Claim
        requires { IsSeatOf self.now seat.old }
        ensures seat { IsSeatOf self.now seat.new }
        ensures claims { Claims self.now seat.old seat.new result }
    {
        if seat.done {
            return Claim::Done;
        }
        let ticket = self.table.shared.fetch_add::<Draw>(&mut seat.place, 0, 1) as usize;
        if ticket >= self.manifests * self.rounds {
            seat.done = true;
            return Claim::Done;
        }
        Claim::Index(ticket % self.manifests)
    }

    /// Marks a manifest. It stays marked.
    pub fn mark(&self, seat: &mut Seat, i: usize)
        requires seat { IsSeatOf self.now seat.old }
        requires manifest { i < self.now.manifests }
        ensures seat { IsSeatOf self.now seat.new }
        ensures marked { hand_of seat.new ≡ marking (hand_of seat.old) i }
    {
        self.table.shared.store::<Mark>(&mut seat.place, i + 1, 1);
    }

    /// Whether a manifest is marked, by whichever seat.
    pub fn look(&self, seat: &mut Seat, i: usize) -> bool
        requires seat { IsSeatOf self.now seat.old }
        requires manifest { i < self.now.manifests }
        ensures seat { IsSeatOf self.now seat.new }
        ensures saw { Saw seat.old seat.new i result }
    {
        self.table.shared.load::<Look>(&mut seat.place, i + 1) == 1
    }

    /// The number that would be drawn next, once all seats are back.
    pub fn close(self, seats: Vec<Seat>) -> u64
        requires count { vec_len seats ≡ self.seats }
        requires seats { All (IsSeatOf self) seats.items }
        ensures once { (t : ℕ) → drawn_in seats.items t ≡ once_below t result }
        ensures whole { (k : ℕ) (s : Seat) → slice_get seats.items k ≡ Some s → IsTrue (had_done self s) → (t : ℕ) →
            t < limit_of self → drawn_in seats.items t ≡ 1 }
        // What a seat saw marked, some seat marked.
        ensures seen { (i : ℕ) → 0 < seen_in seats.items i → 0 < marked_in seats.items i }
        ensures small { result ≤ limit_of self + self.seats }
    {
        let place = self.gather(seats);
        let Desk {
            table,
            manifests: _,
            rounds: _,
            seats: _,
        } = self;
        let closed = table.close_with(place);
        let word = closed.word(0);
        closed.free();
        word
    }

    /// One seat that did what these did.
    fn gather(&self, mut seats: Vec<Seat>) -> Place<(), Hand>
        requires count { vec_len seats ≡ self.now.seats }
        requires seats { All (IsSeatOf self.now) seats.items }
        ensures table { result.table_id ≡ self.now.table.shared.table_id }
        ensures all { result.me.0.seats ≡ self.now.seats }
        ensures drawn { (t : ℕ) → times t result.me.0.drawn ≡ drawn_in seats.items t }
        ensures marked { (i : ℕ) → times i result.me.0.marked ≡ marked_in seats.items i }
        ensures seen { (i : ℕ) → times i result.me.0.seen ≡ seen_in seats.items i }
    {
        let Some(Seat { mut place, done: _ }) = seats.pop() else {
            unreachable!()
        };
        while let Some(
            Seat {
                place: other,
                done: _,
            },
        ) = seats.pop()
        {
            self.table.shared.join_seat::<Gather>(&mut place, other);
        }
        place
    }
}
