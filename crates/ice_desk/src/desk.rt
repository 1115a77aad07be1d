//! The desk and its seats.

ghost use Rattle.std.specs.Prelude.{◌≡◌, ◌*◌, ◌+◌, ◌<◌, ◌≤◌};

use crate::hand::{Hand, Size};
use crate::tickets::Tickets;
use atomic_table::{Seat as Place, Table};
use std::alloc::Global;

/// Hands out each ticket once, and keeps a mark for each manifest.
#[derive(Drop)]
pub struct Desk {
    pub(crate) table: Table<(), Hand, Size, Tickets, Global>,
    pub(crate) manifests: usize,
    pub(crate) rounds: usize,
    pub(crate) seats: usize,
    pub ghost words: { table.shared.table_id.words ≡ manifests + 1 },
    pub ghost slots: { table.shared.table_id.slots ≡ 0 },
    pub ghost size: { table.shared.key ≡ record { manifests = manifests; limit = manifests * rounds; seats = seats } },
    pub ghost small: { (manifests ≤ 65536) × (rounds ≤ 3) × (0 < seats) × (seats ≤ 64) },
}

/// A right to draw, to mark and to look.
#[derive(Drop)]
pub struct Seat {
    pub(crate) place: Place<(), Hand>,
    pub(crate) done: bool,
}

/// What a draw gives.
#[derive(Clone, Copy, Debug, PartialEq, Eq)]
pub enum Claim {
    /// The manifest of the ticket.
    Index(usize),
    /// There are no tickets any more.
    Done,
}
