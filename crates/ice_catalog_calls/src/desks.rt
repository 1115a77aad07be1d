//! The step by which a desk's ticket is drawn, and plans by a desk's workers.

ghost use Rattle.std.specs.Prelude.{◌≡◌, ◌≤◌, ◌+◌, ◌%◌, ◌^◌, ℕ, List, None, IsErrOf, length};
ghost use mathlib.Core.Option.{none};
ghost use Rattle.atomic_table.specs.Table.{Allows, step};
ghost use Rattle.ice_desk.specs.Tickets.{Draws, IsKept, drawing};
ghost use Rattle.ice_desk.specs.Worlds.{HasAt};

use atomic_table::{Play, Seat as Place, Table};
use ice_desk::{Files, Gate, Hand, PlanFault, Size, Tickets};
use ice_state::{OwnedPlan, Scan};
use std::alloc::Global;
use std::thread::Threads;

/// A draw.
pub struct Draw;

impl Play<(), Hand> for Draw {
    ghost use Rattle.ice_desk.specs.Tickets.{Draws};

    ghost then = { Draws };
}

/// The number that is drawn next, by one step that a desk's rule allows. Another seat may draw before a second step.
pub fn draw_ticket(
    table: &Table<(), Hand, Size, Tickets, Global>,
    place: &mut Place<(), Hand>,
) -> u64
    requires table { place.old.table_id ≡ table.now.shared.table_id }
    requires word { 1 ≤ table.now.shared.table_id.words }
    requires allowed { Allows (λ s. IsKept table.now.shared.key s.words s.views) table.now.shared.table_id.slots
        place.old.id place.old.me 0 (λ n. (n + 1) % 2 ^ 64)
        (Draws (step table.now.shared.table_id.slots 0 1 0 none) place.old.me) }
    ensures { place.new.me.0 ≡ drawing place.old.me.0 result }
{
    table.shared.fetch_add::<Draw>(place, 0, 1)
}

/// The plan of a scan by so many workers.
pub fn plan_scan<R: Threads + Sync, F: Files + Sync, G: Gate + Sync>(
    rt: &R,
    alloc: Global,
    files: &F,
    scan: &Scan,
    workers: usize,
    gate: &G,
) -> Result<OwnedPlan, PlanFault>
    requires { length scan.now.wanted ≤ 65536 }
    ensures { (path : List ℕ) → IsErrOf result (PlanFault.Absent path) → HasAt (F.world files.now) path None }
{
    ice_desk::plan_scan(rt, alloc, files, scan, workers, gate)
}
