//! Calls on states, desks and books, with what each is as an event of a machine. They do nothing else.

ghost use Rattle.std.specs.Prelude.{◌≡◌, ◌≢◌, ◌<◌, ◌≤◌, ◌++◌, ℕ, List, Some, IfErr, IfOk, IsTrue, OnOk, length};
ghost use Rattle.ice_catalog.specs.Machines.{Machine, PinnedScan, event, scan_of, world_of};
ghost use Rattle.ice_catalog.specs.declared.event.Event.TheVariants.{Commit, Finish, Merge, Pin, Take};
ghost use Rattle.ice_catalog.specs.declared.event.Reply.TheVariants.{Merged, Planned, Taken, Unfinished};
ghost use Rattle.ice_desk.specs.Seats.{IsSeatOf, hand_of};
ghost use Rattle.ice_filter.specs.declared.predicate.Predicate.{Predicate};
ghost use Rattle.ice_filter.specs.declared.parts.Part.{Part};
ghost use Rattle.ice_state.specs.Contents.{IsOf, content, every_row, is_row_taken};
ghost use Rattle.ice_catalog_laws.specs.Calls.{GoesOnFrom, IsOfReply, reply_to};
ghost use Rattle.ice_catalog_laws.specs.Playing.{ComesByTakes, IsOfTicket};
ghost use Rattle.ice_catalog_laws.specs.Workers.{HasManifest, HasState, IsPut, nothing_taken};

use ice_catalog_book::{Book, Conflict};
use ice_catalog_versions::{Prepared, Receipt, a_commit_is_one_step};
use ice_desk::{Desk, Files, Gate, Left, PlanFault, Seat};
use ice_state::{FinishFault, OwnedPlan, Partial, Plan, Scan};
use std::alloc::{AllocError, Global};
use std::thread::Threads;

/// The empty state of a scan is what each of the 64 workers has where the scan is pinned.
pub fn begin(alloc: Global, scan: &Scan) -> Result<Partial, AllocError>
    ensures { (m : Machine) (filter : List (Part Predicate)) (w : ℕ) → scan_of m.history filter ≡ Some scan.now →
        w < 64 → IfOk result (λ state. (p : PinnedScan) × (p.scan ≡ scan.now)
        × HasState (event m (Pin filter)).1 (length m.pins) w p state) }
{
    Partial::empty(alloc, scan)
}

/// Taking a manifest that the scanned version has is the event `Take` of each worker that has the state.
pub fn take(scan: &Scan, state: &mut Partial, i: usize, bytes: &[u8]) -> Result<(), AllocError>
    requires of_scan { IsOf scan.now state.old }
    requires row { i < length scan.now.wanted }
    ensures { (m : Machine) (k w : ℕ) (p : PinnedScan) → p.scan ≡ scan.now → HasState m k w p state.old →
        HasManifest p i bytes.now →
        OnOk result (((event m (Take k w i)).0 ≡ Taken) × IsPut m (event m (Take k w i)).1 k w p state.new) }
{
    state.take(scan, i, bytes)
}

/// Merging one state into another is the event `Merge` of each two workers of a scan that have them.
pub fn merge(state: &mut Partial, other: &Partial) -> Result<(), AllocError>
    requires { length state.old ≡ length other.now }
    ensures { (m : Machine) (k into from : ℕ) (p : PinnedScan) →
        HasState m k into p state.old → HasState m k from p other.now →
        OnOk result (((event m (Merge k into from)).0 ≡ Merged)
        × IsPut m (event m (Merge k into from)).1 k into p state.new) }
{
    state.merge(other)
}

/// What finishing a state gives is what is replied to the event `Finish` of each worker that has it.
pub fn finish<'a>(scan: &Scan, state: &'a Partial) -> Result<Plan<'a>, FinishFault>
    requires { IsOf scan.now state.now }
    ensures plan { (m : Machine) (k w : ℕ) (p : PinnedScan) → p.scan ≡ scan.now → HasState m k w p state.now →
        IfOk result (λ plan. (event m (Finish k w)).0 ≡ Planned plan) }
    ensures fault { (m : Machine) (k w : ℕ) (p : PinnedScan) → p.scan ≡ scan.now → HasState m k w p state.now →
        IfErr result (λ fault. fault ≢ FinishFault.Memory → (event m (Finish k w)).0 ≡ Unfinished fault) }
{
    state.finish(scan)
}

/// The run of a worker at a desk is `Take` after `Take`: where it reads the files of the scanned version, each worker
/// that has the state can take rows of the tickets that were drawn, one after the other. Each take is replied `Taken`,
/// and then that worker has the state that comes of the run.
pub fn work<F: Files, G: Gate>(
    alloc: Global,
    files: &F,
    scan: &Scan,
    desk: &Desk,
    seat: &mut Seat,
    state: &mut Partial,
    worker: usize,
    gate: &G,
) -> Left
    requires seat { IsSeatOf desk.now seat.old }
    requires state { IsOf scan.now state.old }
    requires desk { desk.now.manifests ≡ length scan.now.wanted }
    ensures { (m : Machine) (k w : ℕ) (p : PinnedScan) → F.world files.now ≡ Some (world_of p.history) →
        p.scan ≡ scan.now → HasState m k w p state.old →
        (tickets : List ℕ) × ((hand_of seat.new).drawn ≡ (hand_of seat.old).drawn ++ tickets)
        × ComesByTakes m k w p (IsOfTicket desk.now tickets) state.new }
{
    ice_desk::work(alloc, files, scan, desk, seat, state, worker, gate)
}

/// What many workers took together, however they shared the manifests and merged their states, is what one worker of a
/// scan has that takes the same rows, one after the other, where the files are those of the scanned version.
pub fn take_by_workers<R: Threads + Sync, F: Files + Sync, G: Gate + Sync>(
    rt: &R,
    alloc: Global,
    files: &F,
    scan: &Scan,
    workers: usize,
    gate: &G,
) -> Result<(Partial, Left), AllocError>
    requires scan { length scan.now.wanted ≤ 65536 }
    requires workers { (0 < workers) × (workers ≤ 64) }
    ensures { (m : Machine) (k w : ℕ) (p : PinnedScan) → F.world files.now ≡ Some (world_of p.history) →
        p.scan ≡ scan.now → HasState m k w p (nothing_taken scan.now) →
        IfOk result (λ r. ComesByTakes m k w p (λ i. IsTrue (is_row_taken r.0 i)) r.0) }
{
    ice_desk::take_by_workers(rt, alloc, files, scan, workers, gate)
}

/// The plan by many workers, or the fault that finishing gives, is what is replied to the event `Finish` of each worker
/// whose state has all that every wanted manifest gives, where the files are those of the scanned version.
pub fn plan_scan<R: Threads + Sync, F: Files + Sync, G: Gate + Sync>(
    rt: &R,
    alloc: Global,
    files: &F,
    scan: &Scan,
    workers: usize,
    gate: &G,
) -> Result<OwnedPlan, PlanFault>
    requires { length scan.now.wanted ≤ 65536 }
    ensures { (m : Machine) (k w : ℕ) (p : PinnedScan) → F.world files.now ≡ Some (world_of p.history) →
        p.scan ≡ scan.now → HasState m k w p (content (world_of p.history) scan.now (every_row scan.now)) →
        IsOfReply result (event m (Finish k w)).0 }
{
    ice_desk::plan_scan(rt, alloc, files, scan, workers, gate)
}

/// Swapping a commit in is the event `Commit` on the number of its base, where the book goes on from that base: it is
/// made or handed back as the event is replied to, and the book has the version that is then the newest.
pub fn swap_in(book: &mut Book, prepared: Prepared) -> Result<Receipt, Conflict>
    ensures { (m : Machine) → m.history ≡ book.old → GoesOnFrom prepared.base book.old →
        event m (Commit (length prepared.base.journal) prepared.commit.change prepared.commit.ids)
        ≡ (reply_to book.old result, record { history = book.new; pins = m.pins }) }
{
    a_commit_is_one_step();
    let _after = prepared.version().state();
    book.swap_in(prepared)
}
