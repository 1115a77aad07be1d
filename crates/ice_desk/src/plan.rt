//! The plan of a scan by workers.

ghost use Rattle.std.specs.Prelude.{◌≡◌, ◌⊎◌, ◌+◌, ◌^◌, ◌<◌, ◌≤◌, ◌++◌, ◌↔◌, ℕ, List, [], Bool, IfOk, IfErr, IsErrOf};
ghost use Rattle.std.specs.Prelude.{None, Some, vec_len, length};
ghost use Rattle.std.specs.Thread.{IsSync};
ghost use Rattle.ice_meta.specs.declared.spec.Spec.{Spec};
ghost use Rattle.ice_manifest_reading.specs.declared.row.Row.{Row};
ghost use Rattle.ice_state.specs.Contents.{Content, World, HasEach, IsOf, content, every_row};
ghost use Rattle.ice_state.specs.Covering.{AreCovered};
ghost use Rattle.ice_state.specs.Joins.{either, join};
ghost use Rattle.ice_state.specs.Outcomes.{outcome};
ghost use Rattle.ice_state.specs.Pruning.{pruner_of};
ghost use Rattle.ice_state.specs.Scans.{IsScanOf, Scanned};
ghost use Rattle.ice_state.specs.Snapshots.{plan_of_snapshot};
ghost use Rattle.ice_state.specs.declared.fault.FinishFault.TheVariants as finish;
ghost use Rattle.ice_desk.specs.Given.{IsGiven};
ghost use Rattle.ice_desk.specs.Left.{all_left, failed, left_by_both};
ghost use Rattle.ice_desk.specs.Plans.{AreReady, AreServed, GivesPlan, IfFinished, MayStopPlan};
ghost use Rattle.ice_desk.specs.Wanted.{IsContentOf, paths_of, untaken};
ghost use Rattle.ice_desk.specs.Works.{Lacks, MayFailAt};
ghost use Rattle.ice_desk.specs.Worlds.{HasAt};

use crate::desk::{Desk, Seat};
use crate::fault::PlanFault;
use crate::files::Files;
use crate::left::Left;
use crate::wanted::take_wanted;
use crate::workers::{Gate, work};
use ice_state::{OwnedPlan, Partial, Scan};
use std::alloc::{AllocError, Global};
use std::thread::{Threads, join};

/// How often each manifest is drawn.
const ROUNDS: usize = 3;

/// How many workers there may be.
pub const MOST_WORKERS: usize = 64;

/// Workers that are done: their seats, what they took together, and how many tickets they left.
#[derive(Drop)]
struct Crew {
    seats: Vec<Seat>,
    state: Partial,
    left: Left,
}

/// One worker's run.
fn work_one<F: Files, G: Gate>(
    alloc: Global,
    files: &F,
    scan: &Scan,
    desk: &Desk,
    mut seats: Vec<Seat>,
    worker: usize,
    gate: &G,
) -> Result<Crew, AllocError>
    requires one { vec_len seats ≡ 1 }
    requires ready { AreReady desk.now scan.now seats.items }
    ensures count { IfOk result (λ crew. vec_len crew.seats ≡ vec_len seats) }
    ensures served { IfOk result (λ crew.
        AreServed (F.world files.now) (F.may_fail files.now) desk.now scan.now crew.seats.items crew.state crew.left) }
    ensures given { IfOk result (λ crew. IsGiven (F.gives files.now) scan.now crew.state) }
{
    let mut state = Partial::empty(alloc, scan)?;
    let left = work(
        alloc,
        files,
        scan,
        desk,
        &mut seats[0],
        &mut state,
        worker,
        gate,
    );
    Ok(Crew { seats, state, left })
}

/// What two crews did together.
fn both(first: Crew, second: Crew) -> Result<Crew, AllocError>
    requires state { length first.state ≡ length second.state }
    requires small { all_left first.left + all_left second.left < 2 ^ 64 }
    ensures seats { IfOk result (λ crew. crew.seats.items ≡ first.seats.items ++ second.seats.items) }
    ensures count { IfOk result (λ crew. vec_len crew.seats ≡ vec_len first.seats + vec_len second.seats) }
    ensures state { IfOk result (λ crew. crew.state ≡ join first.state second.state) }
    ensures left { IfOk result (λ crew. crew.left ≡ left_by_both first.left second.left) }
    ensures content { (world : World) (scan : Scanned) (ts us : List Bool) →
        first.state ≡ content world scan ts →
        second.state ≡ content world scan us →
        IfOk result (λ crew. crew.state ≡ content world scan (either ts us)) }
{
    let Crew {
        mut seats,
        mut state,
        left,
    } = first;
    let Crew {
        seats: mut others,
        state: other,
        left: more,
    } = second;
    state.absorb(other)?;
    seats.append(&mut others)?;
    Ok(Crew {
        seats,
        state,
        left: left.plus(more),
    })
}

/// Lets workers draw from these seats, the first of which has this number: by halves of the seats, each half in a
/// thread of its own where one can be started.
fn work_all<R: Threads + Sync, F: Files + Sync, G: Gate + Sync>(
    rt: &R,
    alloc: Global,
    files: &F,
    scan: &Scan,
    desk: &Desk,
    mut seats: Vec<Seat>,
    first: usize,
    gate: &G,
) -> Result<Crew, AllocError>
    requires some { (0 < vec_len seats) × (first + vec_len seats ≤ 64) }
    requires ready { AreReady desk.now scan.now seats.items }
    ensures count { IfOk result (λ crew. vec_len crew.seats ≡ vec_len seats) }
    ensures served { IfOk result (λ crew.
        AreServed (F.world files.now) (F.may_fail files.now) desk.now scan.now crew.seats.items crew.state crew.left) }
    ensures given { IfOk result (λ crew. IsGiven (F.gives files.now) scan.now crew.state) }
{
    if seats.len() == 1 {
        return work_one(alloc, files, scan, desk, seats, first, gate);
    }
    let half = seats.len() / 2;
    let right = seats.split_off(half)?;
    let (left, right) = join(
        rt,
        || -> Result<Crew, AllocError>
            requires { IsSync R.row × IsSync F.row × IsSync G.row ×
                (0 < vec_len seats) × (first + vec_len seats ≤ 64) × AreReady desk.now scan.now seats.items }
            ensures { IfOk result (λ crew. (vec_len crew.seats ≡ vec_len seats) ×
                AreServed (F.world files.entry.now) (F.may_fail files.entry.now) desk.entry.now scan.entry.now
                crew.seats.items crew.state crew.left × IsGiven (F.gives files.entry.now) scan.entry.now crew.state) }
        { work_all(rt, alloc, files, scan, desk, seats, first, gate) },
        || -> Result<Crew, AllocError>
            requires { IsSync R.row × IsSync F.row × IsSync G.row ×
                (0 < vec_len right) × (first + half + vec_len right ≤ 64) × AreReady desk.now scan.now right.items }
            ensures { IfOk result (λ crew. (vec_len crew.seats ≡ vec_len right) ×
                AreServed (F.world files.entry.now) (F.may_fail files.entry.now) desk.entry.now scan.entry.now
                crew.seats.items crew.state crew.left × IsGiven (F.gives files.entry.now) scan.entry.now crew.state) }
        { work_all(rt, alloc, files, scan, desk, right, first + half, gate) },
    );
    both(left?, right?)
}

/// What so many workers take of a scan's manifests, and how many tickets they leave: from 1 to 64 workers, which draw
/// from one desk, in threads of their own where these can be started. Each manifest is drawn three times: one that a
/// worker can't read or take is tried again, and one that was taken is passed over. At most 65,536 manifests may be
/// wanted. `gate` is told of each read.
pub fn take_by_workers<R: Threads + Sync, F: Files + Sync, G: Gate + Sync>(
    rt: &R,
    alloc: Global,
    files: &F,
    scan: &Scan,
    workers: usize,
    gate: &G,
) -> Result<(Partial, Left), AllocError>
    requires scan { length scan.now.wanted ≤ 65536 }
    requires workers { (0 < workers) × (workers ≤ 64) }
    ensures of_scan { IfOk result (λ r. IsOf scan.now r.0) }
    // Over files that tell their world: what they took is there.
    ensures content { (world : World) → F.world files.now ≡ Some world →
        IfOk result (λ r. (ts : List Bool) × IsContentOf world scan.now r.0 ts) }
    // Where no read or take failed, nothing is left to take.
    ensures whole { IfOk result (λ r. failed r.1 ≡ 0 → untaken r.0 scan.now.wanted ≡ []) }
    // A ticket counts as absent, or as a failed read, only where a manifest's file is not there, or its read may fail.
    ensures absent { IfOk result (λ r. 0 < r.1.absent → (i : ℕ) × Lacks (F.world files.now) scan.now i) }
    ensures device { IfOk result (λ r. 0 < r.1.device → (i : ℕ) × MayFailAt (F.may_fail files.now) scan.now i) }
    // Over all files: what they took is read from bytes that reads of these files gave.
    ensures given { IfOk result (λ r. IsGiven (F.gives files.now) scan.now r.0) }
{
    let (desk, seats) = Desk::new(alloc, scan.wanted().len(), ROUNDS, workers)?;
    let Crew { seats, state, left } = work_all(rt, alloc, files, scan, &desk, seats, 0, gate)?;
    desk.close(seats);
    Ok((state, left))
}

/// The plan of a scan by so many workers, from 1 to 64, or by fewer where they would take much memory for its filter.
/// They read and take its manifests at once, and try each that fails up to three times; those that they leave are taken
/// after them, in the order of their paths. At most 65,536 manifests may be wanted.
///
/// Whatever the number of workers, and whichever takes what: the plan is that of the state in which every wanted
/// manifest was taken, and so is the fault, `Finish`, that keeps this from being one. The other refusals are `Absent`
/// for the least path that is not there, or `Device` for one whose read failed again after the workers were done, and
/// then all before it are there; `Memory`; and `Workers`, which comes before all others. `gate` is told of each read of
/// a worker.
pub fn plan_scan<R: Threads + Sync, F: Files + Sync, G: Gate + Sync>(
    rt: &R,
    alloc: Global,
    files: &F,
    scan: &Scan,
    workers: usize,
    gate: &G,
) -> Result<OwnedPlan, PlanFault>
    requires { length scan.now.wanted ≤ 65536 }

    ensures workers { IsErrOf result PlanFault.Workers ↔ ((workers ≡ 0) ⊎ (64 < workers)) }

    // Over files that tell their world: what finishing gives where every wanted manifest was taken, and each is there.
    ensures outcome { (world : World) → F.world files.now ≡ Some world →
        GivesPlan (λ plan. plan) result (outcome scan.now (content world scan.now (every_row scan.now))) }
    ensures present { (world : World) → F.world files.now ≡ Some world →
        IfFinished result (HasEach world scan.now.wanted) }
    ensures snapshot { (world : World) (rows : List Row) (specs : List Spec) →
        F.world files.now ≡ Some world →
        IsScanOf rows specs scan.now →
        AreCovered world specs rows →
        GivesPlan (λ plan. plan) result (plan_of_snapshot (pruner_of scan.now.filter specs) world specs rows) }
    ensures refused { (world : World) → F.world files.now ≡ Some world →
        IfErr result (MayStopPlan world (F.may_fail files.now) (paths_of scan.now.wanted)) }

    // Over all files.
    ensures taken { IfFinished result ((state : Content) × IsOf scan.now state × (untaken state scan.now.wanted ≡ [])
        × GivesPlan (λ plan. plan) result (outcome scan.now state)) }
    // And each manifest of that state is read from bytes that a read of its path gave.
    ensures given { IfFinished result ((state : Content) × IsOf scan.now state × (untaken state scan.now.wanted ≡ [])
        × IsGiven (F.gives files.now) scan.now state × GivesPlan (λ plan. plan) result (outcome scan.now state)) }
    ensures missing { (path : List ℕ) → IsErrOf result (PlanFault.Finish (finish.Missing path)) → ⊥ }
    ensures memory { IsErrOf result (PlanFault.Finish finish.Memory) → ⊥ }
    ensures absent { (path : List ℕ) → IsErrOf result (PlanFault.Absent path) → HasAt (F.world files.now) path None }
    ensures device { (path : List ℕ) → IsErrOf result (PlanFault.Device path) → F.may_fail files.now path }
    ensures none_given { (path : List ℕ) → IsErrOf result (PlanFault.Absent path) → F.gives files.now path None }
{
    if workers == 0 || workers > MOST_WORKERS {
        return Err(PlanFault::Workers);
    }
    let workers = scan.workers(workers);
    let (mut state, _) = take_by_workers(rt, alloc, files, scan, workers, gate)?;
    take_wanted(alloc, files, scan, &mut state)?;
    let plan = state.into_plan_by(rt, scan, workers)?;
    Ok(plan)
}
