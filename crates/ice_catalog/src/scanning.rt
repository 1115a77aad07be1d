//! A scan of a pinned version by its workers.

ghost use Rattle.std.specs.Prelude.{◌≡◌, ◌<◌, List, Bool, Some, None, length, replicate, IfOk, OnOk, slice_get};
ghost use Rattle.std.specs.Prelude.{slice_set, vec_len};
ghost use Rattle.std.specs.Arc.{arc_value};
ghost use Rattle.ice_catalog.specs.Machines.{take, merge, finish, finished, pinned_on, world_of};
ghost use Rattle.ice_catalog.specs.Taken.{AreStatesOf, AreTaken, IsStateOf, IsTaken, rows_of, set_of, sets_of};
ghost use Rattle.ice_state.specs.Contents.{HasBytes, IsOf, World, add, content};
ghost use Rattle.ice_state.specs.Joins.{either};
ghost use Rattle.ice_state.specs.Outcomes.{outcome};

use crate::event::Reply;
use crate::pinning::{PinFault, scan_of};
use ice_catalog_versions::Version;
use ice_filter::Filter;
use ice_state::{FinishFault, Partial, Scan};
use std::alloc::{AllocError, Global};
use std::marker::Model;
use std::sync::Arc;

/// How many workers a scan has.
const WORKERS: usize = 64;

/// A scan of a pinned version, and the states of its workers. A worker that took nothing has none yet.
#[derive(Drop)]
pub struct Scanning {
    version: Arc<Version>,
    scan: Scan,
    workers: Vec<Option<Partial>>,
    alloc: Global,
}

impl Model for Scanning {
    ghost use Rattle.std.specs.Arc.{arc_value};
    ghost use Rattle.ice_catalog.specs.Machines.{PinnedScan, world_of};
    ghost use Rattle.ice_catalog.specs.PinCodes.{pinned_code};
    ghost use Rattle.ice_catalog.specs.Taken.{AreTaken, sets_of};

    ghost Value = { PinnedScan };

    ghost coded = { pinned_code };

    ghost view = { λ s.
        record { history = arc_value s.version; scan = s.scan; workers = sets_of s.scan s.workers.items } };

    ghost invariant = { λ s. AreTaken (world_of (arc_value s.version)) s.scan s.workers.items };
}

impl Scanning {
    /// The scan of a version under a filter, where there is one.
    pub fn new(
        alloc: Global,
        version: Arc<Version>,
        filter: &Filter,
    ) -> Result<Option<Scanning>, AllocError>
        ensures { IfOk result (λ scan. scan ≡ pinned_on (arc_value version) filter.now) }
    {
        let (metadata, world) = version.state();
        let scan = match scan_of(alloc, metadata, world, filter) {
            Ok(scan) => scan,
            Err(PinFault::Refused) => return Ok(None),
            Err(PinFault::Memory) => return Err(AllocError),
        };
        let workers = no_states(alloc)?;
        Ok(Some(Scanning {
            version,
            scan,
            workers,
            alloc,
        }))
    }

    /// A worker takes a wanted row.
    pub fn take(&mut self, worker: usize, i: usize) -> Result<Reply, AllocError>
        ensures { IfOk result (λ reply. (reply, self.new) ≡ take self.old worker i) }
    {
        take_row(
            self.alloc,
            &self.version,
            &self.scan,
            &mut self.workers,
            worker,
            i,
        )
    }

    /// A worker takes over what another one took.
    pub fn merge(&mut self, into: usize, from: usize) -> Result<Reply, AllocError>
        ensures { IfOk result (λ reply. (reply, self.new) ≡ merge self.old into from) }
    {
        if into >= self.workers.len() || from >= self.workers.len() {
            return Ok(Reply::NoSuch);
        }
        merge_states(self.alloc, &self.scan, &mut self.workers, into, from)?;
        Ok(Reply::Merged)
    }

    /// A worker finishes.
    pub fn finish(&self, worker: usize) -> Result<Reply, AllocError>
        ensures { IfOk result (λ reply. reply ≡ finish self.now worker) }
    {
        match self.workers.get(worker) {
            Some(state) => finish_state(self.alloc, &self.scan, state),
            None => Ok(Reply::NoSuch),
        }
    }
}

/// The workers of a scan that took nothing.
fn no_states(alloc: Global) -> Result<Vec<Option<Partial>>, AllocError>
    ensures { IfOk result (λ states. states.items ≡ replicate 64 None) }
{
    let mut states = Vec::with_capacity(alloc, WORKERS)?;
    for _ in 0..WORKERS {
        states.push(None)?;
    }
    Ok(states)
}

/// A worker takes a wanted row, where there is such a worker and such a row, and the version has the row's manifest.
fn take_row(
    alloc: Global,
    version: &Version,
    scan: &Scan,
    states: &mut Vec<Option<Partial>>,
    worker: usize,
    i: usize,
) -> Result<Reply, AllocError>
    requires { AreTaken (world_of version.now) scan.now states.old.items }
    ensures taken { AreTaken (world_of version.now) scan.now states.new.items }
    ensures reply { IfOk result (λ reply.
        (reply, record { history = version.now; scan = scan.now; workers = sets_of scan.now states.new.items }) ≡
        take (record { history = version.now; scan = scan.now; workers = sets_of scan.now states.old.items })
        worker i) }
{
    if worker >= states.len() {
        return Ok(Reply::NoSuch);
    }
    let Some(row) = scan.wanted().get(i) else {
        return Ok(Reply::NoSuch);
    };
    let Some(bytes) = version.world().get(row.path.as_str()) else {
        return Ok(Reply::Absent(row.path.copy(alloc)?));
    };
    let state = states[worker].take();
    let state = with_row(alloc, scan, state, i, bytes)?;
    states[worker] = Some(state);
    Ok(Reply::Taken)
}

/// The state of a worker, which has none yet where it took nothing.
fn state_or_empty(alloc: Global, scan: &Scan, state: Option<Partial>) -> Result<Partial, AllocError>
    requires { IsStateOf scan.now state }
    ensures of_scan { IfOk result (λ same. IsOf scan.now same) }
    ensures taken { (world : World) → IsTaken world scan.now state →
        IfOk result (λ same. IsTaken world scan.now (Some same)) }
    ensures set { IfOk result (λ same. rows_of same ≡ set_of scan.now state) }
{
    match state {
        Some(state) => Ok(state),
        None => Partial::empty(alloc, scan),
    }
}

/// The state after it took the manifest of the wanted row `i`, which has these bytes.
fn with_row(
    alloc: Global,
    scan: &Scan,
    state: Option<Partial>,
    i: usize,
    bytes: &[u8],
) -> Result<Partial, AllocError>
    requires row { i < length scan.now.wanted }
    requires state { IsStateOf scan.now state }
    ensures taken { (world : World) → HasBytes world scan.now i bytes.now → IsTaken world scan.now state →
        IfOk result (λ more. IsTaken world scan.now (Some more)) }
    ensures set { IfOk result (λ more. rows_of more ≡ add (set_of scan.now state) i) }
{
    let mut more = state_or_empty(alloc, scan, state)?;
    more.take(scan, i, bytes)?;
    Ok(more)
}

/// A worker takes over what another one took. Its state is moved out, and moved back with what it gains.
fn merge_states(
    alloc: Global,
    scan: &Scan,
    states: &mut Vec<Option<Partial>>,
    into: usize,
    from: usize,
) -> Result<(), AllocError>
    requires into { into < vec_len states.old }
    requires from { from < vec_len states.old }
    requires states { AreStatesOf scan.now states.old.items }
    ensures taken { (world : World) → AreTaken world scan.now states.old.items →
        AreTaken world scan.now states.new.items }
    ensures sets { (set other : List Bool) →
        slice_get (sets_of scan.now states.old.items) into ≡ Some set →
        slice_get (sets_of scan.now states.old.items) from ≡ Some other →
        OnOk result (sets_of scan.now states.new.items ≡
        slice_set (sets_of scan.now states.old.items) into (either set other)) }
{
    if into == from {
        return Ok(());
    }
    let state = states[into].take();
    let united = match &states[from] {
        Some(other) => Some(joined(alloc, scan, state, other)?),
        None => state,
    };
    states[into] = united;
    Ok(())
}

/// What a state took, and what another one took.
fn joined(
    alloc: Global,
    scan: &Scan,
    state: Option<Partial>,
    other: &Partial,
) -> Result<Partial, AllocError>
    requires state { IsStateOf scan.now state }
    requires other { IsOf scan.now other.now }
    ensures taken { (world : World) → IsTaken world scan.now state → IsTaken world scan.now (Some other.now) →
        IfOk result (λ united. IsTaken world scan.now (Some united)) }
    ensures set { IfOk result (λ united. rows_of united ≡ either (set_of scan.now state) (rows_of other.now)) }
{
    let mut united = state_or_empty(alloc, scan, state)?;
    united.merge(other)?;
    Ok(united)
}

/// What a worker finishes with.
fn finish_state(alloc: Global, scan: &Scan, state: &Option<Partial>) -> Result<Reply, AllocError>
    requires { IsStateOf scan.now state.now }
    ensures { (world : World) → IsTaken world scan.now state.now →
        IfOk result (λ reply. reply ≡
        finished (outcome scan.now (content world scan.now (set_of scan.now state.now)))) }
{
    match state {
        Some(state) => reply_of(alloc, scan, state),
        None => reply_of(alloc, scan, &Partial::empty(alloc, scan)?),
    }
}

/// The plan of a state, or what keeps it from being one.
fn reply_of(alloc: Global, scan: &Scan, state: &Partial) -> Result<Reply, AllocError>
    requires { IsOf scan.now state.now }
    ensures { IfOk result (λ reply. reply ≡ finished (outcome scan.now state.now)) }
{
    match state.finish(scan) {
        Ok(plan) => Ok(Reply::Planned(plan.keep(alloc)?)),
        Err(FinishFault::Memory) => Err(AllocError),
        Err(fault) => Ok(Reply::Unfinished(fault)),
    }
}
