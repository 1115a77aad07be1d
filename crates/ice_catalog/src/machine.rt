//! A machine of scans and commits.

ghost use Rattle.std.specs.Prelude.{◌≡◌, List, ◌++◌, IfOk, length, vec_len};
ghost use Rattle.ice_catalog.specs.Apart.{TellsPinnedPlans};
ghost use Rattle.ice_catalog_versions.specs.Live.{IsGrown};
ghost use Rattle.std.specs.Prelude.{slice_get};
ghost use Rattle.ice_catalog_versions.specs.Histories.{History};
ghost use Rattle.ice_catalog.specs.Machines.{at_pin, commit, event, finish_at, finish_in, in_scan, merge, pin, take};
ghost use Rattle.ice_catalog.specs.Machines.{machine_after, replies_to, started};
ghost use Rattle.ice_catalog.specs.declared.event.Event.{Event};

use crate::event::{Event, Reply};
use crate::machine_laws::pinned_plans_of_commits;
use crate::scanning::Scanning;
use ice_catalog_book::Book;
use ice_catalog_changes::{Change, Ids, PrepareFault};
use ice_catalog_versions::{Version, prepare};
use ice_filter::Filter;
use std::alloc::{AllocError, Global};
use std::marker::Model;
use std::sync::Arc;

/// The newest version, and what was pinned, with nothing for an unpinned one.
#[derive(Drop)]
struct Machine {
    book: Book,
    pins: Vec<Option<Scanning>>,
    alloc: Global,
}

impl Model for Machine {
    ghost use Rattle.ice_catalog.specs.Machines.{Machine as Seen};
    ghost use Rattle.ice_catalog.specs.PinCodes.{machine_code};

    ghost Value = { Seen };

    ghost coded = { machine_code };

    ghost view = { λ m. record { history = m.book; pins = m.pins.items } };
}

impl Machine {
    /// One event.
    fn step(&mut self, happens: &Event) -> Result<Reply, AllocError>
        ensures { IfOk result (λ reply. (reply, self.new) ≡ event self.old happens.now) }
    {
        match happens {
            Event::Pin { filter } => self.pin(filter),
            Event::Commit { base, change, ids } => self.commit(*base, change, *ids),
            Event::Take { pin, worker, i } => take_at(&mut self.pins, *pin, *worker, *i),
            Event::Merge { pin, into, from } => merge_at(&mut self.pins, *pin, *into, *from),
            Event::Finish { pin, worker } => finish_at(&self.pins, *pin, *worker),
        }
    }

    /// A scan of the newest version begins.
    fn pin(&mut self, filter: &Filter) -> Result<Reply, AllocError>
        ensures { IfOk result (λ reply. (reply, self.new) ≡ pin self.old filter.now) }
    {
        let k = self.pins.len();
        let scan = Scanning::new(self.alloc, Arc::try_clone(self.book.current())?, filter)?;
        let reply = match &scan {
            Some(_) => Reply::Pinned(k),
            None => Reply::Unpinned(k),
        };
        self.pins.push(scan)?;
        Ok(reply)
    }

    /// A commit is made on the version of this number.
    fn commit(&mut self, base: u64, change: &Change, ids: Ids) -> Result<Reply, AllocError>
        ensures { IfOk result (λ reply. (reply, self.new)
            ≡ commit self.old base (record { change = change.now; ids = ids })) }
    {
        let number = self.book.current().number();
        if base != number {
            return Ok(Reply::Conflict(number));
        }
        let version: &Version = &**self.book.current();
        match prepare(self.alloc, version, change, ids) {
            Ok(prepared) => match self.book.swap_in(prepared) {
                Ok(receipt) => Ok(Reply::Committed(receipt)),
                Err(_) => unreachable!(),
            },
            Err(PrepareFault::Memory) => Err(AllocError),
            Err(fault) => Ok(Reply::NotPrepared(fault)),
        }
    }
}

/// A worker of the pin takes a wanted row, where there is such a pin.
fn take_at(
    pins: &mut Vec<Option<Scanning>>,
    pin: usize,
    worker: usize,
    i: usize,
) -> Result<Reply, AllocError>
    ensures { (h : History) → IfOk result (λ reply. (reply, record { history = h; pins = pins.new.items }) ≡
        at_pin (record { history = h; pins = pins.old.items }) pin (λ p. take p worker i)
        (slice_get pins.old.items pin)) }
{
    match pins.get_mut(pin) {
        Some(scan) => take(scan, worker, i),
        None => Ok(Reply::NoSuch),
    }
}

/// A worker of the pin takes over what another one took, where there is such a pin.
fn merge_at(
    pins: &mut Vec<Option<Scanning>>,
    pin: usize,
    into: usize,
    from: usize,
) -> Result<Reply, AllocError>
    ensures { (h : History) → IfOk result (λ reply. (reply, record { history = h; pins = pins.new.items }) ≡
        at_pin (record { history = h; pins = pins.old.items }) pin (λ p. merge p into from)
        (slice_get pins.old.items pin)) }
{
    match pins.get_mut(pin) {
        Some(scan) => merge(scan, into, from),
        None => Ok(Reply::NoSuch),
    }
}

/// A worker of the pin finishes, where there is such a pin.
fn finish_at(pins: &[Option<Scanning>], pin: usize, worker: usize) -> Result<Reply, AllocError>
    ensures { IfOk result (λ reply. reply ≡ finish_at (slice_get pins.now pin) worker) }
{
    match pins.get(pin) {
        Some(scan) => finish(scan, worker),
        None => Ok(Reply::NoSuch),
    }
}

/// A worker takes a wanted row, where there is a scan.
fn take(scan: &mut Option<Scanning>, worker: usize, i: usize) -> Result<Reply, AllocError>
    ensures { IfOk result (λ reply. (reply, scan.new) ≡ in_scan (λ p. take p worker i) scan.old) }
{
    match scan {
        Some(scan) => scan.take(worker, i),
        None => Ok(Reply::NoSuch),
    }
}

/// A worker takes over what another one took, where there is a scan.
fn merge(scan: &mut Option<Scanning>, into: usize, from: usize) -> Result<Reply, AllocError>
    ensures { IfOk result (λ reply. (reply, scan.new) ≡ in_scan (λ p. merge p into from) scan.old) }
{
    match scan {
        Some(scan) => scan.merge(into, from),
        None => Ok(Reply::NoSuch),
    }
}

/// A worker finishes, where there is a scan.
fn finish(scan: &Option<Scanning>, worker: usize) -> Result<Reply, AllocError>
    ensures { IfOk result (λ reply. reply ≡ finish_in scan.now worker) }
{
    match scan {
        Some(scan) => scan.finish(worker),
        None => Ok(Reply::NoSuch),
    }
}

/// Runs events in order on a table that is at this version, and answers the reply to each. The version itself never
/// changes. It is refused when out of memory alone. At each event every commit until then had left what it met and
/// added its own, wherever the names of its files were new. So a worker that took all wanted rows of its scan finishes
/// with the plan of the version that the scan was pinned to, whatever was committed in between, where the summaries of
/// the opening's rows are true and the names of each commit's files were new: no premise speaks of what was written.
pub fn run_events(
    alloc: Global,
    version: &Version,
    events: &[Event],
) -> Result<Vec<Reply>, AllocError>
    ensures replies { IfOk result (λ replies. replies.items ≡ replies_to (started version.now) events.now) }
    ensures one_each { IfOk result (λ replies. vec_len replies ≡ length events.now) }
    ensures grown { IfOk result (λ _. (front rest : List Event) → events.now ≡ front ++ rest
        → IsGrown (machine_after (started version.now) front).history) }
    ensures plans { IfOk result (λ replies. TellsPinnedPlans version.now events.now replies.items) }
{
    let mut machine = Machine {
        book: Book::new(alloc, version.copy(alloc)?)?,
        pins: Vec::new(alloc),
        alloc,
    };
    let mut replies = Vec::new(alloc);
    'events: for happens in events {
        replies.push(machine.step(happens)?)?;
    }
    machine.book.current().grew();
    pinned_plans_of_commits();
    Ok(replies)
}
