//! The versions of a table that threads share, and the seats that commit to it.

ghost use Rattle.std.specs.Prelude.{◌≡◌, ◌≢◌, ◌+◌, ◌<◌, ◌≤◌, [], length, sum, vec_len};
ghost use Rattle.std.specs.Prelude.{IfOk, IfErr, IfSome, OnOk, OnErr};
ghost use Rattle.std.specs.Arc.{arc_value};
ghost use Rattle.ice_catalog_versions.specs.Histories.{after, IsReceiptOf};

use crate::book::{Conflict, swap};
use ice_catalog_versions::{Prepared, Receipt, Version};
use std::alloc::{AllocError, Global};
use std::marker::Model;
use std::sync::ledger::{self, Blank, Ledger, Share};
use std::sync::{Arc, Mutex, Wait};

/// One who pins and commits. Contracts see how many commits were made from the seat.
#[derive(Drop)]
pub struct Seat<L: Ledger> {
    share: Share<L>,
}

impl<L: Ledger> Model for Seat<L> {
    ghost use Rattle.std.specs.Prelude.{◌≡◌, ℕ};

    ghost Value = { ℕ };

    ghost view = { λ s. s.share.amount };

    ghost invariant = { λ s. s.share.parts ≡ 1 };
}

/// The newest version, with the tally of its commits, to which the counts of the seats add up. The spare share has no
/// part and no commit: the seats' shares are merged into it in the end.
#[derive(Drop)]
struct Counted<L: Ledger> {
    version: Arc<Version>,
    tally: ledger::Book<L>,
    spare: Share<L>,
    ghost counted: { length (arc_value version).journal ≡ tally.total },
    ghost no_part: { spare.parts ≡ 0 },
    ghost no_commit: { spare.amount ≡ 0 },
}

impl<L: Ledger> Counted<L> {
    /// The newest version, which has at least the seat's commits.
    fn pin(&mut self, seat: &mut Seat<L>) -> Result<Arc<Version>, AllocError>
        ensures kept { arc_value self.new.version ≡ arc_value self.old.version }
        ensures count { seat.new ≡ seat.old }
        ensures version { IfOk result (λ v. arc_value v ≡ arc_value self.old.version) }
        ensures number { seat.old ≤ length (arc_value self.old.version).journal }
    {
        self.tally.audit(&mut seat.share);
        Arc::try_clone(&self.version)
    }

    /// Makes a commit and counts it, or hands it back.
    fn commit(&mut self, seat: &mut Seat<L>, prepared: Prepared) -> Result<Receipt, Conflict>
        ensures base { IfOk result (λ r. prepared.base ≡ arc_value self.old.version) }
        ensures appended { IfOk result (λ r.
            arc_value self.new.version ≡ after (arc_value self.old.version) prepared.commit) }
        ensures receipt { IfOk result (λ r. IsReceiptOf r prepared) }
        ensures counted { OnOk result (seat.new ≡ seat.old + 1) }
        ensures conflict { IfErr result (λ c. prepared.base ≢ arc_value self.old.version) }
        ensures handed_back { IfErr result (λ c. c.prepared ≡ prepared) }
        ensures newer { IfErr result (λ c. IfSome c.newer (λ v. arc_value v ≡ arc_value self.old.version)) }
        ensures unchanged { OnErr result (arc_value self.new.version ≡ arc_value self.old.version) }
        ensures same_count { OnErr result (seat.new ≡ seat.old) }
        ensures number { seat.old ≤ length (arc_value self.old.version).journal }
    {
        let Counted {
            version,
            tally,
            spare: _,
        } = self;
        tally.audit(&mut seat.share);
        let receipt = swap(version, prepared)?;
        tally.add(&mut seat.share, 1);
        Ok(receipt)
    }

    /// The newest version, which has as many commits as all seats have made.
    fn close(self, seats: Vec<Seat<L>>) -> Arc<Version>
        requires { vec_len seats ≡ L.parts }
        ensures { length (arc_value result).journal ≡ sum seats.items }
    {
        let Counted {
            version,
            mut tally,
            spare,
        } = self;
        let mut all = gathered(spare, seats);
        tally.audit(&mut all);
        version
    }
}

/// One share of all that these seats have.
fn gathered<L: Ledger>(mut all: Share<L>, mut seats: Vec<Seat<L>>) -> Share<L>
    ensures parts { result.parts ≡ all.parts + vec_len seats }
    ensures amount { result.amount ≡ all.amount + sum seats.items }
{
    while let Some(seat) = seats.pop() {
        let Seat { share } = seat;
        all.merge(share);
    }
    all
}

/// Seats that have made no commit, of a share that has a part for each of them, and the share that is left.
fn seated<L: Ledger>(
    alloc: Global,
    mut all: Share<L>,
    count: u64,
) -> Result<(Share<L>, Vec<Seat<L>>), AllocError>
    requires parts { all.parts ≡ count }
    requires amount { all.amount ≡ 0 }
    ensures none_left { IfOk result (λ r. (r.0.parts ≡ 0) × (r.0.amount ≡ 0)) }
    ensures seats { IfOk result (λ r. (vec_len r.1 ≡ count) × (sum r.1.items ≡ 0)) }
{
    let mut seats = Vec::new(alloc);
    for _seat in 0..count {
        let share = all.split_off(1, 0);
        seats.push(Seat { share })?;
    }
    Ok((all, seats))
}

/// The newest version of a table, which threads share behind a lock.
#[derive(Drop)]
pub struct Catalog<L: Ledger> {
    locked: Mutex<Counted<L>>,
}

impl<L: Ledger> Catalog<L> {
    /// A catalog of a version without commits, and its seats, from 1 to 64, none of which has made a commit. The
    /// ledger, which the caller picks, has a part for each seat.
    pub fn new(
        alloc: Global,
        blank: Blank,
        version: Version,
        seats: u64,
    ) -> Result<(Catalog<L>, Vec<Seat<L>>), AllocError>
        requires name { blank.name ≡ L.name }
        requires parts { (blank.parts ≡ L.parts) × (blank.parts ≡ seats) }
        requires seats { (0 < seats) × (seats ≤ 64) }
        requires opened { version.journal ≡ [] }
        ensures { IfOk result (λ r. (vec_len r.1 ≡ seats) × (sum r.1.items ≡ 0)) }
    {
        let version = Arc::new(alloc, version)?;
        let (tally, all) = blank.open::<L>();
        let (spare, seats) = seated(alloc, all, seats)?;
        let counted = Counted {
            version,
            tally,
            spare,
        };
        Ok((
            Catalog {
                locked: Mutex::new(counted),
            },
            seats,
        ))
    }

    /// The version that stands when the lock is taken. It has at least as many commits as were made from the seat.
    pub fn pin<R: Wait>(&self, rt: &R, seat: &mut Seat<L>) -> Result<Arc<Version>, AllocError>
        ensures count { seat.new ≡ seat.old }
        ensures number { IfOk result (λ v. seat.old ≤ length (arc_value v).journal) }
    {
        self.locked.lock(rt).pin(seat)
    }

    /// Makes a commit, where its base has the opening and the journal of the version that stands when the lock is
    /// taken; else hands it back, with that version.
    pub fn commit<R: Wait>(
        &self,
        rt: &R,
        seat: &mut Seat<L>,
        prepared: Prepared,
    ) -> Result<Receipt, Conflict>
        ensures counted { OnOk result (seat.new ≡ seat.old + 1) }
        ensures receipt { IfOk result (λ r. IsReceiptOf r prepared) }
        ensures seen { IfOk result (λ r. seat.new ≤ r.number) }
        ensures same_count { OnErr result (seat.new ≡ seat.old) }
        ensures handed_back { IfErr result (λ c. c.prepared ≡ prepared) }
        ensures newer { IfErr result (λ c. IfSome c.newer (λ v. arc_value v ≢ prepared.base)) }
        ensures number { IfErr result (λ c. IfSome c.newer (λ v. seat.old ≤ length (arc_value v).journal)) }
    {
        self.locked.lock(rt).commit(seat, prepared)
    }

    /// The last version, given back all seats, in any order. It has as many commits as were made from them together.
    pub fn close(self, seats: Vec<Seat<L>>) -> Arc<Version>
        requires { vec_len seats ≡ L.parts }
        ensures { length (arc_value result).journal ≡ sum seats.items }
    {
        let Catalog { locked } = self;
        locked.into_inner().close(seats)
    }
}
