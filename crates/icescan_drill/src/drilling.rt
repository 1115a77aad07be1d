//! The threads of a drill.

ghost use Rattle.std.specs.Prelude.{◌≡◌, ◌+◌, ◌*◌, ◌<◌, ◌≤◌, length, sum, vec_len, IfOk, OnOk, OnErr, IsErrOf};
ghost use Rattle.std.specs.Arc.{arc_value};
ghost use Rattle.std.specs.Thread.{IsSync};
ghost use Rattle.icescan_drill.specs.Drills.{EachSawItsFiles, HaveDrilled, IsTurn, SawItsFiles};

use crate::drilled_table::{find_files, open_table, plan_version, prepare_append};
use crate::watch::Watch;
use ice_catalog_book::{Catalog, Seat};
use ice_catalog_versions::Version;
use icescan_text::{Drill, DrillFault, RunFault};
use std::alloc::{AllocError, Global};
use std::sync::ledger::{Blank, Ledger};
use std::sync::{Arc, Wait};
use std::thread::{Threads, join};

/// A thread of a drill, which makes its commits to a catalog.
#[derive(Drop)]
struct Committer<'a, L: Ledger, R> {
    rt: &'a R,
    alloc: Global,
    catalog: &'a Catalog<L>,
    drill: Drill,
    /// Its number.
    thread: u64,
}

impl<L: Ledger, R: Wait + Watch> Committer<'_, L, R> {
    /// Makes a commit from the thread's seat: on the version that stands, and after each conflict on the newer one. The
    /// refusal is `Conflict` after as many tries as may be needed; then none of them was made.
    fn commit_file(&self, seat: &mut Seat<L>, commit: u64) -> Result<(), RunFault>
        requires { IsTurn self.now.thread commit }
        ensures counted { OnOk result (seat.new ≡ seat.old + 1) }
        ensures same_count { OnErr result (seat.new ≡ seat.old) }
        ensures write { IsErrOf result RunFault.Write → ⊥ }
    {
        let mut version = self.catalog.pin(self.rt, seat)?;
        for _try in 0..self.drill.tries() {
            let prepared = prepare_append(self.alloc, &version, self.thread, commit)?;
            match self.catalog.commit(self.rt, seat, prepared) {
                Ok(receipt) => {
                    self.rt.committed(receipt.number);
                    return Ok(());
                }
                Err(conflict) => version = conflict.newer.ok_or(RunFault::Memory)?,
            }
        }
        Err(RunFault::Drill(DrillFault::Conflict))
    }

    /// Makes all commits of the thread.
    fn commit_all(&self, seat: &mut Seat<L>) -> Result<(), RunFault>
        requires { self.now.thread < 64 }
        ensures counted { OnOk result (seat.new ≡ seat.old + self.now.drill.commits) }
        ensures write { IsErrOf result RunFault.Write → ⊥ }
    {
        for commit in 0..self.drill.commits() {
            self.commit_file(seat, commit)?;
        }
        Ok(())
    }

    /// Sees that the version that stands has all files of the thread, which has made its commits.
    fn check_files(&self, seat: &mut Seat<L>) -> Result<(), RunFault>
        requires { self.now.drill.commits ≤ seat.old }
        ensures count { seat.new ≡ seat.old }
        ensures seen { OnOk result (SawItsFiles self.now.thread self.now.drill.commits) }
        ensures write { IsErrOf result RunFault.Write → ⊥ }
    {
        let version = self.catalog.pin(self.rt, seat)?;
        let plan = plan_version(self.alloc, &version)?;
        find_files(self.alloc, &plan.lines(), self.thread, self.drill.commits())
    }

    /// Drills from the one seat: makes all commits of the thread, and then sees that they are there.
    fn drill(&self, mut seats: Vec<Seat<L>>) -> Result<Vec<Seat<L>>, RunFault>
        requires one { vec_len seats ≡ 1 }
        requires thread { self.now.thread < 64 }
        ensures count { IfOk result (λ after. vec_len after ≡ vec_len seats) }
        ensures commits { IfOk result (λ after. sum after.items ≡ sum seats.items + self.now.drill.commits) }
        ensures seen { OnOk result (SawItsFiles self.now.thread self.now.drill.commits) }
        ensures write { IsErrOf result RunFault.Write → ⊥ }
    {
        self.commit_all(&mut seats[0])?;
        self.check_files(&mut seats[0])?;
        Ok(seats)
    }
}

/// The seats of both.
fn both<L: Ledger>(
    mut first: Vec<Seat<L>>,
    mut second: Vec<Seat<L>>,
) -> Result<Vec<Seat<L>>, AllocError>
    ensures count { IfOk result (λ all. vec_len all ≡ vec_len first + vec_len second) }
    ensures commits { IfOk result (λ all. sum all.items ≡ sum first.items + sum second.items) }
{
    first.append(&mut second)?;
    Ok(first)
}

/// Drills from these seats, the first of which is that of the thread of this number: by halves, each in a thread of its
/// own where one can be started.
fn drill_all<L: Ledger + Send + Sync, R: Threads + Wait + Watch + Sync>(
    rt: &R,
    alloc: Global,
    catalog: &Catalog<L>,
    mut seats: Vec<Seat<L>>,
    drill: Drill,
    first: u64,
) -> Result<Vec<Seat<L>>, RunFault>
    requires { (0 < vec_len seats) × (first + vec_len seats ≤ 64) }
    ensures drilled { IfOk result (λ after. HaveDrilled first drill.commits seats after) }
    ensures write { IsErrOf result RunFault.Write → ⊥ }
{
    if seats.len() == 1 {
        let committer = Committer {
            rt,
            alloc,
            catalog,
            drill,
            thread: first,
        };
        return committer.drill(seats);
    }
    let half = seats.len() / 2;
    let right = seats.split_off(half)?;
    let next = first + half as u64;
    let (left, right) = join(
        rt,
        move || -> Result<Vec<Seat<L>>, RunFault>
            requires { IsSync R.row × IsSync L.row × (0 < vec_len seats) × (first + vec_len seats ≤ 64) }
            ensures drilled { IfOk result (λ after. HaveDrilled first drill.commits seats after) }
            ensures write { IsErrOf result RunFault.Write → ⊥ }
        { drill_all(rt, alloc, catalog, seats, drill, first) },
        move || -> Result<Vec<Seat<L>>, RunFault>
            requires { IsSync R.row × IsSync L.row × (0 < vec_len right) × (next + vec_len right ≤ 64) }
            ensures drilled { IfOk result (λ after. HaveDrilled next drill.commits right after) }
            ensures write { IsErrOf result RunFault.Write → ⊥ }
        { drill_all(rt, alloc, catalog, right, drill, next) },
    );
    Ok(both(left?, right?)?)
}

/// The version that a drill leaves: it has a commit for each commit of each thread.
pub fn drill_table<L: Ledger + Send + Sync, R: Threads + Wait + Watch + Sync>(
    rt: &R,
    alloc: Global,
    blank: Blank,
    drill: Drill,
) -> Result<Arc<Version>, RunFault>
    requires name { blank.name ≡ L.name }
    requires parts { (blank.parts ≡ L.parts) × (blank.parts ≡ drill.threads) }
    ensures commits { IfOk result (λ version. length (arc_value version).journal ≡ drill.threads * drill.commits) }
    ensures seen { OnOk result (EachSawItsFiles 0 drill.threads drill.commits) }
    ensures write { IsErrOf result RunFault.Write → ⊥ }
{
    let version = open_table(alloc)?;
    let (catalog, seats) = Catalog::<L>::new(alloc, blank, version, drill.threads())?;
    let seats = drill_all(rt, alloc, &catalog, seats, drill, 0)?;
    Ok(catalog.close(seats))
}
