//! To how many data files of a plan each delete file applies.

ghost use Rattle.std.specs.Prelude.{◌≡◌, ◌+◌, ◌<◌, ◌≤◌, ◌^◌, ℕ, List, IfOk, OnOk, if◌then◌else◌, length};
ghost use Rattle.std.specs.List.{sum};
ghost use Rattle.std.specs.Str.{bytes_eq};
ghost use Rattle.ice_manifest_reading.specs.declared.entry.Entry.{Entry};
ghost use Rattle.ice_state.specs.Lines.{AreWithin, entries_at};
ghost use Rattle.ice_state.specs.PlacedFiles.{ArePlaced, plan_of};
ghost use Rattle.icescan_explain.specs.Applying.{CountsOf, applied, named, times_at, times_in};

use ice_state::{Lines, PlacedFiles};
use std::alloc::{AllocError, Global};
use std::collections::HashMap;

/// How often a plan names each delete file, by the bytes of its path: once for each data file that it applies to.
#[derive(Drop)]
pub struct Applied {
    counts: HashMap<Vec<u8>, u128>,
}

impl Applied {
    /// To how many data files the delete file at a path applies.
    pub fn at(&self, path: &[u8]) -> u128
        ensures { result ≡ times_in self.now path.now }
    {
        match self.counts.get(path) {
            Some(count) => *count,
            None => 0,
        }
    }

    /// Counts a path so many times more.
    fn add(&mut self, alloc: Global, path: &[u8], times: u128) -> Result<(), AllocError>
        requires { times_in self.old path.now + times < 2 ^ 128 }
        ensures { OnOk result ((q : List ℕ) →
            times_in self.new q ≡ times_in self.old q + (if bytes_eq q path.now then times else 0)) }
    {
        if let Some(count) = self.counts.get_mut(path) {
            *count += times;
            return Ok(());
        }
        self.counts.insert(path.to_vec(alloc)?, times)?;
        Ok(())
    }

    /// Counts the paths of a plan's delete files.
    pub fn of(alloc: Global, lines: &Lines<'_>) -> Result<Applied, AllocError>
        ensures { IfOk result (λ applied. CountsOf applied lines.now) }
    {
        let plan = lines.placed_files();
        let times = times_by_place(alloc, &plan)?;
        let mut applied = Applied {
            counts: HashMap::with_capacity(alloc, plan.count_deletes())?,
        };
        'deletes: for i in 0..plan.count_deletes() {
            applied.add(alloc, plan.delete(i).path(), times[i])?;
        }
        Ok(applied)
    }
}

/// Counts the delete files at some places once more, each by its place.
fn count_places(times: &mut [u128], places: &[u32])
    requires within { AreWithin (length times.old) places.now }
    requires few { sum times.old + length places.now < 2 ^ 128 }
    ensures same { length times.new ≡ length times.old }
    ensures all { sum times.new ≡ sum times.old + length places.now }
    ensures told { (deletes : List Entry) → length deletes ≡ length times.old → (q : List ℕ) →
        times_at q deletes times.new ≡ times_at q deletes times.old + named q (entries_at deletes places.now) }
{
    'places: for i in 0..places.len() {
        times[places[i] as usize] += 1;
    }
}

/// How often a plan names each of its delete files, by their places.
fn times_by_place(alloc: Global, plan: &PlacedFiles<'_>) -> Result<Vec<u128>, AllocError>
    requires { ArePlaced plan.now }
    ensures each { IfOk result (λ times. length times.items ≡ length plan.now.deletes) }
    ensures few { IfOk result (λ times. sum times.items < 2 ^ 128) }
    ensures told { IfOk result (λ times. (q : List ℕ) →
        times_at q plan.now.deletes times.items ≡ applied (plan_of plan.now) q) }
{
    let mut times = vec![in alloc; 0; plan.count_deletes()]?;
    'files: for i in 0..plan.count_files() {
        count_places(&mut times, plan.positions(i));
        count_places(&mut times, plan.equalities(i));
    }
    Ok(times)
}
