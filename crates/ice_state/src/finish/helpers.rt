//! Who finishes a plan: one thread, or many.

ghost use Rattle.std.specs.Prelude.{◌≡◌, IsTrue};
ghost use Rattle.std.specs.List.Sorted.{IsPermutation, IsStableBy};
ghost use Rattle.std.specs.Thread.{IsSync};
ghost use Rattle.ice_state.specs.Apart.{ShareNoPath};
ghost use Rattle.ice_state.specs.Keys.{key_less};
ghost use Rattle.ice_state.specs.Outcomes.{by_path};
ghost use Rattle.ice_state.specs.Segments.{AreKept, entries_at};

use crate::finish::apart::{are_apart, are_apart_by_workers};
use crate::kept::halves::sort_halves;
use crate::kept::segments::{FileNumber, Segments};
use crate::kept::sorting::Placed;
use std::alloc::Global;
use std::thread::Threads;

/// What many threads can do of the work of one that finishes a plan.
pub trait Helpers {
    /// What has to be known of them.
    ghost ready: { Self → Type 0 };

    /// Sorts parts of paths with keys, so that sorting all of them takes less time. Parts for which there is no memory
    /// stay as they are.
    fn sort_parts(&self, alloc: Global, placed: &mut [Placed<'_>])
        requires { ready self.now }
        ensures moved { IsPermutation placed.old placed.new }
        ensures stable { IsStableBy key_less placed.old placed.new };

    /// Whether files in order share no path with others.
    fn are_apart(&self, entries: &Segments, files: &[FileNumber], others: &[FileNumber]) -> bool
        requires ready { ready self.now }
        requires files { AreKept entries.now files.now }
        requires others { AreKept entries.now others.now }
        requires sorted { by_path (entries_at entries.now files.now) ≡ entries_at entries.now files.now }
        requires sorted_others { by_path (entries_at entries.now others.now) ≡ entries_at entries.now others.now }
        ensures { IsTrue result → ShareNoPath (entries_at entries.now files.now) (entries_at entries.now others.now) };
}

/// No other thread.
#[derive(Clone, Copy, Debug)]
pub struct NoHelpers;

impl Helpers for NoHelpers {
    ghost ready = { λ _. Unit {0} };

    fn sort_parts(&self, _alloc: Global, _placed: &mut [Placed<'_>]) {}

    fn are_apart(&self, entries: &Segments, files: &[FileNumber], others: &[FileNumber]) -> bool {
        are_apart(entries, files, others)
    }
}

/// So many threads, where they can be started.
#[derive(Clone, Copy, Debug)]
pub struct Workers<'r, R> {
    pub rt: &'r R,
    pub count: usize,
}

impl<'r, R: Threads + Sync> Helpers for Workers<'r, R> {
    ghost use Rattle.std.specs.Thread.{IsSync};

    ghost ready = { λ _. IsSync R.row };

    fn sort_parts(&self, alloc: Global, placed: &mut [Placed<'_>]) {
        sort_halves(self.rt, &alloc, self.count, placed);
    }

    fn are_apart(&self, entries: &Segments, files: &[FileNumber], others: &[FileNumber]) -> bool {
        are_apart_by_workers(self.rt, entries, files, others, self.count)
    }
}
