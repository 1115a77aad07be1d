//! What no clause can say: that workers work at once, and that they read what they draw.

ghost use Rattle.std.specs.Prelude.{None};

use crate::desks::table::{file_of, number_of, scan_of_three};
use crate::words::{PLAN, is_plan};
use ice_desk::{Files, Gate, ReadFault, plan_scan};
use std::alloc::Global;
use std::sync::atomic::{AtomicU64, Ordering};

/// For how long one waits for another. A healthy run needs few of them.
const TURNS: u64 = 1_000_000_000;

/// A gate and files for two workers. The gate holds the first worker until a second one has come, the files hold the
/// first read until another has begun, and after a wait in vain nobody waits any more.
#[derive(Drop)]
struct TwoAtOnce {
    /// The number of the worker that came first, and 1; 0 before there is one.
    first: AtomicU64,
    /// How many different workers came.
    came: AtomicU64,
    /// How often the gate was called.
    calls: AtomicU64,
    /// How often a file was read.
    reads: AtomicU64,
    /// How many waited in vain.
    late: AtomicU64,
}

impl TwoAtOnce {
    /// Nobody has come yet.
    fn new() -> TwoAtOnce {
        TwoAtOnce {
            first: AtomicU64::new(0),
            came: AtomicU64::new(0),
            calls: AtomicU64::new(0),
            reads: AtomicU64::new(0),
            late: AtomicU64::new(0),
        }
    }

    /// Waits until the count is above one.
    fn wait_for_two(&self, count: &AtomicU64) {
        if self.late.load(Ordering::SeqCst) > 0 {
            return;
        }
        for _ in 0..TURNS {
            if count.load(Ordering::SeqCst) > 1 {
                return;
            }
        }
        self.late.fetch_add(1, Ordering::SeqCst);
    }
}

impl Gate for TwoAtOnce {
    fn before_take(&self, worker: usize, _i: usize) {
        self.calls.fetch_add(1, Ordering::SeqCst);
        let me = (worker % 2) as u64 + 1;
        let is_first = self
            .first
            .compare_exchange(0, me, Ordering::SeqCst, Ordering::SeqCst)
            .is_ok();
        if is_first {
            self.came.fetch_add(1, Ordering::SeqCst);
            self.wait_for_two(&self.came);
        } else if self.first.load(Ordering::SeqCst) != me {
            self.came.fetch_add(1, Ordering::SeqCst);
        }
    }
}

impl Files for TwoAtOnce {
    ghost world = { λ f. None };

    ghost gives = { λ f path found. Unit {0} };

    ghost may_fail = { λ f path. Unit {0} };

    fn read(&self, alloc: Global, path: &str) -> Result<Vec<u8>, ReadFault> {
        if self.reads.fetch_add(1, Ordering::SeqCst) == 0 {
            self.wait_for_two(&self.reads);
        }
        file_of(alloc, number_of(path).unwrap_or(0))
    }
}

#[test]
fn two_at_once(rt: HostRuntime) {
    let Some(scan) = scan_of_three(rt.alloc()) else {
        panic!(rt; "there is memory for a scan");
    };
    assert!(rt; scan.wanted().len() == 3);
    let both = TwoAtOnce::new();
    let planned = plan_scan(&rt, rt.alloc(), &both, &scan, 2, &both);
    match planned {
        Ok(plan) => assert!(rt; is_plan(PLAN, &plan.lines())),
        Err(_) => panic!(rt; "all files are there"),
    }
    assert!(rt; both.late.load(Ordering::SeqCst) == 0);
    // Each read was a worker's. Of two that draw one manifest at a time, both may read it.
    let calls = both.calls.load(Ordering::SeqCst);
    assert!(rt; calls >= 3 && calls <= 9);
    assert!(rt; both.reads.load(Ordering::SeqCst) == calls);
}
