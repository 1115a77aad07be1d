//! What can happen to a table and to scans of it, and what is replied.

use contract_words::Text;
use ice_catalog_changes::{Change, Ids, PrepareFault};
use ice_catalog_versions::Receipt;
use ice_filter::Filter;
use ice_state::{FinishFault, OwnedPlan};

/// What can happen. A scan is named by the number of the `Pin` events before its own; it has 64 workers, from 0 to 63.
#[derive(Drop)]
pub enum Event {
    /// A scan of the newest version's current snapshot begins, for the rows that meet the filter.
    Pin {
        filter: Filter,
    },
    /// A commit is made, if the newest version still has this number.
    Commit {
        base: u64,
        change: Change,
        ids: Ids,
    },
    /// A worker of a scan takes the manifest of the wanted row `i`.
    Take {
        pin: usize,
        worker: usize,
        i: usize,
    },
    /// A worker of a scan takes over what another one has taken.
    Merge {
        pin: usize,
        into: usize,
        from: usize,
    },
    /// A worker of a scan finishes. It may go on afterwards.
    Finish {
        pin: usize,
        worker: usize,
    },
}

/// What is replied to an event.
#[derive(Debug, Drop)]
pub enum Reply {
    /// The scan has begun; it has this number.
    Pinned(usize),
    /// There is nothing to scan: no current snapshot, no manifest list that can be read, a filter that can't be asked
    /// of the current schema, or a row whose spec is missing. The number stands for no scan.
    Unpinned(usize),
    /// The newest version has this number, and not the commit's base.
    Conflict(u64),
    /// The commit can't be made.
    NotPrepared(PrepareFault),
    /// The commit is made.
    Committed(Receipt),
    /// The worker has taken the manifest.
    Taken,
    /// The scanned version has no file at the manifest's path.
    Absent(Text),
    /// The worker has what the other one has, too.
    Merged,
    /// The plan of the scanned version.
    Planned(OwnedPlan),
    /// What the worker has taken gives no plan.
    Unfinished(FinishFault),
    /// There is no such scan, worker or wanted row.
    NoSuch,
}
