//! Seats of a catalog in one thread.

ghost use Rattle.std.specs.Prelude.{◌≡◌};

use crate::versions::{TABLE, adding, ids, opened, prepared};
use ice_catalog::{Catalog, Conflict, Receipt, Version};
use std::alloc::Global;
use std::marker::Brand;
use std::sync::Wait;
use std::sync::ledger::{Blank, Ledger};

/// Whether a commit is handed back for the version of this number.
fn is_late(commit: &Result<Receipt, Conflict>, number: u64) -> bool {
    match commit {
        Err(conflict) => match &conflict.newer {
            Some(newer) => newer.number() == number,
            None => false,
        },
        Ok(_) => false,
    }
}

/// Whether this is the version after the one commit of the file `mem://t/a.parquet` by the names 7.
fn has_commit(alloc: Global, version: &Version) -> bool {
    let Ok(change) = adding(alloc, "mem://t/a.parquet") else {
        return false;
    };
    match version.journal() {
        [commit] => {
            commit.change == change
                && commit.ids == ids(7)
                && version.metadata().table().current_snapshot_id == Some(7)
        }
        _ => false,
    }
}

/// The first seat commits, and then the second one a change that was prepared on the opening. Whether that is handed
/// back for the newer version, and the first seat sees its own commit.
fn commit_from_two<L: Ledger, R: Wait>(rt: &R, alloc: Global, blank: Blank) -> Option<bool>
    requires name { blank.name ≡ L.name }
    requires parts { (blank.parts ≡ L.parts) × (blank.parts ≡ 2) }
{
    let opening = opened(alloc, TABLE).ok()?;
    let Ok((catalog, mut seats)) = Catalog::<L>::new(alloc, blank, opening, 2) else {
        return None;
    };
    let opening = catalog.pin(rt, &mut seats[1]).ok()?;
    let commit = prepared(alloc, &opening, "mem://t/a.parquet", 7).ok()?;
    let late = prepared(alloc, &opening, "mem://t/b.parquet", 8).ok()?;
    let is_made = catalog.commit(rt, &mut seats[0], commit).is_ok();
    let is_handed_back = is_late(&catalog.commit(rt, &mut seats[1], late), 1);
    let is_seen = has_commit(alloc, &*catalog.pin(rt, &mut seats[0]).ok()?);
    Some(catalog.close(seats).number() == 1 && is_made && is_handed_back && is_seen)
}

#[test]
fn a_late_commit_is_a_conflict(rt: HostRuntime) {
    let is_right = commit_from_two::<Brand, HostRuntime>(&rt, rt.alloc(), Blank::new(2));
    assert!(rt; is_right == Some(true));
}
