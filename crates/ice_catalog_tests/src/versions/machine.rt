//! What no clause says of the machine: that it runs where memory is ample, what it plans of manifests that another
//! program wrote, and that with a growth refused it answers the same or nothing.

use crate::files::{PATHS, container, manifest};
use crate::versions::{adding, ids};
use crate::words::{PLAN, is_plan};
use ice_catalog::{Event, Reply, Version, World, run_events};
use ice_filter::{FilterFault, parse};
use std::alloc::Global;

/// A table of one int column, with a snapshot.
pub const METADATA: &[u8] =
    br#"{"format-version":2,"table-uuid":"f79c3e09-677c-4bbd-a479-3f349cb785e7","location":"mem://t",
"last-sequence-number":4,"last-updated-ms":0,"last-column-id":1,"schemas":[{"type":"struct","schema-id":0,"fields":[
{"id":1,"name":"c","required":false,"type":"int"}]}],"current-schema-id":0,"partition-specs":[{"spec-id":0,"fields":[]}],
"default-spec-id":0,"last-partition-id":999,"current-snapshot-id":1,"snapshots":[{"snapshot-id":1,"sequence-number":4,
"timestamp-ms":0,"summary":{"operation":"append"},"manifest-list":"mem://t/list"}]}"#;

/// The head of a manifest list.
const LIST: &[u8] =
    b"Obj\x01\x04\x16avro.schema\xf2\x06{\"type\":\"record\",\"name\":\"manifest_file\",\"fields\":[{\"name\":\"manifest_path\",\"type\":\"string\",\"field-id\":500},{\"name\":\"manifest_length\",\"type\":\"long\",\"field-id\":501},{\"name\":\"partition_spec_id\",\"type\":\"int\",\"field-id\":502},{\"name\":\"content\",\"type\":\"int\",\"field-id\":517},{\"name\":\"sequence_number\",\"type\":\"long\",\"field-id\":515},{\"name\":\"min_sequence_number\",\"type\":\"long\",\"field-id\":516},{\"name\":\"added_snapshot_id\",\"type\":\"long\",\"field-id\":503}]}\x14avro.codec\x08null\x00";

/// Rows `mem://t/m1` (data, 3), `mem://t/m2` (deletes, 3) and `mem://t/m3` (deletes, 4).
const ROWS: &[u8] =
    b"\x06l\x14mem://t/m1\xc8\x01\x00\x00\x06\x06\x02\x14mem://t/m2\xc8\x01\x00\x02\x06\x06\x02\x14mem://t/m3\xc8\x01\x00\x02\x08\x08\x02";

/// The list and its manifests.
pub fn all_files(alloc: Global) -> Option<World> {
    let mut world = World::new(alloc);
    world
        .put("mem://t/list", container(alloc, LIST, ROWS).ok()?)
        .ok()?;
    for (which, path) in PATHS.iter().enumerate() {
        world.put(path, manifest(alloc, which).ok()?).ok()?;
    }
    Some(world)
}

/// What happens.
#[derive(Clone, Copy)]
enum Step {
    /// Of a filter.
    Pin(&'static str),
    /// On the version of a number, of a data file with a path, by the names of a commit of a number.
    Append(u64, &'static str, u8),
    /// Of a pin, by a worker, of a row.
    Take(usize, usize, usize),
    /// Of a pin, into a worker, from a worker.
    Merge(usize, usize, usize),
    /// Of a pin, by a worker.
    Finish(usize, usize),
}

fn event(alloc: Global, step: Step) -> Result<Event, FilterFault> {
    match step {
        Step::Pin(filter) => Ok(Event::Pin {
            filter: parse(alloc, filter)?,
        }),
        Step::Append(base, path, number) => Ok(Event::Commit {
            base,
            change: adding(alloc, path)?,
            ids: ids(number),
        }),
        Step::Take(pin, worker, i) => Ok(Event::Take { pin, worker, i }),
        Step::Merge(pin, into, from) => Ok(Event::Merge { pin, into, from }),
        Step::Finish(pin, worker) => Ok(Event::Finish { pin, worker }),
    }
}

fn events(alloc: Global, steps: &[Step]) -> Result<Vec<Event>, FilterFault> {
    let mut events = Vec::new(alloc);
    for step in steps {
        events.push(event(alloc, *step)?)?;
    }
    Ok(events)
}

/// A scan around a commit, by two workers.
const AROUND_A_COMMIT: [Step; 7] = [
    Step::Pin("true"),
    Step::Take(0, 0, 0),
    Step::Append(0, "mem://t/x", 7),
    Step::Take(0, 1, 1),
    Step::Take(0, 1, 2),
    Step::Merge(0, 0, 1),
    Step::Finish(0, 0),
];

/// The table's version, and the scan's events.
fn scanned(alloc: Global) -> Option<(Version, Vec<Event>)> {
    let version = Version::open(alloc, METADATA, all_files(alloc)?).ok()?;
    Some((version, events(alloc, &AROUND_A_COMMIT).ok()?))
}

/// Whether the commit was made, and the last reply is the plan of its base.
fn is_planned(replies: &[Reply]) -> bool {
    match (replies.get(2), replies.last()) {
        (Some(Reply::Committed(receipt)), Some(Reply::Planned(plan))) => {
            receipt.number == 1 && is_plan(PLAN, &plan.lines())
        }
        _ => false,
    }
}

/// Whether a run ends in the plan, where it isn't refused memory.
fn ends_in_plan(alloc: Global, version: &Version, events: &[Event]) -> Option<bool> {
    let replies = run_events(alloc, version, events).ok()?;
    Some(is_planned(&replies))
}

/// Run with each allocation refused in turn: there is no answer, or the right one, and the next run has it.
#[test]
fn a_refused_growth_changes_no_reply(rt: HostRuntime) {
    // Where memory is refused before there is a version, there is nothing to run.
    let Some((version, events)) = scanned(rt.alloc()) else {
        return;
    };
    let is_right = match ends_in_plan(rt.alloc(), &version, &events) {
        Some(is_right) => is_right,
        None => ends_in_plan(rt.alloc(), &version, &events) == Some(true),
    };
    assert!(rt; is_right);
}
