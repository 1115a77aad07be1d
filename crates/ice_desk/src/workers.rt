//! The run of one worker.

ghost use Rattle.std.specs.Prelude.{◌≡◌, ◌<◌, ◌^◌, IsTrue, length};
ghost use Rattle.ice_state.specs.Contents.{IsOf};
ghost use Rattle.ice_desk.specs.Given.{IsGiven};
ghost use Rattle.ice_desk.specs.Left.{all_left};
ghost use Rattle.ice_desk.specs.Seats.{IsSeatOf, had_done};
ghost use Rattle.ice_desk.specs.Works.{Serves, Worked};

use crate::desk::{Claim, Desk, Seat};
use crate::files::{Files, ReadFault};
use crate::left::{Left, Served};
use avro_file::KnownSchema;
use ice_state::{Partial, Scan};
use std::alloc::Global;

/// Is told of each read of a worker, before it.
pub trait Gate {
    /// The worker of this number is about to read the manifest that stands at `i` among those wanted.
    fn before_take(&self, worker: usize, i: usize);
}

/// What a worker keeps from one manifest to the next.
#[derive(Drop)]
struct Room {
    /// The room that manifests are read into.
    bytes: Vec<u8>,
    /// The schema of the manifest that was taken last.
    last: Option<KnownSchema>,
}

/// Reads and takes a manifest, and marks it then; unless it was marked before.
fn serve<F: Files, G: Gate>(
    alloc: Global,
    files: &F,
    scan: &Scan,
    desk: &Desk,
    seat: &mut Seat,
    state: &mut Partial,
    worker: usize,
    gate: &G,
    i: usize,
    room: &mut Room,
) -> Served
    requires seat { IsSeatOf desk.now seat.old }
    requires state { IsOf scan.now state.old }
    requires desk { desk.now.manifests ≡ length scan.now.wanted }
    requires manifest { i < desk.now.manifests }
    ensures seat { IsSeatOf desk.now seat.new }
    ensures state { IsOf scan.now state.new }
    ensures served { Serves (F.world files.now) (F.may_fail files.now) scan.now i seat.old seat.new state.old state.new
        result }
    ensures given { IsGiven (F.gives files.now) scan.now state.old → IsGiven (F.gives files.now) scan.now state.new }
{
    if desk.look(seat, i) {
        return Served::Marked;
    }
    gate.before_take(worker, i);
    let row = &scan.wanted()[i];
    match files.read_into(alloc, row.path.as_str(), &mut room.bytes) {
        Ok(()) => match state.take_after(scan, i, room.bytes.as_slice(), &mut room.last) {
            Ok(()) => {
                desk.mark(seat, i);
                Served::Taken
            }
            Err(_) => Served::Memory,
        },
        Err(ReadFault::Absent) => Served::Absent,
        Err(ReadFault::Device) => Served::Device,
        Err(ReadFault::Memory) => Served::Memory,
    }
}

/// Draws, reads and takes until there are no tickets any more. A manifest that is taken is marked; one that is marked
/// is neither read nor taken again. A ticket whose manifest is marked, or whose read or take fails, is left: it counts
/// under its cause, and the worker goes on with the next.
pub fn work<F: Files, G: Gate>(
    alloc: Global,
    files: &F,
    scan: &Scan,
    desk: &Desk,
    seat: &mut Seat,
    state: &mut Partial,
    worker: usize,
    gate: &G,
) -> Left
    requires seat { IsSeatOf desk.now seat.old }
    requires state { IsOf scan.now state.old }
    requires desk { desk.now.manifests ≡ length scan.now.wanted }
    ensures seat { IsSeatOf desk.now seat.new }
    ensures done { IsTrue (had_done desk.now seat.new) }
    ensures small { all_left result < 2 ^ 32 }
    ensures worked { Worked (F.world files.now) (F.may_fail files.now) desk.now scan.now seat.old seat.new state.old
        state.new result }
    // What it takes is read from bytes that reads of these files gave.
    ensures given { IsGiven (F.gives files.now) scan.now state.old → IsGiven (F.gives files.now) scan.now state.new }
{
    let mut left = Left::none();
    let mut room = Room {
        bytes: Vec::new(alloc),
        last: None,
    };
    while let Claim::Index(i) = desk.claim(seat) {
        let served = serve(
            alloc, files, scan, desk, seat, state, worker, gate, i, &mut room,
        );
        left.count(served);
    }
    left
}
