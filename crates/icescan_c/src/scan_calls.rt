//! The calls on scans.

ghost use Rattle.std.specs.Prelude.{◌≡◌, [], ◌∷◌, None};
ghost use Rattle.icescan_c.specs.Calls.{Asks, OnHandle, Selects, Starts};
ghost use Rattle.icescan_c.specs.Making.{made};
ghost use Rattle.icescan_c.specs.Readings.{IsCount, IsReason, Reads, at_place, count_of, fault_in, hint_in, list_in};
ghost use Rattle.icescan_c.specs.Readings.{path_of, wanted_in};
ghost use Rattle.icescan_c_files.specs.Lent.{AreLent};
ghost use Rattle.icescan_c_requests.specs.Requests.{by_id, by_name};

use crate::handle::Handle;
use crate::held::Held;
use crate::working::Making;
use icescan_c_lent::Bytes;
use icescan_c_requests::{Reason, Refusal, request_by_id, request_by_name, status};
use icescan_text::Request;
use std::alloc::Global;

/// Has a handle hold what is made of a table's metadata and a request, or the line of the fault. A request that could
/// not be read is refused as it was; `Memory` where there is no room for the handle; then it holds what it held.
pub(crate) fn ask(
    alloc: Global,
    making: Making,
    handle: &mut Handle,
    metadata: &[u8],
    request: Result<Request, Refusal>,
) -> Result<(), Refusal>
    ensures { Asks (made making metadata.now) request handle.old.held result handle.new.held }
{
    let request = request?;
    let mut held = Held::Nothing;
    let ended = held.ask(alloc, making, metadata, &request);
    drop(request);
    handle.hold(alloc, held)?;
    ended
}

/// Asks for the snapshot that a branch or tag names, for the current one where the name is empty, under a filter where
/// its text is not empty.
#[unsafe(no_mangle)]
pub extern "C" fn icescan_scan_new(
    alloc: Global,
    scan: &mut Handle,
    metadata: &[u8],
    name: &[u8],
    filter: &[u8],
) -> u32
    ensures { Selects (made Making.Scan metadata.now) (name.now ∷ filter.now ∷ []) (by_name name.now filter.now)
        scan.old.held result scan.new.held }
{
    status(ask(
        alloc,
        Making::Scan,
        scan,
        metadata,
        request_by_name(alloc, name, filter),
    ))
}

/// Asks for the snapshot of an id, under a filter where its text is not empty.
#[unsafe(no_mangle)]
pub extern "C" fn icescan_scan_new_at(
    alloc: Global,
    scan: &mut Handle,
    metadata: &[u8],
    snapshot: i64,
    filter: &[u8],
) -> u32
    ensures { Selects (made Making.Scan metadata.now) (filter.now ∷ []) (by_id snapshot filter.now) scan.old.held result
        scan.new.held }
{
    status(ask(
        alloc,
        Making::Scan,
        scan,
        metadata,
        request_by_id(alloc, snapshot, filter),
    ))
}

/// Lends the path of the manifest list that the scan has to be started with.
#[unsafe(no_mangle)]
pub extern "C" fn icescan_scan_list(alloc: Global, scan: &mut Handle, path: &mut Bytes) -> u32
    ensures told { Reads AreLent list_in scan.old.held path.old result path.new }
    ensures unchanged { scan.new.held ≡ scan.old.held }
{
    let Some(held) = scan.take(alloc) else {
        return status(Err(Refusal::Kind));
    };
    let ended = held.lend_list(path);
    scan.put(held);
    status(ended)
}

/// Starts the scan: the bytes are those of the manifest list.
#[unsafe(no_mangle)]
pub extern "C" fn icescan_scan_start(alloc: Global, scan: &mut Handle, list: &[u8]) -> u32
    ensures { OnHandle (Starts list.now) scan.old.held result scan.new.held }
{
    let Some(mut held) = scan.take(alloc) else {
        return status(Err(Refusal::Kind));
    };
    let ended = held.start(alloc, list);
    scan.put(held);
    status(ended)
}

/// Tells how many manifests the scan wants.
#[unsafe(no_mangle)]
pub extern "C" fn icescan_scan_count(alloc: Global, scan: &mut Handle, count: &mut usize) -> u32
    ensures told { Reads IsCount (λ held. count_of (wanted_in held)) scan.old.held count.old result count.new }
    ensures unchanged { scan.new.held ≡ scan.old.held }
{
    let Some(held) = scan.take(alloc) else {
        return status(Err(Refusal::Kind));
    };
    let ended = held.count_wanted(count);
    scan.put(held);
    status(ended)
}

/// Lends the path of the manifest `i` that the scan wants.
#[unsafe(no_mangle)]
pub extern "C" fn icescan_scan_wanted(
    alloc: Global,
    scan: &mut Handle,
    i: usize,
    path: &mut Bytes,
) -> u32
    ensures told { Reads AreLent (λ held. path_of (at_place (wanted_in held) i)) scan.old.held path.old result
        path.new }
    ensures unchanged { scan.new.held ≡ scan.old.held }
{
    let Some(held) = scan.take(alloc) else {
        return status(Err(Refusal::Kind));
    };
    let ended = held.lend_wanted(i, path);
    scan.put(held);
    status(ended)
}

/// Lends the line that tells why a call answered that what was handed in is refused.
#[unsafe(no_mangle)]
pub extern "C" fn icescan_fault(alloc: Global, handle: &mut Handle, line: &mut Bytes) -> u32
    ensures told { Reads AreLent fault_in handle.old.held line.old result line.new }
    ensures unchanged { handle.new.held ≡ handle.old.held }
{
    let Some(held) = handle.take(alloc) else {
        return status(Err(Refusal::Kind));
    };
    let ended = held.lend_fault(line);
    handle.put(held);
    status(ended)
}

/// Tells the letter and the number of the refusal whose line a handle holds.
#[unsafe(no_mangle)]
pub extern "C" fn icescan_reason(alloc: Global, handle: &mut Handle, reason: &mut Reason) -> u32
    ensures told { Reads IsReason fault_in handle.old.held reason.old result reason.new }
    ensures unchanged { handle.new.held ≡ handle.old.held }
{
    let Some(held) = handle.take(alloc) else {
        return status(Err(Refusal::Kind));
    };
    let ended = held.tell_reason(reason);
    handle.put(held);
    status(ended)
}

/// Lends the lines of the hint of a refusal whose line a handle holds.
#[unsafe(no_mangle)]
pub extern "C" fn icescan_hint(alloc: Global, handle: &mut Handle, lines: &mut Bytes) -> u32
    ensures told { Reads AreLent hint_in handle.old.held lines.old result lines.new }
    ensures unchanged { handle.new.held ≡ handle.old.held }
{
    let Some(held) = handle.take(alloc) else {
        return status(Err(Refusal::Kind));
    };
    let ended = held.lend_hint(lines);
    handle.put(held);
    status(ended)
}

/// Lets go what a handle holds.
#[unsafe(no_mangle)]
pub extern "C" fn icescan_free(alloc: Global, handle: &mut Handle)
    ensures { handle.new.held ≡ None }
{
    drop(handle.take(alloc));
}
