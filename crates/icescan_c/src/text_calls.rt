//! The calls that tell lines of JSON.

ghost use Rattle.std.specs.Prelude.{◌≡◌, [], ◌∷◌};
ghost use Rattle.icescan_c.specs.Calls.{Hands, OfOther, OnHandle, Selects, TellsJson};
ghost use Rattle.icescan_c.specs.Making.{made};
ghost use Rattle.icescan_c.specs.Readings.{Reads, text_in};
ghost use Rattle.icescan_c_files.specs.Lent.{AreLent};
ghost use Rattle.icescan_c_requests.specs.Requests.{by_id, by_name};

use crate::handle::Handle;
use crate::held::Held;
use crate::scan_calls::ask;
use crate::working::Making;
use icescan_c_lent::Bytes;
use icescan_c_requests::{Refusal, request_by_id, request_by_name, status};
use std::alloc::Global;

/// Tells the columns of the snapshot that a branch or tag names, of the current one where the name is empty.
#[unsafe(no_mangle)]
pub extern "C" fn icescan_columns_new(
    alloc: Global,
    columns: &mut Handle,
    metadata: &[u8],
    name: &[u8],
) -> u32
    ensures { Selects (made Making.Columns metadata.now) (name.now ∷ [] ∷ []) (by_name name.now []) columns.old.held
        result columns.new.held }
{
    status(ask(
        alloc,
        Making::Columns,
        columns,
        metadata,
        request_by_name(alloc, name, b""),
    ))
}

/// Tells the columns of the snapshot of an id.
#[unsafe(no_mangle)]
pub extern "C" fn icescan_columns_new_at(
    alloc: Global,
    columns: &mut Handle,
    metadata: &[u8],
    snapshot: i64,
) -> u32
    ensures { Selects (made Making.Columns metadata.now) ([] ∷ []) (by_id snapshot []) columns.old.held result
        columns.new.held }
{
    status(ask(
        alloc,
        Making::Columns,
        columns,
        metadata,
        request_by_id(alloc, snapshot, b""),
    ))
}

/// Asks for an audit of the snapshot that a branch or tag names, of the current one where the name is empty.
#[unsafe(no_mangle)]
pub extern "C" fn icescan_audit_new(
    alloc: Global,
    audit: &mut Handle,
    metadata: &[u8],
    name: &[u8],
) -> u32
    ensures { Selects (made Making.Audit metadata.now) (name.now ∷ [] ∷ []) (by_name name.now []) audit.old.held result
        audit.new.held }
{
    status(ask(
        alloc,
        Making::Audit,
        audit,
        metadata,
        request_by_name(alloc, name, b""),
    ))
}

/// Asks for an audit of the snapshot of an id.
#[unsafe(no_mangle)]
pub extern "C" fn icescan_audit_new_at(
    alloc: Global,
    audit: &mut Handle,
    metadata: &[u8],
    snapshot: i64,
) -> u32
    ensures { Selects (made Making.Audit metadata.now) ([] ∷ []) (by_id snapshot []) audit.old.held result
        audit.new.held }
{
    status(ask(
        alloc,
        Making::Audit,
        audit,
        metadata,
        request_by_id(alloc, snapshot, b""),
    ))
}

/// Hands in the manifest of the next row that the audit wants, which has these bytes.
#[unsafe(no_mangle)]
pub extern "C" fn icescan_audit_take(alloc: Global, audit: &mut Handle, manifest: &[u8]) -> u32
    ensures { OnHandle (Hands manifest.now) audit.old.held result audit.new.held }
{
    let Some(mut held) = audit.take(alloc) else {
        return status(Err(Refusal::Kind));
    };
    let ended = held.hand(alloc, manifest);
    audit.put(held);
    status(ended)
}

/// Has a handle hold a plan as JSON: `Kind` where what was lent is no plan, or `Memory`, and then the handle holds what
/// it held.
fn tell_json(alloc: Global, plan: &Held, text: &mut Handle) -> Result<(), Refusal>
    ensures { TellsJson plan.now text.old.held result text.new.held }
{
    let Held::Plan(plan) = plan else {
        return Err(Refusal::Kind);
    };
    let json = plan.json(alloc)?;
    text.hold(alloc, Held::Text(json))?;
    Ok(())
}

/// Has a handle hold the plan as JSON.
#[unsafe(no_mangle)]
pub extern "C" fn icescan_plan_json(alloc: Global, plan: &mut Handle, text: &mut Handle) -> u32
    ensures unchanged { plan.new.held ≡ plan.old.held }
    ensures told { OfOther TellsJson plan.old.held text.old.held result text.new.held }
{
    let Some(held) = plan.take(alloc) else {
        return status(Err(Refusal::Kind));
    };
    let ended = tell_json(alloc, &held, text);
    plan.put(held);
    status(ended)
}

/// Lends the lines of JSON that a handle holds.
#[unsafe(no_mangle)]
pub extern "C" fn icescan_text(alloc: Global, handle: &mut Handle, text: &mut Bytes) -> u32
    ensures told { Reads AreLent text_in handle.old.held text.old result text.new }
    ensures unchanged { handle.new.held ≡ handle.old.held }
{
    let Some(held) = handle.take(alloc) else {
        return status(Err(Refusal::Kind));
    };
    let ended = held.lend_text(text);
    handle.put(held);
    status(ended)
}
