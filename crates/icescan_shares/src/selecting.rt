//! The scan that a request asks for, and its name.

ghost use Rattle.std.specs.Prelude.{◌≤◌, IfOk, length};
ghost use Rattle.icescan_shares.specs.Given.{IsScanOfGiven, IsScanOfList};

use crate::names::scan_name;
use contract_words::Items;
use ice_desk::Files;
use ice_filter::Bound;
use ice_manifest_reading::read_list;
use ice_meta::Spec;
use ice_state::Scan;
use icescan_requests::{SelectedRows, Selection, select};
use icescan_text::{Request, RunFault, read_file};
use std::alloc::Global;

/// A scan and its name.
#[derive(Debug, Drop)]
pub struct NamedScan {
    pub name: [u8; 32],
    pub scan: Scan,
}

/// The rows of the manifest list with these bytes, and what a request asks of them, as a scan.
fn scan_of_list(
    alloc: Global,
    list: &[u8],
    specs: Items<Spec>,
    filter: Bound,
) -> Result<Scan, RunFault>
    ensures scan { IfOk result (λ scan. IsScanOfList list.now specs filter.parts scan) }
    ensures few { IfOk result (λ scan. length scan.wanted ≤ 65536) }
{
    let rows = read_list(alloc, list)?;
    let selected = SelectedRows {
        rows: Items::from_vec(rows),
        specs,
        filter,
    };
    Ok(selected.into_scan(alloc)?)
}

/// The scan that a request asks for of the table whose metadata these are the bytes of, with its name. The refusals and
/// their order are those of a plan, up to where it reads the first manifest.
pub fn select_scan<F: Files>(
    alloc: Global,
    files: &F,
    metadata: &[u8],
    request: &Request,
) -> Result<NamedScan, RunFault>
    ensures given { IfOk result (λ found. IsScanOfGiven (F.gives files.now) metadata.now request.now found.name
        found.scan) }
    ensures few { IfOk result (λ found. length found.scan.wanted ≤ 65536) }
{
    let Selection {
        list,
        specs,
        filter,
    } = select(alloc, metadata, request)?;
    let bytes = read_file(alloc, files, list.as_str())?;
    let name = scan_name(metadata, &bytes, request);
    let scan = scan_of_list(alloc, &bytes, specs, filter)?;
    Ok(NamedScan { name, scan })
}
