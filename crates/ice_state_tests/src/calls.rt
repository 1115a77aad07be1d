//! Public calls once more, each under the one clause that its wrong implementations turn, so that the gate can try
//! these cheaply.

ghost use Rattle.std.specs.Prelude.{◌≡◌, ◌<◌, IsTrue, None, OnOk, length, replicate};
ghost use Rattle.std.specs.List.{AllByRecursion};
ghost use Rattle.contract_words.specs.Outcome.{Gives};
ghost use Rattle.ice_project.specs.Projection.{projection};
ghost use Rattle.ice_state.specs.Contents.{IsOf, took};
ghost use Rattle.ice_state.specs.Joins.{join};
ghost use Rattle.ice_state.specs.Lines.{LacksDeletes};
ghost use Rattle.ice_state.specs.Outcomes.{outcome};
ghost use Rattle.ice_state.specs.Parts.{filtered_by, pruner_by};
ghost use Rattle.ice_state.specs.Pruning.{keeps};
ghost use Rattle.ice_state.specs.Scans.{scan_of};

use ice_filter::Bound;
use ice_manifest_reading::{Live, Row};
use ice_meta::Spec;
use ice_project::{PartFilter, bounds_may};
use ice_state::{FinishFault, Lines, OwnedPlan, Partial, Scan, ScanFault};
use ice_value::FileContent;
use std::alloc::{AllocError, Global};

/// The scan of these rows.
pub fn new(
    alloc: Global,
    rows: Vec<Row>,
    specs: Vec<Spec>,
    filter: Bound,
) -> Result<Scan, ScanFault>
    ensures { Gives ScanFault.Memory (λ scan. scan) result (scan_of rows.items specs.items filter.parts) }
{
    Scan::new(alloc, rows, specs, filter)
}

/// Whether the plan has no delete files at all.
pub fn lacks_deletes(lines: &Lines<'_>) -> bool
    ensures { IsTrue result → AllByRecursion LacksDeletes lines.now }
{
    lines.lacks_deletes()
}

/// Whether a filter keeps a live entry of a spec, as scans do.
pub fn keeps(filter: &Bound, spec: &Spec, part: &PartFilter, live: &Live<'_, '_>) -> bool
    requires { part.now ≡ projection filter.now.parts spec.now }
    ensures { result ≡ keeps (pruner_by (filtered_by filter.now.parts spec.now)) live.now }
{
    let _ = spec;
    part.meets(live.entry.tuple())
        && (live.entry.content() != FileContent::Data || bounds_may(filter, &live.bounds))
}

/// Takes a manifest into a state of its own, and what that took into this one.
pub fn take_apart(
    state: &mut Partial,
    alloc: Global,
    scan: &Scan,
    i: usize,
    bytes: &[u8],
) -> Result<(), AllocError>
    requires of_scan { IsOf scan.now state.old }
    requires row { i < length scan.now.wanted }
    ensures { OnOk result
        (state.new ≡ join state.old (took scan.now (replicate (length scan.now.wanted) None) i bytes.now)) }
{
    let mut other = Partial::empty(alloc, scan)?;
    other.take(scan, i, bytes)?;
    state.merge(&other)
}

/// Takes in what another state took, of which nobody needs more.
pub fn absorb(state: &mut Partial, other: Partial) -> Result<(), AllocError>
    requires { length state.old ≡ length other }
    ensures { OnOk result (state.new ≡ join state.old other) }
{
    state.absorb(other)
}

/// The plan, or what keeps the state from one. Wrong implementations may need memory.
pub fn into_plan(_alloc: Global, state: Partial, scan: &Scan) -> Result<OwnedPlan, FinishFault>
    requires { IsOf scan.now state }
    ensures { Gives FinishFault.Memory (λ plan. plan) result (outcome scan.now state) }
{
    state.into_plan(scan)
}
