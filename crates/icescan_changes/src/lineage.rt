//! Whether one snapshot follows another by appends alone.

ghost use Rattle.std.specs.Prelude.{◌≡◌, ◌+◌, IfErr, Some, if◌then◌else◌, length};
ghost use Rattle.contract_words.specs.Outcome.{Gives};
ghost use Rattle.icescan_changes.specs.Lineage.{IsOfLineage, between, came_from, followed, follows, is_append};
ghost use Rattle.icescan_changes.specs.Lineage.{lineage_of};

use ice_meta::{Metadata, Snapshot, Target};
use icescan_text::{ChangesRequest, LineageFault, RunFault};
use std::alloc::Global;

/// Whether a snapshot says that it is an append.
fn is_append(snapshot: &Snapshot) -> bool
    ensures { result ≡ is_append snapshot.now }
{
    match &snapshot.operation {
        Some(operation) => operation.as_str() == "append",
        None => false,
    }
}

/// The parent of a snapshot, and whether the snapshot is an append.
fn came_from(metadata: &Metadata, id: i64) -> Option<(i64, bool)>
    ensures { result ≡ came_from id metadata.now.table }
{
    let snapshot = metadata.snapshot(id)?;
    let parent = snapshot.parent_id?;
    Some((parent, is_append(snapshot)))
}

/// The first snapshot that is no append, where this one comes before another that is none.
fn first_other(appends: bool, id: i64, other: Option<i64>) -> Option<i64>
    ensures { result ≡ (if appends then other else Some id) }
{
    if appends { other } else { Some(id) }
}

fn followed(other: Option<i64>) -> Result<(), LineageFault>
    ensures { result ≡ followed other }
{
    match other {
        Some(id) => Err(LineageFault::NotAppended(id)),
        None => Ok(()),
    }
}

/// Whether the later snapshot follows the earlier one by appends alone.
fn follows(metadata: &Metadata, earlier: i64, later: i64) -> Result<(), LineageFault>
    ensures { result ≡ follows (length metadata.now.table.snapshots + 1) metadata.now.table earlier later }
{
    let mut id = later;
    let mut other = None;
    let mut steps = metadata.table().snapshots.as_slice().len() + 1;
    'snapshots: while 0 < steps {
        if id == earlier {
            return followed(other);
        }
        let Some((parent, appends)) = came_from(metadata, id) else {
            return Err(LineageFault::NotAncestor);
        };
        other = first_other(appends, id, other);
        id = parent;
        steps -= 1;
    }
    Err(LineageFault::NotAncestor)
}

/// Stops where the later target does not follow the earlier one by appends alone.
#[tactic(auto, unfolding(crate::specs::Lineage::between))]
fn check_between(metadata: &Metadata, from: &Target, to: &Target) -> Result<(), RunFault>
    ensures gives { Gives RunFault.Memory (λ done. done) result (between metadata.now.table from.now to.now) }
    ensures causes { IfErr result IsOfLineage }
{
    let earlier = metadata.resolve(from)?;
    let later = metadata.resolve(to)?;
    match follows(metadata, earlier, later) {
        Ok(()) => Ok(()),
        Err(fault) => Err(RunFault::Lineage(fault)),
    }
}

/// Stops where each snapshot after the earlier one has to be an append, and one is none, or the earlier one is no
/// ancestor of the later.
#[tactic(auto, unfolding(crate::specs::Lineage::lineage_of))]
pub fn check_lineage(
    alloc: Global,
    metadata: &[u8],
    request: &ChangesRequest,
) -> Result<(), RunFault>
    ensures gives { Gives RunFault.Memory (λ done. done) result (lineage_of metadata.now request.now) }
    ensures causes { IfErr result IsOfLineage }
{
    if !request.appends {
        return Ok(());
    }
    let metadata = Metadata::read(alloc, metadata)?;
    check_between(&metadata, &request.earlier.target, &request.later.target)
}
