//! Preparing a commit on a version.

ghost use Rattle.std.specs.Prelude.{◌≡◌, ◌<◌, None, Some, IfOk};
ghost use Rattle.std.specs.Arc.{arc_value};
ghost use Rattle.std.specs.List.{AllByRecursion};
ghost use Rattle.contract_words.specs.Outcome.{Gives};
ghost use Rattle.ice_catalog_versions.specs.Adding.{CanWrite, added};
ghost use Rattle.ice_catalog_versions.specs.Bases.{table_specs, base_rows};
ghost use Rattle.ice_catalog_versions.specs.Groups.{groups};
ghost use Rattle.ice_catalog_versions.specs.Histories.{added_on, prepared_on};
ghost use Rattle.ice_catalog_versions.specs.Live.{AddsToBase, AreReadBack, IsReadBack, new_manifests, rows_after};
ghost use Rattle.ice_catalog_versions.specs.Outcome.{Refuses};
ghost use Rattle.ice_catalog_versions.specs.Partitionings.{specs_of};
ghost use Rattle.ice_catalog_versions.specs.Refusals.{refusal};
ghost use Rattle.ice_catalog_versions.specs.Seen.{all_seen};
ghost use Rattle.ice_catalog_versions.specs.States.{state_now};

use crate::adding::added_files;
use crate::bases::base_rows;
use crate::groups::{Group, groups};
use crate::partitioning::Partitioning;
use crate::prepared::Prepared;
use crate::refusals::{
    check_files, check_not_empty, check_sequence, check_sizes, check_snapshot, check_time,
    distinct_paths,
};
use crate::tuples::{check_specs, check_tuples, partitionings};
use crate::version::Version;
use crate::world::World;
use contract_words::{Items, Text};
use ice_catalog_changes::{Change, Commit, Ids, PrepareFault};
use ice_manifest_reading::Row;
use ice_meta::{Metadata, Spec, Target};
use std::alloc::{AllocError, Global};
use std::sync::Arc;

/// What a commit that isn't refused builds on: the rows of its base, and the groups of its files.
#[derive(Drop)]
struct Accepted<'a> {
    rows: Vec<Row>,
    groups: Vec<Group<'a>>,
}

/// Stops at the first reason for which the commit is refused.
fn check<'a>(
    alloc: Global,
    metadata: &Metadata,
    world: &World,
    partitionings: &[Partitioning],
    change: &'a Change,
    ids: &Ids,
) -> Result<Accepted<'a>, PrepareFault>
    requires { specs_of partitionings.now ≡ table_specs metadata.now.table }
    ensures refuses { Refuses result
        (refusal (state_now metadata.now world.now) (record { change = change.now; ids = ids.now })) }
    ensures rows { IfOk result (λ accepted. accepted.rows.items ≡ base_rows world.now metadata.now.table) }
    ensures groups { IfOk result (λ accepted. all_seen accepted.groups.items ≡ groups change.now) }
{
    check_not_empty(change)?;
    check_snapshot(metadata, ids)?;
    check_sequence(metadata)?;
    let paths = distinct_paths(alloc, change)?;
    check_files(alloc, change)?;
    check_specs(partitionings, change)?;
    check_tuples(alloc, partitionings, change)?;
    let rows = base_rows(alloc, metadata, world, partitionings, &paths)?;
    let groups = groups(alloc, change)?;
    let files = change.files.as_slice().len() + change.deletes.as_slice().len();
    check_sizes(rows.len() + groups.len(), files)?;
    check_time(metadata, ids)?;
    Ok(Accepted { rows, groups })
}

/// The partition specs of a table, with the types that their source columns have in the current schema.
#[tactic(auto, unfolding(crate::specs::Bases::table_specs))]
fn table_specs(alloc: Global, metadata: &Metadata) -> Result<Items<Spec>, AllocError>
    ensures { IfOk result (λ specs. specs ≡ table_specs metadata.now.table) }
{
    metadata.specs(alloc, metadata.schema_for(&Target::Main))
}

/// The files that a commit adds, where it isn't refused.
fn added_by(
    alloc: Global,
    metadata: &Metadata,
    world: &World,
    partitionings: &[Partitioning],
    change: &Change,
    ids: &Ids,
    accepted: Accepted,
) -> Result<Vec<(Text, Items<u8>)>, AllocError>
    requires specs { specs_of partitionings.now ≡ table_specs metadata.now.table }
    requires accepted { refusal (state_now metadata.now world.now)
        (record { change = change.now; ids = ids.now }) ≡ None }
    requires rows { accepted.rows.items ≡ base_rows world.now metadata.now.table }
    requires groups { all_seen accepted.groups.items ≡ groups change.now }
    ensures files { IfOk result (λ files. files.items
        ≡ added (state_now metadata.now world.now) (record { change = change.now; ids = ids.now })) }
    ensures read { IfOk result (λ _. AllByRecursion IsReadBack
        (new_manifests (state_now metadata.now world.now) (record { change = change.now; ids = ids.now }))) }
    ensures list { IfOk result (λ _. AreReadBack
        (rows_after (state_now metadata.now world.now) (record { change = change.now; ids = ids.now })) ids.now) }
{
    let Accepted { rows, groups } = accepted;
    let files = added_files(alloc, metadata, partitionings, ids, rows, &groups)?;
    Ok(files)
}

/// A commit that its base takes, and the files that it adds.
#[derive(Drop)]
struct AcceptedCommit {
    commit: Arc<Commit>,
    files: Vec<(Text, Items<u8>)>,
}

/// What a commit of this change adds to its base, or the first reason for which it is refused.
fn accept(
    alloc: Global,
    base: &Version,
    change: &Change,
    ids: Ids,
) -> Result<AcceptedCommit, PrepareFault>
    ensures prepared { Gives PrepareFault.Memory (λ r. record { base = base.now; commit = arc_value r.commit }) result
        (prepared_on base.now (record { change = change.now; ids = ids })) }
    ensures commit { IfOk result (λ r. arc_value r.commit ≡ record { change = change.now; ids = ids }) }
    ensures adds { IfOk result (λ r. AddsToBase base.now (arc_value r.commit)) }
    ensures files { IfOk result (λ r. added_on base.now (arc_value r.commit) ≡ Some r.files.items) }
{
    let (metadata, world) = base.state();
    let specs = table_specs(alloc, metadata)?;
    let partitionings = partitionings(alloc, specs.as_slice())?;
    let accepted = check(alloc, metadata, world, &partitionings, change, &ids)?;
    let files = added_by(
        alloc,
        metadata,
        world,
        &partitionings,
        change,
        &ids,
        accepted,
    )?;
    let change = change.copy(alloc)?;
    let commit = Arc::new(alloc, Commit { change, ids })?;
    Ok(AcceptedCommit { commit, files })
}

/// Prepares a commit of this change on a version: the version after it, with the files that it adds; or the first
/// reason for which it is refused, in the order of `PrepareFault`. Where none of its files takes the place of one that
/// is there, as a uuid of its own makes sure, the next version has the rows and the live entries of its base, and those
/// of the files of the change, with the next sequence number.
pub fn prepare(
    alloc: Global,
    base: &Version,
    change: &Change,
    ids: Ids,
) -> Result<Prepared, PrepareFault>
    ensures prepared { Gives PrepareFault.Memory (λ p. p) result
        (prepared_on base.now (record { change = change.now; ids = ids })) }
    ensures live { IfOk result (λ _. AddsToBase base.now (record { change = change.now; ids = ids })) }
{
    let AcceptedCommit { commit, files } = accept(alloc, base, change, ids)?;
    Ok(Prepared::over(alloc, base.copy(alloc)?, commit, files)?)
}

/// Prepares a commit as `prepare` does, in the room of its base, so that the metadata, which may be large, stand in
/// memory once.
pub fn prepare_in_place(
    alloc: Global,
    base: Version,
    change: &Change,
    ids: Ids,
) -> Result<Prepared, PrepareFault>
    ensures prepared { Gives PrepareFault.Memory (λ p. p) result
        (prepared_on base (record { change = change.now; ids = ids })) }
    ensures live { IfOk result (λ _. AddsToBase base (record { change = change.now; ids = ids })) }
{
    let AcceptedCommit { commit, files } = accept(alloc, &base, change, ids)?;
    Ok(Prepared::over(alloc, base, commit, files)?)
}
