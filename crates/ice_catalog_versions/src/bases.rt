//! What a commit is made on: the rows of the current snapshot, and which paths are live in it.

ghost use Rattle.std.specs.Prelude.{◌≡◌, ◌≢◌, IfOk, IfErr, None, Some, fold, find, map, option_map};
ghost use Rattle.std.specs.Prelude.{is_none, if◌then◌else◌};
ghost use Rattle.std.specs.Option.{option_copied, option_or};
ghost use Rattle.std.specs.Ordering.{nat_cmp};
ghost use Rattle.std.specs.Cmp.Lexicographic.{slice_cmp};
ghost use Rattle.ice_catalog_changes.specs.declared.fault.PrepareFault.TheVariants as fault;
ghost use Rattle.ice_catalog_versions.specs.Bases.{table_specs, current_list, rows_at, base_rows, manifest_at, live_in};
ghost use Rattle.ice_catalog_versions.specs.Outcome.{Refuses};
ghost use Rattle.ice_catalog_versions.specs.Partitionings.{specs_of};
ghost use Rattle.ice_catalog_versions.specs.Refusals.{AreSorted, is_among, lesser_path, least_path, live_among};
ghost use Rattle.ice_catalog_versions.specs.Refusals.{unreadable};
ghost use Rattle.ice_catalog_versions.specs.Refusals.{base_bad, path_taken};

use crate::partitioning::Partitioning;
use crate::refusals::lesser_path;
use crate::tuples::partitioning_of;
use crate::world::World;
use contract_words::Text;
use ice_catalog_changes::PrepareFault;
use ice_manifest_reading::{Entry, ListFault, ManifestFault, Row, read_list, read_manifest};
use ice_meta::{Metadata, Target};
use std::alloc::Global;
use std::cmp::Ordering;

/// The path of the current snapshot's manifest list.
fn current_list(metadata: &Metadata) -> Option<&Text>
    ensures { option_copied result ≡ current_list metadata.now.table }
{
    metadata.manifest_list(&Target::Main).ok()
}

/// That a file of the base is bad, unless memory ran out.
fn base_bad(alloc: Global, path: &Text) -> PrepareFault
    ensures { result ≢ fault.Memory → result ≡ fault.BaseBad path.now }
{
    match path.copy(alloc) {
        Ok(path) => PrepareFault::BaseBad(path),
        Err(_) => PrepareFault::Memory,
    }
}

/// The rows of a list, none without a list.
fn rows_at(alloc: Global, world: &World, list: Option<&Text>) -> Result<Vec<Row>, PrepareFault>
    ensures rows { IfOk result (λ rows. rows_at world.now (option_copied list.entry) ≡ Some rows.items) }
    ensures bad { IfErr result (λ f. f ≢ fault.Memory → (rows_at world.now (option_copied list.entry) ≡ None)
        × (option_map fault.BaseBad (option_copied list.entry) ≡ Some f)) }
{
    let Some(path) = list else {
        return Ok(Vec::new(alloc));
    };
    let Some(bytes) = world.get(path.as_str()) else {
        return Err(base_bad(alloc, path));
    };
    match read_list(alloc, bytes) {
        Ok(rows) => Ok(rows),
        Err(ListFault::Memory) => Err(PrepareFault::Memory),
        Err(_) => Err(base_bad(alloc, path)),
    }
}

/// The live entries of a row's manifest.
fn manifest_at(
    alloc: Global,
    world: &World,
    partitionings: &[Partitioning],
    row: &Row,
) -> Result<Vec<Entry>, PrepareFault>
    ensures live { IfOk result (λ found. manifest_at world.now (specs_of partitionings.now) row.now
        ≡ Some found.items) }
    ensures bad { IfErr result (λ f. f ≢ fault.Memory →
        (manifest_at world.now (specs_of partitionings.now) row.now ≡ None) × (f ≡ fault.BaseBad row.now.path)) }
{
    let Some(partitioning) = partitioning_of(partitionings, row.spec_id) else {
        return Err(base_bad(alloc, &row.path));
    };
    let Some(bytes) = world.get(row.path.as_str()) else {
        return Err(base_bad(alloc, &row.path));
    };
    match read_manifest(alloc, row, partitioning.spec, bytes) {
        Ok(found) => Ok(found),
        Err(ManifestFault::Memory) => Err(PrepareFault::Memory),
        Err(_) => Err(base_bad(alloc, &row.path)),
    }
}

/// The path, if it is among sorted paths.
fn find_path<'a>(paths: &[&'a Text], path: &[u8]) -> Option<&'a Text>
    requires { AreSorted paths.now }
    ensures { option_copied result ≡ (if is_among (map (λ p. p.now) paths.now) path.now then Some path.now else None) }
{
    let place = paths.binary_search_by(
        |other: &&Text| -> Ordering
            ensures { result ≡ slice_cmp nat_cmp other.now.now path.entry.now }
        { other.as_bytes().cmp(path) },
    );
    match place {
        Ok(at) => Some(paths[at]),
        Err(_) => None,
    }
}

/// The least path of a live entry that is among sorted paths, and of the least so far.
fn least_live<'a>(
    mut least: Option<&'a Text>,
    paths: &[&'a Text],
    found: &[Entry],
) -> Option<&'a Text>
    requires { AreSorted paths.now }
    ensures { option_copied result
        ≡ fold lesser_path (option_copied least.entry) (live_among (map (λ p. p.now) paths.now) found.now) }
{
    'found: for entry in found {
        if let Some(path) = find_path(paths, entry.file.path.as_slice()) {
            least = lesser_path(least, path);
        }
    }
    least
}

/// The least of sorted paths that is live under these rows. It stops at the first row whose manifest can't be read.
fn least_taken<'a>(
    alloc: Global,
    world: &World,
    partitionings: &[Partitioning],
    rows: &[Row],
    paths: &[&'a Text],
) -> Result<Option<&'a Text>, PrepareFault>
    requires { AreSorted paths.now }
    ensures bad { Refuses result
        (option_map fault.BaseBad (unreadable (manifest_at world.now (specs_of partitionings.now)) rows.now)) }
    ensures taken { IfOk result (λ least. option_copied least ≡ least_path
        (live_among (map (λ p. p.now) paths.now) (live_in world.now (specs_of partitionings.now) rows.now))) }
{
    let mut least = None;
    'rows: for row in rows {
        let found = manifest_at(alloc, world, partitionings, row)?;
        least = least_live(least, paths, &found);
    }
    Ok(least)
}

/// The rows of the current snapshot. It stops where the list or a manifest can't be read, and then where one of the
/// sorted paths is live.
pub fn base_rows(
    alloc: Global,
    metadata: &Metadata,
    world: &World,
    partitionings: &[Partitioning],
    paths: &[&Text],
) -> Result<Vec<Row>, PrepareFault>
    requires sorted { AreSorted paths.now }
    requires specs { specs_of partitionings.now ≡ table_specs metadata.now.table }
    ensures refuses { Refuses result (option_or (base_bad world.now metadata.now.table)
        (path_taken world.now metadata.now.table (map (λ p. p.now) paths.now))) }
    ensures rows { IfOk result (λ rows. rows.items ≡ base_rows world.now metadata.now.table) }
{
    let rows = rows_at(alloc, world, current_list(metadata))?;
    match least_taken(alloc, world, partitionings, &rows, paths)? {
        Some(path) => Err(PrepareFault::PathTaken(path.copy(alloc)?)),
        None => Ok(rows),
    }
}
