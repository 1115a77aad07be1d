//! What a commit reads of the table that it is made on: its metadata, and the files of its current snapshot.

ghost use Rattle.std.specs.Prelude.{◌≡◌, List, ℕ, Option, Some, option_map, OnOk, IfOk, IfErr};
ghost use Rattle.contract_words.specs.Outcome.{Gives};
ghost use Rattle.ice_catalog_versions.specs.Histories.{openable};
ghost use Rattle.ice_desk.specs.Wanted.{paths_of};
ghost use Rattle.ice_meta.specs.declared.metadata.Target.TheVariants.{Main};
ghost use Rattle.ice_meta.specs.Targets.{described, list_of};
ghost use Rattle.ice_state.specs.Contents.{World as Told};
ghost use Rattle.icescan_commits.specs.Commits.{IsReadFault, base_files, keep_all, keep_found, manifests_in};
ghost use Rattle.icescan_commits.specs.GivenCommits.{IsBaseGiven, WereKept};

use contract_words::Text;
use ice_catalog_versions::World;
use ice_desk::{Files, ReadFault};
use ice_manifest_reading::{ListFault, Row, read_list};
use ice_meta::{MetaFault, Metadata, Target};
use icescan_text::RunFault;
use std::alloc::{AllocError, Global};

/// The metadata of these bytes, where a commit can be made on it: the current snapshot, if any, is there and has a
/// list.
pub fn read_metadata(alloc: Global, bytes: &[u8]) -> Result<Metadata, MetaFault>
    ensures { Gives MetaFault.Memory (λ m. described m.json m.table) result (openable bytes.now) }
{
    let metadata = Metadata::read(alloc, bytes)?;
    match metadata.resolve(&Target::Main) {
        Ok(_) | Err(MetaFault::NoSnapshot) => Ok(metadata),
        Err(fault) => Err(fault),
    }
}

/// Keeps the file at a path, where there is one.
fn keep_file<F: Files>(
    alloc: Global,
    files: &F,
    path: &str,
    kept: &mut World,
) -> Result<(), RunFault>
    ensures kept { (world : Told) → F.world files.now ≡ Some world →
        OnOk result (kept.new ≡ keep_found path.now (world path.now) kept.old) }
    ensures causes { IfErr result (IsReadFault (F.may_fail files.now)) }
    ensures given { OnOk result ((found : Option (List ℕ)) × F.gives files.now path.now found
        × (kept.new ≡ keep_found path.now found kept.old)) }
{
    match files.read(alloc, path) {
        Ok(bytes) => Ok(kept.put(path, bytes)?),
        Err(ReadFault::Absent) => Ok(()),
        Err(ReadFault::Device) => {
            let path = Text::from_string(String::from_str(alloc, path)?);
            Err(RunFault::Device(path))
        }
        Err(ReadFault::Memory) => Err(RunFault::Memory),
    }
}

/// Keeps the files at these paths, those that are there.
fn keep_files<F: Files>(
    alloc: Global,
    files: &F,
    paths: &[Text],
    kept: &mut World,
) -> Result<(), RunFault>
    ensures kept { (world : Told) → F.world files.now ≡ Some world →
        OnOk result (kept.new ≡ keep_all world paths.now kept.old) }
    ensures causes { IfErr result (IsReadFault (F.may_fail files.now)) }
    ensures given { OnOk result (WereKept (F.gives files.now) paths.now kept.old kept.new) }
{
    for path in paths {
        keep_file(alloc, files, path.as_str(), kept)?;
    }
    Ok(())
}

/// The paths of rows.
fn row_paths(alloc: Global, rows: &[Row]) -> Result<Vec<Text>, AllocError>
    ensures { IfOk result (λ paths. paths.items ≡ paths_of rows.now) }
{
    let mut paths = Vec::new(alloc);
    'rows: for row in rows {
        paths.push(row.path.copy(alloc)?)?;
    }
    Ok(paths)
}

/// The paths of the manifests that a list names, where it is there and can be read.
fn manifests_of(alloc: Global, list: Option<&[u8]>) -> Result<Vec<Text>, AllocError>
    ensures { IfOk result (λ paths. paths.items ≡ manifests_in (option_map (λ bytes. bytes.now) list.entry)) }
{
    let Some(list) = list else {
        return Ok(Vec::new(alloc));
    };
    match read_list(alloc, list) {
        Ok(rows) => row_paths(alloc, &rows),
        Err(ListFault::Memory) => Err(AllocError),
        Err(_) => Ok(Vec::new(alloc)),
    }
}

/// The list of the table's current snapshot and its manifests, those that are there. The refusal is `Device` for the
/// first whose read failed, or `Memory`.
pub fn read_base<F: Files>(alloc: Global, files: &F, metadata: &Metadata) -> Result<World, RunFault>
    ensures base { (world : Told) → F.world files.now ≡ Some world →
        IfOk result (λ kept. kept ≡ base_files world (list_of Main metadata.now.table)) }
    ensures causes { IfErr result (IsReadFault (F.may_fail files.now)) }
    ensures given { IfOk result (λ kept. IsBaseGiven (F.gives files.now) (list_of Main metadata.now.table) kept) }
{
    let mut kept = World::new(alloc);
    let list = match metadata.manifest_list(&Target::Main) {
        Ok(list) => list.as_str(),
        Err(_) => return Ok(kept),
    };
    keep_file(alloc, files, list, &mut kept)?;
    let manifests = manifests_of(alloc, kept.get(list))?;
    keep_files(alloc, files, &manifests, &mut kept)?;
    Ok(kept)
}
