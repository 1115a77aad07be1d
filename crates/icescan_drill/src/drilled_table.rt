//! The table of a drill: how it begins, what is committed to it, and what its versions have.

ghost use Rattle.std.specs.Prelude.{◌≡◌, ◌≢◌, ◌∷◌, [], Ok, IfOk, IfErr, OnOk, IsErrOf};
ghost use Rattle.ice_meta.specs.Targets.{described};
ghost use Rattle.icescan_drill.specs.Drills.{HasEachFile, IsLost, IsPlanOf, IsTurn, commit_of, file_path, has_file};
ghost use Rattle.icescan_drill.specs.Drills.{ids_of};
ghost use Rattle.icescan_drill.specs.Drills.{new_file, scan_of_state};

use contract_words::{Items, Text};
use ice_catalog_changes::{Change, Ids};
use ice_catalog_versions::{Prepared, Version, World, prepare};
use ice_desk::take_wanted;
use ice_filter::Bound;
use ice_manifest::NewFile;
use ice_meta::{Metadata, Target};
use ice_state::{Lines, OwnedPlan, Partial, Scan};
use ice_value::FileContent;
use icescan_text::{DrillFault, RunFault, read_rows};
use std::alloc::{AllocError, Global};
use uuid::Uuid;

/// The metadata of a table without snapshots and without partitions.
const EMPTY_TABLE: &str =
    r#"{"format-version":2,"table-uuid":"6d1c0f5e-2b0a-4c57-9d2e-0a4f3c8b7e61","location":"mem://drill","last-sequence-number":0,"last-updated-ms":0,"last-column-id":1,"schemas":[{"type":"struct","schema-id":0,"fields":[{"id":1,"name":"id","required":true,"type":"int"}]}],"current-schema-id":0,"partition-specs":[{"spec-id":0,"fields":[]}],"default-spec-id":0,"last-partition-id":999,"sort-orders":[{"order-id":0,"fields":[]}],"default-sort-order-id":0}"#;

/// The table before any commit.
pub fn open_table(alloc: Global) -> Result<Version, RunFault>
    ensures empty { IfOk result (λ version. version.journal ≡ []) }
    ensures write { IsErrOf result RunFault.Write → ⊥ }
{
    Ok(Version::open(alloc, EMPTY_TABLE.as_bytes(), World::new(alloc))?)
}

/// The path of the file that a commit of a thread appends.
fn file_path(alloc: Global, thread: u64, commit: u64) -> Result<Text, AllocError>
    ensures { IfOk result (λ path. path ≡ file_path thread commit) }
{
    let path = format!(in alloc; "mem://drill/{thread}-{commit}.parquet")?;
    Ok(Text::from_string(path))
}

/// The file that a commit of a thread appends.
fn new_file(alloc: Global, thread: u64, commit: u64) -> Result<NewFile, AllocError>
    ensures { IfOk result (λ file. file ≡ new_file thread commit) }
{
    Ok(NewFile {
        content: FileContent::Data,
        path: file_path(alloc, thread, commit)?,
        format: Text::from_string(String::from_str(alloc, "parquet")?),
        spec_id: 0,
        tuple: Items::new(alloc),
        record_count: 1,
        file_size: 1,
        equality_ids: Items::new(alloc),
        referenced: None,
    })
}

/// The change of a commit.
fn change_of(alloc: Global, thread: u64, commit: u64) -> Result<Change, AllocError>
    ensures { IfOk result (λ change. change ≡ record { files = new_file thread commit ∷ []; deletes = [] }) }
{
    let mut files = Items::with_capacity(alloc, 1)?;
    files.push(new_file(alloc, thread, commit)?)?;
    Ok(Change {
        files,
        deletes: Items::new(alloc),
    })
}

/// The snapshot id and the uuid of a commit; none has those of another.
fn ids_of(thread: u64, commit: u64) -> Ids
    requires { IsTurn thread commit }
    ensures { result ≡ ids_of thread commit }
{
    let number = 100 * thread + commit + 1;
    Ids {
        snapshot: number as i64,
        uuid: Uuid::from_u128(u128::from(number)),
        now_ms: 0,
    }
}

/// Prepares a commit of a thread on a version.
pub fn prepare_append(
    alloc: Global,
    version: &Version,
    thread: u64,
    commit: u64,
) -> Result<Prepared, RunFault>
    requires { IsTurn thread commit }
    ensures prepared { IfOk result (λ prepared. prepared ≡
        record { base = version.now; commit = commit_of thread commit }) }
    ensures write { IsErrOf result RunFault.Write → ⊥ }
{
    let change = change_of(alloc, thread, commit)?;
    Ok(prepare(alloc, version, &change, ids_of(thread, commit))?)
}

/// The scan of a version's current snapshot, without a filter.
#[tactic(auto, unfolding(crate::specs::Drills::scan_of_state))]
fn scan_version(alloc: Global, metadata: &Metadata, world: &World) -> Result<Scan, RunFault>
    ensures scan { IfOk result (λ scan. scan_of_state
        (record { metadata = described metadata.now.json metadata.now.table; world = world.now }) ≡ Ok scan) }
    ensures write { IsErrOf result RunFault.Write → ⊥ }
{
    let list = metadata.manifest_list(&Target::Main)?;
    let schema = metadata.schema_for(&Target::Main);
    let rows = read_rows(alloc, world, list.as_str())?;
    let specs = metadata.specs(alloc, schema)?;
    Ok(Scan::new(alloc, rows, specs.into_vec(), Bound::always(alloc))?)
}

/// The plan of a version's current snapshot, without a filter.
#[tactic(auto, unfolding(crate::specs::Drills::plan_of_state))]
pub fn plan_version(alloc: Global, version: &Version) -> Result<OwnedPlan, RunFault>
    ensures plan { IfOk result (λ plan. IsPlanOf plan version.now) }
    ensures write { IsErrOf result RunFault.Write → ⊥ }
{
    let (metadata, world) = version.state();
    let scan = scan_version(alloc, metadata, world)?;
    let mut state = Partial::empty(alloc, &scan)?;
    take_wanted(alloc, world, &scan, &mut state)?;
    let plan = state.into_plan(&scan)?;
    Ok(plan)
}

/// Whether a plan has a data file of this path.
fn has_file(lines: &Lines<'_>, path: &[u8]) -> bool
    ensures { result ≡ has_file lines.now path.now }
{
    for i in 0..lines.len() {
        if lines.line(i).file().path() == path {
            return true;
        }
    }
    false
}

/// Sees that a plan has the file of each commit of a thread; else `Lost` with the path of one that it lacks.
pub fn find_files(
    alloc: Global,
    lines: &Lines<'_>,
    thread: u64,
    commits: u64,
) -> Result<(), RunFault>
    ensures found { OnOk result (HasEachFile lines.now thread commits) }
    ensures lost { IfErr result (λ fault. fault ≢ RunFault.Memory → IsLost lines.now thread commits fault) }
{
    for commit in 0..commits {
        let path = file_path(alloc, thread, commit)?;
        if !has_file(lines, path.as_bytes()) {
            return Err(RunFault::Drill(DrillFault::Lost(path)));
        }
    }
    Ok(())
}
