//! What becomes of the manifests of a list's rows, and of their live files.

ghost use Rattle.std.specs.Prelude.{◌≡◌, ◌++◌, ◌∷◌, ◌+◌, ◌<◌, ◌^◌, ℕ, Bool, List, [], Some, None, Ok, IfErr, IfOk};
ghost use Rattle.std.specs.Prelude.{IsErrOf, OnOk, filter, if◌then◌else◌, length, map, replicate, slice_get, true};
ghost use Rattle.std.specs.List.Sorted.{IsPermutation};
ghost use Rattle.ice_desk.specs.Given.{IsGiven};
ghost use Rattle.ice_desk.specs.Wanted.{paths_of, untaken};
ghost use Rattle.ice_desk.specs.Worlds.{EndsAt, HasAt};
ghost use Rattle.icescan_explain.specs.Fates.{file_verdict};
ghost use Rattle.ice_manifest_reading.specs.Manifests.{live_of};
ghost use Rattle.icescan_requests.specs.GivenPlans.{IsRowsPlanOfGiven};
ghost use Rattle.icescan_requests.specs.Plans.{manifests, over_wanted_rows, rows_plan};
ghost use Rattle.ice_state.specs.Contents.{World, IsOf, add, content, every_row, no_row, took};
ghost use Rattle.ice_state.specs.Outcomes.{kept_in};
ghost use Rattle.ice_state.specs.Scans.{by_row_path};
ghost use Rattle.ice_state.specs.Snapshots.{live_or_none};
ghost use Rattle.ice_state.specs.Specs.{spec_of};
ghost use Rattle.icescan_text.specs.Reads.{MayEnd, all_present, file_in};
ghost use Rattle.icescan_explain.specs.RowsTold.{AreFor, AreToldOf, IsScanFor, MayEndRow, is_wanted, lives_at};
ghost use Rattle.icescan_explain.specs.RowsTold.{row_told, rows_told};
ghost use Rattle.icescan_explain.specs.ToldRanges.{AreWantedFrom, TellsRows};
ghost use Rattle.icescan_explain.specs.Told.{paths_kept, paths_of_data, paths_planned};

use crate::by_workers::{ToldRows, tell_by_workers};
use crate::files::FileTests;
use crate::tests::{FilterTests, SpecTests, row_verdict};
use crate::verdict::Verdict;
use contract_words::Items;
use ice_desk::Files;
use ice_manifest_reading::{ManifestFault, Row};
use ice_state::{OwnedPlan, Partial, Scan};
use icescan_requests::SelectedRows;
use icescan_text::{RunFault, Workers, read_file_into};
use std::alloc::{AllocError, Global};
use std::thread::Threads;

/// A plan, and what became of each manifest and live file.
#[derive(Debug, Drop)]
pub struct Explanation {
    /// The plan.
    pub plan: OwnedPlan,
    /// What became of each manifest, by path; behind one that was read stand its live files, by position.
    pub verdicts: Items<Verdict>,
}

/// The same rows.
fn copied_rows(alloc: Global, rows: &[Row]) -> Result<Vec<Row>, AllocError>
    ensures { IfOk result (λ copied. copied.items ≡ rows.now) }
{
    let mut copied = Vec::with_capacity(alloc, rows.len())?;
    'rows: for row in rows {
        copied.push(row.copy(alloc)?)?;
    }
    Ok(copied)
}

/// Puts rows in the order of their paths.
fn sort_by_path(rows: &mut Vec<Row>) -> Result<(), AllocError>
    ensures { OnOk result (rows.new.items ≡ by_row_path rows.old.items) }
{
    rows.sort_by(|a, b| a.path.as_bytes().cmp(b.path.as_bytes()))?;
    Ok(())
}

/// Takes the manifest of the wanted row at a place, which has these bytes, and puts what becomes of its live files
/// last; nothing where it can't be read.
fn take_files(
    tests: &FilterTests,
    of_spec: &SpecTests,
    scan: &Scan,
    at: usize,
    row: &Row,
    bytes: &[u8],
    state: &mut Partial,
    verdicts: &mut Vec<Verdict>,
) -> Result<(), AllocError>
    requires of_scan { IsOf scan.now state.old }
    requires row { slice_get scan.now.wanted at ≡ Some row.now }
    requires spec { spec_of scan.now.specs row.now.spec_id ≡ Some of_spec.now.spec }
    ensures of_scan { IsOf scan.now state.new }
    ensures taken { OnOk result (state.new ≡ took scan.now state.old at bytes.now) }
    ensures told { OnOk result (verdicts.new.items ≡ verdicts.old.items
        ++ map (file_verdict tests.now of_spec.now)
        (live_or_none (Some (live_of row.now of_spec.now.spec bytes.now)))) }
{
    let tell = FileTests { tests, of_spec };
    match state.take_told(scan, at, bytes, &tell) {
        Ok(mut told) => verdicts.append(&mut told),
        Err(ManifestFault::Memory) => Err(AllocError),
        Err(_) => Ok(()),
    }
}

/// Reads and takes the manifest of the wanted row at a place, and puts what becomes of its live files last. `bytes` is
/// the room that it is read into.
fn read_wanted<F: Files>(
    alloc: Global,
    files: &F,
    tests: &FilterTests,
    of_spec: &SpecTests,
    scan: &Scan,
    at: usize,
    row: &Row,
    bytes: &mut Vec<u8>,
    state: &mut Partial,
    verdicts: &mut Vec<Verdict>,
) -> Result<(), RunFault>
    requires of_scan { IsOf scan.now state.old }
    requires row { slice_get scan.now.wanted at ≡ Some row.now }
    requires spec { spec_of scan.now.specs row.now.spec_id ≡ Some of_spec.now.spec }
    ensures of_scan { OnOk result (IsOf scan.now state.new) }
    ensures told { (world : World) → F.world files.now ≡ Some world →
        OnOk result (verdicts.new.items ≡ verdicts.old.items
        ++ map (file_verdict tests.now of_spec.now) (lives_at world of_spec.now row.now)) }
    ensures taken { (world : World) (ts : List Bool) → F.world files.now ≡ Some world →
        state.old ≡ content world scan.now ts → OnOk result (state.new ≡ content world scan.now (add ts at)) }
    ensures there { (world : World) → F.world files.now ≡ Some world →
        OnOk result ((bytes : List ℕ) × (file_in world row.now.path ≡ Ok bytes)) }
    ensures refused { (world : World) → F.world files.now ≡ Some world →
        IfErr result (MayEnd (file_in world row.now.path)
        (EndsAt world (F.may_fail files.now) (row.now.path ∷ [])) ⊥) }
    ensures read { OnOk result ((bytes : List ℕ) × F.gives files.now row.now.path (Some bytes)
        × (state.new ≡ took scan.now state.old at bytes)
        × (verdicts.new.items ≡ verdicts.old.items
        ++ map (file_verdict tests.now of_spec.now) (lives_at (λ path. Some bytes) of_spec.now row.now))) }
    ensures absent { (path : List ℕ) → IsErrOf result (RunFault.Absent path) → HasAt (F.world files.now) path None }
    ensures device { (path : List ℕ) → IsErrOf result (RunFault.Device path) → F.may_fail files.now path }
    ensures write { IsErrOf result RunFault.Write → ⊥ }
    ensures given { IsGiven (F.gives files.now) scan.now state.old →
        OnOk result (IsGiven (F.gives files.now) scan.now state.new) }
{
    read_file_into(alloc, files, row.path.as_str(), bytes)?;
    take_files(
        tests,
        of_spec,
        scan,
        at,
        row,
        bytes.as_slice(),
        state,
        verdicts,
    )?;
    Ok(())
}

/// Puts what becomes of a row's manifest last, and behind it what becomes of its live files where it is wanted; then it
/// is read into `bytes` and taken, as the wanted row at a place. Gives the place of the next wanted row.
fn tell_row<F: Files>(
    alloc: Global,
    files: &F,
    tests: &FilterTests,
    scan: &Scan,
    next: usize,
    row: &Row,
    bytes: &mut Vec<u8>,
    state: &mut Partial,
    verdicts: &mut Vec<Verdict>,
) -> Result<usize, RunFault>
    requires of_scan { IsOf scan.now state.old }
    requires by { IsScanFor tests.now scan.now }
    requires row { is_wanted tests.now row.now ≡ true → slice_get scan.now.wanted next ≡ Some row.now }
    requires few { next + 1 < 2 ^ 64 }
    ensures of_scan { OnOk result (IsOf scan.now state.new) }
    ensures next { IfOk result (λ n. n ≡ (if is_wanted tests.now row.now then next + 1 else next)) }
    ensures told { (world : World) → F.world files.now ≡ Some world →
        OnOk result (verdicts.new.items ≡ verdicts.old.items ++ row_told tests.now world row.now) }
    ensures taken { (world : World) (ts : List Bool) → F.world files.now ≡ Some world →
        state.old ≡ content world scan.now ts →
        OnOk result (state.new ≡ content world scan.now (if is_wanted tests.now row.now then add ts next else ts)) }
    ensures there { (world : World) → F.world files.now ≡ Some world → is_wanted tests.now row.now ≡ true →
        OnOk result ((bytes : List ℕ) × (file_in world row.now.path ≡ Ok bytes)) }
    ensures refused { (world : World) → F.world files.now ≡ Some world →
        IfErr result (MayEndRow tests.now world (F.may_fail files.now) row.now) }
    ensures read { OnOk result ((bytes : List ℕ)
        × (is_wanted tests.now row.now ≡ true → F.gives files.now row.now.path (Some bytes))
        × (state.new ≡ (if is_wanted tests.now row.now then took scan.now state.old next bytes else state.old))
        × (verdicts.new.items ≡ verdicts.old.items ++ row_told tests.now (λ path. Some bytes) row.now)) }
    ensures absent { (path : List ℕ) → IsErrOf result (RunFault.Absent path) → HasAt (F.world files.now) path None }
    ensures device { (path : List ℕ) → IsErrOf result (RunFault.Device path) → F.may_fail files.now path }
    ensures write { IsErrOf result RunFault.Write → ⊥ }
    ensures given { IsGiven (F.gives files.now) scan.now state.old →
        OnOk result (IsGiven (F.gives files.now) scan.now state.new) }
{
    let Some(of_spec) = tests.of_row(row) else {
        return Ok(next);
    };
    let verdict = row_verdict(alloc, of_spec, row)?;
    let is_wanted = verdict.fate.is_kept();
    verdicts.push(verdict)?;
    if !is_wanted {
        return Ok(next);
    }
    read_wanted(
        alloc, files, tests, of_spec, scan, next, row, bytes, state, verdicts,
    )?;
    Ok(next + 1)
}

/// What becomes of the manifests of these rows, in their order, and of the live files of those that are wanted, which
/// are read and taken. The first of those that are wanted is the wanted row at a place.
pub fn tell_rows<F: Files>(
    alloc: Global,
    files: &F,
    tests: &FilterTests,
    scan: &Scan,
    first: usize,
    rows: &[Row],
) -> Result<ToldRows, RunFault>
    requires by { IsScanFor tests.now scan.now }
    requires rows { AreWantedFrom tests.now scan.now first rows.now }
    requires few { first + length rows.now < 2 ^ 64 }
    ensures { TellsRows (F.world files.now) (F.may_fail files.now) (F.gives files.now) tests.now scan.now first rows.now
        result }
{
    let mut state = Partial::empty(alloc, scan)?;
    let mut verdicts = Vec::new(alloc);
    let mut bytes = Vec::new(alloc);
    let mut next = first;
    'rows: for row in rows {
        next = tell_row(
            alloc,
            files,
            tests,
            scan,
            next,
            row,
            &mut bytes,
            &mut state,
            &mut verdicts,
        )?;
    }
    Ok(ToldRows {
        state,
        verdicts: Items::from_vec(verdicts),
    })
}

/// The plan of these rows, and what became of their manifests, by one worker. The tests are those of the filter and
/// the specs.
pub fn explain_rows<F: Files>(
    alloc: Global,
    files: &F,
    tests: &FilterTests,
    selected: SelectedRows,
) -> Result<Explanation, RunFault>
    requires { AreFor tests.now selected.specs selected.filter.parts }
    ensures planned { (world : World) → F.world files.now ≡ Some world →
        IfOk result (λ x. rows_plan over_wanted_rows world selected.specs selected.filter.parts selected.rows
        ≡ Ok x.plan) }
    ensures told { (world : World) → F.world files.now ≡ Some world →
        IfOk result (λ x. x.verdicts ≡ rows_told tests.now world (by_row_path selected.rows)) }
    ensures refused { (world : World) → F.world files.now ≡ Some world →
        IfErr result (MayEnd (rows_plan over_wanted_rows world selected.specs selected.filter.parts selected.rows)
        (EndsAt world (F.may_fail files.now) (manifests selected.specs selected.filter.parts selected.rows)) ⊥) }
    ensures read { IfOk result (λ x. AreToldOf (F.gives files.now) tests.now (by_row_path selected.rows) x.verdicts) }
    ensures kept { IfOk result (λ x. IsPermutation (paths_kept x.verdicts) (paths_planned x.plan)) }
    ensures absent { (path : List ℕ) → IsErrOf result (RunFault.Absent path) → HasAt (F.world files.now) path None }
    ensures device { (path : List ℕ) → IsErrOf result (RunFault.Device path) → F.may_fail files.now path }
    ensures write { IsErrOf result RunFault.Write → ⊥ }
    ensures given { IfOk result (λ x. IsRowsPlanOfGiven (F.gives files.now) selected.specs selected.filter.parts
        selected.rows x.plan) }
{
    let mut sorted = copied_rows(alloc, selected.rows.as_slice())?;
    sort_by_path(&mut sorted)?;
    let scan = selected.into_scan(alloc)?;
    let told = tell_rows(alloc, files, tests, &scan, 0, &sorted)?;
    let plan = told.state.into_plan(&scan)?;
    Ok(Explanation {
        plan,
        verdicts: told.verdicts,
    })
}

/// The same by so many workers, each in a thread of its own where one can be started.
pub fn explain_rows_by_workers<R: Threads + Sync, F: Files + Sync>(
    rt: &R,
    alloc: Global,
    files: &F,
    tests: &FilterTests,
    selected: SelectedRows,
    workers: Workers,
) -> Result<Explanation, RunFault>
    requires { AreFor tests.now selected.specs selected.filter.parts }
    ensures planned { (world : World) → F.world files.now ≡ Some world →
        IfOk result (λ x. rows_plan over_wanted_rows world selected.specs selected.filter.parts selected.rows
        ≡ Ok x.plan) }
    ensures told { (world : World) → F.world files.now ≡ Some world →
        IfOk result (λ x. x.verdicts ≡ rows_told tests.now world (by_row_path selected.rows)) }
    ensures refused { (world : World) → F.world files.now ≡ Some world →
        IfErr result (MayEnd (rows_plan over_wanted_rows world selected.specs selected.filter.parts selected.rows)
        (EndsAt world (F.may_fail files.now) (manifests selected.specs selected.filter.parts selected.rows)) ⊥) }
    ensures read { IfOk result (λ x. AreToldOf (F.gives files.now) tests.now (by_row_path selected.rows) x.verdicts) }
    ensures kept { IfOk result (λ x. IsPermutation (paths_kept x.verdicts) (paths_planned x.plan)) }
    ensures absent { (path : List ℕ) → IsErrOf result (RunFault.Absent path) → HasAt (F.world files.now) path None }
    ensures device { (path : List ℕ) → IsErrOf result (RunFault.Device path) → F.may_fail files.now path }
    ensures write { IsErrOf result RunFault.Write → ⊥ }
    ensures given { IfOk result (λ x. IsRowsPlanOfGiven (F.gives files.now) selected.specs selected.filter.parts
        selected.rows x.plan) }
{
    let mut sorted = copied_rows(alloc, selected.rows.as_slice())?;
    sort_by_path(&mut sorted)?;
    let scan = selected.into_scan(alloc)?;
    let told = tell_by_workers(rt, alloc, files, tests, &scan, 0, &sorted, workers.count())?;
    let plan = told.state.into_plan_by(rt, &scan, workers.count())?;
    Ok(Explanation {
        plan,
        verdicts: told.verdicts,
    })
}
