//! Live delete files that apply to no live data file, and those that name a file that is none.

ghost use Rattle.std.specs.Prelude.{◌≡◌, ◌++◌, List, IfOk, OnOk, is_some, length, map, option_map};
ghost use Rattle.std.specs.List.{flat_map, list_any};
ghost use Rattle.std.specs.List.Sorted.{IsPermutation, IsSorted};
ghost use Rattle.std.specs.Thread.{IsSync};
ghost use Rattle.ice_deletes.specs.Found.{numbered_deletes};
ghost use Rattle.ice_deletes.specs.Keys.{key_of};
ghost use Rattle.icescan_audit_findings.specs.Dangling.{dangling_flaw, data_files, delete_files, delete_findings};
ghost use Rattle.icescan_audit_findings.specs.Dangling.{delete_key, delete_of, finding_where, findings_by};
ghost use Rattle.icescan_audit_findings.specs.Dangling.{findings_beside, is_reaching, names_none, paths_in};
ghost use Rattle.ice_value.specs.Applying.{DataKey};
ghost use Rattle.icescan_audit_findings.specs.Lookups.{delete_lent, naming_none, path_order};

use crate::file_key::FileKey;
use crate::finding::{Finding, Flaw};
use crate::reaching::{data_of, marks_by_workers, marks_of};
use crate::repeats::LiveFile;
use contract_words::Items;
use ice_deletes::{DeleteIndex, Record};
use ice_value::FileContent;
use shared_value::Shared;
use std::alloc::{AllocError, Global};
use std::thread::{Threads, join};

/// A live delete file.
#[derive(Clone, Copy)]
struct DeleteFile<'a> {
    file: &'a LiveFile,
    key: &'a FileKey,
}

fn delete_of(file: &LiveFile) -> Option<DeleteFile<'_>>
    ensures { option_map delete_lent result ≡ delete_of file.now }
{
    let key = file.key.as_ref()?;
    match key.content {
        FileContent::Data => None,
        _ => Some(DeleteFile { file, key }),
    }
}

/// The delete files among live files.
fn delete_files(alloc: Global, files: &[LiveFile]) -> Result<Vec<DeleteFile<'_>>, AllocError>
    ensures { IfOk result (λ deletes. map delete_lent deletes.items ≡ delete_files files.now) }
{
    let mut deletes = Vec::new(alloc);
    'files: for file in files {
        match delete_of(file) {
            Some(delete) => deletes.push(delete)?,
            None => {}
        }
    }
    Ok(deletes)
}

/// The same, by so many workers, each with a range of the files.
fn delete_files_by_workers<'x, R: Threads + Sync>(
    rt: &R,
    alloc: Global,
    files: &'x [LiveFile],
    workers: usize,
) -> Result<Vec<DeleteFile<'x>>, AllocError>
    ensures { IfOk result (λ deletes. map delete_lent deletes.items ≡ delete_files files.now) }
{
    if workers < 2 {
        return delete_files(alloc, files);
    }
    let half = workers / 2;
    let other_half = workers - half;
    let (front, back) = files.split_at(files.len() / 2);
    let (first, others) = join(
        rt,
        || -> Result<Vec<DeleteFile<'_>>, AllocError>
            requires { IsSync R.row }
            ensures { IfOk result (λ deletes. map delete_lent deletes.items ≡ delete_files front.entry.now) }
        { delete_files_by_workers(rt, alloc, front, half) },
        || -> Result<Vec<DeleteFile<'_>>, AllocError>
            requires { IsSync R.row }
            ensures { IfOk result (λ deletes. map delete_lent deletes.items ≡ delete_files back.entry.now) }
        { delete_files_by_workers(rt, alloc, back, other_half) },
    );
    let mut deletes = first?;
    let mut others = others?;
    deletes.append(&mut others)?;
    Ok(deletes)
}

/// What the index is told of a delete file.
fn record<'a>(delete: &DeleteFile<'a>) -> Record<'a>
    ensures { key_of result ≡ delete_key (delete_lent delete.now).1 }
{
    let key = delete.key;
    Record {
        content: key.content,
        spec_id: key.spec_id,
        unpartitioned: key.unpartitioned,
        tuple: key.tuple.as_slice(),
        sequence_number: key.sequence_number.get(),
        referenced: key.referenced.as_ref().map(|path| path.as_slice()),
    }
}

fn records<'a>(alloc: Global, deletes: &[DeleteFile<'a>]) -> Result<Vec<Record<'a>>, AllocError>
    ensures { IfOk result (λ records. map key_of records.items
        ≡ map (λ d. delete_key (delete_lent d).1) deletes.now) }
{
    let mut records = Vec::with_capacity(alloc, deletes.len())?;
    'deletes: for delete in deletes {
        records.push(record(delete))?;
    }
    Ok(records)
}

/// The index of delete files, by their places.
fn index_of(alloc: Global, deletes: &[DeleteFile<'_>]) -> Result<DeleteIndex, AllocError>
    ensures { IfOk result (λ index.
        IsPermutation (numbered_deletes (map (λ d. delete_key (delete_lent d).1) deletes.now)) index) }
{
    let records = records(alloc, deletes)?;
    DeleteIndex::build(alloc, &records)
}

/// The paths of the data files among live files.
fn data_paths(alloc: Global, files: &[LiveFile]) -> Result<Vec<&[u8]>, AllocError>
    ensures { IfOk result (λ paths. map (λ p. p.now) paths.items ≡ paths_in (data_files files.now)) }
{
    let mut paths = Vec::new(alloc);
    'files: for file in files {
        match data_of(file) {
            Some(found) => paths.push(found.path)?,
            None => {}
        }
    }
    Ok(paths)
}

/// The same, in order.
fn sorted_paths(alloc: Global, files: &[LiveFile]) -> Result<Vec<&[u8]>, AllocError>
    ensures sorted { IfOk result (λ paths. IsSorted path_order paths.items) }
    ensures same { IfOk result (λ paths.
        IsPermutation (paths_in (data_files files.now)) (map (λ p. p.now) paths.items)) }
{
    let mut paths = data_paths(alloc, files)?;
    paths.sort_unstable();
    Ok(paths)
}

/// Whether one of the delete files names a data file.
fn names_some(deletes: &[DeleteFile<'_>]) -> bool
    ensures { result ≡ list_any (λ d. is_some (delete_lent d).1.referenced) deletes.now }
{
    deletes.iter().any(|delete| delete.key.referenced.is_some())
}

/// The paths of the data files, in order; none where no delete file names a data file, since then no path is looked for.
fn paths_asked<'a>(
    alloc: Global,
    files: &'a [LiveFile],
    deletes: &[DeleteFile<'_>],
) -> Result<Vec<&'a [u8]>, AllocError>
    ensures sorted { IfOk result (λ paths. IsSorted path_order paths.items) }
    ensures same { IfOk result (λ paths. naming_none (map (λ p. p.now) paths.items) deletes.now
        ≡ naming_none (paths_in (data_files files.now)) deletes.now) }
{
    if names_some(deletes) {
        sorted_paths(alloc, files)
    } else {
        Ok(Vec::new(alloc))
    }
}

/// Whether a path is named that is none of these, which are in order.
fn names_none(paths: &[&[u8]], named: &Option<Items<u8>>) -> bool
    requires { IsSorted path_order paths.now }
    ensures { result ≡ names_none (map (λ p. p.now) paths.now) named.now }
{
    match named {
        Some(path) => paths.binary_search(&path.as_slice()).is_err(),
        None => false,
    }
}

/// Puts a finding on a live file last, where there is one.
fn push_finding(
    alloc: Global,
    findings: &mut Items<Finding>,
    found: bool,
    file: &LiveFile,
    flaw: Flaw,
) -> Result<(), AllocError>
    ensures { OnOk result (findings.new ≡ findings.old ++ finding_where found file.now flaw) }
{
    if found {
        findings.push(Finding {
            manifest: file.manifest.share()?,
            file: Some(Shared::new(alloc, file.path.copy(alloc)?)?),
            flaw,
        })?;
    }
    Ok(())
}

/// What deletes are that apply to nothing.
fn dangling_flaw(content: FileContent) -> Flaw
    ensures { result ≡ dangling_flaw content }
{
    match content {
        FileContent::EqualityDeletes => Flaw::DanglingEqualities,
        _ => Flaw::DanglingPositions,
    }
}

/// Puts the findings on a delete file last, by whether it names a path of no data file and whether it applies to one.
fn push_findings_by(
    alloc: Global,
    findings: &mut Items<Finding>,
    delete: &DeleteFile<'_>,
    none: bool,
    reaching: bool,
) -> Result<(), AllocError>
    ensures { OnOk result (findings.new ≡ findings.old ++ findings_by none reaching (delete_lent delete.now)) }
{
    push_finding(alloc, findings, none, delete.file, Flaw::NamedNotLive)?;
    push_finding(
        alloc,
        findings,
        !reaching,
        delete.file,
        dangling_flaw(delete.key.content),
    )
}

/// Puts the findings on delete files last, file by file. A path that one of them names is that of a live data file just
/// where it is among these paths, which are in order; those that are marked apply to a data file.
fn push_findings(
    alloc: Global,
    findings: &mut Items<Finding>,
    deletes: &[DeleteFile<'_>],
    paths: &[&[u8]],
    marks: &[bool],
) -> Result<(), AllocError>
    requires sorted { IsSorted path_order paths.now }
    requires many { length marks.now ≡ length deletes.now }
    ensures { (xs : List DataKey) →
        naming_none (map (λ p. p.now) paths.now) deletes.now ≡ naming_none (paths_in xs) deletes.now →
        marks.now ≡ map (λ d. is_reaching xs (delete_lent d).1) deletes.now →
        OnOk result (findings.new ≡ findings.old ++ flat_map (findings_beside xs) (map delete_lent deletes.now)) }
{
    'deletes: for i in 0..deletes.len() {
        let delete = &deletes[i];
        let none = names_none(paths, &delete.key.referenced);
        push_findings_by(alloc, findings, delete, none, marks[i])?;
    }
    Ok(())
}

/// Puts the findings on delete files last, file by file. Those that are marked apply to a data file.
fn push_marked(
    alloc: Global,
    findings: &mut Items<Finding>,
    files: &[LiveFile],
    deletes: &[DeleteFile<'_>],
    marks: &[bool],
) -> Result<(), AllocError>
    requires { marks.now ≡ map (λ d. is_reaching (data_files files.now) (delete_lent d).1) deletes.now }
    ensures { OnOk result (findings.new ≡ findings.old
        ++ flat_map (findings_beside (data_files files.now)) (map delete_lent deletes.now)) }
{
    let paths = paths_asked(alloc, files, deletes)?;
    push_findings(alloc, findings, deletes, &paths, marks)
}

/// Puts the findings last that the delete files among live files name a path of no live data file, and that they apply
/// to none, file by file. Only files count whose keys are kept.
pub fn push_delete_findings(
    alloc: Global,
    findings: &mut Items<Finding>,
    files: &[LiveFile],
) -> Result<(), AllocError>
    ensures { OnOk result (findings.new ≡ findings.old ++ delete_findings files.now) }
{
    let deletes = delete_files(alloc, files)?;
    if deletes.is_empty() {
        return Ok(());
    }
    let index = index_of(alloc, &deletes)?;
    let marks = marks_of(alloc, &index, deletes.len(), files)?;
    push_marked(alloc, findings, files, &deletes, &marks)
}

/// The same, by so many workers.
pub fn push_delete_findings_by_workers<R: Threads + Sync>(
    rt: &R,
    alloc: Global,
    findings: &mut Items<Finding>,
    files: &[LiveFile],
    workers: usize,
) -> Result<(), AllocError>
    ensures { OnOk result (findings.new ≡ findings.old ++ delete_findings files.now) }
{
    let deletes = delete_files_by_workers(rt, alloc, files, workers)?;
    if deletes.is_empty() {
        return Ok(());
    }
    let index = index_of(alloc, &deletes)?;
    let marks = marks_by_workers(rt, alloc, &index, deletes.len(), files, workers)?;
    push_marked(alloc, findings, files, &deletes, &marks)
}
