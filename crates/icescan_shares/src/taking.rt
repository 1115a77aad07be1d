//! What a share's manifests give, as the bytes of a state.

ghost use Rattle.std.specs.Prelude.{◌≡◌, ◌≢◌, ◌≤◌, ℕ, List, None, IfErr, IfOk, IsErrOf, OnOk, false, length};
ghost use Rattle.std.specs.Prelude.{slice_index_or};
ghost use Rattle.ice_desk.specs.Given.{IsGiven};
ghost use Rattle.ice_desk.specs.Worlds.{HasAt};
ghost use Rattle.ice_state.specs.Contents.{IsOf};
ghost use Rattle.icescan_shares.specs.Given.{AreTaken, IsShareOfGiven, WroteShare};

use crate::selecting::{NamedScan, select_scan};
use crate::shares::rows_of_share;
use crate::states::refusal_of;
use ice_desk::{Files, ReadFault, take_by_workers};
use ice_manifest_reading::Row;
use ice_state::{Partial, Scan};
use ice_state_bytes::state_bytes;
use icescan_print::{Sink, write_all};
use icescan_requests::OpenGate;
use icescan_text::{Request, RunFault, Share, Workers, read_file, read_file_into};
use std::alloc::Global;
use std::cmp::Ordering;
use std::thread::Threads;

/// Files of which reads fail, but for those of the manifests of the marked rows.
#[derive(Drop)]
struct OfShare<'a, F> {
    files: &'a F,
    rows: &'a [Row],
    marks: &'a [bool],
}

impl<F> OfShare<'_, F> {
    /// Whether the manifest at a path is that of a marked row.
    fn has(&self, path: &str) -> bool {
        let place = self.rows.binary_search_by(|row: &Row| -> Ordering {
            row.path.as_bytes().cmp(path.as_bytes())
        });
        match place {
            Ok(at) => is_marked(self.marks, at),
            Err(_) => false,
        }
    }
}

impl<F: Files> Files for OfShare<'_, F> {
    ghost world = { λ files. F.world files.files.now };

    ghost gives = { λ files. F.gives files.files.now };

    ghost may_fail = { λ _ _. Unit {0} };

    fn read(&self, alloc: Global, path: &str) -> Result<Vec<u8>, ReadFault> {
        if self.has(path) {
            self.files.read(alloc, path)
        } else {
            Err(ReadFault::Device)
        }
    }

    fn read_into(&self, alloc: Global, path: &str, bytes: &mut Vec<u8>) -> Result<(), ReadFault> {
        if self.has(path) {
            self.files.read_into(alloc, path, bytes)
        } else {
            Err(ReadFault::Device)
        }
    }
}

/// Whether a row is marked.
fn is_marked(marks: &[bool], i: usize) -> bool
    ensures { result ≡ slice_index_or marks.now i false }
{
    match marks.get(i) {
        Some(mark) => *mark,
        None => false,
    }
}

/// Takes the marked manifests of a scan that a state lacks, in the order of their paths. The first that is not there, or
/// can't be read, ends it.
fn take_marked<F: Files>(
    alloc: Global,
    files: &F,
    scan: &Scan,
    marks: &[bool],
    state: &mut Partial,
) -> Result<(), RunFault>
    requires of_scan { IsOf scan.now state.old }
    requires given { IsGiven (F.gives files.now) scan.now state.old }
    requires marks { length marks.now ≤ length scan.now.wanted }
    ensures of_scan { IsOf scan.now state.new }
    ensures given { IsGiven (F.gives files.now) scan.now state.new }
    ensures whole { OnOk result (AreTaken marks.now state.new) }
    ensures absent { (path : List ℕ) → IsErrOf result (RunFault.Absent path) → HasAt (F.world files.now) path None }
    ensures device { (path : List ℕ) → IsErrOf result (RunFault.Device path) → F.may_fail files.now path }
{
    let mut bytes = Vec::new(alloc);
    for (i, row) in scan.wanted().iter().enumerate() {
        if !is_marked(marks, i) {
            continue;
        }
        if state.is_taken(i) {
            continue;
        }
        read_file_into(alloc, files, row.path.as_str(), &mut bytes)?;
        state.take(scan, i, bytes.as_slice())?;
    }
    Ok(())
}

/// What the marked manifests of a scan give. So many workers read and take them at once, as for a plan; those that they
/// leave are taken after them.
fn take_share<R: Threads + Sync, F: Files + Sync>(
    rt: &R,
    alloc: Global,
    files: &F,
    scan: &Scan,
    marks: &[bool],
    workers: Workers,
) -> Result<Partial, RunFault>
    requires few { length scan.now.wanted ≤ 65536 }
    requires marks { length marks.now ≤ length scan.now.wanted }
    ensures of_scan { IfOk result (λ state. IsOf scan.now state) }
    ensures given { IfOk result (λ state. IsGiven (F.gives files.now) scan.now state) }
    ensures whole { IfOk result (λ state. AreTaken marks.now state) }
    ensures absent { (path : List ℕ) → IsErrOf result (RunFault.Absent path) → HasAt (F.world files.now) path None }
    ensures device { (path : List ℕ) → IsErrOf result (RunFault.Device path) → F.may_fail files.now path }
{
    let marked = OfShare {
        files,
        rows: scan.wanted(),
        marks,
    };
    let workers = scan.workers(workers.count());
    let (mut state, _) = take_by_workers(rt, alloc, &marked, scan, workers, &OpenGate)?;
    take_marked(alloc, files, scan, marks, &mut state)?;
    Ok(state)
}

/// The state of a share of the scan that a request asks for, of the table whose metadata these are the bytes of, as
/// bytes. A manifest that can't be understood is in it as bad.
///
/// The refusals and their order are those of a plan of the share's manifests, up to where it finishes.
pub fn take_table<R: Threads + Sync, F: Files + Sync>(
    rt: &R,
    alloc: Global,
    files: &F,
    metadata: &[u8],
    request: &Request,
    share: Share,
    workers: Workers,
) -> Result<Vec<u8>, RunFault>
    // Over all files: the state of bytes that reads gave.
    ensures given { IfOk result (λ bytes. IsShareOfGiven (F.gives files.now) metadata.now request.now share
        bytes.items) }
{
    let NamedScan { name, scan } = select_scan(alloc, files, metadata, request)?;
    let marks = rows_of_share(alloc, scan.wanted(), share)?;
    let state = take_share(rt, alloc, files, &scan, &marks, workers)?;
    match state_bytes(alloc, &scan, &name, &state) {
        Ok(bytes) => Ok(bytes),
        Err(fault) => Err(refusal_of(alloc, "-", fault)),
    }
}

/// Writes the state of a share of the scan that a request asks for, of the table whose metadata is in the file at a path,
/// by so many workers.
///
/// The refusal is `Workers` where there are to be none, or more than 64, and then nothing is read. Then it is `Absent`
/// where there is no such file, `Device` where reading it failed, else as `take_table`'s. After any refusal but `Write`
/// nothing was written.
pub fn take_file<R: Threads + Sync, F: Files + Sync, W: Sink>(
    rt: &R,
    alloc: Global,
    files: &F,
    path: &str,
    request: &Request,
    share: Share,
    workers: usize,
    output: &mut W,
) -> Result<(), RunFault>
    // Over all files: what is written is the state of bytes that reads gave.
    ensures given { OnOk result (WroteShare (F.gives files.now) path.now request.now share (W.taken output.old)
        (W.taken output.new)) }
    ensures nothing { IfErr result (λ fault. fault ≢ RunFault.Write → W.taken output.new ≡ W.taken output.old) }
{
    let workers = Workers::of(workers)?;
    let metadata = read_file(alloc, files, path)?;
    let bytes = take_table(rt, alloc, files, &metadata, request, share, workers)?;
    write_all(output, &bytes)?;
    Ok(())
}
