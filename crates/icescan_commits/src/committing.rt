//! Commits to a table: the change is prepared on the current snapshot, and its files are put where they belong, the
//! metadata that names them last.

ghost use Rattle.std.specs.Prelude.{◌≡◌, ◌≢◌, ℕ, List, Option, Some, None, Ok, Err, OnOk, OnErr, IfOk, IfErr};
ghost use Rattle.std.specs.Prelude.{IsErrOf};
ghost use Rattle.ice_desk.specs.Worlds.{HasAt};
ghost use Rattle.ice_state.specs.Contents.{World};
ghost use Rattle.icescan_commits.specs.Commits.{Commitment, IsLeft, IsOfPreparing, IsOfPutting, IsPut, Made};
ghost use Rattle.icescan_commits.specs.Commits.{MayEndCommit, MayNotPut};
ghost use Rattle.icescan_commits.specs.Commits.{MayFailToPut, OnCommitRefusal, Stopped, TellsACommit};
ghost use Rattle.icescan_commits.specs.Commits.{IsCommitPlaced, NotCommitted, Writes};
ghost use Rattle.icescan_files.specs.Disks.{Extends};
ghost use Rattle.icescan_commits.specs.Commits.{change_asked, commitment, commitment_from, receipt_text};
ghost use Rattle.icescan_files.specs.Bundles.{File};
ghost use Rattle.icescan_commits.specs.GivenCommits.{CommitsOfGiven, IsChangeGiven, IsCommitOfGiven};
ghost use Rattle.icescan_commits.specs.GivenCommits.{IsCommitmentOfGiven};
ghost use Rattle.icescan_text.specs.Reads.{MayEnd};
ghost use Rattle.icescan_files.specs.Stores.{MayHave, WereFree};
ghost use Rattle.icescan_text.specs.declared.fault.RunFault.{RunFault};
ghost use Rattle.icescan_print.specs.Written.{Wrote};

use crate::base::{read_base, read_metadata};
use contract_words::Text;
use ice_catalog_changes::{Change, Ids};
use ice_catalog_versions::{Prepared, Version, prepare_in_place};
use ice_desk::Files;
use icescan_files::{Store, StoreFault, put_files};
use icescan_print::{Sink, SinkFault, put_named_long, put_named_number, write_all};
use icescan_text::{CommitRequest, RunFault, read_change, read_file};
use std::alloc::Global;

/// The change that is asked for. The refusal is `Absent` or `Device` for the change file, or `Change`; or `Memory`.
fn change_at<F: Files>(
    alloc: Global,
    files: &F,
    request: &CommitRequest,
) -> Result<Change, RunFault>
    // Over files that tell their world.
    ensures found { (world : World) → F.world files.now ≡ Some world →
        IfOk result (λ change. change_asked world request.now ≡ Ok change) }
    ensures refused { (world : World) → F.world files.now ≡ Some world →
        IfErr result (MayEnd (change_asked world request.now) (F.may_fail files.now) ⊥) }

    // Over all files.
    ensures causes { IfErr result IsOfPreparing }
    ensures absent { (path : List ℕ) → IsErrOf result (RunFault.Absent path) → HasAt (F.world files.now) path None }
    ensures device { (path : List ℕ) → IsErrOf result (RunFault.Device path) → F.may_fail files.now path }
    ensures given { IfOk result (IsChangeGiven (F.gives files.now) request.now) }
    ensures none_given { (path : List ℕ) → IsErrOf result (RunFault.Absent path) → F.gives files.now path None }
{
    let text = read_file(alloc, files, request.change.as_str())?;
    Ok(read_change(alloc, &text, request.kind)?)
}

/// Prepares a commit to the table whose metadata these are the bytes of. The refusal is, in this order, `Metadata`,
/// `Device` for the manifest list of the current snapshot or a manifest of it, and `Prepare`; or `Memory`.
fn prepare_from<F: Files>(
    alloc: Global,
    files: &F,
    bytes: &[u8],
    change: &Change,
    ids: Ids,
) -> Result<Prepared, RunFault>
    // Over files that tell their world.
    ensures prepared { (world : World) → F.world files.now ≡ Some world →
        IfOk result (λ prepared. (c : Commitment) ×
        (commitment_from world bytes.now (record { change = change.now; ids = ids }) ≡ Ok c) × Writes prepared c) }
    ensures refused { (world : World) → F.world files.now ≡ Some world →
        IfErr result (MayEnd (commitment_from world bytes.now (record { change = change.now; ids = ids }))
        (F.may_fail files.now) ⊥) }

    // Over all files.
    ensures causes { IfErr result IsOfPreparing }
    ensures absent { (path : List ℕ) → IsErrOf result (RunFault.Absent path) → HasAt (F.world files.now) path None }
    ensures device { (path : List ℕ) → IsErrOf result (RunFault.Device path) → F.may_fail files.now path }
    ensures given { IfOk result (λ prepared. (c : Commitment)
        × IsCommitOfGiven (F.gives files.now) bytes.now (record { change = change.now; ids = ids }) c
        × Writes prepared c) }
    ensures none_given { (path : List ℕ) → IsErrOf result (RunFault.Absent path) → F.gives files.now path None }
{
    let metadata = read_metadata(alloc, bytes)?;
    let kept = read_base(alloc, files, &metadata)?;
    // The version has metadata of its own: the two need not be there at once.
    drop(metadata);
    let base = Version::open(alloc, bytes, kept)?;
    Ok(prepare_in_place(alloc, base, change, ids)?)
}

/// Prepares the commit that is asked for. The refusal is, in this order, `Absent` or `Device` for the metadata, the
/// same for the change file, `Change`, `Metadata`, `Device` for the manifest list of the current snapshot or a manifest
/// of it, and `Prepare`; or `Memory`.
pub fn prepare_commit<F: Files>(
    alloc: Global,
    files: &F,
    request: &CommitRequest,
) -> Result<Prepared, RunFault>
    // Over files that tell their world.
    ensures prepared { (world : World) → F.world files.now ≡ Some world →
        IfOk result (λ prepared. (c : Commitment) × (commitment world request.now ≡ Ok c) × Writes prepared c) }
    ensures refused { (world : World) → F.world files.now ≡ Some world →
        IfErr result (MayEnd (commitment world request.now) (F.may_fail files.now) ⊥) }

    // Over all files.
    ensures causes { IfErr result IsOfPreparing }
    ensures absent { (path : List ℕ) → IsErrOf result (RunFault.Absent path) → HasAt (F.world files.now) path None }
    ensures device { (path : List ℕ) → IsErrOf result (RunFault.Device path) → F.may_fail files.now path }
    // What is written is a commit to bytes that reads gave.
    ensures given { IfOk result (λ prepared. (c : Commitment)
        × IsCommitmentOfGiven (F.gives files.now) request.now c × Writes prepared c) }
    ensures none_given { (path : List ℕ) → IsErrOf result (RunFault.Absent path) → F.gives files.now path None }
{
    let bytes = read_file(alloc, files, request.metadata.as_str())?;
    let change = change_at(alloc, files, request)?;
    prepare_from(alloc, files, &bytes, &change, request.ids)
}

/// Puts the files of a commit in a store, and then the metadata that names them. The refusal is `Conflict` where
/// something stands at the metadata's path, `Write` where a file can't be put, or `Memory`; then a front of the files
/// was put. Where the metadata's path has no place in the store, none was.
pub fn put_commit<S: Store>(
    alloc: Global,
    store: &mut S,
    prepared: &Prepared,
    out: &Text,
) -> Result<(), RunFault>
    ensures all { (c : Commitment) → Writes prepared.now c →
        OnOk result (IsPut c out.now (S.files store.old) (S.files store.new)) }
    ensures front { (c : Commitment) → Writes prepared.now c →
        OnErr result (Stopped c (S.files store.old) (S.files store.new)) }
    ensures cause { (c : Commitment) → Writes prepared.now c →
        IfErr result (MayNotPut c out.now (S.files store.old) (S.files store.new) (S.may_fail store.old)) }

    // Over all stores.
    ensures kinds { IfErr result IsOfPutting }
    ensures conflict { (path : List ℕ) → IsErrOf result (RunFault.Conflict path) →
        (path ≡ out.now) × MayHave (S.files store.new) out.now }
    ensures write { IsErrOf result RunFault.Write → MayFailToPut (S.files store.new) (S.may_fail store.old) }

    // What is done on the disk, in which order: the metadata comes last, and only when all else was placed.
    ensures placed { (c : Commitment) → Writes prepared.now c →
        OnOk result (Extends (S.events store.old) (S.events store.new)
        (IsCommitPlaced (S.names store.old) c out.now)) }
    ensures unplaced { (c : Commitment) → Writes prepared.now c →
        IfErr result (λ fault. Extends (S.events store.old) (S.events store.new)
        (NotCommitted (S.names store.old) c out.now fault)) }
{
    let place = out.copy(alloc)?;
    let metadata = prepared.version().metadata().write(alloc)?;
    if store.has_no_place(out.as_str()) {
        return Err(RunFault::Write);
    }
    match put_files(alloc, store, prepared.files()) {
        Ok(()) => {}
        Err(StoreFault::Memory) => return Err(RunFault::Memory),
        Err(_) => return Err(RunFault::Write),
    }
    match store.create_new(alloc, out.as_str(), &metadata) {
        Ok(()) => Ok(()),
        Err(StoreFault::There) => Err(RunFault::Conflict(place)),
        Err(StoreFault::Failed) => Err(RunFault::Write),
        Err(StoreFault::Memory) => Err(RunFault::Memory),
    }
}

/// Where no path that a commit adds is taken, a store that can't fail refuses it only where memory ran out, or where
/// something stands at the metadata's path, which is told.
pub fn commits_are_put()
    ensures { (c : Commitment) (out : List ℕ) (old : List File) (new : Option (List File)) (fault : RunFault) →
        WereFree (Some old) c.added → MayNotPut c out (Some old) new ⊥ fault → fault ≢ RunFault.Memory →
        (fault ≡ RunFault.Conflict out) × MayHave new out }
{}

/// Tells of a commit that was made. It takes no memory.
fn put_receipt<W: Sink>(output: &mut W, id: i64, number: u64) -> Result<(), SinkFault>
    ensures { Wrote W.taken W.may_fail output.old result output.new (receipt_text id number) }
{
    put_named_long(output, b"committed snapshot ", id)?;
    put_named_number(output, b" seq ", number)?;
    write_all(output, b"\n")
}

/// Makes the commit that is asked for: its files are put in the store, the metadata last, and the commit is told.
///
/// The refusals are those of preparing it, and then those of putting its files. Where telling it fails, which is
/// `Write` too, the commit was made.
pub fn commit_to<F: Files, S: Store, W: Sink>(
    alloc: Global,
    files: &F,
    request: &CommitRequest,
    store: &mut S,
    output: &mut W,
) -> Result<(), RunFault>
    // Over files that tell their world.
    ensures made { (world : World) → F.world files.now ≡ Some world →
        OnOk result ((c : Commitment) × (commitment world request.now ≡ Ok c) ×
        Made c request.now (S.files store.old) (S.files store.new) (W.taken output.old) (W.taken output.new)) }
    ensures refused { (world : World) → F.world files.now ≡ Some world →
        IfErr result (MayEndCommit (commitment world request.now) (F.may_fail files.now) request.now.out
        (S.files store.old) (S.files store.new) (S.may_fail store.old) (W.may_fail output.old)) }
    ensures unchanged { (world : World) (fault : RunFault) → F.world files.now ≡ Some world →
        commitment world request.now ≡ Err fault → S.files store.new ≡ S.files store.old }
    ensures left { (world : World) (c : Commitment) → F.world files.now ≡ Some world →
        commitment world request.now ≡ Ok c →
        OnErr result (IsLeft c request.now.out (S.files store.old) (S.files store.new)) }

    // Over all files and stores.
    ensures nothing { IfErr result (λ fault. fault ≢ RunFault.Write → W.taken output.new ≡ W.taken output.old) }
    ensures told { TellsACommit request.now.ids.snapshot result (W.taken output.old) (W.taken output.new) }
    ensures refusal { OnCommitRefusal (F.world files.now) (F.may_fail files.now) request.now.out (S.files store.new)
        (S.may_fail store.old) (W.may_fail output.old) result }
    // What is put is a commit to bytes that reads gave.
    ensures given { CommitsOfGiven (F.gives files.now) request.now result (S.files store.old) (S.files store.new)
        (W.taken output.old) (W.taken output.new) }
{
    let prepared = prepare_commit(alloc, files, request)?;
    put_commit(alloc, store, &prepared, &request.out)?;
    let number = prepared.version().metadata().table().last_sequence_number;
    put_receipt(output, request.ids.snapshot, number.get())?;
    Ok(())
}
