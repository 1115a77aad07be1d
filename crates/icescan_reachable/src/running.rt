//! The files that a table reaches, over any files.

ghost use Rattle.std.specs.Prelude.{◌≡◌, ◌≢◌, IfErr, IfOk, IsErrOf, OnOk};
ghost use Rattle.ice_meta.specs.Targets.{described};
ghost use Rattle.icescan_reachable.specs.Given.{AreLinesGiven, AreLinesGivenAt, WroteReached};
ghost use Rattle.icescan_reachable.specs.Refused.{IsOfMetadata, IsRefused};

use crate::lists::{gather_rows, put_lists};
use crate::manifests::put_manifests;
use crate::named::own_lines;
use crate::order::{put_in_order, text_of};
use contract_words::Items;
use ice_desk::Files;
use ice_meta::Metadata;
use icescan_print::{Sink, write_all};
use icescan_text::{RunFault, read_file};
use std::alloc::Global;

/// The lines of the files that this metadata reaches, which is at a path.
pub fn lines_of<F: Files>(
    alloc: Global,
    files: &F,
    path: &str,
    metadata: &Metadata,
) -> Result<Vec<Items<u8>>, RunFault>
    ensures write { IsErrOf result RunFault.Write → ⊥ }
    ensures given { IfOk result (λ lines. AreLinesGiven (F.gives files.now) path.now
        (described metadata.now.json metadata.now.table) lines.items) }
    ensures causes { IfErr result (IsOfMetadata (F.gives files.now) (F.may_fail files.now) path.now
        (described metadata.now.json metadata.now.table)) }
{
    let snapshots = metadata.table().snapshots.as_slice();
    let mut lines = own_lines(alloc, path.as_bytes(), metadata.json())?;
    put_lists(&mut lines, alloc, snapshots)?;
    let rows = gather_rows(alloc, files, snapshots)?;
    put_manifests(alloc, files, &rows, &mut lines)?;
    put_in_order(&mut lines)?;
    Ok(lines)
}

/// The lines of the files that the metadata at a path reaches.
pub fn lines_at<F: Files>(alloc: Global, files: &F, path: &str) -> Result<Vec<Items<u8>>, RunFault>
    ensures write { IsErrOf result RunFault.Write → ⊥ }
    ensures given { IfOk result (λ lines. AreLinesGivenAt (F.gives files.now) path.now lines.items) }
    ensures causes { IfErr result (IsRefused (F.gives files.now) (F.may_fail files.now) path.now) }
{
    let bytes = read_file(alloc, files, path)?;
    let metadata = Metadata::read(alloc, &bytes)?;
    lines_of(alloc, files, path, &metadata)
}

/// Writes a line for each file that the metadata at a path reaches, in the order of the lines' bytes: the metadata itself
/// and the older metadata that it names, its statistics, the manifest lists of all its snapshots, their manifests, and
/// the data files and delete files that these have live.
///
/// The refusal is `Absent` where a file of these that has to be read is not there, `Device` where reading it failed;
/// `Metadata` where the metadata is refused, an item of its log or its statistics names no file, or a snapshot has no
/// manifest list; `List` and `Finish` for the first manifest list and the first manifest at fault. After any refusal but
/// `Write` nothing was written, and after `Write` a front of the text.
pub fn reachable_file<F: Files, W: Sink>(
    alloc: Global,
    files: &F,
    path: &str,
    output: &mut W,
) -> Result<(), RunFault>
    ensures nothing { IfErr result (λ fault. fault ≢ RunFault.Write → W.taken output.new ≡ W.taken output.old) }
    // What is written are the lines of the files that bytes reach which reads gave.
    ensures given { OnOk result (WroteReached (F.gives files.now) path.now (W.taken output.old)
        (W.taken output.new)) }
    // A refusal is one of the metadata, or of a manifest list or manifest of some snapshot.
    ensures causes { IfErr result (λ fault. fault ≢ RunFault.Write →
        IsRefused (F.gives files.now) (F.may_fail files.now) path.now fault) }
{
    let lines = lines_at(alloc, files, path)?;
    let text = text_of(alloc, &lines)?;
    write_all(output, &text)?;
    Ok(())
}
