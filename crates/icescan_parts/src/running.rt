//! The files of a table by its snapshots, over any files.

ghost use Rattle.std.specs.Prelude.{◌≡◌, ◌≢◌, IfErr, IfOk, IsErrOf, OnOk};
ghost use Rattle.icescan_parts.specs.Kept.{ArePartLines, WrotePart, part_by};
ghost use Rattle.icescan_text.specs.declared.fault.RunFault.{RunFault};

use crate::apart::alone;
use crate::ids::ids_in;
use crate::kept::lines_kept;
use crate::snapshots::find_all;
use crate::told::lines_in;
use contract_words::Items;
use ice_desk::Files;
use ice_meta::Metadata;
use icescan_forms::{Format, Part};
use icescan_print::{Sink, write_all};
use icescan_reachable::{lines_at, lines_of};
use icescan_text::{RunFault, read_file};
use std::alloc::Global;

/// The lines of the files that of the metadata at a path the snapshots alone reach that a text lists, or of those that
/// are reached without these snapshots.
fn lines_by<F: Files>(
    alloc: Global,
    files: &F,
    is_alone: bool,
    snapshots: &str,
    path: &str,
) -> Result<Vec<Items<u8>>, RunFault>
    ensures given { IfOk result (λ lines. ArePartLines (F.gives files.now) (part_by is_alone snapshots.now) path.now
        lines.items) }
    ensures write { IsErrOf result RunFault.Write → ⊥ }
{
    let ids = ids_in(alloc, snapshots)?;
    let gone = ids.as_slice();
    let bytes = read_file(alloc, files, path)?;
    let metadata = Metadata::read(alloc, &bytes)?;
    find_all(&metadata, gone)?;
    if is_alone {
        let all = lines_of(alloc, files, path, &metadata)?;
        let rest = lines_kept(alloc, files, gone, path, &metadata)?;
        Ok(alone(alloc, &all, &rest)?)
    } else {
        lines_kept(alloc, files, gone, path, &metadata)
    }
}

/// The lines of the part that is asked for of what the metadata at a path reaches.
fn part_lines<F: Files>(
    alloc: Global,
    files: &F,
    part: &Part,
    path: &str,
) -> Result<Vec<Items<u8>>, RunFault>
    ensures given { IfOk result (λ lines. ArePartLines (F.gives files.now) part.now path.now lines.items) }
    ensures write { IsErrOf result RunFault.Write → ⊥ }
{
    match part {
        Part::All => lines_at(alloc, files, path),
        Part::Only(snapshots) => lines_by(alloc, files, true, snapshots.as_str(), path),
        Part::Without(snapshots) => lines_by(alloc, files, false, snapshots.as_str(), path),
    }
}

/// Writes, in a form, a line for each file of the part that is asked for of what the metadata at a path reaches: of all,
/// as `reachable_file` does; of what stays reached without some of its snapshots, where the metadata and its log stay and
/// statistics go with their snapshot; or of the rest, which these snapshots alone reach: what expiring them lets go.
///
/// The refusal is that of `reachable_file`; `Words` where a text lists no ids, or `Metadata` where one of them is none
/// of the metadata's snapshots. After any refusal but `Write` nothing was written, and after `Write` a front of the
/// text.
pub fn part_file<F: Files, W: Sink>(
    alloc: Global,
    files: &F,
    part: &Part,
    format: Format,
    path: &str,
    output: &mut W,
) -> Result<(), RunFault>
    ensures nothing { IfErr result (λ fault. fault ≢ RunFault.Write → W.taken output.new ≡ W.taken output.old) }
    // What is written are the lines of the files that bytes reach which reads gave.
    ensures given { OnOk result (WrotePart (F.gives files.now) format part.now path.now (W.taken output.old)
        (W.taken output.new)) }
{
    let lines = part_lines(alloc, files, part, path)?;
    let text = lines_in(alloc, format, &lines)?;
    write_all(output, &text)?;
    Ok(())
}
