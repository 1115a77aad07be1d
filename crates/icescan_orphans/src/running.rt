//! The files below a folder that a table does not reach, over any files.

ghost use Rattle.std.specs.Prelude.{◌≡◌, ◌≢◌, ◌⊎◌, IfErr, IfOk, IsErrOf, OnOk};
ghost use Rattle.icescan_orphans.specs.Written.{AreStraysGiven, WroteStrays, stray_line, stray_lines, stray_word};
ghost use Rattle.icescan_orphans.specs.Refused.{IsOfFolder};
ghost use Rattle.icescan_reachable.specs.Refused.{IsRefused};
ghost use Rattle.icescan_text.specs.declared.fault.RunFault.{RunFault};

use crate::aged_folders::AgedFolders;
use crate::known::{known_paths, with_slashes};
use crate::told::paths_told;
use contract_words::{Items, Text};
use ice_desk::{Files, ReadFault};
use icescan_forms::{Format, push_path};
use icescan_parts::lines_in;
use icescan_paths::{AgedFile, Stray, StrayKind, strays};
use icescan_print::{Sink, write_all};
use icescan_reachable::lines_at;
use icescan_text::RunFault;
use std::alloc::{AllocError, Global};

/// Which files are looked for.
#[derive(Clone, Copy)]
pub struct Search<'a> {
    /// The folder that they are below.
    pub folder: &'a str,
    /// How their paths begin.
    pub prefix: &'a str,
    /// How many milliseconds ago an orphan was changed at least, and one more.
    pub older_than_ms: u64,
}

/// The name of a folder that was refused.
fn folder_fault(alloc: Global, folder: &str, fault: ReadFault) -> RunFault
    ensures write { result ≢ RunFault.Write }
    ensures why { IsOfFolder folder.now result }
{
    let Ok(name) = String::from_str(alloc, folder) else {
        return RunFault::Memory;
    };
    match fault {
        ReadFault::Absent => RunFault::Absent(Text::from_string(name)),
        ReadFault::Device => RunFault::Device(Text::from_string(name)),
        ReadFault::Memory => RunFault::Memory,
    }
}

/// The files below the folder.
fn files_found<A: AgedFolders>(
    alloc: Global,
    folders: &A,
    search: &Search<'_>,
) -> Result<Vec<AgedFile>, RunFault>
    ensures write { IsErrOf result RunFault.Write → ⊥ }
    ensures causes { IfErr result (IsOfFolder search.now.folder.now) }
{
    match folders.aged_files(alloc, search.folder, search.prefix) {
        Ok(found) => Ok(found),
        Err(fault) => Err(folder_fault(alloc, search.folder, fault)),
    }
}

/// The files below the folder that the table does not reach whose metadata is at a path.
fn strays_at<A: AgedFolders, F: Files>(
    alloc: Global,
    folders: &A,
    files: &F,
    search: &Search<'_>,
    path: &str,
) -> Result<Vec<Stray>, RunFault>
    ensures write { IsErrOf result RunFault.Write → ⊥ }
    ensures given { IfOk result (λ found. AreStraysGiven (F.gives files.now) search.now.older_than_ms path.now
        found.items) }
    ensures causes { IfErr result (λ fault. IsOfFolder search.now.folder.now fault
        ⊎ IsRefused (F.gives files.now) (F.may_fail files.now) path.now fault) }
{
    let found = files_found(alloc, folders, search)?;
    let lines = lines_at(alloc, files, path)?;
    let told = paths_told(alloc, &lines)?;
    let more = with_slashes(alloc, search.prefix, &told)?;
    let known = known_paths(alloc, &told, &more)?;
    let left = strays(alloc, known, search.older_than_ms, &found)?;
    Ok(left)
}

/// The word for a file that is not reached, and the space behind it.
fn stray_word(kind: StrayKind) -> &'static [u8]
    ensures { result.now ≡ stray_word kind }
{
    match kind {
        StrayKind::Orphan => b"orphan ",
        StrayKind::Doubtful => b"doubtful ",
    }
}

/// The line of a file.
fn stray_line(alloc: Global, stray: &Stray) -> Result<Items<u8>, AllocError>
    ensures { IfOk result (λ text. text ≡ stray_line stray.now) }
{
    let mut text = Vec::new(alloc);
    push_path(&mut text, stray_word(stray.kind), stray.path.as_slice())?;
    text.extend_from_slice(b"\n")?;
    Ok(Items::from_vec(text))
}

/// The lines of files.
fn stray_lines(alloc: Global, found: &[Stray]) -> Result<Vec<Items<u8>>, AllocError>
    ensures { IfOk result (λ lines. lines.items ≡ stray_lines found.now) }
{
    let mut lines = Vec::new(alloc);
    'found: for stray in found {
        lines.push(stray_line(alloc, stray)?)?;
    }
    Ok(lines)
}

/// Writes, in a form, a line for each file below a folder that the table does not reach whose metadata is at a path, in
/// the order of their paths: `orphan` and its path, or `doubtful` and its path, where the file is younger or its path may
/// be another spelling of one that is reached. What the table reaches is read as `reachable_file` reads it.
///
/// The refusal is that of `reachable_file`, or `Absent` or `Device` where the folder, or something below it, can't be
/// looked at. After any refusal but `Write` nothing was written, and after `Write` a front of the text.
pub fn orphans_file<A: AgedFolders, F: Files, W: Sink>(
    alloc: Global,
    folders: &A,
    files: &F,
    search: &Search<'_>,
    format: Format,
    path: &str,
    output: &mut W,
) -> Result<(), RunFault>
    ensures nothing { IfErr result (λ fault. fault ≢ RunFault.Write → W.taken output.new ≡ W.taken output.old) }
    // What is written are the lines of files beside those that bytes reach which reads gave.
    ensures given { OnOk result (WroteStrays (F.gives files.now) format search.now.older_than_ms path.now
        (W.taken output.old) (W.taken output.new)) }
    // A refusal is one of the folder, or of what the table reaches.
    ensures causes { IfErr result (λ fault. fault ≢ RunFault.Write → IsOfFolder search.now.folder.now fault
        ⊎ IsRefused (F.gives files.now) (F.may_fail files.now) path.now fault) }
{
    let found = strays_at(alloc, folders, files, search, path)?;
    let lines = stray_lines(alloc, &found)?;
    let text = lines_in(alloc, format, &lines)?;
    write_all(output, &text)?;
    Ok(())
}
