//! The files of the live entries of manifests.

ghost use Rattle.std.specs.Prelude.{◌≡◌, ◌≢◌, ◌++◌, ◌∷◌, [], true, ℕ, List, Option, None, Some, Ok, IfErr, IfOk};
ghost use Rattle.std.specs.Prelude.{Contains, IsErrOf, OnOk, option_map};
ghost use Rattle.contract_words.specs.Outcome.{Gives};
ghost use Rattle.ice_desk.specs.Worlds.{HasAt};
ghost use Rattle.ice_manifest_reading.specs.declared.row.Row.{Row};
ghost use Rattle.ice_manifest_reading.specs.Manifests.{live_of};
ghost use Rattle.ice_manifest_reading.specs.Telling.{told_of};
ghost use Rattle.ice_manifest_reading.specs.declared.entry.Live.{Live};
ghost use Rattle.icescan_reachable.specs.Given.{AreLiveGiven, AreManifestsBehind, IsHeld, bare_spec, live_line};
ghost use Rattle.icescan_reachable.specs.Given.{live_lines};
ghost use Rattle.icescan_reachable.specs.Lines.{entry_line, kind_of, line};
ghost use Rattle.icescan_reachable.specs.Refused.{IsAtFault, IsFor, IsOfManifest};
ghost use Rattle.icescan_text.specs.Reads.{IsUnread};

use crate::kind::{FileKind, line_of, put_line};
use contract_words::Items;
use ice_desk::Files;
use ice_manifest_reading::{EntryView, Live, ManifestFault, Row, Tell, read_told};
use ice_meta::Spec;
use ice_state::FinishFault;
use ice_value::FileContent;
use icescan_text::{RunFault, read_file_into};
use std::alloc::{AllocError, Global};

/// What a file that holds this is to a table.
fn kind_of(content: FileContent) -> FileKind
    ensures { result ≡ kind_of content }
{
    match content {
        FileContent::Data => FileKind::Data,
        FileContent::PositionDeletes | FileContent::EqualityDeletes => FileKind::Delete,
    }
}

/// The line of an entry's file.
fn entry_line(alloc: Global, entry: &EntryView<'_>) -> Result<Items<u8>, AllocError>
    ensures { IfOk result (λ text. text ≡ entry_line entry.now) }
{
    let lent = entry.lent();
    line_of(alloc, kind_of(lent.content), lent.path)
}

/// Tells the line of a live entry's file.
struct Lines;

impl Tell for Lines {
    type Told = Items<u8>;

    ghost told = { λ _ live. live_line live };

    fn tell(&self, alloc: Global, live: &Live<'_, '_>) -> Result<Items<u8>, AllocError> {
        entry_line(alloc, &live.entry)
    }

    fn without_columns(
        &self,
        alloc: Global,
        entry: &EntryView<'_>,
    ) -> Result<Option<Items<u8>>, AllocError> {
        Ok(Some(entry_line(alloc, entry)?))
    }
}

/// Why the manifest of a row can't be read; or that memory ran out.
fn refusal(alloc: Global, row: &Row, fault: ManifestFault) -> RunFault
    ensures write { result ≢ RunFault.Write }
    ensures why { IsFor (RunFault.Finish (FinishFault.Bad row.now.path fault)) (fault ≢ ManifestFault.Memory) result }
{
    if let ManifestFault::Memory = fault {
        return RunFault::Memory;
    }
    match row.path.copy(alloc) {
        Ok(path) => RunFault::Finish(FinishFault::Bad(path, fault)),
        Err(_) => RunFault::Memory,
    }
}

/// The lines of the files of the live entries of a row's manifest, or its fault. Its partition values are not looked at.
fn told_lines(alloc: Global, row: &Row, bytes: &[u8]) -> Result<Vec<Items<u8>>, ManifestFault>
    ensures { Gives ManifestFault.Memory (λ told. told.items) result
        (told_of live_line (live_of row.now (bare_spec row.now) bytes.now)) }
{
    let spec = Spec {
        id: row.spec_id,
        fields: Items::new(alloc),
    };
    read_told(alloc, row, &spec, &Lines, bytes)
}

/// The lines of the files of the live entries of a row's manifest.
fn entry_lines(alloc: Global, row: &Row, bytes: &[u8]) -> Result<Vec<Items<u8>>, RunFault>
    ensures told { IfOk result (λ told. told_of live_line (live_of row.now (bare_spec row.now) bytes.now)
        ≡ Ok told.items) }
    ensures write { IsErrOf result RunFault.Write → ⊥ }
    ensures causes { IfErr result (IsAtFault row.now bytes.now) }
{
    match told_lines(alloc, row, bytes) {
        Ok(told) => Ok(told),
        Err(fault) => Err(refusal(alloc, row, fault)),
    }
}

/// Puts lines last.
fn put_all(lines: &mut Vec<Items<u8>>, mut more: Vec<Items<u8>>) -> Result<(), AllocError>
    ensures { OnOk result (lines.new.items ≡ lines.old.items ++ more.items) }
{
    lines.append(&mut more)?;
    Ok(())
}

/// Whether the manifests of two rows are at one path.
fn is_same_manifest(before: &Row, row: &Row) -> bool
    ensures { result ≡ true → before.now.path ≡ row.now.path }
{
    before.path.as_str() == row.path.as_str()
}

/// Puts the bytes of a row's manifest in place of those that `bytes` has, unless these are its own: those of the manifest
/// of the row before, where there is one.
pub fn read_manifest<F: Files>(
    alloc: Global,
    files: &F,
    before: Option<&Row>,
    row: &Row,
    bytes: &mut Vec<u8>,
) -> Result<(), RunFault>
    requires held { IsHeld (F.gives files.now) (option_map (λ r. r.now) before) bytes.now.items }
    ensures absent { (path : List ℕ) → IsErrOf result (RunFault.Absent path) → HasAt (F.world files.now) path None }
    ensures device { (path : List ℕ) → IsErrOf result (RunFault.Device path) → F.may_fail files.now path }
    ensures write { IsErrOf result RunFault.Write → ⊥ }
    ensures given { OnOk result (F.gives files.now row.now.path (Some bytes.new.items)) }
    ensures unread { IfErr result (IsUnread (F.gives files.now) (F.may_fail files.now) row.now.path) }
{
    if let Some(before) = before {
        if is_same_manifest(before, row) {
            return Ok(());
        }
    }
    read_file_into(alloc, files, row.path.as_str(), bytes)
}

/// Puts last the lines of a row's manifest and of the files of its live entries. `bytes` is the room that the manifest
/// is read into, and has that of the row before.
fn put_manifest<F: Files>(
    alloc: Global,
    files: &F,
    before: Option<&Row>,
    row: &Row,
    bytes: &mut Vec<u8>,
    lines: &mut Vec<Items<u8>>,
) -> Result<(), RunFault>
    requires held { IsHeld (F.gives files.now) (option_map (λ r. r.now) before) bytes.now.items }
    ensures write { IsErrOf result RunFault.Write → ⊥ }
    ensures given { OnOk result ((found : List Live) × AreLiveGiven (F.gives files.now) row.now found
        × (lines.new.items ≡ (lines.old.items ++ line FileKind.Manifest row.now.path ∷ []) ++ live_lines found)) }
    ensures held { OnOk result (F.gives files.now row.now.path (Some bytes.new.items)) }
    ensures causes { IfErr result (IsOfManifest (F.gives files.now) (F.may_fail files.now) row.now) }
{
    put_line(lines, alloc, FileKind::Manifest, row.path.as_bytes())?;
    read_manifest(alloc, files, before, row, bytes)?;
    let told = entry_lines(alloc, row, bytes.as_slice())?;
    put_all(lines, told)?;
    Ok(())
}

/// Puts last the lines of the manifests of these rows and of the files of their live entries. Each manifest is read
/// into the room of the one before, and once where rows that follow each other have one path.
pub fn put_manifests<F: Files>(
    alloc: Global,
    files: &F,
    rows: &[Row],
    lines: &mut Vec<Items<u8>>,
) -> Result<(), RunFault>
    ensures write { IsErrOf result RunFault.Write → ⊥ }
    ensures given { OnOk result (AreManifestsBehind (F.gives files.now) lines.old.items rows.now lines.new.items) }
    ensures causes { IfErr result (λ fault. (row : Row) × Contains rows.now row
        × IsOfManifest (F.gives files.now) (F.may_fail files.now) row fault) }
{
    let mut bytes = Vec::new(alloc);
    let mut before = None;
    'rows: for row in rows {
        put_manifest(alloc, files, before, row, &mut bytes, lines)?;
        before = Some(row);
    }
    Ok(())
}
