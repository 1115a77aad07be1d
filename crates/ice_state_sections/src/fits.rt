//! Which entries the manifest of a row may have.

ghost use Rattle.std.specs.Prelude.{◌≡◌};
ghost use Rattle.std.specs.Option.{option_copied};
ghost use Rattle.std.specs.Str.{is_utf8};
ghost use Rattle.ice_manifest_reading.specs.Lending.{lent};
ghost use Rattle.ice_state_sections.specs.Entries.{seen, fits as fits_said, content_fits as content_said};
ghost use Rattle.ice_state_sections.specs.Entries.{is_path as path_said, reference_fits as reference_said};
ghost use Rattle.ice_state_sections.specs.Entries.{file_fits as file_said, is_behind as behind_said};

use crate::before::Before;
use ice_manifest_reading::{LentEntry, ManifestContent, Row};
use ice_meta::Spec;
use ice_value::FileContent;

fn content_fits(of_row: ManifestContent, content: FileContent) -> bool
    ensures { result ≡ content_said of_row content }
{
    matches!(
        (of_row, content),
        (ManifestContent::Data, FileContent::Data)
            | (ManifestContent::Deletes, FileContent::PositionDeletes)
            | (ManifestContent::Deletes, FileContent::EqualityDeletes)
    )
}

fn is_text(bytes: &[u8]) -> bool
    ensures { result ≡ is_utf8 bytes.now }
{
    match str::from_utf8(bytes) {
        Ok(_) => true,
        Err(_) => false,
    }
}

/// Whether the bytes may be a path.
fn is_path(bytes: &[u8]) -> bool
    ensures { result ≡ path_said bytes.now }
{
    bytes.len() <= 65535 && is_text(bytes)
}

/// Whether a file of this content may be about the file that it names.
fn reference_fits(content: FileContent, referenced: Option<&[u8]>) -> bool
    ensures { result ≡ reference_said content (option_copied referenced.entry) }
{
    match (content, referenced) {
        (_, None) => true,
        (FileContent::PositionDeletes, Some(path)) => is_path(path),
        _ => false,
    }
}

fn file_fits(of_row: ManifestContent, values: usize, entry: &LentEntry<'_>) -> bool
    ensures { result ≡ file_said of_row values (lent entry.now).file }
{
    content_fits(of_row, entry.content)
        && is_path(entry.path)
        && entry.tuple.len() == values
        && reference_fits(entry.content, entry.referenced)
}

fn is_behind(before: Option<u64>, position: u64) -> bool
    ensures { result ≡ behind_said before position }
{
    match before {
        Some(before) => before < position,
        None => true,
    }
}

/// Whether the manifest of the row may have the entry behind the one before.
#[tactic(auto, unfolding(crate::specs::Entries::fits))]
pub(crate) fn fits(row: &Row, spec: &Spec, before: Before<'_>, entry: &LentEntry<'_>) -> bool
    ensures { result ≡ fits_said row.now spec.now (seen before.entry) (lent entry.now) }
{
    is_behind(before.position, entry.position)
        && entry.spec_id == row.spec_id
        && entry.unpartitioned == spec.is_unpartitioned()
        && file_fits(row.content, spec.fields.as_slice().len(), entry)
}
