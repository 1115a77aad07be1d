//! Public calls once more, each under the one clause that wrong implementations turn, so that the gate can try these
//! cheaply.

ghost use Rattle.std.specs.Prelude.{◌≡◌, ◌∷◌, [], IfOk};
ghost use Rattle.contract_words.specs.Outcome.{Gives};
ghost use Rattle.ice_manifest_fields.specs.Fields.{int_or_zero, number_or_zero};
ghost use Rattle.ice_manifest_layouts.specs.RowsFound.{IsRow, row_id, row_seen};
ghost use Rattle.ice_manifest_reading.specs.Lists.{rows_of};
ghost use Rattle.ice_manifest_reading.specs.Manifests.{entries_of};
ghost use Rattle.ice_manifest.specs.Adding.{AreNewFiles, IsHeading};
ghost use Rattle.ice_manifest.specs.NewRows.{new_row};
ghost use Rattle.ice_manifest.specs.Writing.{list_bytes, manifest_bytes};

use contract_words::Text;
use ice_manifest::{Heading, NewFile};
use ice_manifest_fields::{FieldFault, ListFault, ManifestFault};
use ice_manifest_layouts::{FoundRow, RowField};
use ice_manifest_reading::{Entry, Row};
use ice_meta::Spec;
use ice_value::SequenceNumber;
use std::alloc::{AllocError, Global};

/// The rows of a manifest list, each once, sorted by the bytes of their paths.
pub fn read_list(alloc: Global, bytes: &[u8]) -> Result<Vec<Row>, ListFault>
    ensures { Gives ListFault.Memory (λ rows. rows.items) result (rows_of bytes.now) }
{
    ice_manifest_reading::read_list(alloc, bytes)
}

/// All live entries of a row's manifest.
pub fn read_manifest(
    alloc: Global,
    row: &Row,
    spec: &Spec,
    bytes: &[u8],
) -> Result<Vec<Entry>, ManifestFault>
    ensures { Gives ManifestFault.Memory (λ found. found.items) result (entries_of row.now spec.now bytes.now) }
{
    ice_manifest_reading::read_manifest(alloc, row, spec, bytes)
}

/// The bytes of a manifest list with these rows and this marker.
pub fn write_list(alloc: Global, rows: &[Row], sync: [u8; 16]) -> Result<Vec<u8>, AllocError>
    ensures { IfOk result (λ bytes. bytes.items ≡ list_bytes rows.now sync) }
{
    ice_manifest::write_list(alloc, rows, sync)
}

/// The bytes of a manifest with an entry for this file.
pub fn write_manifest(
    alloc: Global,
    heading: &Heading,
    file: &NewFile,
) -> Result<Vec<u8>, AllocError>
    requires heading { IsHeading heading.now }
    requires file { AreNewFiles heading.now (file.now ∷ []) }
    ensures { IfOk result (λ bytes. bytes.items ≡ manifest_bytes heading.now (file.now ∷ [])) }
{
    ice_manifest::write_manifest(alloc, heading, &[file])
}

/// The row of a new manifest of this file.
pub fn new_row(
    heading: &Heading,
    alloc: Global,
    path: Text,
    length: i64,
    sequence_number: SequenceNumber,
    file: &NewFile,
) -> Result<Row, AllocError>
    requires { AreNewFiles heading.now (file.now ∷ []) }
    ensures { IfOk result (λ row. row ≡ new_row heading.now path length sequence_number (file.now ∷ [])) }
{
    heading.new_row(alloc, path, length, sequence_number, &[file])
}

/// A whole number of 32 bits at a field of a manifest list's row; 0 where the rows have no such field.
pub fn int_or_zero(row: &FoundRow, field: RowField) -> Result<i32, FieldFault>
    requires { IsRow row.now }
    ensures { result ≡ int_or_zero (row_id field) (row_seen row.now) }
{
    row.int_or_zero(field)
}

/// A sequence number at a field of a manifest list's row; 0 where the rows have no such field.
pub fn number_or_zero(row: &FoundRow, field: RowField) -> Result<SequenceNumber, FieldFault>
    requires { IsRow row.now }
    ensures { result ≡ number_or_zero (row_id field) (row_seen row.now) }
{
    row.number_or_zero(field)
}
