//! What is wrong with what a manifest list's row says of its manifest.

ghost use Rattle.std.specs.Prelude.{◌≡◌, ◌++◌, OnOk, length};
ghost use Rattle.std.specs.Option.{option_copied};
ghost use Rattle.icescan_audit_findings.specs.RowFlaws.{content_name, has_other_spec, has_other_summaries};
ghost use Rattle.icescan_audit_findings.specs.RowFlaws.{has_row_flaw, row_finding, row_findings, says_other};

use crate::basis::Basis;
use crate::finding::{Finding, Flaw, RowFlaw};
use crate::header::property_in;
use contract_words::Items;
use ice_manifest_reading::{ManifestContent, Row};
use itoa::Buffer;
use shared_value::Shared;
use std::alloc::{AllocError, Global};

/// What a manifest's own metadata call its content.
fn content_name(content: ManifestContent) -> &'static [u8]
    ensures { result.now ≡ content_name content }
{
    match content {
        ManifestContent::Data => b"data",
        ManifestContent::Deletes => b"deletes",
    }
}

/// Whether something is said, and it is another text.
fn says_other(said: Option<&[u8]>, text: &[u8]) -> bool
    ensures { result ≡ says_other (option_copied said.entry) text.now }
{
    match said {
        Some(said) => said != text,
        None => false,
    }
}

/// Whether the manifest names another partition spec.
fn has_other_spec(row: &Row, bytes: &[u8]) -> bool
    ensures { result ≡ has_other_spec row.now bytes.now }
{
    let mut buffer = Buffer::new();
    says_other(
        property_in(b"partition-spec-id", bytes),
        buffer.format(row.spec_id).as_bytes(),
    )
}

/// Whether the row has summaries of another number of fields than its spec has.
fn has_other_summaries(basis: &Basis, row: &Row) -> bool
    ensures { result ≡ has_other_summaries basis.now row.now }
{
    match (&row.partitions, basis.spec_of(row.spec_id)) {
        (Some(summaries), Some(spec)) => summaries.as_slice().len() != spec.fields.as_slice().len(),
        _ => false,
    }
}

/// Whether a row, whose manifest has these bytes, has the flaw.
fn has_row_flaw(flaw: RowFlaw, basis: &Basis, row: &Row, bytes: &[u8]) -> bool
    ensures { result ≡ has_row_flaw flaw basis.now row.now bytes.now }
{
    match flaw {
        RowFlaw::OtherSpec => has_other_spec(row, bytes),
        RowFlaw::OtherContent => says_other(
            property_in(b"content", bytes),
            content_name(row.content),
        ),
        RowFlaw::OtherLength => row.length as i128 != bytes.len() as i128,
        RowFlaw::OtherSummaries => has_other_summaries(basis, row),
        RowFlaw::AboveSnapshot => basis.snapshot.get() < row.sequence_number.get(),
    }
}

/// Puts the finding last that a row has the flaw, where it has.
fn push_row_finding(
    alloc: Global,
    findings: &mut Items<Finding>,
    flaw: RowFlaw,
    basis: &Basis,
    row: &Row,
    bytes: &[u8],
) -> Result<(), AllocError>
    ensures { OnOk result (findings.new ≡ findings.old ++ row_finding flaw basis.now row.now bytes.now) }
{
    if has_row_flaw(flaw, basis, row, bytes) {
        findings.push(Finding {
            manifest: Shared::new(alloc, row.path.copy(alloc)?)?,
            file: None,
            flaw: Flaw::OfRow(flaw),
        })?;
    }
    Ok(())
}

/// Puts the findings last on what a row says of its manifest, which has these bytes: that the manifest's own metadata
/// name another spec or another content, that it has another length, that the summaries are of another number of fields
/// than the spec has, and that the row's number is above the snapshot's.
pub fn push_row_findings(
    alloc: Global,
    findings: &mut Items<Finding>,
    basis: &Basis,
    row: &Row,
    bytes: &[u8],
) -> Result<(), AllocError>
    ensures { OnOk result (findings.new ≡ findings.old ++ row_findings basis.now row.now bytes.now) }
{
    push_row_finding(alloc, findings, RowFlaw::OtherSpec, basis, row, bytes)?;
    push_row_finding(alloc, findings, RowFlaw::OtherContent, basis, row, bytes)?;
    push_row_finding(alloc, findings, RowFlaw::OtherLength, basis, row, bytes)?;
    push_row_finding(alloc, findings, RowFlaw::OtherSummaries, basis, row, bytes)?;
    push_row_finding(alloc, findings, RowFlaw::AboveSnapshot, basis, row, bytes)
}
