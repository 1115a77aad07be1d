//! The text of an audit.

ghost use Rattle.std.specs.Prelude.{◌≡◌, ◌++◌, [], OnOk, IfOk};
ghost use Rattle.std.specs.List.{flat_map};
ghost use Rattle.icescan_audit.specs.Texts.{audit_text, file_text, finding_end, finding_text, flaw_end, flaw_name};
ghost use Rattle.icescan_audit.specs.Texts.{number_of_findings, text_end, total_text, totals_text};
ghost use Rattle.icescan_print.specs.Written.{Sent, Wrote};

use crate::audit::Audit;
use crate::summary::total_name;
use contract_words::Items;
use icescan_audit_findings::{
    ColumnFlaw, Count, EntryFlaw, FalseTotal, FieldFlaw, Finding, Flaw, RowFlaw,
};
use icescan_forms::push_number;
use icescan_print::{Page, Sink, SinkFault};
use shared_value::Shared;
use std::alloc::{AllocError, Global};

/// What is wrong, in a word.
pub fn flaw_name(flaw: &Flaw) -> &'static [u8]
    ensures { result.now ≡ flaw_name flaw.now }
{
    match flaw {
        Flaw::Miscounted(Count::AddedFiles) => b"added-files",
        Flaw::Miscounted(Count::ExistingFiles) => b"existing-files",
        Flaw::Miscounted(Count::DeletedFiles) => b"deleted-files",
        Flaw::Miscounted(Count::AddedRows) => b"added-rows",
        Flaw::Miscounted(Count::ExistingRows) => b"existing-rows",
        Flaw::Miscounted(Count::DeletedRows) => b"deleted-rows",
        Flaw::Uncovered(_) => b"uncovered",
        Flaw::BelowLeast => b"below-least",
        Flaw::AboveLast => b"above-last",
        Flaw::LiveTwice => b"live-twice",
        Flaw::NoColumn(_) => b"no-column",
        Flaw::BoundsCross(_) => b"bounds-cross",
        Flaw::ExcessNulls(_) => b"excess-nulls",
        Flaw::NamedNotLive => b"named-not-live",
        Flaw::DanglingPositions => b"dangling-position-deletes",
        Flaw::DanglingEqualities => b"dangling-equality-deletes",
        Flaw::OfRow(RowFlaw::OtherSpec) => b"other-spec",
        Flaw::OfRow(RowFlaw::OtherContent) => b"other-content",
        Flaw::OfRow(RowFlaw::OtherLength) => b"other-length",
        Flaw::OfRow(RowFlaw::OtherSummaries) => b"other-summaries",
        Flaw::OfRow(RowFlaw::AboveSnapshot) => b"above-snapshot",
        Flaw::OfEntry(EntryFlaw::AboveManifest) => b"above-manifest",
        Flaw::OfEntry(EntryFlaw::NoEqualityIds) => b"no-equality-ids",
        Flaw::OfEntry(EntryFlaw::NegativeSize) => b"negative-size",
        Flaw::OfEntry(EntryFlaw::UnknownFormat) => b"unknown-format",
        Flaw::OfColumn(ColumnFlaw::NegativeCounts, _) => b"negative-counts",
        Flaw::OfColumn(ColumnFlaw::BoundsOfNulls, _) => b"bounds-of-nulls",
        Flaw::OfField(FieldFlaw::Unbounded, _) => b"unbounded",
        Flaw::OfField(FieldFlaw::OtherNulls, _) => b"other-nulls",
        Flaw::OfField(FieldFlaw::OutsideBounds, _) => b"outside-bounds",
    }
}

/// Sends the field or the column that a flaw is about.
#[tactic(auto, using(crate::proofs::Sends::nothing_sent))]
fn put_flaw_end<S: Sink>(page: &mut Page, sink: &mut S, flaw: &Flaw) -> Result<(), SinkFault>
    ensures { Sent S.taken S.may_fail sink.old page.old result sink.new page.new (flaw_end flaw.now) }
{
    match flaw {
        Flaw::Uncovered(field) => page.put_named_path(sink, b" field ", field.get().as_bytes()),
        Flaw::NoColumn(id) => page.put_named_int(sink, b" column ", *id),
        Flaw::BoundsCross(id) => page.put_named_int(sink, b" column ", *id),
        Flaw::ExcessNulls(id) => page.put_named_int(sink, b" column ", *id),
        Flaw::OfColumn(_, id) => page.put_named_int(sink, b" column ", *id),
        Flaw::OfField(_, field) => page.put_named_path(sink, b" field ", field.get().as_bytes()),
        Flaw::Miscounted(_) | Flaw::BelowLeast | Flaw::AboveLast | Flaw::LiveTwice => Ok(()),
        Flaw::NamedNotLive | Flaw::DanglingPositions | Flaw::DanglingEqualities => Ok(()),
        Flaw::OfRow(_) | Flaw::OfEntry(_) => Ok(()),
    }
}

/// Sends the file that a finding is about.
#[tactic(auto, using(crate::proofs::Sends::nothing_sent))]
fn put_file<S: Sink>(
    page: &mut Page,
    sink: &mut S,
    file: &Option<Shared<Items<u8>>>,
) -> Result<(), SinkFault>
    ensures { Sent S.taken S.may_fail sink.old page.old result sink.new page.new (file_text file.now) }
{
    match file {
        Some(path) => page.put_named_path(sink, b" file ", path.get().as_slice()),
        None => Ok(()),
    }
}

/// Sends the end of the line of a finding: the file, the flaw's end and the line feed.
fn put_finding_end<S: Sink>(
    page: &mut Page,
    sink: &mut S,
    finding: &Finding,
) -> Result<(), SinkFault>
    ensures { Sent S.taken S.may_fail sink.old page.old result sink.new page.new (finding_end finding.now) }
{
    put_file(page, sink, &finding.file)?;
    put_flaw_end(page, sink, &finding.flaw)?;
    page.put(sink, b"\n")
}

/// Sends the line of a finding.
#[tactic(auto, unfolding(crate::specs::Texts::finding_text))]
pub fn put_finding<S: Sink>(
    page: &mut Page,
    sink: &mut S,
    finding: &Finding,
) -> Result<(), SinkFault>
    ensures { Sent S.taken S.may_fail sink.old page.old result sink.new page.new (finding_text finding.now) }
{
    page.put(sink, b"finding ")?;
    page.put(sink, flaw_name(&finding.flaw))?;
    page.put_named_path(sink, b" manifest ", finding.manifest.get().as_bytes())?;
    put_finding_end(page, sink, finding)
}

/// How many findings an audit has, false totals among them.
pub fn number_of_findings(audit: &Audit) -> u128
    ensures { result ≡ number_of_findings audit.now }
{
    audit.findings.as_slice().len() as u128 + audit.false_totals.as_slice().len() as u128
}

/// Puts the line of a false total.
#[tactic(auto, unfolding(crate::specs::Texts::total_text))]
pub fn push_false_total(text: &mut Vec<u8>, total: &FalseTotal) -> Result<(), AllocError>
    ensures { OnOk result (text.new.items ≡ text.old.items ++ total_text total.now) }
{
    text.extend_from_slice(b"finding ")?;
    text.extend_from_slice(total_name(total.total).as_bytes())?;
    push_number(text, b" says ", total.said)?;
    push_number(text, b" counted ", total.counted)?;
    text.extend_from_slice(b"\n")
}

/// Puts the lines of false totals.
fn push_false_totals(text: &mut Vec<u8>, totals: &[FalseTotal]) -> Result<(), AllocError>
    ensures { OnOk result (text.new.items ≡ text.old.items ++ flat_map total_text totals.now) }
{
    'totals: for total in totals {
        push_false_total(text, total)?;
    }
    Ok(())
}

/// Puts the last line of an audit.
#[tactic(auto, unfolding(crate::specs::Texts::totals_text))]
fn push_totals(text: &mut Vec<u8>, audit: &Audit) -> Result<(), AllocError>
    ensures { OnOk result (text.new.items ≡ text.old.items ++ totals_text audit.now) }
{
    push_number(text, b"manifests ", audit.manifests)?;
    push_number(text, b" entries ", audit.entries)?;
    push_number(text, b" findings ", number_of_findings(audit))?;
    text.extend_from_slice(b"\n")
}

/// What stands behind the findings of an audit: the lines of false totals, and the last line.
pub fn end_of(alloc: Global, audit: &Audit) -> Result<Vec<u8>, AllocError>
    ensures { IfOk result (λ text. text.items ≡ text_end audit.now) }
{
    let mut text = Vec::new(alloc);
    push_false_totals(&mut text, audit.false_totals.as_slice())?;
    push_totals(&mut text, audit)?;
    Ok(text)
}

/// Sends the lines of findings.
fn put_findings<S: Sink>(
    page: &mut Page,
    sink: &mut S,
    findings: &[Finding],
) -> Result<(), SinkFault>
    ensures { Sent S.taken S.may_fail sink.old page.old result sink.new page.new
        (flat_map finding_text findings.now) }
{
    'findings: for finding in findings {
        put_finding(page, sink, finding)?;
    }
    Ok(())
}

/// Sends the text of an audit, whose end this is.
#[tactic(auto, unfolding(crate::specs::Texts::audit_text))]
fn put_audit<S: Sink>(
    page: &mut Page,
    sink: &mut S,
    audit: &Audit,
    end: &[u8],
) -> Result<(), SinkFault>
    requires { end.now ≡ text_end audit.now }
    ensures { Sent S.taken S.may_fail sink.old page.old result sink.new page.new (audit_text audit.now) }
{
    put_findings(page, sink, audit.findings.as_slice())?;
    page.put(sink, end)
}

/// Writes the text of an audit, whose end this is, by a page on which nothing waits. It takes no memory.
pub fn write_audit<S: Sink>(
    page: &mut Page,
    sink: &mut S,
    audit: &Audit,
    end: &[u8],
) -> Result<(), SinkFault>
    requires page { page.old ≡ [] }
    requires end { end.now ≡ text_end audit.now }
    ensures { Wrote S.taken S.may_fail sink.old result sink.new (audit_text audit.now) }
{
    put_audit(page, sink, audit, end)?;
    page.flush(sink)
}
