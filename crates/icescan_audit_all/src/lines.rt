//! What is told of each snapshot, before what is told of several is put together.

ghost use Rattle.std.specs.Prelude.{◌≡◌, ◌++◌, [], IfOk, OnOk, map};
ghost use Rattle.std.specs.List.{flat_map};
ghost use Rattle.icescan_audit.specs.JsonLines.{total_object};
ghost use Rattle.icescan_audit.specs.Texts.{total_text};
ghost use Rattle.icescan_print.specs.Written.{Sent};
ghost use Rattle.icescan_audit_all.specs.Lines.{finding_line, finding_told, lines_of, total_line, total_told, without_last};

use crate::audits::SnapshotAudit;
use contract_words::Items;
use icescan_audit::{
    FalseTotal, Finding, push_false_total, put_false_total, put_finding, put_finding_object,
};
use icescan_forms::Format;
use icescan_print::{Page, Sink, SinkFault};
use std::alloc::{AllocError, Global};

/// A line of a snapshot's audit.
#[derive(Debug, Drop)]
pub struct Line {
    /// The line without its end.
    pub front: Items<u8>,
    /// Whether it is about a fault.
    pub is_fault: bool,
    /// The snapshot's id.
    pub snapshot: i64,
}

/// How many bytes end a line.
fn end_length(form: Format) -> usize
    ensures { result ≡ Rattle.icescan_audit_all.specs.Lines.end_length form }
{
    match form {
        Format::Text => 1,
        Format::Json => 2,
    }
}

/// The line without its end.
fn front_of(form: Format, line: Vec<u8>) -> Items<u8>
    ensures { result ≡ without_last (Rattle.icescan_audit_all.specs.Lines.end_length form) line.items }
{
    let mut front = line;
    front.truncate(front.len().saturating_sub(end_length(form)));
    Items::from_vec(front)
}

/// Sends the line of a finding.
fn send_finding<S: Sink>(
    page: &mut Page,
    sink: &mut S,
    form: Format,
    finding: &Finding,
) -> Result<(), SinkFault>
    ensures { Sent S.taken S.may_fail sink.old page.old result sink.new page.new (finding_told form finding.now) }
{
    match form {
        Format::Text => put_finding(page, sink, finding),
        Format::Json => put_finding_object(page, sink, finding),
    }
}

/// The line of a finding. Nothing waits on the page.
fn told_finding(
    alloc: Global,
    page: &mut Page,
    form: Format,
    finding: &Finding,
) -> Result<Vec<u8>, AllocError>
    requires { page.old ≡ [] }
    ensures line { IfOk result (λ line. line.items ≡ finding_told form finding.now) }
    ensures page { OnOk result (page.new ≡ []) }
{
    let mut line = Vec::new(alloc);
    send_finding(page, &mut line, form, finding).map_err(|_| AllocError)?;
    page.flush(&mut line).map_err(|_| AllocError)?;
    Ok(line)
}

/// The line of a false total as JSON. Nothing waits on the page.
fn total_object(alloc: Global, page: &mut Page, total: &FalseTotal) -> Result<Vec<u8>, AllocError>
    requires { page.old ≡ [] }
    ensures line { IfOk result (λ line. line.items ≡ total_object total.now) }
    ensures page { OnOk result (page.new ≡ []) }
{
    let mut line = Vec::new(alloc);
    put_false_total(page, &mut line, total).map_err(|_| AllocError)?;
    page.flush(&mut line).map_err(|_| AllocError)?;
    Ok(line)
}

/// The line of a false total as text.
fn total_text(alloc: Global, total: &FalseTotal) -> Result<Vec<u8>, AllocError>
    ensures line { IfOk result (λ line. line.items ≡ total_text total.now) }
{
    let mut line = Vec::new(alloc);
    push_false_total(&mut line, total)?;
    Ok(line)
}

/// The line of a false total. Nothing waits on the page.
fn told_total(
    alloc: Global,
    page: &mut Page,
    form: Format,
    total: &FalseTotal,
) -> Result<Vec<u8>, AllocError>
    requires { page.old ≡ [] }
    ensures line { IfOk result (λ line. line.items ≡ total_told form total.now) }
    ensures page { OnOk result (page.new ≡ []) }
{
    match form {
        Format::Text => total_text(alloc, total),
        Format::Json => total_object(alloc, page, total),
    }
}

/// Puts the lines of a snapshot's findings last. Nothing waits on the page.
fn push_findings(
    alloc: Global,
    page: &mut Page,
    form: Format,
    snapshot: i64,
    findings: &[Finding],
    lines: &mut Vec<Line>,
) -> Result<(), AllocError>
    requires { page.old ≡ [] }
    ensures lines { OnOk result (lines.new.items ≡ lines.old.items ++ map (finding_line form snapshot) findings.now) }
    ensures page { OnOk result (page.new ≡ []) }
{
    'findings: for finding in findings {
        let line = told_finding(alloc, page, form, finding)?;
        lines.push(Line {
            front: front_of(form, line),
            is_fault: finding.flaw.is_fault(),
            snapshot,
        })?;
    }
    Ok(())
}

/// Puts the lines of the false totals of a snapshot last. Nothing waits on the page.
fn push_totals(
    alloc: Global,
    page: &mut Page,
    form: Format,
    snapshot: i64,
    totals: &[FalseTotal],
    lines: &mut Vec<Line>,
) -> Result<(), AllocError>
    requires { page.old ≡ [] }
    ensures lines { OnOk result (lines.new.items ≡ lines.old.items ++ map (total_line form snapshot) totals.now) }
    ensures page { OnOk result (page.new ≡ []) }
{
    'totals: for total in totals {
        let line = told_total(alloc, page, form, total)?;
        lines.push(Line {
            front: front_of(form, line),
            is_fault: false,
            snapshot,
        })?;
    }
    Ok(())
}

/// Puts the lines of a snapshot last. Nothing waits on the page.
fn push_lines(
    alloc: Global,
    page: &mut Page,
    form: Format,
    told: &SnapshotAudit,
    lines: &mut Vec<Line>,
) -> Result<(), AllocError>
    requires { page.old ≡ [] }
    ensures lines { OnOk result (lines.new.items ≡ lines.old.items ++ lines_of form told.now) }
    ensures page { OnOk result (page.new ≡ []) }
{
    let audit = &told.audit;
    push_findings(
        alloc,
        page,
        form,
        told.snapshot,
        audit.findings.as_slice(),
        lines,
    )?;
    push_totals(
        alloc,
        page,
        form,
        told.snapshot,
        audit.false_totals.as_slice(),
        lines,
    )
}

/// The lines of all these snapshots.
pub fn all_lines(
    alloc: Global,
    form: Format,
    audits: &[SnapshotAudit],
) -> Result<Vec<Line>, AllocError>
    ensures { IfOk result (λ lines. lines.items ≡ flat_map (lines_of form) audits.now) }
{
    let mut page = Page::new(alloc)?;
    let mut lines = Vec::new(alloc);
    'audits: for told in audits {
        push_lines(alloc, &mut page, form, told, &mut lines)?;
    }
    Ok(lines)
}
