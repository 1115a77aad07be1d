//! An audit as lines of JSON, an object each.

ghost use Rattle.std.specs.Prelude.{◌≡◌, ◌⊎◌, IfErr, IsErrOf, OnOk};
ghost use Rattle.std.specs.List.{flat_map};
ghost use Rattle.icescan_audit.specs.JsonLines.{audit_objects, column_json, field_json, finding_object, level};
ghost use Rattle.icescan_audit.specs.JsonLines.{objects_end, total_object, totals_json};
ghost use Rattle.icescan_forms.specs.Objects.{object_line, text_if, value_json};
ghost use Rattle.icescan_print.specs.Written.{Appends, AppendsFront, Sent};

use crate::audit::Audit;
use crate::lines::{flaw_name, number_of_findings};
use crate::summary::total_name;
use contract_words::Items;
use icescan_audit_findings::{FalseTotal, Finding, Flaw, count_faults};
use icescan_forms::{Value, put_object};
use icescan_print::{Page, Sink, SinkFault};
use icescan_text::RunFault;
use shared_value::Shared;
use std::alloc::Global;

fn level(flaw: &Flaw) -> &'static [u8]
    ensures { result.now ≡ level flaw.now }
{
    if flaw.is_fault() { b"fault" } else { b"note" }
}

fn field_value(flaw: &Flaw) -> Value<'_>
    ensures { value_json result ≡ field_json flaw.now }
{
    match flaw {
        Flaw::Uncovered(field) | Flaw::OfField(_, field) => Value::Text(field.get().as_bytes()),
        _ => Value::Null,
    }
}

fn column_value(flaw: &Flaw) -> Value<'_>
    ensures { value_json result ≡ column_json flaw.now }
{
    match flaw {
        Flaw::NoColumn(id) | Flaw::BoundsCross(id) | Flaw::ExcessNulls(id) => Value::Int(*id),
        Flaw::OfColumn(_, id) => Value::Int(*id),
        _ => Value::Null,
    }
}

fn file_value(file: &Option<Shared<Items<u8>>>) -> Value<'_>
    ensures { value_json result ≡ text_if file.now }
{
    match file {
        Some(path) => Value::Text(path.get().as_slice()),
        None => Value::Null,
    }
}

/// Sends a finding.
#[tactic(auto, unfolding(crate::specs::JsonLines::finding_object))]
pub fn put_finding<S: Sink>(
    page: &mut Page,
    sink: &mut S,
    finding: &Finding,
) -> Result<(), SinkFault>
    ensures { Sent S.taken S.may_fail sink.old page.old result sink.new page.new (finding_object finding.now) }
{
    let members = [
        ("kind", Value::Text(b"finding")),
        ("finding", Value::Text(flaw_name(&finding.flaw))),
        ("level", Value::Text(level(&finding.flaw))),
        ("manifest", Value::Text(finding.manifest.get().as_bytes())),
        ("file", file_value(&finding.file)),
        ("field", field_value(&finding.flaw)),
        ("column", column_value(&finding.flaw)),
    ];
    put_object(page, sink, &members)
}

/// Sends findings.
fn put_findings<S: Sink>(
    page: &mut Page,
    sink: &mut S,
    findings: &[Finding],
) -> Result<(), SinkFault>
    ensures { Sent S.taken S.may_fail sink.old page.old result sink.new page.new
        (flat_map finding_object findings.now) }
{
    'findings: for finding in findings {
        put_finding(page, sink, finding)?;
    }
    Ok(())
}

/// Sends a false total.
#[tactic(auto, unfolding(crate::specs::JsonLines::total_object))]
pub fn put_false_total<S: Sink>(
    page: &mut Page,
    sink: &mut S,
    total: &FalseTotal,
) -> Result<(), SinkFault>
    ensures { Sent S.taken S.may_fail sink.old page.old result sink.new page.new (total_object total.now) }
{
    let members = [
        ("kind", Value::Text(b"finding")),
        ("finding", Value::Text(total_name(total.total).as_bytes())),
        ("level", Value::Text(b"note")),
        ("says", Value::Count(total.said as u128)),
        ("counted", Value::Sum(total.counted)),
    ];
    put_object(page, sink, &members)
}

/// Sends false totals.
fn put_false_totals<S: Sink>(
    page: &mut Page,
    sink: &mut S,
    totals: &[FalseTotal],
) -> Result<(), SinkFault>
    ensures { Sent S.taken S.may_fail sink.old page.old result sink.new page.new
        (flat_map total_object totals.now) }
{
    'totals: for total in totals {
        put_false_total(page, sink, total)?;
    }
    Ok(())
}

/// Sends the counts of an audit.
fn put_totals<S: Sink>(page: &mut Page, sink: &mut S, audit: &Audit) -> Result<(), SinkFault>
    ensures { Sent S.taken S.may_fail sink.old page.old result sink.new page.new (object_line (totals_json audit.now)) }
{
    let findings = audit.findings.as_slice();
    let members = [
        ("kind", Value::Text(b"totals")),
        ("manifests", Value::Count(audit.manifests as u128)),
        ("entries", Value::Count(audit.entries)),
        ("findings", Value::Count(number_of_findings(audit))),
        ("faults", Value::Count(count_faults(findings) as u128)),
    ];
    put_object(page, sink, &members)
}

/// Sends what stands behind the findings of an audit.
fn put_end<S: Sink>(page: &mut Page, sink: &mut S, audit: &Audit) -> Result<(), SinkFault>
    ensures { Sent S.taken S.may_fail sink.old page.old result sink.new page.new (objects_end audit.now) }
{
    put_false_totals(page, sink, audit.false_totals.as_slice())?;
    put_totals(page, sink, audit)
}

/// Sends an audit.
#[tactic(auto, unfolding(crate::specs::JsonLines::audit_objects))]
fn put_audit<S: Sink>(page: &mut Page, sink: &mut S, audit: &Audit) -> Result<(), SinkFault>
    ensures { Sent S.taken S.may_fail sink.old page.old result sink.new page.new (audit_objects audit.now) }
{
    put_findings(page, sink, audit.findings.as_slice())?;
    put_end(page, sink, audit)
}

/// Writes an audit as lines of JSON and nothing else. It refuses when out of memory, and then nothing was written, or
/// where a write fails, and then a front of the lines was.
pub fn write_audit_objects<S: Sink>(
    alloc: Global,
    audit: &Audit,
    sink: &mut S,
) -> Result<(), RunFault>
    ensures all { OnOk result (Appends (S.taken sink.old) (S.taken sink.new) (audit_objects audit.now)) }
    ensures causes { IfErr result (λ e. (e ≡ RunFault.Memory) ⊎ (e ≡ RunFault.Write)) }
    ensures nothing { IsErrOf result RunFault.Memory → S.taken sink.new ≡ S.taken sink.old }
    ensures front { IsErrOf result RunFault.Write →
        AppendsFront (S.taken sink.old) (S.taken sink.new) (audit_objects audit.now) }
    ensures cause { IsErrOf result RunFault.Write → S.may_fail sink.old }
{
    let mut page = Page::new(alloc)?;
    put_audit(&mut page, sink, audit)?;
    page.flush(sink)?;
    Ok(())
}
