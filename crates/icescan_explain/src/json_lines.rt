//! An explanation as lines of JSON, an object each.

ghost use Rattle.std.specs.Prelude.{◌≡◌, ◌++◌, IfOk, List, OnOk};
ghost use Rattle.icescan_explain.specs.Applying.{CountsOf};
ghost use Rattle.icescan_explain.specs.JsonLines.{applies_json, by_json, name_json, totals_json};
ghost use Rattle.icescan_explain.specs.JsonLines.{totals_objects, verdict_object};
ghost use Rattle.icescan_forms.specs.Objects.{object_line, text_if, value_json};
ghost use Rattle.icescan_print.specs.Written.{Sent};
ghost use Rattle.ice_state.specs.Lines.{OwnedLine};

use crate::applied::Applied;
use crate::counts::{Counts, totals_of};
use crate::verdict::{Fate, Subject, Verdict};
use contract_words::Text;
use icescan_forms::{ObjectLines, Value, put_object};
use icescan_print::{Page, Sink, SinkFault};
use shared_value::Shared;
use std::alloc::{AllocError, Global};

/// To how many data files a delete file applies that is kept.
fn applies_value<'a>(applied: &Applied, verdict: &Verdict) -> Value<'a>
    ensures { (plan : List OwnedLine) → CountsOf applied.now plan →
        value_json result ≡ applies_json plan verdict.now.subject verdict.now.path verdict.now.fate }
{
    match (verdict.subject, &verdict.fate) {
        (Subject::Deletes, Fate::Kept) => Value::Count(applied.at(verdict.path.as_slice())),
        _ => Value::Null,
    }
}

fn by_value<'a>(fate: &Fate) -> Value<'a>
    ensures { value_json result ≡ by_json fate.now }
{
    match fate {
        Fate::Kept => Value::Null,
        Fate::ByPartition(_) => Value::Text(b"partition"),
        Fate::ByBounds(_) => Value::Text(b"bounds"),
    }
}

fn shared_text(text: &Option<Shared<Text>>) -> Value<'_>
    ensures { value_json result ≡ text_if text.now }
{
    match text {
        Some(text) => Value::Text(text.get().as_bytes()),
        None => Value::Null,
    }
}

fn name_value(fate: &Fate) -> Value<'_>
    ensures { value_json result ≡ name_json fate.now }
{
    match fate {
        Fate::Kept => Value::Null,
        Fate::ByPartition(field) => shared_text(field),
        Fate::ByBounds(column) => shared_text(column),
    }
}

/// Sends a verdict.
#[tactic(auto, unfolding(crate::specs::JsonLines::verdict_object))]
pub fn put_verdict<S: Sink>(
    page: &mut Page,
    sink: &mut S,
    applied: &Applied,
    verdict: &Verdict,
) -> Result<(), SinkFault>
    ensures { (plan : List OwnedLine) → CountsOf applied.now plan →
        Sent S.taken S.may_fail sink.old page.old result sink.new page.new (verdict_object plan verdict.now) }
{
    let members = [
        ("kind", Value::Text(verdict.subject.name())),
        ("path", Value::Text(verdict.path.as_slice())),
        ("kept", Value::Truth(verdict.fate.is_kept())),
        ("by", by_value(&verdict.fate)),
        ("name", name_value(&verdict.fate)),
        ("applies", applies_value(applied, verdict)),
    ];
    put_object(page, sink, &members)
}

/// Puts these counts of a subject last.
fn push_counts(lines: &mut ObjectLines, counts: &Counts, subject: Subject) -> Result<(), AllocError>
    ensures { OnOk result (lines.new ≡ lines.old ++ object_line (totals_json subject counts.now)) }
{
    lines.push(&[
        ("kind", Value::Text(b"totals")),
        ("of", Value::Text(subject.name())),
        ("all", Value::Count(counts.all())),
        ("kept", Value::Count(counts.kept as u128)),
        ("partition", Value::Count(counts.by_partition as u128)),
        ("bounds", Value::Count(counts.by_bounds as u128)),
        ("bytes", Value::Sum(counts.bytes)),
    ])
}

/// The last three lines of an explanation.
#[tactic(auto, unfolding(crate::specs::JsonLines::totals_object, crate::specs::JsonLines::totals_objects))]
pub fn totals_objects(alloc: Global, verdicts: &[Verdict]) -> Result<Vec<u8>, AllocError>
    ensures { IfOk result (λ text. text.items ≡ totals_objects verdicts.now) }
{
    let totals = totals_of(verdicts);
    let mut lines = ObjectLines::new(alloc)?;
    push_counts(&mut lines, &totals.manifests, Subject::Manifest)?;
    push_counts(&mut lines, &totals.files, Subject::Data)?;
    push_counts(&mut lines, &totals.deletes, Subject::Deletes)?;
    lines.into_text()
}
