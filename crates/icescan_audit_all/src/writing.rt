//! The text of the audits of all snapshots.

ghost use Rattle.std.specs.Prelude.{◌≡◌, ◌++◌, None, IfOk, OnOk, option_map};
ghost use Rattle.icescan_audit_all.specs.Lines.{number_of_faults};
ghost use Rattle.icescan_audit_all.specs.Texts.{again, closing, ended, lines_text, opening, piece, told_text};
ghost use Rattle.icescan_audit_all.specs.Texts.{totals_json, totals_text, totals_told};
ghost use Rattle.icescan_forms.specs.Objects.{object_line};

use crate::lines::Line;
use crate::orders::{begins, numbers_told};
use icescan_forms::{Format, ObjectLines, Value, push_number};
use std::alloc::{AllocError, Global};

/// What stands before the snapshots of a finding, and behind them.
fn opening(form: Format) -> &'static [u8]
    ensures { result.now ≡ opening form }
{
    match form {
        Format::Text => b" snapshots ",
        Format::Json => b",\"snapshots\":[",
    }
}

fn closing(form: Format) -> &'static [u8]
    ensures { result.now ≡ closing form }
{
    match form {
        Format::Text => b"\n",
        Format::Json => b"]}\n",
    }
}

/// Puts the end of the line before, where there is one.
fn push_end(text: &mut Vec<u8>, form: Format, before: Option<&Line>) -> Result<(), AllocError>
    ensures { OnOk result (text.new.items ≡ text.old.items ++ ended form (option_map (λ l. l.now) before.entry)) }
{
    match before {
        Some(_) => text.extend_from_slice(closing(form)),
        None => Ok(()),
    }
}

/// Puts the snapshot of a line that says the same as the one before, if it is another.
fn push_again(text: &mut Vec<u8>, before: Option<&Line>, line: &Line) -> Result<(), AllocError>
    ensures { OnOk result (text.new.items ≡ text.old.items ++ again (option_map (λ l. l.now) before.entry) line.now) }
{
    match before {
        Some(before) if before.snapshot != line.snapshot => push_number(text, b",", line.snapshot),
        _ => Ok(()),
    }
}

/// Puts what a line has to say behind the one before it.
fn push_piece(
    text: &mut Vec<u8>,
    form: Format,
    before: Option<&Line>,
    line: &Line,
) -> Result<(), AllocError>
    ensures { OnOk result (text.new.items ≡ text.old.items ++ piece form (option_map (λ l. l.now) before.entry) line.now) }
{
    if !begins(before, line) {
        return push_again(text, before, line);
    }
    push_end(text, form, before)?;
    text.extend_from_slice(line.front.as_slice())?;
    push_number(text, opening(form), line.snapshot)
}

/// The text of lines, those that say the same in one.
fn lines_text(alloc: Global, form: Format, lines: &[Line]) -> Result<Vec<u8>, AllocError>
    ensures { IfOk result (λ text. text.items ≡ lines_text form None lines.now) }
{
    let mut text = Vec::new(alloc);
    let mut before = None;
    'lines: for line in lines {
        push_piece(&mut text, form, before, line)?;
        before = Some(line);
    }
    push_end(&mut text, form, before)?;
    Ok(text)
}

/// What the last line says of all snapshots.
#[derive(Clone, Copy)]
pub struct Totals {
    /// How many snapshots there are.
    pub snapshots: usize,
    /// How many different manifests they have.
    pub manifests: usize,
    /// How many different findings are told.
    pub findings: usize,
    /// How many of these are faults.
    pub faults: usize,
}

/// Puts the last line last.
fn push_totals(lines: &mut ObjectLines, totals: Totals) -> Result<(), AllocError>
    ensures { OnOk result (lines.new ≡ lines.old ++ object_line (totals_json totals)) }
{
    let members = [
        ("kind", Value::Text(b"totals")),
        ("snapshots", Value::Count(totals.snapshots as u128)),
        ("manifests", Value::Count(totals.manifests as u128)),
        ("findings", Value::Count(totals.findings as u128)),
        ("faults", Value::Count(totals.faults as u128)),
    ];
    lines.push(&members)
}

/// The last line as JSON.
fn totals_object(alloc: Global, totals: Totals) -> Result<Vec<u8>, AllocError>
    ensures { IfOk result (λ line. line.items ≡ object_line (totals_json totals)) }
{
    let mut lines = ObjectLines::new(alloc)?;
    push_totals(&mut lines, totals)?;
    lines.into_text()
}

/// The last line as text.
fn totals_text(alloc: Global, totals: Totals) -> Result<Vec<u8>, AllocError>
    ensures { IfOk result (λ line. line.items ≡ totals_text totals) }
{
    let mut text = Vec::new(alloc);
    push_number(&mut text, b"snapshots ", totals.snapshots)?;
    push_number(&mut text, b" manifests ", totals.manifests)?;
    push_number(&mut text, b" findings ", totals.findings)?;
    push_number(&mut text, b" faults ", totals.faults)?;
    text.extend_from_slice(b"\n")?;
    Ok(text)
}

/// The last line.
fn totals_of(alloc: Global, form: Format, totals: Totals) -> Result<Vec<u8>, AllocError>
    ensures { IfOk result (λ line. line.items ≡ totals_told form totals) }
{
    match form {
        Format::Text => totals_text(alloc, totals),
        Format::Json => totals_object(alloc, totals),
    }
}

/// The text of the audits of so many snapshots, which have so many different manifests, and whose lines these are; and
/// the number of faults.
pub fn text_of(
    alloc: Global,
    form: Format,
    snapshots: usize,
    manifests: usize,
    lines: &[Line],
) -> Result<(Vec<u8>, usize), AllocError>
    ensures text { IfOk result (λ told. told.0.items ≡ told_text form snapshots manifests lines.now) }
    ensures faults { IfOk result (λ told. told.1 ≡ number_of_faults None lines.now) }
{
    let (findings, faults) = numbers_told(lines);
    let totals = Totals {
        snapshots,
        manifests,
        findings,
        faults,
    };
    let mut text = lines_text(alloc, form, lines)?;
    text.extend_from_slice(&totals_of(alloc, form, totals)?)?;
    Ok((text, faults))
}
