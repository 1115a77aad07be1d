//! Explanations on their way to a sink.

ghost use Rattle.std.specs.Prelude.{◌≡◌, IfOk};
ghost use Rattle.icescan_explain.specs.Applying.{CountsOf};
ghost use Rattle.icescan_explain.specs.JsonLines.{explanation_told, totals_told};
ghost use Rattle.icescan_print.specs.Written.{Sent};
ghost use Rattle.icescan_text.specs.Writes.{WroteOrRefused};

use crate::applied::Applied;
use crate::json_lines::totals_objects;
use crate::lines::totals_text;
use crate::manifests::Explanation;
use crate::verdict::Verdict;
use crate::verdict_lines::VerdictLines;
use icescan_forms::Format;
use icescan_print::{Page, Sink, SinkFault, TextList, put_list_by_workers};
use icescan_text::{RunFault, Workers};
use std::alloc::{AllocError, Global};
use std::thread::Threads;

/// What stands behind the verdicts in a form.
fn totals_told(alloc: Global, verdicts: &[Verdict], format: Format) -> Result<Vec<u8>, AllocError>
    ensures { IfOk result (λ text. text.items ≡ totals_told format verdicts.now) }
{
    match format {
        Format::Text => totals_text(alloc, verdicts),
        Format::Json => totals_objects(alloc, verdicts),
    }
}

/// Sends an explanation in a form: its delete files' counts and its totals are these.
fn put_explanation<S: Sink>(
    page: &mut Page,
    sink: &mut S,
    explanation: &Explanation,
    applied: &Applied,
    totals: &[u8],
    format: Format,
) -> Result<(), SinkFault>
    requires counts { CountsOf applied.now explanation.now.plan }
    requires totals { totals.now ≡ totals_told format explanation.now.verdicts }
    ensures { Sent S.taken S.may_fail sink.old page.old result sink.new page.new
        (explanation_told format explanation.now) }
{
    let lines = VerdictLines::new(explanation, applied, format);
    lines.put_range(page, sink, 0, lines.count())?;
    page.put(sink, totals)
}

/// How many verdicts a worker makes the text of at a time.
const VERDICTS_AT_A_TIME: usize = 8_192;

/// The same as `put_explanation`, the text of ranges of verdicts made by so many workers.
fn put_explanation_by_workers<R: Threads + Sync, S: Sink>(
    rt: &R,
    alloc: Global,
    page: &mut Page,
    sink: &mut S,
    explanation: &Explanation,
    applied: &Applied,
    totals: &[u8],
    format: Format,
    workers: Workers,
) -> Result<(), SinkFault>
    requires counts { CountsOf applied.now explanation.now.plan }
    requires totals { totals.now ≡ totals_told format explanation.now.verdicts }
    ensures { Sent S.taken S.may_fail sink.old page.old result sink.new page.new
        (explanation_told format explanation.now) }
{
    let lines = VerdictLines::new(explanation, applied, format);
    put_list_by_workers(
        rt,
        alloc,
        page,
        sink,
        &lines,
        workers.count(),
        VERDICTS_AT_A_TIME,
    )?;
    page.put(sink, totals)
}

/// Writes an explanation in a form and nothing else. All memory is taken before the first byte: it refuses when out of
/// memory, and then nothing was written, or where a write fails, and then a front of it was.
pub fn write_explanation<S: Sink>(
    alloc: Global,
    explanation: &Explanation,
    format: Format,
    sink: &mut S,
) -> Result<(), RunFault>
    ensures { WroteOrRefused S.taken S.may_fail sink.old result sink.new (explanation_told format explanation.now) }
{
    let applied = Applied::of(alloc, &explanation.plan.lines())?;
    let totals = totals_told(alloc, explanation.verdicts.as_slice(), format)?;
    let mut page = Page::new(alloc)?;
    put_explanation(&mut page, sink, explanation, &applied, &totals, format)?;
    page.flush(sink)?;
    Ok(())
}

/// The same as `write_explanation`, the text of ranges of verdicts made by so many workers, each in a thread of its own
/// where one can be started.
pub fn write_explanation_by_workers<R: Threads + Sync, S: Sink>(
    rt: &R,
    alloc: Global,
    explanation: &Explanation,
    workers: Workers,
    format: Format,
    sink: &mut S,
) -> Result<(), RunFault>
    ensures { WroteOrRefused S.taken S.may_fail sink.old result sink.new (explanation_told format explanation.now) }
{
    let applied = Applied::of(alloc, &explanation.plan.lines())?;
    let totals = totals_told(alloc, explanation.verdicts.as_slice(), format)?;
    let mut page = Page::new(alloc)?;
    put_explanation_by_workers(
        rt,
        alloc,
        &mut page,
        sink,
        explanation,
        &applied,
        &totals,
        format,
        workers,
    )?;
    page.flush(sink)?;
    Ok(())
}
