//! The lines of an explanation's verdicts.

ghost use Rattle.std.specs.Prelude.{◌≡◌, ◌<◌, ℕ, List, Some, length, map, slice_get};
ghost use Rattle.icescan_explain.specs.Applying.{CountsOf};
ghost use Rattle.icescan_explain.specs.JsonLines.{verdict_told};
ghost use Rattle.icescan_print.specs.Written.{Sent};

use crate::applied::Applied;
use crate::json_lines::put_verdict as put_object;
use crate::lines::put_verdict as put_text;
use crate::manifests::Explanation;
use icescan_forms::Format;
use icescan_print::{Page, Sink, SinkFault, TextList};
use std::marker::Model;

/// The verdicts of an explanation, each with its line in a form.
#[derive(Drop)]
pub struct VerdictLines<'x> {
    explanation: &'x Explanation,
    /// To how many data files of the plan each delete file applies.
    applied: &'x Applied,
    format: Format,
}

impl<'x> Model for VerdictLines<'x> {
    ghost use Rattle.std.specs.Prelude.{List, ℕ, map};
    ghost use Rattle.icescan_explain.specs.Applying.{CountsOf};
    ghost use Rattle.icescan_explain.specs.JsonLines.{verdict_told};

    ghost Value = { List (List ℕ) };

    ghost view = { λ l. map (verdict_told l.format l.explanation.now.plan) l.explanation.now.verdicts };

    ghost invariant = { λ l. CountsOf l.applied.now l.explanation.now.plan };
}

impl<'x> VerdictLines<'x> {
    /// The lines of an explanation's verdicts in a form: its delete files' counts are these.
    pub fn new(
        explanation: &'x Explanation,
        applied: &'x Applied,
        format: Format,
    ) -> VerdictLines<'x>
        requires { CountsOf applied.now explanation.now.plan }
        ensures { result ≡ map (verdict_told format explanation.now.plan) explanation.now.verdicts }
    {
        VerdictLines {
            explanation,
            applied,
            format,
        }
    }

    /// Sends the line of a verdict.
    fn put_line<S: Sink>(&self, page: &mut Page, sink: &mut S, i: usize) -> Result<(), SinkFault>
        requires { i < length self.now }
        ensures { (text : List ℕ) → slice_get self.now i ≡ Some text →
            Sent S.taken S.may_fail sink.old page.old result sink.new page.new text }
    {
        let verdict = &self.explanation.verdicts.as_slice()[i];
        match self.format {
            Format::Text => put_text(page, sink, self.applied, verdict),
            Format::Json => put_object(page, sink, self.applied, verdict),
        }
    }
}

impl<'x> TextList for VerdictLines<'x> {
    ghost texts = { λ lines. lines };

    fn count(&self) -> usize {
        self.explanation.verdicts.as_slice().len()
    }

    fn put_range<S: Sink>(
        &self,
        page: &mut Page,
        sink: &mut S,
        first: usize,
        count: usize,
    ) -> Result<(), SinkFault> {
        let end = self.count().min(first.saturating_add(count));
        for i in first..end {
            self.put_line(page, sink, i)?;
        }
        Ok(())
    }
}
