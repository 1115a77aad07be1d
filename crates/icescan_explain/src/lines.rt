//! The lines of text of an explanation.

ghost use Rattle.std.specs.Prelude.{◌≡◌, ◌++◌, List, OnOk, IfOk};
ghost use Rattle.icescan_explain.specs.Applying.{CountsOf};
ghost use Rattle.icescan_explain.specs.Texts.{data_left_out, data_totals, delete_totals};
ghost use Rattle.icescan_explain.specs.Texts.{fate_text, kept_text};
ghost use Rattle.icescan_explain.specs.Texts.{left_out_text, manifest_totals, partition_word};
ghost use Rattle.icescan_explain.specs.Texts.{totals_text, verdict_text};
ghost use Rattle.icescan_print.specs.Written.{Sent};
ghost use Rattle.ice_state.specs.Lines.{OwnedLine};

use crate::applied::Applied;
use crate::counts::{Counts, totals_of};
use crate::verdict::{Fate, Subject, Verdict};
use contract_words::Text;
use icescan_forms::push_number;
use icescan_print::{Page, Sink, SinkFault};
use shared_value::Shared;
use std::alloc::{AllocError, Global};

/// What stands before the name of a partition field.
fn partition_word(subject: Subject) -> &'static [u8]
    ensures { result.now ≡ partition_word subject }
{
    match subject {
        Subject::Manifest => b" pruned by ",
        Subject::Data | Subject::Deletes => b" pruned by partition ",
    }
}

/// Sends what says that something is kept.
fn put_kept<S: Sink>(
    page: &mut Page,
    sink: &mut S,
    applied: &Applied,
    subject: Subject,
    path: &[u8],
) -> Result<(), SinkFault>
    ensures { (plan : List OwnedLine) → CountsOf applied.now plan →
        Sent S.taken S.may_fail sink.old page.old result sink.new page.new (kept_text plan subject path.now) }
{
    match subject {
        Subject::Manifest => page.put(sink, b" wanted"),
        Subject::Data => page.put(sink, b" kept"),
        Subject::Deletes => page.put_named_number(sink, b" applies ", applied.at(path)),
    }
}

/// Sends what says that something is left out, with a name after the words where there is one.
fn put_left_out<S: Sink>(
    page: &mut Page,
    sink: &mut S,
    words: &[u8],
    name: &Option<Shared<Text>>,
) -> Result<(), SinkFault>
    ensures { Sent S.taken S.may_fail sink.old page.old result sink.new page.new (left_out_text words.now name.now) }
{
    match name {
        Some(name) => page.put_named_path(sink, words, name.get().as_bytes()),
        None => page.put(sink, b" pruned"),
    }
}

fn put_fate<S: Sink>(
    page: &mut Page,
    sink: &mut S,
    applied: &Applied,
    verdict: &Verdict,
) -> Result<(), SinkFault>
    ensures { (plan : List OwnedLine) → CountsOf applied.now plan →
        Sent S.taken S.may_fail sink.old page.old result sink.new page.new
        (fate_text plan verdict.now.subject verdict.now.path verdict.now.fate) }
{
    let subject = verdict.subject;
    match &verdict.fate {
        Fate::Kept => put_kept(page, sink, applied, subject, verdict.path.as_slice()),
        Fate::ByPartition(field) => put_left_out(page, sink, partition_word(subject), field),
        Fate::ByBounds(column) => put_left_out(page, sink, b" pruned by bounds ", column),
    }
}

/// Sends the line of a verdict.
#[tactic(auto, unfolding(crate::specs::Texts::verdict_text))]
pub fn put_verdict<S: Sink>(
    page: &mut Page,
    sink: &mut S,
    applied: &Applied,
    verdict: &Verdict,
) -> Result<(), SinkFault>
    ensures { (plan : List OwnedLine) → CountsOf applied.now plan →
        Sent S.taken S.may_fail sink.old page.old result sink.new page.new (verdict_text plan verdict.now) }
{
    page.put(sink, verdict.subject.name())?;
    page.put_named_path(sink, b" ", verdict.path.as_slice())?;
    put_fate(page, sink, applied, verdict)?;
    page.put(sink, b"\n")
}

#[tactic(auto, unfolding(crate::specs::Texts::manifest_totals))]
fn push_manifest_totals(text: &mut Vec<u8>, counts: &Counts) -> Result<(), AllocError>
    ensures { OnOk result (text.new.items ≡ text.old.items ++ manifest_totals counts.now) }
{
    push_number(text, b"manifests ", counts.all())?;
    push_number(text, b" wanted ", counts.kept)?;
    push_number(text, b" pruned ", counts.by_partition)?;
    push_number(text, b" bytes ", counts.bytes)?;
    text.extend_from_slice(b"\n")
}

#[tactic(auto, unfolding(crate::specs::Texts::data_left_out))]
fn push_data_left_out(text: &mut Vec<u8>, counts: &Counts) -> Result<(), AllocError>
    ensures { OnOk result (text.new.items ≡ text.old.items ++ data_left_out counts.now) }
{
    push_number(text, b" partition ", counts.by_partition)?;
    push_number(text, b" bounds ", counts.by_bounds)?;
    push_number(text, b" bytes ", counts.bytes)?;
    text.extend_from_slice(b"\n")
}

#[tactic(auto, unfolding(crate::specs::Texts::data_totals))]
fn push_data_totals(text: &mut Vec<u8>, counts: &Counts) -> Result<(), AllocError>
    ensures { OnOk result (text.new.items ≡ text.old.items ++ data_totals counts.now) }
{
    push_number(text, b"data ", counts.all())?;
    push_number(text, b" kept ", counts.kept)?;
    push_data_left_out(text, counts)
}

#[tactic(auto, unfolding(crate::specs::Texts::delete_totals))]
fn push_delete_totals(text: &mut Vec<u8>, counts: &Counts) -> Result<(), AllocError>
    ensures { OnOk result (text.new.items ≡ text.old.items ++ delete_totals counts.now) }
{
    push_number(text, b"deletes ", counts.all())?;
    push_number(text, b" kept ", counts.kept)?;
    push_number(text, b" partition ", counts.by_partition)?;
    text.extend_from_slice(b"\n")
}

/// The last three lines of an explanation.
#[tactic(auto, unfolding(crate::specs::Texts::totals_text))]
pub fn totals_text(alloc: Global, verdicts: &[Verdict]) -> Result<Vec<u8>, AllocError>
    ensures { IfOk result (λ text. text.items ≡ totals_text verdicts.now) }
{
    let totals = totals_of(verdicts);
    let mut text = Vec::new(alloc);
    push_manifest_totals(&mut text, &totals.manifests)?;
    push_data_totals(&mut text, &totals.files)?;
    push_delete_totals(&mut text, &totals.deletes)?;
    Ok(text)
}
