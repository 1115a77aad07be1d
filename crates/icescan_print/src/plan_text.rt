//! The text of a plan, sent to a sink piece by piece.

ghost use Rattle.std.specs.Prelude.{◌≡◌, ◌∷◌, ◌<◌, Some, length, map, slice_get, sum_by};
ghost use Rattle.std.specs.List.{flat_map};
ghost use Rattle.std.specs.Fmt.{signed_decimal};
ghost use Rattle.ice_state.specs.Lines.{OwnedLine};
ghost use Rattle.icescan_print.specs.PlanTexts.{totals_text, ids_text, numbered_path, file_end, file_text};
ghost use Rattle.icescan_print.specs.PlanTexts.{position_text};
ghost use Rattle.icescan_print.specs.PlanTexts.{equality_text};
ghost use Rattle.icescan_print.specs.PlanTexts.{totals_text, line_text, deletes_of, deletes_text, plan_text};
ghost use Rattle.icescan_print.specs.Ranges.{range_text};
ghost use Rattle.icescan_print.specs.Written.{Sent};

use crate::endings::{put_int_before, put_long_before, put_number_before};
use crate::made_deletes::{MadeDeletes, put_made_deletes};
use crate::page::Page;
use crate::sink::{Sink, SinkFault};
use crate::text_list::TextList;
use ice_state::{Line, Lines, PlanFile, PlanFiles};

/// How many lines of delete files a plan has. A delete file has a line for each data file that it applies to, so there
/// may be more of them than memory has bytes.
pub fn count_deletes(lines: &Lines<'_>) -> u128
    ensures { result ≡ sum_by deletes_of lines.now }
{
    if lines.lacks_deletes() {
        return 0;
    }
    let mut deletes: u128 = 0;
    for i in 0..lines.len() {
        let line = lines.line(i);
        deletes += line.positions().len() as u128;
        deletes += line.equalities().len() as u128;
    }
    deletes
}

/// Sends the text of a plan: a line for each data file, each with the lines of its delete files, and then their
/// numbers.
#[tactic(auto, unfolding(crate::specs::PlanTexts::plan_text))]
pub fn put_plan<S: Sink>(
    page: &mut Page,
    sink: &mut S,
    lines: &Lines<'_>,
    deletes: u128,
) -> Result<(), SinkFault>
    requires { deletes ≡ sum_by deletes_of lines.now }
    ensures { Sent S.taken S.may_fail sink.old page.old result sink.new page.new (plan_text lines.now) }
{
    put_lines(page, sink, lines)?;
    put_totals(page, sink, lines, deletes)
}

/// Sends the last line of a plan: how many data files it has, and how many lines of delete files.
#[tactic(auto, unfolding(crate::specs::PlanTexts::totals_text))]
pub fn put_totals<S: Sink>(
    page: &mut Page,
    sink: &mut S,
    lines: &Lines<'_>,
    deletes: u128,
) -> Result<(), SinkFault>
    requires { deletes ≡ sum_by deletes_of lines.now }
    ensures { Sent S.taken S.may_fail sink.old page.old result sink.new page.new (totals_text lines.now) }
{
    page.put_named_number(sink, b"files ", lines.len())?;
    page.put_named_number(sink, b" deletes ", deletes)?;
    page.put(sink, b"\n")
}

/// Sends the text of a plan's lines.
fn put_lines<S: Sink>(page: &mut Page, sink: &mut S, lines: &Lines<'_>) -> Result<(), SinkFault>
    ensures { Sent S.taken S.may_fail sink.old page.old result sink.new page.new (flat_map line_text lines.now) }
{
    put_some_lines(page, sink, lines, 0, lines.len())
}

/// Sends the text of so many of a plan's lines from a place on, or of those that there are.
fn put_some_lines<S: Sink>(
    page: &mut Page,
    sink: &mut S,
    lines: &Lines<'_>,
    first: usize,
    count: usize,
) -> Result<(), SinkFault>
    ensures { Sent S.taken S.may_fail sink.old page.old result sink.new page.new
        (range_text (map line_text lines.now) first count) }
{
    let end = lines.len().min(first.saturating_add(count));
    let mut made = MadeDeletes::new(page.alloc(), lines);
    for i in first..end {
        put_line(page, sink, &mut made, i)?;
    }
    Ok(())
}

impl<'a> TextList for Lines<'a> {
    ghost use Rattle.std.specs.Prelude.{map};
    ghost use Rattle.icescan_print.specs.PlanTexts.{line_text};

    ghost texts = { λ lines. map line_text lines };

    fn count(&self) -> usize {
        self.len()
    }

    fn put_range<S: Sink>(
        &self,
        page: &mut Page,
        sink: &mut S,
        first: usize,
        count: usize,
    ) -> Result<(), SinkFault> {
        put_some_lines(page, sink, self, first, count)
    }
}

/// Sends the text of one of a plan's lines.
#[tactic(auto, unfolding(crate::specs::PlanTexts::line_text))]
fn put_line<S: Sink>(
    page: &mut Page,
    sink: &mut S,
    lines: &mut MadeDeletes<'_, '_>,
    i: usize,
) -> Result<(), SinkFault>
    requires { i < length lines.old }
    ensures same { lines.new ≡ lines.old }
    ensures sent { (line : OwnedLine) → slice_get lines.old i ≡ Some line →
        Sent S.taken S.may_fail sink.old page.old result sink.new page.new (line_text line) }
{
    put_file(page, sink, &lines.line(i).file())?;
    put_made_deletes(page, sink, lines, i)
}

/// How many bytes there are room for behind a data file's path.
const END: usize = 112;

/// Sends the line of a data file.
fn put_file<S: Sink>(page: &mut Page, sink: &mut S, file: &PlanFile<'_>) -> Result<(), SinkFault>
    ensures { Sent S.taken S.may_fail sink.old page.old result sink.new page.new (file_text file.now) }
{
    page.put_named_path(sink, b"data ", file.path())?;
    put_file_end(page, sink, file)
}

/// Sends what stands behind the path in the line of a data file.
fn put_file_end<S: Sink>(
    page: &mut Page,
    sink: &mut S,
    file: &PlanFile<'_>,
) -> Result<(), SinkFault>
    ensures { Sent S.taken S.may_fail sink.old page.old result sink.new page.new (file_end file.now) }
{
    let mut bytes = [b'\n'; END];
    let start = put_long_before(&mut bytes, END - 1, b" size ", file.file_size());
    let start = put_long_before(&mut bytes, start, b" rows ", file.record_count());
    let start = put_int_before(&mut bytes, start, b" spec ", file.spec_id());
    let start = put_number_before(&mut bytes, start, b" seq ", file.sequence_number().get());
    page.put(sink, &bytes[start..])
}

/// Sends a file's path and sequence number.
fn put_numbered_path<S: Sink>(
    page: &mut Page,
    sink: &mut S,
    name: &[u8],
    file: &PlanFile<'_>,
) -> Result<(), SinkFault>
    ensures { Sent S.taken S.may_fail sink.old page.old result sink.new page.new (numbered_path name.now file.now) }
{
    page.put_named_path(sink, name, file.path())?;
    page.put_named_number(sink, b" seq ", file.sequence_number().get())
}

/// Sends the lines of a data file's delete files.
pub(crate) fn put_deletes<S: Sink>(
    page: &mut Page,
    sink: &mut S,
    line: &Line<'_>,
) -> Result<(), SinkFault>
    ensures { Sent S.taken S.may_fail sink.old page.old result sink.new page.new (deletes_text line.now) }
{
    put_positions(page, sink, &line.positions())?;
    put_equalities(page, sink, &line.equalities())
}

fn put_positions<S: Sink>(
    page: &mut Page,
    sink: &mut S,
    files: &PlanFiles<'_>,
) -> Result<(), SinkFault>
    ensures { Sent S.taken S.may_fail sink.old page.old result sink.new page.new (flat_map position_text files.now) }
{
    for i in 0..files.len() {
        put_position(page, sink, &files.file(i))?;
    }
    Ok(())
}

#[tactic(auto, unfolding(crate::specs::PlanTexts::position_text))]
fn put_position<S: Sink>(
    page: &mut Page,
    sink: &mut S,
    file: &PlanFile<'_>,
) -> Result<(), SinkFault>
    ensures { Sent S.taken S.may_fail sink.old page.old result sink.new page.new (position_text file.now) }
{
    put_numbered_path(page, sink, b"  pos ", file)?;
    page.put(sink, b"\n")
}

fn put_equalities<S: Sink>(
    page: &mut Page,
    sink: &mut S,
    files: &PlanFiles<'_>,
) -> Result<(), SinkFault>
    ensures { Sent S.taken S.may_fail sink.old page.old result sink.new page.new (flat_map equality_text files.now) }
{
    for i in 0..files.len() {
        put_equality(page, sink, &files.file(i))?;
    }
    Ok(())
}

#[tactic(auto, unfolding(crate::specs::PlanTexts::equality_text))]
fn put_equality<S: Sink>(
    page: &mut Page,
    sink: &mut S,
    file: &PlanFile<'_>,
) -> Result<(), SinkFault>
    ensures { Sent S.taken S.may_fail sink.old page.old result sink.new page.new (equality_text file.now) }
{
    put_numbered_path(page, sink, b"  eq ", file)?;
    page.put(sink, b" ids ")?;
    put_ids(page, sink, file.equality_ids())?;
    page.put(sink, b"\n")
}

fn put_ids<S: Sink>(page: &mut Page, sink: &mut S, ids: &[i32]) -> Result<(), SinkFault>
    ensures { Sent S.taken S.may_fail sink.old page.old result sink.new page.new (ids_text ids.now) }
{
    match ids {
        [] => page.put(sink, b"-"),
        [first, rest @ ..] => {
            page.put_named_int(sink, b"", *first)?;
            put_more_ids(page, sink, rest)
        }
    }
}

fn put_more_ids<S: Sink>(page: &mut Page, sink: &mut S, ids: &[i32]) -> Result<(), SinkFault>
    ensures { Sent S.taken S.may_fail sink.old page.old result sink.new page.new
        (flat_map (λ i. 44 ∷ signed_decimal i) ids.now) }
{
    for id in ids {
        page.put_named_int(sink, b",", *id)?;
    }
    Ok(())
}
