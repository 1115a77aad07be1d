//! Writing a plan.

ghost use Rattle.icescan_print.specs.PlanTexts.{plan_text};
ghost use Rattle.icescan_text.specs.Writes.{WroteOrRefused};

use crate::fault::RunFault;
use crate::workers::Workers;
use ice_state::Lines;
use icescan_print::{Page, Sink, count_deletes, put_plan, put_plan_by_workers};
use std::alloc::Global;
use std::thread::Threads;

/// Writes the text of a plan and nothing else. It refuses when out of memory, and then nothing was written, or where a
/// write fails, and then a front of the text was.
pub fn write_plan<S: Sink>(alloc: Global, lines: &Lines<'_>, sink: &mut S) -> Result<(), RunFault>
    ensures { WroteOrRefused S.taken S.may_fail sink.old result sink.new (plan_text lines.now) }
{
    let mut page = Page::new(alloc)?;
    let deletes = count_deletes(lines);
    put_plan(&mut page, sink, lines, deletes)?;
    page.flush(sink)?;
    Ok(())
}

/// How many lines of a plan a worker makes the text of at a time.
const LINES_AT_A_TIME: usize = 8_192;

/// The same as `write_plan`, the text of ranges of lines made by so many workers, each in a thread of its own where one
/// can be started.
pub fn write_plan_by_workers<R: Threads + Sync, S: Sink>(
    rt: &R,
    alloc: Global,
    lines: &Lines<'_>,
    workers: Workers,
    sink: &mut S,
) -> Result<(), RunFault>
    ensures { WroteOrRefused S.taken S.may_fail sink.old result sink.new (plan_text lines.now) }
{
    let mut page = Page::new(alloc)?;
    let deletes = count_deletes(lines);
    put_plan_by_workers(
        rt,
        alloc,
        &mut page,
        sink,
        lines,
        deletes,
        workers.count(),
        LINES_AT_A_TIME,
    )?;
    page.flush(sink)?;
    Ok(())
}
