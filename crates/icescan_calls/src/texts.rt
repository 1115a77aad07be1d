//! Calls about texts that are sent.

ghost use Rattle.icescan_print.specs.PlanTexts.{plan_text};
ghost use Rattle.icescan_print.specs.Written.{Sent, Wrote};

use ice_state::Lines;
use icescan_print::{Page, Sink, SinkFault};
use std::alloc::Global;
use std::thread::Threads;

/// Writes all of the bytes, or a front of them where a write fails.
pub fn write_all<S: Sink>(sink: &mut S, bytes: &[u8]) -> Result<(), SinkFault>
    ensures { Wrote S.taken S.may_fail sink.old result sink.new bytes.now }
{
    icescan_print::write_all(sink, bytes)
}

/// Sends the text of a plan, which two workers make, each of a thousand lines at a time.
pub fn send_plan<R: Threads + Sync, S: Sink>(
    sink: &mut S,
    page: &mut Page,
    rt: &R,
    alloc: Global,
    lines: &Lines<'_>,
) -> Result<(), SinkFault>
    ensures { Sent S.taken S.may_fail sink.old page.old result sink.new page.new (plan_text lines.now) }
{
    let deletes = icescan_print::count_deletes(lines);
    icescan_print::put_plan_by_workers(rt, alloc, page, sink, lines, deletes, 2, 1_000)
}
