//! The drill: many commits at once to one table in memory.

ghost use Rattle.std.specs.Prelude.{◌≡◌, ◌≢◌, ◌*◌, length, sum_by, IfErr, OnOk, IsErrOf};
ghost use Rattle.icescan_drill.specs.Drills.{EachSawItsFiles, WroteDrill, WroteDrillFront, drill_text};
ghost use Rattle.icescan_print.specs.PlanTexts.{deletes_of};
ghost use Rattle.icescan_print.specs.Written.{Sent};
ghost use Rattle.icescan_text.specs.Writes.{WroteOrRefused};

use crate::drilled_table::plan_version;
use crate::drilling::drill_table;
use crate::watch::Watch;
use ice_catalog_versions::Version;
use ice_state::Lines;
use icescan_print::{Page, Sink, SinkFault, count_deletes, put_totals};
use icescan_text::{Drill, RunFault};
use std::alloc::Global;
use std::marker::Brand;
use std::sync::Wait;
use std::sync::ledger::Blank;
use std::thread::Threads;

/// Sends the text of a drill: how many commits the last version has, its last sequence number, and the last line of its
/// plan.
#[tactic(auto, unfolding(crate::specs::Drills::drill_text))]
fn put_drill<S: Sink>(
    page: &mut Page,
    sink: &mut S,
    commits: u64,
    sequence: u64,
    lines: &Lines<'_>,
    deletes: u128,
) -> Result<(), SinkFault>
    requires { deletes ≡ sum_by deletes_of lines.now }
    ensures { Sent S.taken S.may_fail sink.old page.old result sink.new page.new
        (drill_text commits sequence lines.now) }
{
    page.put_named_number(sink, b"commits ", commits)?;
    page.put_named_number(sink, b"\nlast-sequence-number ", sequence)?;
    page.put(sink, b"\n")?;
    put_totals(page, sink, lines, deletes)
}

/// Writes the text of a drill and nothing else. It refuses when out of memory, and then nothing was written, or where a
/// write fails, and then a front of the text was.
fn write_drill<S: Sink>(
    alloc: Global,
    commits: u64,
    sequence: u64,
    lines: &Lines<'_>,
    sink: &mut S,
) -> Result<(), RunFault>
    ensures { WroteOrRefused S.taken S.may_fail sink.old result sink.new (drill_text commits sequence lines.now) }
{
    let mut page = Page::new(alloc)?;
    let deletes = count_deletes(lines);
    put_drill(&mut page, sink, commits, sequence, lines, deletes)?;
    page.flush(sink)?;
    Ok(())
}

/// Writes what is told of the last version.
fn write_version<W: Sink>(
    alloc: Global,
    drill: Drill,
    version: &Version,
    output: &mut W,
) -> Result<(), RunFault>
    requires { length version.now.journal ≡ drill.threads * drill.commits }
    ensures written { OnOk result (WroteDrill drill (W.taken output.old) (W.taken output.new)) }
    ensures nothing { IfErr result (λ fault. fault ≢ RunFault.Write → W.taken output.new ≡ W.taken output.old) }
    ensures front { IsErrOf result RunFault.Write → WroteDrillFront drill (W.taken output.old) (W.taken output.new) }
    ensures write { IsErrOf result RunFault.Write → W.may_fail output.old }
{
    let plan = plan_version(alloc, version)?;
    let sequence = version.metadata().table().last_sequence_number;
    write_drill(
        alloc,
        version.number(),
        sequence.get(),
        &plan.lines(),
        output,
    )
}

/// Drills: so many threads, each in one of its own where one can be started, make so many commits each to one table in
/// memory, that appends a file. Each thread sees in the end that a version which it pins has all of its files. Then it
/// writes three lines: how many commits the last version has, which is as many as all threads were to make, its last
/// sequence number, and the last line of its plan.
///
/// The refusal is that of the least thread that has one: `Conflict` where a commit was tried as often as may be needed,
/// `Lost` with the path of a file that a version lacks, `Memory`, or any that opening, preparing or planning in memory
/// may have. Then nothing was written; after `Write`, for which a write failed, a front of the text was.
pub fn run_drill<R: Threads + Wait + Watch + Sync, W: Sink>(
    rt: &R,
    alloc: Global,
    drill: Drill,
    output: &mut W,
) -> Result<(), RunFault>
    ensures written { OnOk result (WroteDrill drill (W.taken output.old) (W.taken output.new)) }
    ensures seen { OnOk result (EachSawItsFiles 0 drill.threads drill.commits) }
    ensures nothing { IfErr result (λ fault. fault ≢ RunFault.Write → W.taken output.new ≡ W.taken output.old) }
    ensures front { IsErrOf result RunFault.Write → WroteDrillFront drill (W.taken output.old) (W.taken output.new) }
    ensures write { IsErrOf result RunFault.Write → W.may_fail output.old }
{
    let blank = Blank::new(drill.threads());
    let version = drill_table::<Brand, R>(rt, alloc, blank, drill)?;
    write_version(alloc, drill, &version, output)
}
