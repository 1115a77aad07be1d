//! A whole plan.

ghost use Rattle.std.specs.Prelude.{◌≡◌, ◌⊎◌, OnOk, IfErr, IsErrOf, length, List, map, ℕ};
ghost use Rattle.icescan_print.specs.Written.{Appends, AppendsFront, Sent};
ghost use Rattle.ice_state.specs.PlacedFiles.{ArePlaced};
ghost use Rattle.icescan_json.specs.Named.{marked, narrowed};
ghost use Rattle.icescan_json.specs.Texts.{deletes_text, front_text, plan_text, IsJsonOf};
ghost use Rattle.icescan_json.specs.Types.{spec_types};

use crate::expressions::Expression;
use crate::files::put_delete_file;
use crate::named::NamedDeletes;
use crate::tasks::Tasks;
use crate::types::{SpecTypes, types_of_specs};
use ice_meta::Spec;
use ice_state::{Lines, PlacedFiles};
use icescan_forms::comma_before;
use icescan_print::{Page, Sink, SinkFault, TextList, put_list_by_workers};
use icescan_text::{RunFault, Workers};
use std::alloc::Global;
use std::thread::Threads;

/// Sends the delete files that tasks name, with commas between them.
fn put_deletes<S: Sink>(
    page: &mut Page,
    sink: &mut S,
    types: &[SpecTypes],
    plan: &PlacedFiles<'_>,
    named: &NamedDeletes,
) -> Result<(), SinkFault>
    requires { length named.now ≡ length plan.now.deletes }
    ensures { Sent S.taken S.may_fail sink.old page.old result sink.new page.new
        (deletes_text types.now (marked named.now plan.now.deletes)) }
{
    for i in 0..plan.count_deletes() {
        if named.has(i) {
            let file = plan.delete(i);
            page.put(sink, comma_before(named.place(i) as usize))?;
            put_delete_file(page, sink, types, &file)?;
        }
    }
    Ok(())
}

/// Sends a plan's JSON before its tasks, with the delete files that they name.
fn put_front<S: Sink>(
    page: &mut Page,
    sink: &mut S,
    types: &[SpecTypes],
    plan: &PlacedFiles<'_>,
    named: &NamedDeletes,
) -> Result<(), SinkFault>
    requires { length named.now ≡ length plan.now.deletes }
    ensures { Sent S.taken S.may_fail sink.old page.old result sink.new page.new
        (front_text types.now (marked named.now plan.now.deletes)) }
{
    page.put(sink, b"{\"status\":\"completed\",\"delete-files\":[")?;
    put_deletes(page, sink, types, plan, named)?;
    page.put(sink, b"],\"file-scan-tasks\":[")
}

/// Sends a plan's JSON, with the delete files that tasks name.
fn put_plan<S: Sink>(
    page: &mut Page,
    sink: &mut S,
    types: &[SpecTypes],
    residual: &[u8],
    plan: &PlacedFiles<'_>,
    named: &NamedDeletes,
) -> Result<(), SinkFault>
    requires placed { ArePlaced plan.now }
    requires marked { length named.now ≡ length plan.now.deletes }
    ensures { Sent S.taken S.may_fail sink.old page.old result sink.new page.new
        (plan_text types.now residual.now (narrowed named.now plan.now)) }
{
    let tasks = Tasks::new(types, residual, plan, named);
    put_front(page, sink, types, plan, named)?;
    tasks.put_range(page, sink, 0, tasks.count())?;
    page.put(sink, b"]}\n")
}

/// How many tasks a worker makes the text of at a time.
const TASKS_AT_A_TIME: usize = 8_192;

/// The same as `put_plan`, the text of ranges of tasks made by so many workers.
fn put_plan_by_workers<R: Threads + Sync, S: Sink>(
    rt: &R,
    alloc: Global,
    page: &mut Page,
    sink: &mut S,
    types: &[SpecTypes],
    residual: &[u8],
    plan: &PlacedFiles<'_>,
    named: &NamedDeletes,
    workers: Workers,
) -> Result<(), SinkFault>
    requires placed { ArePlaced plan.now }
    requires marked { length named.now ≡ length plan.now.deletes }
    ensures { Sent S.taken S.may_fail sink.old page.old result sink.new page.new
        (plan_text types.now residual.now (narrowed named.now plan.now)) }
{
    let tasks = Tasks::new(types, residual, plan, named);
    put_front(page, sink, types, plan, named)?;
    put_list_by_workers(
        rt,
        alloc,
        page,
        sink,
        &tasks,
        workers.count(),
        TASKS_AT_A_TIME,
    )?;
    page.put(sink, b"]}\n")
}

/// Writes a plan as `write_plan_json` does, by the types of the specs. The text, and each refusal, are the same.
pub fn write_typed_plan<S: Sink>(
    alloc: Global,
    types: &[SpecTypes],
    residual: &Expression,
    lines: &Lines<'_>,
    sink: &mut S,
) -> Result<(), RunFault>
    ensures all { OnOk result ((text : List ℕ) × IsJsonOf types.now residual.now lines.now text
        × Appends (S.taken sink.old) (S.taken sink.new) text) }
    ensures causes { IfErr result (λ e. (e ≡ RunFault.Memory) ⊎ (e ≡ RunFault.Write)) }
    ensures nothing { IsErrOf result RunFault.Memory → S.taken sink.new ≡ S.taken sink.old }
    ensures front { IsErrOf result RunFault.Write → (text : List ℕ) × IsJsonOf types.now residual.now lines.now text
        × AppendsFront (S.taken sink.old) (S.taken sink.new) text }
    ensures cause { IsErrOf result RunFault.Write → S.may_fail sink.old }
{
    let mut page = Page::new(alloc)?;
    let plan = lines.placed_files();
    let named = NamedDeletes::of(alloc, &plan)?;
    put_plan(&mut page, sink, types, residual.as_bytes(), &plan, &named)?;
    page.flush(sink)?;
    Ok(())
}

/// The same as `write_typed_plan`, the text of ranges of tasks made by so many workers, each in a thread of its own
/// where one can be started.
pub fn write_typed_plan_by_workers<R: Threads + Sync, S: Sink>(
    rt: &R,
    alloc: Global,
    types: &[SpecTypes],
    residual: &Expression,
    lines: &Lines<'_>,
    workers: Workers,
    sink: &mut S,
) -> Result<(), RunFault>
    ensures all { OnOk result ((text : List ℕ) × IsJsonOf types.now residual.now lines.now text
        × Appends (S.taken sink.old) (S.taken sink.new) text) }
    ensures causes { IfErr result (λ e. (e ≡ RunFault.Memory) ⊎ (e ≡ RunFault.Write)) }
    ensures nothing { IsErrOf result RunFault.Memory → S.taken sink.new ≡ S.taken sink.old }
    ensures front { IsErrOf result RunFault.Write → (text : List ℕ) × IsJsonOf types.now residual.now lines.now text
        × AppendsFront (S.taken sink.old) (S.taken sink.new) text }
    ensures cause { IsErrOf result RunFault.Write → S.may_fail sink.old }
{
    let mut page = Page::new(alloc)?;
    let plan = lines.placed_files();
    let named = NamedDeletes::of(alloc, &plan)?;
    put_plan_by_workers(
        rt,
        alloc,
        &mut page,
        sink,
        types,
        residual.as_bytes(),
        &plan,
        &named,
        workers,
    )?;
    page.flush(sink)?;
    Ok(())
}

/// Writes a plan as JSON, in one line: the answer of an Iceberg REST catalog to a scan that was planned. It is written
/// as it is made, in pieces of some 64 KiB.
///
/// The partition values have the types of the specs, whose fields have the types of their columns in the schema that is
/// asked: days are dates. A value that isn't of its type, and one of which no type is known, as without specs, is
/// written as what it is: a boolean, a number, a text, or the hexadecimal digits of its bytes. A year outside 0000 to
/// 9999 has a sign. Each task has the filter that the rows of its data file are still to meet. The delete files that
/// apply to a data file stand in the list, each once; those of the plan that apply to none do not.
///
/// It refuses when out of memory, and then nothing was written, or where a write fails, and then a front of the text
/// was.
pub fn write_plan_json<S: Sink>(
    alloc: Global,
    specs: &[Spec],
    residual: &Expression,
    lines: &Lines<'_>,
    sink: &mut S,
) -> Result<(), RunFault>
    ensures all { OnOk result ((text : List ℕ) × IsJsonOf (map spec_types specs.now) residual.now lines.now text
        × Appends (S.taken sink.old) (S.taken sink.new) text) }
    ensures causes { IfErr result (λ e. (e ≡ RunFault.Memory) ⊎ (e ≡ RunFault.Write)) }
    ensures nothing { IsErrOf result RunFault.Memory → S.taken sink.new ≡ S.taken sink.old }
    ensures front { IsErrOf result RunFault.Write →
        (text : List ℕ) × IsJsonOf (map spec_types specs.now) residual.now lines.now text
        × AppendsFront (S.taken sink.old) (S.taken sink.new) text }
    ensures cause { IsErrOf result RunFault.Write → S.may_fail sink.old }
{
    let types = types_of_specs(alloc, specs)?;
    write_typed_plan(alloc, &types, residual, lines, sink)
}
