//! The program over its words, standard input, the folders of a system, output and errors.

ghost use Rattle.std.specs.Prelude.{◌≡◌, ◌⊎◌, ℕ, List, Option, Result, Ok, map, string_bytes, IfOk, OnErr, OnOk};
ghost use Rattle.std.specs.Prelude.{true};
ghost use Rattle.icescan_files.specs.Bundles.{IsInput};
ghost use Rattle.icescan_commands.specs.Reading.{WroteOfGiven, WroteOfGivenBy};
ghost use Rattle.icescan_commands.specs.Runs.{IsCount, IsCountOf, IsOfDrill, Ran, RanWithoutHint, answer_to, ended};
ghost use Rattle.icescan_commands.specs.Runs.{WroteBeside, failing_of, failing_run, run_of, status_of_count};
ghost use Rattle.icescan_commands.specs.Storing.{IsStored, IsStoredBy, IsStoredOfGiven, IsStoredOfGivenBy};
ghost use Rattle.icescan_words.specs.CommandLines.{ReadAs};
ghost use Rattle.icescan_words.specs.declared.command.Command.{Command};
ghost use Rattle.icescan_text.specs.declared.fault.RunFault.{RunFault};

use crate::arms::{
    TableAt, audit, audit_all, changes, columns, commit, drill, explain, list_plan, locate,
    orphans, plan, reachable, relaxed, show, tell, tell_unasked,
};
use crate::sharing::{finish, join, take};
use crate::system::System;
use icescan_drill::Watch;
use icescan_files::{Folders, Stores};
use icescan_orphans::AgedFolders;
use icescan_print::Sink;
use icescan_progress::Progress;
use icescan_text::{RunFault, report};
use icescan_words::{Command, parse_words};
use std::io::Read;
use std::sync::Wait;
use std::thread::Threads;

/// The answer of a command that tells of no findings.
fn no_findings(answer: Result<(), RunFault>) -> Result<usize, RunFault>
    ensures same { ended result ≡ answer }
    ensures none { IfOk result (λ count. count ≡ 0) }
{
    match answer {
        Ok(()) => Ok(0),
        Err(fault) => Err(fault),
    }
}

/// Writes what is asked for, and gives the number of faults of a table of which that tells. What is to be told beside
/// the answer is written to `errors`.
pub fn run_asked<H, S: Folders + Sync, P: Progress + Sync, K: Stores, R: Read, W: Sink, E: Sink>(
    system: &System<'_, H, S, P>,
    asked: &Command,
    stores: &mut K,
    input: &mut R,
    output: &mut W,
    errors: &mut E,
) -> Result<usize, RunFault>
where
    H: Threads + Wait + Watch + AgedFolders + Sync,
    requires { P.may_be_told system.now.progress.now ≡ true }
    ensures ran { (text : List ℕ) × IsInput (R.remaining input.old) text ×
        Ran (answer_to (S.below system.now.folders.now) asked.now text)
        (failing_of (S.below system.now.folders.now) (S.may_fail system.now.folders.now) asked.now
        (W.may_fail output.old)) (ended result) (W.taken output.old) (W.taken output.new)
        × IfOk result (IsCount (S.below system.now.folders.now) asked.now text) }
    ensures drilled { OnOk result (IsOfDrill (Ok asked.now) (W.taken output.old) (W.taken output.new)) }
    ensures stored { IsStored asked.now (S.below system.now.folders.now)
        (S.may_fail system.now.folders.now) (K.below stores.old) (K.below_may_fail stores.old) (W.may_fail output.old)
        (ended result) (K.below stores.new) (K.files stores.new) (W.taken output.old) (W.taken output.new) }
    ensures given { IfOk result (λ count. WroteOfGiven (S.gives system.now.folders.now) asked.now count
        (W.taken output.old) (W.taken output.new)) }
    ensures stored_of_given { IsStoredOfGiven asked.now (S.gives system.now.folders.now) (K.below stores.old)
        (ended result) (K.files stores.new) (W.taken output.old) (W.taken output.new) }
    ensures beside { OnOk result (WroteBeside (Ok asked.now) (E.taken errors.old) (E.taken errors.new)) }
    ensures untold { OnErr result (errors.new ≡ errors.old) }
{
    match asked {
        Command::ListPlan(lists, format) => {
            no_findings(list_plan(system, lists, *format, input, output))
        }
        Command::Plan(source, request, format, workers, path) => {
            let table = &TableAt { source, path };
            no_findings(plan(system, table, request, *format, *workers, input, output))
        }
        Command::Commit(source, request) => {
            no_findings(commit(system, source, request, stores, input, output))
        }
        Command::Show(source, format, path) => {
            let table = &TableAt { source, path };
            no_findings(show(system, table, *format, input, output))
        }
        Command::Columns(source, target, format, path) => {
            let table = &TableAt { source, path };
            no_findings(columns(system, table, target, *format, input, output))
        }
        Command::Audit(source, target, format, workers, path) => {
            let table = &TableAt { source, path };
            audit(system, table, target, *format, *workers, input, output)
        }
        Command::AuditAll(source, format, workers, path) => {
            let table = &TableAt { source, path };
            audit_all(system, table, *format, *workers, input, output)
        }
        Command::Explain(source, request, format, workers, path) => {
            let table = &TableAt { source, path };
            no_findings(explain(system, table, request, *format, *workers, input, output))
        }
        Command::Relaxed(what, source, request, format, workers, path) => {
            let table = &TableAt { source, path };
            let (what, format, workers) = (*what, *format, *workers);
            let answer = relaxed(system, table, what, request, format, workers, input, output);
            no_findings(tell_unasked(system.alloc, answer, errors))
        }
        Command::Changes(source, request, format, workers, path) => {
            let table = &TableAt { source, path };
            no_findings(changes(system, table, request, *format, *workers, input, output))
        }
        Command::Reachable(source, part, format, path) => {
            let table = &TableAt { source, path };
            no_findings(reachable(system, table, part, *format, input, output))
        }
        Command::Orphans(place, older_than_ms, format, path) => {
            no_findings(orphans(system, place, *older_than_ms, *format, path, output))
        }
        Command::Locate(folder, located) => {
            no_findings(locate(system, folder, *located, output))
        }
        Command::Take(source, asked, share, workers, path) => {
            let table = &TableAt { source, path };
            let answer = take(system, table, asked, *share, *workers, input, output);
            no_findings(tell_unasked(system.alloc, answer, errors))
        }
        Command::Join(states) => no_findings(join(system, states, output)),
        Command::Finish(source, asked, states, format, workers, path) => {
            let table = &TableAt { source, path };
            let (format, workers) = (*format, *workers);
            let answer = finish(system, table, asked, states, format, workers, input, output);
            no_findings(tell_unasked(system.alloc, answer, errors))
        }
        Command::Drill(asked) => no_findings(drill(system.host, system.alloc, *asked, output)),
        Command::Text(text) => no_findings(tell(text, output)),
    }
}

/// Writes what the words ask for, and gives the number of faults of a table of which that tells.
fn run<H, S: Folders + Sync, P: Progress + Sync, K: Stores, R: Read, W: Sink, E: Sink>(
    system: &System<'_, H, S, P>,
    words: &[String],
    stores: &mut K,
    input: &mut R,
    output: &mut W,
    errors: &mut E,
) -> Result<usize, RunFault>
where
    H: Threads + Wait + Watch + AgedFolders + Sync,
    requires { P.may_be_told system.now.progress.now ≡ true }
    ensures { (asked : Result Command RunFault) × ReadAs (map string_bytes words.now) asked ×
        OnOk result (WroteBeside asked (E.taken errors.old) (E.taken errors.new)) ×
        OnErr result (errors.new ≡ errors.old) ×
        OnOk result (IsOfDrill asked (W.taken output.old) (W.taken output.new)) ×
        IsStoredBy asked (S.below system.now.folders.now)
        (S.may_fail system.now.folders.now) (K.below stores.old) (K.below_may_fail stores.old) (W.may_fail output.old)
        (ended result) (K.below stores.new) (K.files stores.new) (W.taken output.old) (W.taken output.new) ×
        IfOk result (λ count. WroteOfGivenBy (S.gives system.now.folders.now) asked count (W.taken output.old)
        (W.taken output.new)) ×
        IsStoredOfGivenBy asked (S.gives system.now.folders.now) (K.below stores.old) (ended result)
        (K.files stores.new) (W.taken output.old) (W.taken output.new) ×
        (text : List ℕ) × IsInput (R.remaining input.old) text ×
        Ran (run_of (S.below system.now.folders.now) asked text)
        (failing_run (S.below system.now.folders.now) (S.may_fail system.now.folders.now) asked
        (W.may_fail output.old)) (ended result) (W.taken output.old) (W.taken output.new)
        × IfOk result (IsCountOf (S.below system.now.folders.now) asked text) }
{
    let asked = parse_words(system.alloc, words)?;
    let answer = run_asked(system, &asked, stores, input, output, errors);
    drop(asked);
    answer
}

/// The status that the program ends with that told of so many faults of a table.
pub fn status_of_count(count: usize) -> u8
    ensures { result ≡ status_of_count count }
{
    if count == 0 { 0 } else { 1 }
}

/// Runs the program: it writes what the words ask for to `output` and ends with 0, with 1 where that is an audit that
/// found a fault of the table (of a filter that is relaxed it writes to `errors` what was not asked); or it writes the
/// line of the first fault to `errors` and ends with the fault's status. Faults are found in this order: of the words, of
/// reading standard input where it holds a bundle, of the bundle, of what is asked for. Files are read below the folders
/// of the system, and commits put new ones below those of `stores`.
pub fn run_words<H, S: Folders + Sync, P: Progress + Sync, K: Stores, R: Read, W: Sink, E: Sink>(
    system: &System<'_, H, S, P>,
    words: &[String],
    stores: &mut K,
    input: &mut R,
    output: &mut W,
    errors: &mut E,
) -> u8
where
    H: Threads + Wait + Watch + AgedFolders + Sync,
    requires { P.may_be_told system.now.progress.now ≡ true }
    // The words were read as one of the commands, or they were refused; no words, and `list-plan --bundle`, were read
    // as the plan of a bundle's first file. For some text, which is all that standard input had left where that is
    // known: what is asked of that text, or of the files that the folder reports, was written, or the fault is theirs,
    // or memory, reading or writing failed.
    ensures run { RanWithoutHint (record {
      below = S.below system.now.folders.now;
      gives = S.gives system.now.folders.now;
      read_may_fail = S.may_fail system.now.folders.now;
      stored = K.below stores.old;
      put_may_fail = K.below_may_fail stores.old;
      input = R.remaining input.old;
      output = W.taken output.old;
      write_may_fail = W.may_fail output.old;
      errors = E.taken errors.old;
      tell_may_fail = E.may_fail errors.old;
    }) (map string_bytes words.now)
        (record {
          status = result;
          stored = K.below stores.new;
          files = K.files stores.new;
          output = W.taken output.new;
          errors = E.taken errors.new;
        }) }
{
    match run(system, words, stores, input, output, errors) {
        Ok(count) => status_of_count(count),
        Err(fault) => {
            let status = report(&fault, errors);
            drop(fault);
            status
        }
    }
}
