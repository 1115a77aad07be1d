//! The commands, each as one call over the files of its table.

ghost use Rattle.std.specs.Prelude.{◌≡◌, ℕ, List, Some, None, Ok, Err, IfOk, IfErr, OnErr, OnOk, option_map, true};
ghost use Rattle.icescan_commands.specs.Answers.{as_answer, plain};
ghost use Rattle.icescan_commands.specs.Reading.{WroteOfGiven};
ghost use Rattle.icescan_commands.specs.Runs.{IsCount, Ran, answer_to, ended, failing_of, list_in};
ghost use Rattle.icescan_commands.specs.Sources.{failing_bundle, failing_unread};
ghost use Rattle.icescan_commands.specs.Storing.{IsStored, IsStoredOfGiven};
ghost use Rattle.icescan_progress.specs.Hints.{AppendsPlain};
ghost use Rattle.icescan_drill.specs.Drills.{WroteDrill};
ghost use Rattle.icescan_locate.specs.Dated.{WroteDated};
ghost use Rattle.icescan_locate.specs.Located.{WroteLocated};
ghost use Rattle.icescan_text.specs.declared.request.Separator.{Separator};
ghost use Rattle.icescan_files.specs.Bundles.{IsInput, bundle_of};
ghost use Rattle.icescan_commits.specs.Commits.{committed_text};
ghost use Rattle.icescan_text.specs.declared.fault.RunFault.{RunFault};
ghost use Rattle.icescan_words.specs.declared.command.Command.{Command};

use crate::commit_lines::commit_lines;
use crate::forms::{
    write_audit, write_changes, write_list_plan, write_plan, write_relaxed, write_shown,
};
use crate::system::System;
use crate::table_files::{open_files, watched_files};
use contract_words::{Items, Text};
use ice_meta::Target;
use icescan_audit_all::audit_all_file;
use icescan_columns::columns_file;
use icescan_commits::{commit_to, prepare_commit};
use icescan_drill::{Watch, run_drill};
use icescan_explain::explain_file;
use icescan_files::{Bundle, Folders, Stores, read_bundle};
use icescan_forms::{Format, Part};
use icescan_hints::put_unasked;
use icescan_locate::{locate_all, locate_folder};
use icescan_orphans::{AgedFolders, Search, orphans_file};
use icescan_parts::part_file;
use icescan_print::{Sink, write_all};
use icescan_progress::Progress;
use icescan_text::{ChangesRequest, CommitRequest, Drill, Request, RunFault};
use icescan_words::{Command, Lists, Located, Place, Relaxed, Source};
use std::alloc::Global;
use std::io::Read;
use std::sync::Wait;
use std::thread::Threads;

/// A table: its metadata is at a path of the files of a source.
#[derive(Clone, Copy)]
pub struct TableAt<'a> {
    pub source: &'a Source,
    pub path: &'a Text,
}

/// The path of the list: the one that is asked for, else the bundle's first.
fn list_in<'a>(bundle: &'a Bundle, list: &'a Option<Text>) -> Result<&'a str, RunFault>
    ensures ok { IfOk result (λ path. list_in bundle.now list.now ≡ Ok path.now) }
    ensures err { IfErr result (λ e. list_in bundle.now list.now ≡ Err e) }
{
    if let Some(list) = list {
        return Ok(list.as_str());
    }
    bundle.first_path().ok_or(RunFault::Bundle(1))
}

/// Writes the plan of a manifest list, in a form.
pub fn list_plan<H, S: Folders, P: Progress, R: Read, W: Sink>(
    system: &System<'_, H, S, P>,
    lists: &Lists,
    format: Format,
    input: &mut R,
    output: &mut W,
) -> Result<(), RunFault>
    requires { P.may_be_told system.now.progress.now ≡ true }
    ensures ran { (text : List ℕ) × IsInput (R.remaining input.old) text ×
        Ran (answer_to (S.below system.now.folders.now) (Command.ListPlan lists.now format) text)
        (failing_of (S.below system.now.folders.now) (S.may_fail system.now.folders.now)
        (Command.ListPlan lists.now format) (W.may_fail output.old))
        result (W.taken output.old) (W.taken output.new) }
    ensures given { OnOk result (WroteOfGiven (S.gives system.now.folders.now) (Command.ListPlan lists.now format) 0
        (W.taken output.old) (W.taken output.new)) }
{
    match lists {
        Lists::Bundle(list) => {
            let bundle = read_bundle(system.alloc, input)?;
            let path = list_in(&bundle, list)?;
            write_list_plan(system.alloc, &bundle, path, format, output)
        }
        Lists::Folder(place, list) => {
            let files = watched_files(system, place);
            write_list_plan(system.alloc, &files, list.as_str(), format, output)
        }
    }
}

/// Writes the plan that is asked of a table, in a form and by so many workers.
pub fn plan<H: Threads + Sync, S: Folders + Sync, P: Progress + Sync, R: Read, W: Sink>(
    system: &System<'_, H, S, P>,
    table: &TableAt<'_>,
    request: &Request,
    format: Format,
    workers: usize,
    input: &mut R,
    output: &mut W,
) -> Result<(), RunFault>
    requires { P.may_be_told system.now.progress.now ≡ true }
    ensures ran { (text : List ℕ) × IsInput (R.remaining input.old) text ×
        Ran (answer_to (S.below system.now.folders.now)
        (Command.Plan table.now.source.now request.now format workers table.now.path.now) text)
        (failing_of (S.below system.now.folders.now) (S.may_fail system.now.folders.now)
        (Command.Plan table.now.source.now request.now format workers table.now.path.now) (W.may_fail output.old))
        result (W.taken output.old) (W.taken output.new) }
    ensures given { OnOk result (WroteOfGiven (S.gives system.now.folders.now)
        (Command.Plan table.now.source.now request.now format workers table.now.path.now) 0 (W.taken output.old)
        (W.taken output.new)) }
{
    let files = open_files(system, table.source, input)?;
    let answer = write_plan(
        system,
        &files,
        table.path.as_str(),
        request,
        format,
        workers,
        output,
    );
    drop(files);
    answer
}

/// Writes what a table's metadata says, in a form.
pub fn show<H, S: Folders, P: Progress, R: Read, W: Sink>(
    system: &System<'_, H, S, P>,
    table: &TableAt<'_>,
    format: Format,
    input: &mut R,
    output: &mut W,
) -> Result<(), RunFault>
    requires { P.may_be_told system.now.progress.now ≡ true }
    ensures ran { (text : List ℕ) × IsInput (R.remaining input.old) text ×
        Ran (answer_to (S.below system.now.folders.now)
        (Command.Show table.now.source.now format table.now.path.now) text)
        (failing_of (S.below system.now.folders.now) (S.may_fail system.now.folders.now)
        (Command.Show table.now.source.now format table.now.path.now) (W.may_fail output.old))
        result (W.taken output.old) (W.taken output.new) }
    ensures given { OnOk result (WroteOfGiven (S.gives system.now.folders.now)
        (Command.Show table.now.source.now format table.now.path.now) 0 (W.taken output.old) (W.taken output.new)) }
{
    let files = open_files(system, table.source, input)?;
    let path = table.path.as_str();
    let answer = write_shown(system.alloc, &files, path, format, output);
    drop(files);
    answer
}

/// Writes the columns that a filter of a snapshot of a table names, in a form.
pub fn columns<H, S: Folders, P: Progress, R: Read, W: Sink>(
    system: &System<'_, H, S, P>,
    table: &TableAt<'_>,
    target: &Target,
    format: Format,
    input: &mut R,
    output: &mut W,
) -> Result<(), RunFault>
    requires { P.may_be_told system.now.progress.now ≡ true }
    ensures ran { (text : List ℕ) × IsInput (R.remaining input.old) text ×
        Ran (answer_to (S.below system.now.folders.now)
        (Command.Columns table.now.source.now target.now format table.now.path.now) text)
        (failing_of (S.below system.now.folders.now) (S.may_fail system.now.folders.now)
        (Command.Columns table.now.source.now target.now format table.now.path.now) (W.may_fail output.old))
        result (W.taken output.old) (W.taken output.new) }
    ensures given { OnOk result (WroteOfGiven (S.gives system.now.folders.now)
        (Command.Columns table.now.source.now target.now format table.now.path.now) 0 (W.taken output.old)
        (W.taken output.new)) }
{
    let files = open_files(system, table.source, input)?;
    let path = table.path.as_str();
    let answer = columns_file(system.alloc, &files, path, target, format, output);
    drop(files);
    answer
}

/// Writes this part of the files that a table reaches, in a form.
pub fn reachable<H, S: Folders, P: Progress, R: Read, W: Sink>(
    system: &System<'_, H, S, P>,
    table: &TableAt<'_>,
    part: &Part,
    format: Format,
    input: &mut R,
    output: &mut W,
) -> Result<(), RunFault>
    requires { P.may_be_told system.now.progress.now ≡ true }
    ensures ran { Ran None (failing_unread (W.may_fail output.old)) result (W.taken output.old) (W.taken output.new) }
    ensures given { OnOk result (WroteOfGiven (S.gives system.now.folders.now)
        (Command.Reachable table.now.source.now part.now format table.now.path.now) 0 (W.taken output.old)
        (W.taken output.new)) }
{
    let files = open_files(system, table.source, input)?;
    let answer = part_file(
        system.alloc,
        &files,
        part,
        format,
        table.path.as_str(),
        output,
    );
    drop(files);
    answer
}

/// Writes the files below a folder, older than so many milliseconds, that a table does not reach, in a form.
pub fn orphans<H: AgedFolders, S: Folders, P: Progress, W: Sink>(
    system: &System<'_, H, S, P>,
    place: &Place,
    older_than_ms: u64,
    format: Format,
    path: &Text,
    output: &mut W,
) -> Result<(), RunFault>
    requires { P.may_be_told system.now.progress.now ≡ true }
    ensures ran { Ran None (failing_unread (W.may_fail output.old)) result (W.taken output.old) (W.taken output.new) }
    ensures given { OnOk result (WroteOfGiven (S.gives system.now.folders.now)
        (Command.Orphans place.now older_than_ms format path.now) 0 (W.taken output.old) (W.taken output.new)) }
{
    let files = watched_files(system, place);
    let table = path.as_str();
    let search = Search {
        folder: place.folder.as_str(),
        prefix: place.prefix.as_str(),
        older_than_ms,
    };
    orphans_file(
        system.alloc,
        system.host,
        &files,
        &search,
        format,
        table,
        output,
    )
}

/// Writes the audit of a snapshot of a table, in a form and by so many workers, and gives the number of findings that
/// are faults.
pub fn audit<H: Threads + Sync, S: Folders + Sync, P: Progress + Sync, R: Read, W: Sink>(
    system: &System<'_, H, S, P>,
    table: &TableAt<'_>,
    target: &Target,
    format: Format,
    workers: usize,
    input: &mut R,
    output: &mut W,
) -> Result<usize, RunFault>
    requires { P.may_be_told system.now.progress.now ≡ true }
    ensures ran { (text : List ℕ) × IsInput (R.remaining input.old) text ×
        Ran (answer_to (S.below system.now.folders.now)
        (Command.Audit table.now.source.now target.now format workers table.now.path.now) text)
        (failing_of (S.below system.now.folders.now) (S.may_fail system.now.folders.now)
        (Command.Audit table.now.source.now target.now format workers table.now.path.now) (W.may_fail output.old))
        (ended result) (W.taken output.old) (W.taken output.new)
        × IfOk result (IsCount (S.below system.now.folders.now)
        (Command.Audit table.now.source.now target.now format workers table.now.path.now) text) }
    ensures given { IfOk result (λ count. WroteOfGiven (S.gives system.now.folders.now)
        (Command.Audit table.now.source.now target.now format workers table.now.path.now) count (W.taken output.old)
        (W.taken output.new)) }
{
    let files = open_files(system, table.source, input)?;
    let path = table.path.as_str();
    let answer = write_audit(system, &files, path, target, format, workers, output);
    drop(files);
    answer
}

/// Writes the audits of all snapshots of a table, in a form and by so many workers, and gives the number of findings that
/// are faults.
pub fn audit_all<H, S: Folders, P: Progress, R: Read, W: Sink>(
    system: &System<'_, H, S, P>,
    table: &TableAt<'_>,
    format: Format,
    workers: usize,
    input: &mut R,
    output: &mut W,
) -> Result<usize, RunFault>
    requires { P.may_be_told system.now.progress.now ≡ true }
    ensures ran { Ran None (failing_unread (W.may_fail output.old)) (ended result) (W.taken output.old)
        (W.taken output.new) }
    ensures given { IfOk result (λ count. WroteOfGiven (S.gives system.now.folders.now)
        (Command.AuditAll table.now.source.now format workers table.now.path.now) count (W.taken output.old)
        (W.taken output.new)) }
{
    let files = open_files(system, table.source, input)?;
    let path = table.path.as_str();
    let answer = audit_all_file(system.alloc, &files, path, workers, format, output);
    drop(files);
    answer
}

/// Writes the plan that is asked of a table, by so many workers, with what became of each manifest and each live file,
/// in a form.
pub fn explain<H: Threads + Sync, S: Folders + Sync, P: Progress + Sync, R: Read, W: Sink>(
    system: &System<'_, H, S, P>,
    table: &TableAt<'_>,
    request: &Request,
    format: Format,
    workers: usize,
    input: &mut R,
    output: &mut W,
) -> Result<(), RunFault>
    requires { P.may_be_told system.now.progress.now ≡ true }
    ensures ran { (text : List ℕ) × IsInput (R.remaining input.old) text ×
        Ran (answer_to (S.below system.now.folders.now)
        (Command.Explain table.now.source.now request.now format workers table.now.path.now) text)
        (failing_of (S.below system.now.folders.now) (S.may_fail system.now.folders.now)
        (Command.Explain table.now.source.now request.now format workers table.now.path.now) (W.may_fail output.old))
        result (W.taken output.old) (W.taken output.new) }
    ensures given { OnOk result (WroteOfGiven (S.gives system.now.folders.now)
        (Command.Explain table.now.source.now request.now format workers table.now.path.now) 0 (W.taken output.old)
        (W.taken output.new)) }
{
    let files = open_files(system, table.source, input)?;
    let path = table.path.as_str();
    let host = system.host;
    let alloc = system.alloc;
    let answer = explain_file(host, alloc, &files, path, request, workers, format, output);
    drop(files);
    answer
}

/// Writes the plan that is asked of a table, or that plan explained, under the request's filter relaxed, in a form and
/// by so many workers, and gives the predicates that are not asked.
pub fn relaxed<H: Threads + Sync, S: Folders + Sync, P: Progress + Sync, R: Read, W: Sink>(
    system: &System<'_, H, S, P>,
    table: &TableAt<'_>,
    what: Relaxed,
    request: &Request,
    format: Format,
    workers: usize,
    input: &mut R,
    output: &mut W,
) -> Result<Items<Text>, RunFault>
    requires { P.may_be_told system.now.progress.now ≡ true }
    ensures ran { (text : List ℕ) × IsInput (R.remaining input.old) text ×
        Ran (answer_to (S.below system.now.folders.now)
        (Command.Relaxed what table.now.source.now request.now format workers table.now.path.now) text)
        (failing_of (S.below system.now.folders.now) (S.may_fail system.now.folders.now)
        (Command.Relaxed what table.now.source.now request.now format workers table.now.path.now)
        (W.may_fail output.old)) (ended result) (W.taken output.old) (W.taken output.new) }
    ensures given { OnOk (ended result) (WroteOfGiven (S.gives system.now.folders.now)
        (Command.Relaxed what table.now.source.now request.now format workers table.now.path.now) 0
        (W.taken output.old) (W.taken output.new)) }
{
    let files = open_files(system, table.source, input)?;
    let path = table.path.as_str();
    write_relaxed(system, &files, path, what, request, format, workers, output)
}

/// Writes to `errors` which predicates are not asked, beside an answer that was written.
pub fn tell_unasked<E: Sink>(
    alloc: Global,
    answer: Result<Items<Text>, RunFault>,
    errors: &mut E,
) -> Result<(), RunFault>
    ensures same { result ≡ ended answer }
    ensures beside { OnOk result (AppendsPlain (E.taken errors.old) (E.taken errors.new)) }
    ensures untold { OnErr result (errors.new ≡ errors.old) }
{
    match answer {
        Ok(unasked) => {
            put_unasked(alloc, unasked.as_slice(), errors);
            Ok(())
        }
        Err(fault) => Err(fault),
    }
}

/// Writes the changes that are asked of a table, in a form and by so many workers.
pub fn changes<H: Threads + Sync, S: Folders + Sync, P: Progress + Sync, R: Read, W: Sink>(
    system: &System<'_, H, S, P>,
    table: &TableAt<'_>,
    request: &ChangesRequest,
    format: Format,
    workers: usize,
    input: &mut R,
    output: &mut W,
) -> Result<(), RunFault>
    requires { P.may_be_told system.now.progress.now ≡ true }
    ensures ran { (text : List ℕ) × IsInput (R.remaining input.old) text ×
        Ran (answer_to (S.below system.now.folders.now)
        (Command.Changes table.now.source.now request.now format workers table.now.path.now) text)
        (failing_of (S.below system.now.folders.now) (S.may_fail system.now.folders.now)
        (Command.Changes table.now.source.now request.now format workers table.now.path.now) (W.may_fail output.old))
        result (W.taken output.old) (W.taken output.new) }
    ensures given { OnOk result (WroteOfGiven (S.gives system.now.folders.now)
        (Command.Changes table.now.source.now request.now format workers table.now.path.now) 0 (W.taken output.old)
        (W.taken output.new)) }
{
    let files = open_files(system, table.source, input)?;
    let path = table.path.as_str();
    let answer = write_changes(system, &files, path, request, format, workers, output);
    drop(files);
    answer
}

/// Writes the files of a commit to a table in a bundle, as lines of a bundle.
fn print_commit<W: Sink>(
    alloc: Global,
    bundle: &Bundle,
    request: &CommitRequest,
    output: &mut W,
) -> Result<(), RunFault>
    ensures { (text : List ℕ) → bundle_of text ≡ Ok bundle.now →
        Ran (option_map as_answer (committed_text request.now text)) (failing_bundle (W.may_fail output.old)) result
        (W.taken output.old) (W.taken output.new) }
{
    let prepared = prepare_commit(alloc, bundle, request)?;
    let metadata = prepared.version().metadata().write(alloc)?;
    let lines = commit_lines(alloc, prepared.files(), &request.out, &metadata)?;
    write_all(output, &lines)?;
    Ok(())
}

/// Makes a commit to a table in a folder and reports it, or writes its files as lines of a bundle.
pub fn commit<H, S: Folders, P: Progress, K: Stores, R: Read, W: Sink>(
    system: &System<'_, H, S, P>,
    source: &Source,
    request: &CommitRequest,
    stores: &mut K,
    input: &mut R,
    output: &mut W,
) -> Result<(), RunFault>
    requires { P.may_be_told system.now.progress.now ≡ true }
    ensures ran { (text : List ℕ) × IsInput (R.remaining input.old) text ×
        Ran (answer_to (S.below system.now.folders.now) (Command.Commit source.now request.now) text)
        (failing_of (S.below system.now.folders.now) (S.may_fail system.now.folders.now)
        (Command.Commit source.now request.now) (W.may_fail output.old))
        result (W.taken output.old) (W.taken output.new) }
    ensures stored { IsStored (Command.Commit source.now request.now) (S.below system.now.folders.now)
        (S.may_fail system.now.folders.now) (K.below stores.old) (K.below_may_fail stores.old) (W.may_fail output.old)
        result (K.below stores.new) (K.files stores.new) (W.taken output.old) (W.taken output.new) }
    ensures stored_of_given { IsStoredOfGiven (Command.Commit source.now request.now)
        (S.gives system.now.folders.now) (K.below stores.old) result (K.files stores.new) (W.taken output.old)
        (W.taken output.new) }
{
    match source {
        Source::Bundle => {
            let bundle = read_bundle(system.alloc, input)?;
            print_commit(system.alloc, &bundle, request, output)
        }
        Source::Folder(place) => {
            let files = watched_files(system, place);
            stores.enter(
                system.alloc,
                place.folder.as_str(),
                place.prefix.as_str(),
                &request.ids,
            );
            commit_to(system.alloc, &files, request, stores, output)
        }
    }
}

/// Writes a text.
pub fn tell<W: Sink>(text: &Text, output: &mut W) -> Result<(), RunFault>
    ensures { Ran (Some (Ok (plain text.now))) (failing_unread (W.may_fail output.old)) result (W.taken output.old)
        (W.taken output.new) }
{
    write_all(output, text.as_bytes())?;
    Ok(())
}

/// Writes the words of the table in a folder, or each of its metadata files.
pub fn locate<H, S: Folders, P, W: Sink>(
    system: &System<'_, H, S, P>,
    folder: &Text,
    located: Located,
    output: &mut W,
) -> Result<(), RunFault>
    ensures ran { Ran None (failing_unread (W.may_fail output.old)) result (W.taken output.old) (W.taken output.new) }
    ensures located { (separator : Separator) → located ≡ Located.Newest separator →
        OnOk result (WroteLocated (S.lists system.now.folders.now)
        (S.gives system.now.folders.now folder.now folder.now) folder.now separator (W.taken output.old)
        (W.taken output.new)) }
    ensures all { located ≡ Located.All → OnOk result (WroteDated (S.lists system.now.folders.now)
        (S.gives system.now.folders.now folder.now folder.now) folder.now (W.taken output.old) (W.taken output.new)) }
{
    let alloc = system.alloc;
    let path = folder.as_str();
    match located {
        Located::Newest(separator) => {
            locate_folder(alloc, system.folders, path, separator, output)
        }
        Located::All => locate_all(alloc, system.folders, path, output),
    }
}

/// Drills, and writes what is told of the table.
pub fn drill<H: Threads + Wait + Watch + Sync, W: Sink>(
    host: &H,
    alloc: Global,
    drill: Drill,
    output: &mut W,
) -> Result<(), RunFault>
    ensures ran { Ran None (failing_unread (W.may_fail output.old)) result (W.taken output.old) (W.taken output.new) }
    ensures drilled { OnOk result (WroteDrill drill (W.taken output.old) (W.taken output.new)) }
{
    run_drill(host, alloc, drill, output)
}
