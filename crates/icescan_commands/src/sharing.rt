//! The commands by which several machines make one plan.

ghost use Rattle.std.specs.Prelude.{◌≡◌, ◌≢◌, None, IfErr, OnOk, true};
ghost use Rattle.icescan_commands.specs.Reading.{WroteFinished, WroteFinishedAs, WroteOfGiven, WroteTaken};
ghost use Rattle.icescan_commands.specs.Runs.{Ran, ended};
ghost use Rattle.icescan_commands.specs.Sources.{failing_unread};
ghost use Rattle.icescan_files.specs.Folders.{named};
ghost use Rattle.icescan_words.specs.declared.command.Command.{Command};

use crate::arms::TableAt;
use crate::system::System;
use crate::table_files::open_files;
use contract_words::{Items, Text};
use ice_desk::Files;
use icescan_files::{Folders, NamedFiles};
use icescan_forms::Format;
use icescan_json::finish_file_json;
use icescan_print::Sink;
use icescan_progress::{Progress, Watched};
use icescan_relaxed::relax_request_at;
use icescan_shares::{finish_file, join_files, take_file};
use icescan_text::{Request, RunFault, Share};
use icescan_words::{Asked, States};
use std::io::Read;
use std::thread::Threads;

/// The files of states, by their names; each read of one is told.
fn state_files<'a, H, S: Folders, P: Progress>(
    system: &System<'a, H, S, P>,
) -> Watched<'a, NamedFiles<'a, S>, P>
    requires { P.may_be_told system.now.progress.now ≡ true }
    ensures { result.files.folders.now ≡ system.now.folders.now }
{
    Watched::new(NamedFiles::new(system.folders), system.progress)
}

/// Writes the state of a share of the plan that is asked of the table whose metadata is at a path, and gives the
/// predicates that are not asked.
fn write_taken<H: Threads + Sync, S, P, F: Files + Sync, W: Sink>(
    system: &System<'_, H, S, P>,
    files: &F,
    path: &str,
    asked: &Asked,
    share: Share,
    workers: usize,
    output: &mut W,
) -> Result<Items<Text>, RunFault>
    ensures given { OnOk (ended result) (WroteTaken (F.gives files.now) path.now asked.now share (W.taken output.old)
        (W.taken output.new)) }
    ensures nothing { IfErr (ended result)
        (λ fault. fault ≢ RunFault.Write → W.taken output.new ≡ W.taken output.old) }
{
    let (host, alloc) = (system.host, system.alloc);
    if !asked.relaxed {
        take_file(
            host,
            alloc,
            files,
            path,
            &asked.request,
            share,
            workers,
            output,
        )?;
        return Ok(Items::new(alloc));
    }
    let made = relax_request_at(alloc, files, path, &asked.request)?;
    take_file(
        host,
        alloc,
        files,
        path,
        &made.request,
        share,
        workers,
        output,
    )?;
    Ok(made.unasked)
}

/// Writes the state of a share of the plan that is asked of a table, and gives the predicates that are not asked.
pub fn take<H: Threads + Sync, S: Folders + Sync, P: Progress + Sync, R: Read, W: Sink>(
    system: &System<'_, H, S, P>,
    table: &TableAt<'_>,
    asked: &Asked,
    share: Share,
    workers: usize,
    input: &mut R,
    output: &mut W,
) -> Result<Items<Text>, RunFault>
    requires { P.may_be_told system.now.progress.now ≡ true }
    ensures ran { Ran None (failing_unread (W.may_fail output.old)) (ended result) (W.taken output.old)
        (W.taken output.new) }
    ensures given { OnOk (ended result) (WroteOfGiven (S.gives system.now.folders.now)
        (Command.Take table.now.source.now asked.now share workers table.now.path.now) 0 (W.taken output.old)
        (W.taken output.new)) }
{
    let files = open_files(system, table.source, input)?;
    let path = table.path.as_str();
    write_taken(system, &files, path, asked, share, workers, output)
}

/// Writes states as one.
pub fn join<H, S: Folders, P: Progress, W: Sink>(
    system: &System<'_, H, S, P>,
    states: &States,
    output: &mut W,
) -> Result<(), RunFault>
    requires { P.may_be_told system.now.progress.now ≡ true }
    ensures ran { Ran None (failing_unread (W.may_fail output.old)) result (W.taken output.old) (W.taken output.new) }
    ensures given { OnOk result (WroteOfGiven (S.gives system.now.folders.now) (Command.Join states.now) 0
        (W.taken output.old) (W.taken output.new)) }
{
    let kept = state_files(system);
    join_files(system.alloc, &kept, states.paths(), output)
}

/// Writes the plan of states, in a form.
fn write_finished<H: Threads + Sync, S: Folders, P: Progress, F: Files, W: Sink>(
    system: &System<'_, H, S, P>,
    files: &F,
    path: &str,
    request: &Request,
    states: &States,
    format: Format,
    workers: usize,
    output: &mut W,
) -> Result<(), RunFault>
    requires { P.may_be_told system.now.progress.now ≡ true }
    ensures given { OnOk result (WroteFinishedAs format (F.gives files.now) (named (S.gives system.now.folders.now))
        path.now request.now states.now.paths (W.taken output.old) (W.taken output.new)) }
    ensures nothing { IfErr result (λ fault. fault ≢ RunFault.Write → W.taken output.new ≡ W.taken output.old) }
{
    let (host, alloc, kept) = (system.host, system.alloc, state_files(system));
    let paths = states.paths();
    match format {
        Format::Text => {
            finish_file(
                host, alloc, files, path, request, &kept, paths, workers, output,
            )
        }
        Format::Json => {
            finish_file_json(alloc, files, path, request, &kept, paths, workers, output)
        }
    }
}

/// Writes the plan of states that is asked of the table whose metadata is at a path, and gives the predicates that are
/// not asked.
fn write_finished_asked<H: Threads + Sync, S: Folders, P: Progress, F: Files, W: Sink>(
    system: &System<'_, H, S, P>,
    files: &F,
    path: &str,
    asked: &Asked,
    states: &States,
    format: Format,
    workers: usize,
    output: &mut W,
) -> Result<Items<Text>, RunFault>
    requires { P.may_be_told system.now.progress.now ≡ true }
    ensures given { OnOk (ended result) (WroteFinished format (F.gives files.now)
        (named (S.gives system.now.folders.now)) path.now asked.now states.now.paths (W.taken output.old)
        (W.taken output.new)) }
    ensures nothing { IfErr (ended result)
        (λ fault. fault ≢ RunFault.Write → W.taken output.new ≡ W.taken output.old) }
{
    let alloc = system.alloc;
    if !asked.relaxed {
        write_finished(
            system,
            files,
            path,
            &asked.request,
            states,
            format,
            workers,
            output,
        )?;
        return Ok(Items::new(alloc));
    }
    let made = relax_request_at(alloc, files, path, &asked.request)?;
    write_finished(
        system,
        files,
        path,
        &made.request,
        states,
        format,
        workers,
        output,
    )?;
    Ok(made.unasked)
}

/// Writes the plan of states that is asked of a table, in a form, and gives the predicates that are not asked.
pub fn finish<H: Threads + Sync, S: Folders, P: Progress, R: Read, W: Sink>(
    system: &System<'_, H, S, P>,
    table: &TableAt<'_>,
    asked: &Asked,
    states: &States,
    format: Format,
    workers: usize,
    input: &mut R,
    output: &mut W,
) -> Result<Items<Text>, RunFault>
    requires { P.may_be_told system.now.progress.now ≡ true }
    ensures ran { Ran None (failing_unread (W.may_fail output.old)) (ended result) (W.taken output.old)
        (W.taken output.new) }
    ensures given { OnOk (ended result) (WroteOfGiven (S.gives system.now.folders.now)
        (Command.Finish table.now.source.now asked.now states.now format workers table.now.path.now) 0
        (W.taken output.old) (W.taken output.new)) }
{
    let files = open_files(system, table.source, input)?;
    let path = table.path.as_str();
    write_finished_asked(system, &files, path, asked, states, format, workers, output)
}
