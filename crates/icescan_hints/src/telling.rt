//! A fault's hint, from the fault and what was asked for.

ghost use Rattle.icescan_progress.specs.Hints.{AppendsPlain};

use crate::case::Case;
use crate::columns::add_filter;
use crate::commits::{add_change, add_commit, add_unwritten};
use crate::looks::{Kind, Looks};
use crate::manifests::{add_list, add_manifest};
use crate::paths::{add_file_name, add_named, add_path, add_unread};
use crate::run::sentences_of;
use crate::tables::{add_metadata, add_specs};
use ice_catalog_versions::Prepared;
use ice_desk::Files;
use ice_state::{FinishFault, ScanFault};
use icescan_hint_texts::Hint;
use icescan_print::Sink;
use icescan_progress::put_lines;
use icescan_text::RunFault;
use icescan_words::{Command, Lists};
use std::alloc::{AllocError, Global};

/// Adds what of the words, the table and its files a fault is about.
fn add_here<L: Looks, F: Files>(
    hint: &mut Hint,
    alloc: Global,
    looks: &L,
    case: &Case<'_, F>,
    fault: &RunFault,
    again: Option<&Prepared>,
) -> Result<(), AllocError> {
    match fault {
        RunFault::Absent(path) => add_path(hint, alloc, case, path.as_str()),
        RunFault::Device(path) => add_unread(hint, alloc, looks, case, path.as_str()),
        RunFault::List(fault) => add_list(hint, alloc, case, fault),
        RunFault::Scan(ScanFault::NoSuchSpec(_)) => add_specs(hint, alloc, case),
        RunFault::Finish(FinishFault::Bad(path, fault)) => {
            add_manifest(hint, alloc, case, path, fault)
        }
        RunFault::Metadata(fault) => add_metadata(hint, alloc, case, fault),
        RunFault::Filter(fault) => add_filter(hint, alloc, case, *fault),
        RunFault::Locate(_) => add_folder(hint, alloc, case),
        RunFault::Change(fault) => add_change(hint, alloc, case, *fault),
        RunFault::Prepare(fault) => add_commit(hint, alloc, case, fault),
        RunFault::Conflict(path) => add_taken(hint, alloc, case, path.as_str()),
        RunFault::Write => add_unwritten(hint, alloc, case, again),
        RunFault::Bundle(_) => add_bundle(hint, alloc, case),
        RunFault::Workers => add_workers(hint, alloc, case),
        _ => Ok(()),
    }
}

/// Adds the file that stands at the place of a commit's metadata.
fn add_taken<F: Files>(
    hint: &mut Hint,
    alloc: Global,
    case: &Case<'_, F>,
    path: &str,
) -> Result<(), AllocError> {
    match case.place() {
        Some(place) => add_file_name(hint, alloc, place, path),
        None => Ok(()),
    }
}

/// Adds the folder whose table is to be located.
fn add_folder<F: Files>(
    hint: &mut Hint,
    alloc: Global,
    case: &Case<'_, F>,
) -> Result<(), AllocError> {
    match case.asked {
        Command::Locate(folder, _) => add_named(hint, alloc, "the folder", folder.as_str()),
        _ => Ok(()),
    }
}

/// Adds how a bundle came to be read, where no word says so.
fn add_bundle<F: Files>(
    hint: &mut Hint,
    alloc: Global,
    case: &Case<'_, F>,
) -> Result<(), AllocError> {
    match case.asked {
        Command::ListPlan(Lists::Bundle(None), _) => hint.here(
            alloc,
            format!(in alloc;
                "`list-plan --bundle`, and no word at all, read a bundle; `icescan --help` shows the commands"
            )?,
        ),
        _ => Ok(()),
    }
}

/// Adds how many workers are asked for.
fn add_workers<F: Files>(
    hint: &mut Hint,
    alloc: Global,
    case: &Case<'_, F>,
) -> Result<(), AllocError> {
    match case.asked {
        Command::Plan(_, _, _, workers, _)
        | Command::Audit(_, _, _, workers, _)
        | Command::AuditAll(_, _, workers, _)
        | Command::Explain(_, _, _, workers, _)
        | Command::Relaxed(_, _, _, _, workers, _)
        | Command::Changes(_, _, _, workers, _)
        | Command::Take(_, _, _, workers, _)
        | Command::Finish(_, _, _, _, workers, _) => {
            hint.here(alloc, format!(in alloc; "`--workers` is {workers}")?)
        }
        _ => Ok(()),
    }
}

/// Whether a pipe that takes the answer was closed: its reader had enough.
fn had_enough<L: Looks, F: Files>(looks: &L, case: &Case<'_, F>, fault: &RunFault) -> bool {
    match fault {
        RunFault::Write => case.commit().is_none() && looks.kind("/dev/stdout") == Kind::Pipe,
        _ => false,
    }
}

/// The lines of a fault's hint: what each refusal says, what they are about, and what to do. There are none for words
/// that are not understood, and none where the answer's reader had enough.
fn hint_of<L: Looks, F: Files>(
    alloc: Global,
    looks: &L,
    case: &Case<'_, F>,
    fault: &RunFault,
    again: Option<&Prepared>,
) -> Result<Hint, AllocError> {
    let mut hint = Hint::new(alloc);
    if had_enough(looks, case, fault) {
        return Ok(hint);
    }
    let sentences = sentences_of(alloc, fault, case.commit().is_some())?;
    for sentence in sentences.as_slice() {
        hint.say(alloc, sentence)?;
    }
    add_here(&mut hint, alloc, looks, case, fault, again)?;
    if let Some(sentence) = sentences.last() {
        hint.advise(alloc, sentence)?;
    }
    Ok(hint)
}

/// Writes the hint of a fault, as far as it can be written: lines in which no control character stands. Nothing is
/// written where memory runs out. `again` is the commit that could not be written, prepared once more.
pub fn put_hint<L: Looks, F: Files, S: Sink>(
    alloc: Global,
    looks: &L,
    case: &Case<'_, F>,
    fault: &RunFault,
    again: Option<&Prepared>,
    errors: &mut S,
)
    ensures { AppendsPlain (S.taken errors.old) (S.taken errors.new) }
{
    if let Ok(hint) = hint_of(alloc, looks, case, fault, again) {
        put_lines(alloc, hint.lines(), errors);
    }
}
