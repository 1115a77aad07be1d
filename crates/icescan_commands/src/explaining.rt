//! The program where a user reads what it writes: notes stand beside an answer and a hint after the line of a fault,
//! and what is read is shown.

ghost use Rattle.std.specs.Prelude.{◌≡◌, ◌∷◌, [], true, false, map, string_bytes, codes, IfOk, Ok};
ghost use Rattle.icescan_commands.specs.Runs.{RanAsWithHint, RanWithHint, RanWithoutHint, ToldWithHint, meant};
ghost use Rattle.icescan_progress.specs.Asked.{hints, shows_progress};
ghost use Rattle.icescan_progress.specs.Hints.{AppendsPlain};
ghost use Rattle.icescan_text.specs.Faults.{status_of};

use crate::system::System;
use crate::table_files::files_below;
use crate::words::{run_asked, run_words, status_of_count};
use ice_desk::Files;
use icescan_commits::prepare_commit;
use icescan_drill::Watch;
use icescan_files::{Below, Folders, Stores};
use icescan_hints::{Case, Looks, place_of, put_hint, put_notes, put_reading, put_words_hint};
use icescan_orphans::AgedFolders;
use icescan_print::Sink;
use icescan_progress::{Progress, Silent, Terminals, shows_hints, shows_progress};
use icescan_text::{RunFault, report};
use icescan_words::{Command, parse_words};
use std::alloc::{AllocError, Global};
use std::io::Read;
use std::sync::Wait;
use std::thread::Threads;

/// The files of what is asked for, where they are below a folder.
fn folder_of<'a, S: Folders>(folders: &'a S, asked: &'a Command) -> Option<Below<'a, S>> {
    let place = place_of(asked)?;
    Some(files_below(folders, place))
}

/// Writes the hint of a fault. A commit that could not be written is prepared once more for it.
fn hint<L: Looks, F: Files, E: Sink>(
    looks: &L,
    alloc: Global,
    case: &Case<'_, F>,
    fault: &RunFault,
    errors: &mut E,
)
    ensures { AppendsPlain (E.taken errors.old) (E.taken errors.new) }
{
    let (RunFault::Write, Some(request), Some(files)) = (fault, case.commit(), case.files) else {
        return put_hint(alloc, looks, case, fault, None, errors);
    };
    let again = prepare_commit(alloc, files, request).ok();
    put_hint(alloc, looks, case, fault, again.as_ref(), errors);
    drop(again);
}

/// Writes the line of a fault and its hint, and gives the status that the program ends with.
fn explain<L: Looks, F: Files, E: Sink>(
    looks: &L,
    alloc: Global,
    case: &Case<'_, F>,
    fault: &RunFault,
    errors: &mut E,
) -> u8
    ensures status { result ≡ status_of fault.now }
    ensures told { ToldWithHint (E.may_fail errors.old) (E.taken errors.old) (E.taken errors.new) fault.now }
{
    let status = report(fault, errors);
    hint(looks, alloc, case, fault, errors);
    status
}

/// Writes the line of words that are not understood, and what is to be said of them, and gives the status that the
/// program ends with.
fn explain_words<E: Sink>(alloc: Global, words: &[String], fault: &RunFault, errors: &mut E) -> u8
    ensures status { result ≡ status_of fault.now }
    ensures told { ToldWithHint (E.may_fail errors.old) (E.taken errors.old) (E.taken errors.new) fault.now }
{
    let status = report(fault, errors);
    put_words_hint(alloc, words, errors);
    status
}

/// Runs a command, and writes notes beside its answer, or a hint after the line of its fault.
fn run_command<H, S: Folders + Sync, P: Progress + Sync, K: Stores, R: Read, W: Sink, E: Sink>(
    system: &System<'_, H, S, P>,
    asked: &Command,
    stores: &mut K,
    input: &mut R,
    output: &mut W,
    errors: &mut E,
) -> u8
where
    H: Threads + Wait + Watch + Looks + AgedFolders + Sync,
    requires { P.may_be_told system.now.progress.now ≡ true }
    ensures { RanAsWithHint (record {
      below = S.below system.now.folders.now;
      gives = S.gives system.now.folders.now;
      read_may_fail = S.may_fail system.now.folders.now;
      stored = K.below stores.old;
      put_may_fail = K.below_may_fail stores.old;
      input = R.remaining input.old;
      output = W.taken output.old;
      write_may_fail = W.may_fail output.old;
      errors = E.taken errors.old;
      tell_may_fail = E.may_fail errors.old;
    }) (Ok asked.now)
        (record {
          status = result;
          stored = K.below stores.new;
          files = K.files stores.new;
          output = W.taken output.new;
          errors = E.taken errors.new;
        }) }
{
    let files = folder_of(system.folders, asked);
    let case = Case {
        asked,
        files: files.as_ref(),
    };
    put_reading(system.alloc, &case, errors);
    match run_asked(system, asked, stores, input, output, errors) {
        Ok(count) => {
            put_notes(system.alloc, &case, errors);
            status_of_count(count)
        }
        Err(fault) => {
            let status = explain(system.host, system.alloc, &case, &fault, errors);
            drop(fault);
            status
        }
    }
}

/// Runs the program as `run_words` does, and writes notes beside the answer, or a hint after the line of a fault.
fn run_explained<H, S: Folders + Sync, P: Progress + Sync, K: Stores, R: Read, W: Sink, E: Sink>(
    system: &System<'_, H, S, P>,
    words: &[String],
    stores: &mut K,
    input: &mut R,
    output: &mut W,
    errors: &mut E,
) -> u8
where
    H: Threads + Wait + Watch + Looks + AgedFolders + Sync,
    requires { P.may_be_told system.now.progress.now ≡ true }
    ensures { RanWithHint (record {
      below = S.below system.now.folders.now;
      gives = S.gives system.now.folders.now;
      read_may_fail = S.may_fail system.now.folders.now;
      stored = K.below stores.old;
      put_may_fail = K.below_may_fail stores.old;
      input = R.remaining input.old;
      output = W.taken output.old;
      write_may_fail = W.may_fail output.old;
      errors = E.taken errors.old;
      tell_may_fail = E.may_fail errors.old;
    }) (map string_bytes words.now)
        (record {
          status = result;
          stored = K.below stores.new;
          files = K.files stores.new;
          output = W.taken output.new;
          errors = E.taken errors.new;
        }) }
{
    match parse_words(system.alloc, words) {
        Ok(asked) => {
            let status = run_command(system, &asked, stores, input, output, errors);
            drop(asked);
            status
        }
        Err(fault) => {
            let status = explain_words(system.alloc, words, &fault, errors);
            drop(fault);
            status
        }
    }
}

/// What a run works with that shows nothing of what it reads.
fn silently<'a, H, S, P>(
    system: &System<'a, H, S, P>,
    silent: &'a Silent,
) -> System<'a, H, S, Silent>
    ensures { result.folders.now ≡ system.now.folders.now }
{
    System {
        host: system.host,
        alloc: system.alloc,
        folders: system.folders,
        progress: silent,
    }
}

/// The same, and what is read is shown where the words and the terminals ask for that.
fn run_shown<H, S: Folders + Sync, P: Progress + Sync, K: Stores, R: Read, W: Sink, E: Sink>(
    system: &System<'_, H, S, P>,
    terminals: Terminals,
    words: &[String],
    stores: &mut K,
    input: &mut R,
    output: &mut W,
    errors: &mut E,
) -> u8
where
    H: Threads + Wait + Watch + Looks + AgedFolders + Sync,
    requires { shows_progress terminals.errors (map string_bytes words.now) ≡ true →
        P.may_be_told system.now.progress.now ≡ true }
    ensures { RanWithHint (record {
      below = S.below system.now.folders.now;
      gives = S.gives system.now.folders.now;
      read_may_fail = S.may_fail system.now.folders.now;
      stored = K.below stores.old;
      put_may_fail = K.below_may_fail stores.old;
      input = R.remaining input.old;
      output = W.taken output.old;
      write_may_fail = W.may_fail output.old;
      errors = E.taken errors.old;
      tell_may_fail = E.may_fail errors.old;
    }) (map string_bytes words.now)
        (record {
          status = result;
          stored = K.below stores.new;
          files = K.files stores.new;
          output = W.taken output.new;
          errors = E.taken errors.new;
        }) }
{
    if shows_progress(terminals, words) {
        run_explained(system, words, stores, input, output, errors)
    } else {
        run_explained(
            &silently(system, &Silent),
            words,
            stores,
            input,
            output,
            errors,
        )
    }
}

/// The word that asks for the help.
fn help_words(alloc: Global) -> Result<Vec<String>, AllocError>
    ensures { IfOk result (λ words. map string_bytes words.items ≡ codes "--help" ∷ []) }
{
    let mut words = Vec::new(alloc);
    words.push(String::from_str(alloc, "--help")?)?;
    Ok(words)
}

/// Shows the help.
fn run_help<H, S: Folders + Sync, K: Stores, R: Read, W: Sink, E: Sink>(
    system: &System<'_, H, S, Silent>,
    stores: &mut K,
    input: &mut R,
    output: &mut W,
    errors: &mut E,
) -> u8
where
    H: Threads + Wait + Watch + AgedFolders + Sync,
    ensures { RanWithoutHint (record {
      below = S.below system.now.folders.now;
      gives = S.gives system.now.folders.now;
      read_may_fail = S.may_fail system.now.folders.now;
      stored = K.below stores.old;
      put_may_fail = K.below_may_fail stores.old;
      input = R.remaining input.old;
      output = W.taken output.old;
      write_may_fail = W.may_fail output.old;
      errors = E.taken errors.old;
      tell_may_fail = E.may_fail errors.old;
    }) (codes "--help" ∷ [])
        (record {
          status = result;
          stored = K.below stores.new;
          files = K.files stores.new;
          output = W.taken output.new;
          errors = E.taken errors.new;
        }) }
{
    match help_words(system.alloc) {
        Ok(words) => run_words(system, &words, stores, input, output, errors),
        Err(_) => report(&RunFault::Memory, errors),
    }
}

/// Runs the program as `run_words` does. Where standard input is a terminal, no words are read as `--help`. Where
/// standard error is a terminal, or a word is `--explain`, a hint stands after the line of a fault: lines that say
/// what the fault is about and what to do; and notes stand beside an answer: how its filter is read, and where it may
/// not be what was meant. No control character of the table's stands in them. Where standard error is a terminal and no
/// word is `--quiet`, the system's `progress` is told of each file that is read below a folder; what is written to
/// `output` and `errors` is the same.
pub fn run_program<H, S: Folders + Sync, P: Progress + Sync, K: Stores, R: Read, W: Sink, E: Sink>(
    system: &System<'_, H, S, P>,
    terminals: Terminals,
    words: &[String],
    stores: &mut K,
    input: &mut R,
    output: &mut W,
    errors: &mut E,
) -> u8
where
    H: Threads + Wait + Watch + Looks + AgedFolders + Sync,
    // No other run tells `progress` of reads.
    requires { shows_progress terminals.errors (map string_bytes words.now) ≡ true →
        P.may_be_told system.now.progress.now ≡ true }
    // No hint is asked for: what `run_words` says of the words that are meant.
    ensures line { hints terminals.errors (map string_bytes words.now) ≡ false →
        RanWithoutHint (record {
          below = S.below system.now.folders.now;
          gives = S.gives system.now.folders.now;
          read_may_fail = S.may_fail system.now.folders.now;
          stored = K.below stores.old;
          put_may_fail = K.below_may_fail stores.old;
          input = R.remaining input.old;
          output = W.taken output.old;
          write_may_fail = W.may_fail output.old;
          errors = E.taken errors.old;
          tell_may_fail = E.may_fail errors.old;
        }) (meant terminals.input (map string_bytes words.now))
        (record {
          status = result;
          stored = K.below stores.new;
          files = K.files stores.new;
          output = W.taken output.new;
          errors = E.taken errors.new;
        }) }
    // In any case: that, but that texts without control characters may stand beside the answer, and after the line of
    // a fault.
    ensures run { RanWithHint (record {
      below = S.below system.now.folders.now;
      gives = S.gives system.now.folders.now;
      read_may_fail = S.may_fail system.now.folders.now;
      stored = K.below stores.old;
      put_may_fail = K.below_may_fail stores.old;
      input = R.remaining input.old;
      output = W.taken output.old;
      write_may_fail = W.may_fail output.old;
      errors = E.taken errors.old;
      tell_may_fail = E.may_fail errors.old;
    }) (meant terminals.input (map string_bytes words.now))
        (record {
          status = result;
          stored = K.below stores.new;
          files = K.files stores.new;
          output = W.taken output.new;
          errors = E.taken errors.new;
        }) }
{
    let silent = silently(system, &Silent);
    if terminals.input && words.is_empty() {
        run_help(&silent, stores, input, output, errors)
    } else if shows_hints(terminals, words) {
        run_shown(system, terminals, words, stores, input, output, errors)
    } else {
        run_words(&silent, words, stores, input, output, errors)
    }
}
