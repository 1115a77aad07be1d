//! Runs the program's commands over the files of a real folder, one after the other, and prints what each wrote. It is
//! not shipped: `rt ci` runs it in a copy of `data/` and compares what it prints with the file `stdout`.
//!
//! A line of standard input has the words of one command, with a tab between two; an empty line has none. In front of
//! them may stand `<FILE`, a file of `data/` that is on the standard input of the command, where else nothing is, and
//! then `>FILE`, a file that takes its standard output. Printed are the line behind `> `, the command's standard output
//! where no file takes it, its standard error behind `! `, and `status N`. A line that begins with `#` is a heading,
//! and is printed as it is.
//!
//! `data/events` is the table of `examples/events-java`, with partitions, without the manifest list of its first
//! snapshot and a manifest of its fifth; `data/plain` is that of `examples/plain-java`, as Avro's C library wrote it.
//! Their plans are those of `expected/` beside either, or were derived in the same way, from what the library was told
//! to write. All other tables and texts were written by hand. The transcript has, in this order:
//!
//! - `show`; plans of main, a branch, a tag and a snapshot, with filters, by 1, 2 and 64 workers; `list-plan`
//! - refusals: no such ref or snapshot, filters, numbers of workers, files that are absent or folders, a path with `..`
//!   or of another table, a folder that is not there, metadata that is cut, a list that is no container, no bundle
//! - an append and a row delta to `data/events`: the plans of the new metadata are those from before with the new
//!   files, and with the new deletes where partition and sequence number let them apply; `show` has both snapshots; the
//!   old metadata and the branch have the plans that they had
//! - refused commits: new metadata that is there already, the same commit again, a live path, a taken snapshot id,
//!   change files that are none, a folder that is not there, a path with `..`; none leaves new metadata, or a file that
//!   is not whole, and the plan of the last commit is what it was
//! - an append, and a row delta of deletes alone, to `data/plain`, whose new list is planned by itself too
//! - below headings: bundles of lists, well written or not; requests of tables in a bundle; partitions and a summary
//!   that lies; metadata that is shown; change files; commits to bundles and to folders that refuse; paths below a
//!   folder; words, in other orders and refused; drills; texts of help
//! - `data/upgraded`, a table that began as version 1: its plans, a row delta with position deletes that name one data
//!   file, its plan after that, and plans of the version before; refused names of data files, and a time that goes
//!   back; in `data/events` a position delete that names a data file of another partition, which applies to nothing
//! - an append under three specs, whose manifests, list and metadata are printed byte by byte: names of partition
//!   fields as Avro spells them, or by id where two would be alike; no summaries where a uuid stands; a uuid with
//!   hyphens
//! - a row delta with partition values of each type and both kinds of deletes, whose manifests and list are those that
//!   Avro's Java library wrote (`tools/interop/manifests_by_java.py`), byte by byte, and its plan as JSON; a decimal is
//!   refused
//! - audits: of `data/audits`, each table with the finding that it is named after; of the tables above; of
//!   `data/together`, which has the files of `data/audits/together` below a folder and ends with status 1. What is
//!   expected was computed by a program in another language, from what the tables were written with
//! - explanations of plans of the tables above: with what is expected of `id = 42`, of filters of several predicates,
//!   of one that is never met, as that program computed it from the files too
//! - plans as JSON: of `id = 42`, with the delete files that its explanation keeps, and of lists, as that program made
//!   them; a refusal is that of the text
//! - columns that a filter names, of `data/events` and of `data/columns`, a table without snapshots whose columns have
//!   names and types of each form
//! - changes of `data/events` from one snapshot to another, as `tools/trials/changes.py` makes them of two plans
//! - the newest metadata of the tables in `data/located`, each with files that are not the newest and say so
//! - refusals with `--explain`, over `data/hints`, which `tools/trials/refusals.py make` writes: below each line what
//!   it is about and what to do
#![tactic(auto)]

use icescan_commands::{
    AgedFolders, HostFolders, HostStores, Looks, Silent, System, Terminals, Watch, links_of,
    run_program,
};
use std::alloc::{AllocError, Global};
use std::fs;
use std::io::{self, Write};
use std::rt::Files;
use std::sync::Wait;
use std::thread::Threads;

/// The file that the first word of a line names behind a mark, and the rest of the line; none where no such mark is.
fn marked(line: &str, mark: char) -> (Option<&str>, &str) {
    match line.strip_prefix(mark) {
        Some(rest) => {
            let (file, words) = rest.split_once('\t').unwrap_or((rest, ""));
            (Some(file), words)
        }
        None => (None, line),
    }
}

/// The words of a line, between which tabs stand. An empty line has none.
fn words_of(alloc: Global, line: &str) -> Result<Vec<String>, AllocError> {
    let mut words = Vec::new(alloc);
    if line.is_empty() {
        return Ok(words);
    }
    for word in line.split('\t') {
        words.push(String::from_str(alloc, word)?)?;
    }
    Ok(words)
}

/// Runs the command of a line, and tells of it: the line, what the command wrote to standard output and to standard
/// error, and its status.
fn play<H, W: Write>(host: &H, alloc: Global, line: &str, page: &mut W) -> io::Result<()>
where
    H: Files<File: Send, Dir: Send> + Threads + Wait + Watch + Looks + AgedFolders + Sync,
{
    let (from, behind) = marked(line, '<');
    let (to, words) = marked(behind, '>');
    let words = words_of(alloc, words)?;
    let mut input = fs::open(host, from.unwrap_or("nothing"))?;
    let mut output = Vec::new(alloc);
    let mut errors = Vec::new(alloc);
    let terminals = Terminals {
        input: false,
        errors: false,
    };
    let links = links_of(&words);
    let system = System {
        host,
        alloc,
        folders: &HostFolders::by_links(host, links),
        progress: &Silent,
    };
    let status = run_program(
        &system,
        terminals,
        &words,
        &mut HostStores::by_links(host, links),
        &mut input,
        &mut output,
        &mut errors,
    );
    writeln!(page, "> {line}")?;
    match to {
        Some(file) => fs::write(host, file, &output)?,
        None => page.write_all(&output)?,
    }
    if !errors.is_empty() {
        page.write_all(b"! ")?;
        page.write_all(&errors)?;
    }
    writeln!(page, "status {status}")
}

fn main(rt: HostRuntime) -> io::Result<()> {
    let mut page = rt.stdout();
    for line in rt.lines(rt.alloc()) {
        let line = line?;
        if line.starts_with('#') {
            writeln!(page, "{line}")?;
        } else {
            play(&rt, rt.alloc(), line.as_str(), &mut page)?;
        }
    }
    Ok(())
}
