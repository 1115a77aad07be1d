//! The command line: its commands, options and help.

use crate::changes_command::{CHANGES, CHANGES_ABOUT, CHANGES_EXAMPLE};
use crate::columns_command::{COLUMNS, COLUMNS_ABOUT, COLUMNS_EXAMPLE};
use crate::explain_command::{EXPLAIN, EXPLAIN_ABOUT, EXPLAIN_EXAMPLE};
use crate::help_texts::{
    ABOUT, APPEND_ABOUT, APPEND_EXAMPLE, AUDIT_ABOUT, AUDIT_EXAMPLE, DRILL_ABOUT, DRILL_EXAMPLE,
    LIST_ABOUT, LIST_EXAMPLE, PLAN_ABOUT, PLAN_EXAMPLE, PROGRAM_EXAMPLE, ROW_DELTA_ABOUT,
    ROW_DELTA_EXAMPLE, SHOW_ABOUT, SHOW_EXAMPLE,
};
use crate::locate_command::{LOCATE, LOCATE_ABOUT, LOCATE_EXAMPLE};
use crate::orphans_command::{ORPHANS, ORPHANS_ABOUT, ORPHANS_EXAMPLE};
use crate::parameter::{Parameter, argument, flag};
use crate::parameters::{
    AUDITED_ALL, AUDITED_REF, AUDITED_SNAPSHOT, BUNDLE, CHANGE, COMMITS, DIR, FILTER, FORMAT,
    LINES_FORMAT, LIST, METADATA, NOW_MS, OUT, PREFIX, QUIET, REF, RELAX, SNAPSHOT, SNAPSHOT_ID,
    THREADS, UUID, WORKERS,
};
use crate::reachable_command::{REACHABLE, REACHABLE_ABOUT, REACHABLE_EXAMPLE};
use crate::shares_commands::{
    FINISH, FINISH_ABOUT, FINISH_EXAMPLE, JOIN, JOIN_ABOUT, JOIN_EXAMPLE, TAKE, TAKE_ABOUT,
    TAKE_EXAMPLE,
};
use clap::{Arg, ArgGroup, Command};
use std::alloc::{AllocError, Global};

/// A command.
enum Name {
    Plan,
    ListPlan,
    Append,
    RowDelta,
    Show,
    Columns,
    Locate,
    Audit,
    Explain,
    Changes,
    Reachable,
    Orphans,
    Take,
    Join,
    Finish,
    Drill,
}

/// All commands, in the order of the help.
const NAMES: &[Name] = &[
    Name::Plan,
    Name::ListPlan,
    Name::Append,
    Name::RowDelta,
    Name::Show,
    Name::Columns,
    Name::Locate,
    Name::Audit,
    Name::Explain,
    Name::Changes,
    Name::Reachable,
    Name::Orphans,
    Name::Take,
    Name::Join,
    Name::Finish,
    Name::Drill,
];

const PLAN: &[Parameter] = &[
    METADATA, REF, SNAPSHOT, FILTER, RELAX, WORKERS, FORMAT, BUNDLE, DIR, PREFIX, QUIET,
];

const LIST_PLAN: &[Parameter] = &[LIST, FORMAT, BUNDLE, DIR, PREFIX, QUIET];

const COMMIT: &[Parameter] = &[
    SNAPSHOT_ID,
    UUID,
    NOW_MS,
    OUT,
    METADATA,
    CHANGE,
    BUNDLE,
    DIR,
    PREFIX,
    QUIET,
];

const SHOW: &[Parameter] = &[METADATA, LINES_FORMAT, BUNDLE, DIR, PREFIX];

const AUDIT: &[Parameter] = &[
    METADATA,
    AUDITED_REF,
    AUDITED_SNAPSHOT,
    AUDITED_ALL,
    WORKERS,
    LINES_FORMAT,
    BUNDLE,
    DIR,
    PREFIX,
    QUIET,
];

const DRILL: &[Parameter] = &[THREADS, COMMITS];

/// The two ways to say where files come from, of which just one has to be taken.
fn ways<'a>(alloc: Global) -> Result<ArgGroup<'a>, AllocError> {
    let ways = ArgGroup::new(alloc, "files").arg("bundle")?.arg("dir")?;
    Ok(ways.required(true))
}

/// A command without parameters: its name, what it does, and its long help.
fn described<'a>(alloc: Global, texts: (&'a str, &'a str, &'a str)) -> Command<'a> {
    let (name, about, example) = texts;
    Command::new(alloc, name)
        .about(about)
        .after_long_help(example)
}

/// What the parser is told of parameters.
fn arguments<'a>(alloc: Global, parameters: &'a [Parameter]) -> Result<Vec<Arg<'a>>, AllocError> {
    let mut arguments = Vec::new(alloc);
    for parameter in parameters {
        arguments.push(argument(alloc, parameter)?)?;
    }
    Ok(arguments)
}

/// A command with its parameters.
fn with_parameters<'a>(
    alloc: Global,
    texts: (&'a str, &'a str, &'a str),
    parameters: &'a [Parameter],
) -> Result<Command<'a>, AllocError> {
    let command = described(alloc, texts);
    match arguments(alloc, parameters) {
        Ok(arguments) => command.args(arguments),
        Err(error) => {
            drop(command);
            Err(error)
        }
    }
}

/// A command with its parameters, of which `--bundle` or `--dir` has to say where files come from.
fn over_files<'a>(
    alloc: Global,
    texts: (&'a str, &'a str, &'a str),
    parameters: &'a [Parameter],
) -> Result<Command<'a>, AllocError> {
    let command = with_parameters(alloc, texts, parameters)?;
    match ways(alloc) {
        Ok(ways) => command.group(ways),
        Err(error) => {
            drop(command);
            Err(error)
        }
    }
}

/// What the parser is told of a command.
fn command<'a>(alloc: Global, name: &Name) -> Result<Command<'a>, AllocError> {
    match name {
        Name::Plan => over_files(alloc, ("plan", PLAN_ABOUT, PLAN_EXAMPLE), PLAN),
        Name::ListPlan => over_files(alloc, ("list-plan", LIST_ABOUT, LIST_EXAMPLE), LIST_PLAN),
        Name::Append => over_files(alloc, ("append", APPEND_ABOUT, APPEND_EXAMPLE), COMMIT),
        Name::RowDelta => over_files(
            alloc,
            ("row-delta", ROW_DELTA_ABOUT, ROW_DELTA_EXAMPLE),
            COMMIT,
        ),
        Name::Show => over_files(alloc, ("show", SHOW_ABOUT, SHOW_EXAMPLE), SHOW),
        Name::Columns => over_files(alloc, ("columns", COLUMNS_ABOUT, COLUMNS_EXAMPLE), COLUMNS),
        Name::Locate => with_parameters(alloc, ("locate", LOCATE_ABOUT, LOCATE_EXAMPLE), LOCATE),
        Name::Audit => over_files(alloc, ("audit", AUDIT_ABOUT, AUDIT_EXAMPLE), AUDIT),
        Name::Explain => over_files(alloc, ("explain", EXPLAIN_ABOUT, EXPLAIN_EXAMPLE), EXPLAIN),
        Name::Changes => over_files(alloc, ("changes", CHANGES_ABOUT, CHANGES_EXAMPLE), CHANGES),
        Name::Reachable => over_files(
            alloc,
            ("reachable", REACHABLE_ABOUT, REACHABLE_EXAMPLE),
            REACHABLE,
        ),
        Name::Orphans => with_parameters(
            alloc,
            ("orphans", ORPHANS_ABOUT, ORPHANS_EXAMPLE),
            ORPHANS,
        ),
        Name::Take => over_files(alloc, ("take", TAKE_ABOUT, TAKE_EXAMPLE), TAKE),
        Name::Join => with_parameters(alloc, ("join", JOIN_ABOUT, JOIN_EXAMPLE), JOIN),
        Name::Finish => over_files(alloc, ("finish", FINISH_ABOUT, FINISH_EXAMPLE), FINISH),
        Name::Drill => with_parameters(alloc, ("drill", DRILL_ABOUT, DRILL_EXAMPLE), DRILL),
    }
}

/// All commands.
fn commands<'a>(alloc: Global) -> Result<Vec<Command<'a>>, AllocError> {
    let mut commands = Vec::new(alloc);
    for name in NAMES {
        commands.push(command(alloc, name)?)?;
    }
    Ok(commands)
}

/// The program without its commands. The options `--explain`, which asks for a hint after the line of a refusal and for
/// notes beside an answer, and `--no-links` have no effect on what the words ask for.
fn bare_program<'a>(alloc: Global) -> Result<Command<'a>, AllocError> {
    let program = described(alloc, ("icescan", ABOUT, PROGRAM_EXAMPLE))
        .no_binary_name(true)
        .version("0.1.0")
        .subcommand_required(true);
    let program = program.bin_name("icescan")?;
    let explain = flag(
        alloc,
        "explain",
        "Say more of refusals and answers, as on a terminal",
    );
    let program = program.arg(explain.global(true))?;
    let no_links = flag(
        alloc,
        "no-links",
        "Read and write through no link below a folder",
    );
    program.arg(no_links.global(true))
}

/// The program with all its commands.
pub fn program<'a>(alloc: Global) -> Result<Command<'a>, AllocError> {
    let commands = commands(alloc)?;
    bare_program(alloc)?.subcommands(commands)
}
