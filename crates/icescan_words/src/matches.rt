//! The command that the parser's matches ask for: each field is what the parser found for its option.

ghost use Rattle.std.specs.Prelude.{◌≡◌, IfErr, IfOk, None, Some, codes, option_and_then};
ghost use Rattle.clap.specs.Words.{subcommand_name_of};
ghost use Rattle.uuid.specs.Text.{parsed};
ghost use Rattle.icescan_words.specs.CommandLines.{IsWordsFault};
ghost use Rattle.icescan_words.specs.Heard.{IsNamed, IsPart, IsSource, IsTarget, command_name, format_by, list_of, name_of};
ghost use Rattle.icescan_words.specs.Heard.{relaxed_name, signed, source_of, unsigned, workers_by};
ghost use Rattle.icescan_words.specs.Matched.{value_at};

use crate::answer_format::format_by;
use crate::command::{Asked, Command, Lists, Located, Place, Relaxed, Source, States};
use clap::ArgMatches;
use contract_words::{Items, Text};
use ice_catalog_changes::Ids;
use ice_meta::Target;
use icescan_forms::{Format, Part};
use icescan_text::{
    ChangeKind, ChangesRequest, CommitRequest, Drill, Request, RunFault, Separator, Share,
};
use std::alloc::{AllocError, Global};
use uuid::Uuid;

/// A text of its own.
fn text_of(alloc: Global, text: &str) -> Result<Text, AllocError>
    ensures { IfOk result (λ copied. copied ≡ text.now) }
{
    Ok(Text::from_string(String::from_str(alloc, text)?))
}

/// The text of this name, where it is given.
fn text_at(alloc: Global, matches: &ArgMatches<'_>, name: &str) -> Result<Option<Text>, AllocError>
    ensures { IfOk result (λ text. text ≡ value_at matches.now name.now) }
{
    match matches.get_str(name) {
        Some(text) => Ok(Some(text_of(alloc, text)?)),
        None => Ok(None),
    }
}

/// Why words are refused that the parser took, but that do not ask for the command that it made of them.
pub fn misread(alloc: Global) -> RunFault
    ensures { IsWordsFault result }
{
    match text_of(
        alloc,
        "error: the words were not understood as they stand, which is a fault of icescan\n",
    ) {
        Ok(text) => RunFault::Words(text),
        Err(_) => RunFault::Memory,
    }
}

/// The text of an option or a word that is required, so that it is there.
fn required_text(alloc: Global, matches: &ArgMatches<'_>, name: &str) -> Result<Text, RunFault>
    ensures found { IfOk result (λ text. value_at matches.now name.now ≡ Some text) }
    ensures causes { IfErr result IsWordsFault }
{
    match matches.get_str(name) {
        Some(text) => Ok(text_of(alloc, text)?),
        None => Err(misread(alloc)),
    }
}

/// The number that a text writes, which the parser checked.
fn signed_of(alloc: Global, text: &str) -> Result<i64, RunFault>
    ensures number { IfOk result (λ number. signed (Some text.now) ≡ Some number) }
    ensures causes { IfErr result IsWordsFault }
{
    match text.parse::<i64>() {
        Ok(number) => Ok(number),
        Err(_) => Err(misread(alloc)),
    }
}

/// The number of an option that is required.
fn required_signed(alloc: Global, matches: &ArgMatches<'_>, name: &str) -> Result<i64, RunFault>
    ensures found { IfOk result (λ number. signed (value_at matches.now name.now) ≡ Some number) }
    ensures causes { IfErr result IsWordsFault }
{
    match matches.get_str(name) {
        Some(text) => signed_of(alloc, text),
        None => Err(misread(alloc)),
    }
}

/// The number of an option that is required.
fn required_unsigned(alloc: Global, matches: &ArgMatches<'_>, name: &str) -> Result<u64, RunFault>
    ensures found { IfOk result (λ number. unsigned (value_at matches.now name.now) ≡ Some number) }
    ensures causes { IfErr result IsWordsFault }
{
    let Some(text) = matches.get_str(name) else {
        return Err(misread(alloc));
    };
    match text.parse::<u64>() {
        Ok(number) => Ok(number),
        Err(_) => Err(misread(alloc)),
    }
}

/// Where the files come from.
fn source_of(alloc: Global, matches: &ArgMatches<'_>) -> Result<Source, AllocError>
    ensures { IfOk result (λ source. IsSource (value_at matches.now (codes "dir"))
        (value_at matches.now (codes "prefix")) source) }
{
    let (Some(folder), Some(prefix)) = (matches.get_str("dir"), matches.get_str("prefix")) else {
        return Ok(Source::Bundle);
    };
    Ok(Source::Folder(Place {
        folder: text_of(alloc, folder)?,
        prefix: text_of(alloc, prefix)?,
    }))
}

/// Where the manifest list is.
fn lists_of(alloc: Global, matches: &ArgMatches<'_>) -> Result<Lists, RunFault>
    ensures source { IfOk result (λ lists. IsSource (value_at matches.now (codes "dir"))
        (value_at matches.now (codes "prefix")) (source_of lists)) }
    ensures list { IfOk result (λ lists. list_of lists ≡ value_at matches.now (codes "list")) }
    ensures causes { IfErr result IsWordsFault }
{
    match source_of(alloc, matches)? {
        Source::Bundle => Ok(Lists::Bundle(text_at(alloc, matches, "list")?)),
        Source::Folder(place) => Ok(Lists::Folder(place, required_text(alloc, matches, "list")?)),
    }
}

/// The snapshot that is asked for.
fn target_of(alloc: Global, matches: &ArgMatches<'_>) -> Result<Target, RunFault>
    ensures found { IfOk result (λ target. IsTarget (value_at matches.now (codes "ref"))
        (value_at matches.now (codes "snapshot")) target) }
    ensures causes { IfErr result IsWordsFault }
{
    if let Some(name) = matches.get_str("ref") {
        return Ok(Target::Ref(text_of(alloc, name)?));
    }
    match matches.get_str("snapshot") {
        Some(id) => Ok(Target::Snapshot(signed_of(alloc, id)?)),
        None => Ok(Target::Main),
    }
}

/// The snapshot that the option of this name names: by its id where the text writes a number, else by its branch or tag.
fn named_target(alloc: Global, matches: &ArgMatches<'_>, name: &str) -> Result<Target, AllocError>
    ensures { IfOk result (λ target. IsNamed (value_at matches.now name.now) target) }
{
    let Some(text) = matches.get_str(name) else {
        return Ok(Target::Main);
    };
    match text.parse::<i64>() {
        Ok(id) => Ok(Target::Snapshot(id)),
        Err(_) => Ok(Target::Ref(text_of(alloc, text)?)),
    }
}

/// One of the plans of which the changes are asked for: of the snapshot that the option of this name names.
fn named_request(alloc: Global, matches: &ArgMatches<'_>, name: &str) -> Result<Request, AllocError>
    ensures target { IfOk result (λ request. IsNamed (value_at matches.now name.now) request.target) }
    ensures filter { IfOk result (λ request. request.filter ≡ value_at matches.now (codes "filter")) }
{
    Ok(Request {
        target: named_target(alloc, matches, name)?,
        filter: text_at(alloc, matches, "filter")?,
    })
}

/// What changes are asked for.
fn changes_of(alloc: Global, matches: &ArgMatches<'_>) -> Result<ChangesRequest, AllocError>
    ensures earlier { IfOk result (λ request. IsNamed (value_at matches.now (codes "from")) request.earlier.target) }
    ensures later { IfOk result (λ request. IsNamed (value_at matches.now (codes "to")) request.later.target) }
{
    Ok(ChangesRequest {
        earlier: named_request(alloc, matches, "from")?,
        later: named_request(alloc, matches, "to")?,
        appends: matches.get_flag("appends"),
    })
}

/// What is asked of a table.
fn request_of(alloc: Global, matches: &ArgMatches<'_>) -> Result<Request, RunFault>
    ensures target { IfOk result (λ request. IsTarget (value_at matches.now (codes "ref"))
        (value_at matches.now (codes "snapshot")) request.target) }
    ensures filter { IfOk result (λ request. request.filter ≡ value_at matches.now (codes "filter")) }
    ensures causes { IfErr result IsWordsFault }
{
    Ok(Request {
        target: target_of(alloc, matches)?,
        filter: text_at(alloc, matches, "filter")?,
    })
}

/// The form that is asked for.
fn format_of(matches: &ArgMatches<'_>) -> Format
    ensures { result ≡ format_by (value_at matches.now (codes "format")) }
{
    format_by(matches.get_str("format"))
}

/// How many workers are asked for.
fn workers_of(alloc: Global, matches: &ArgMatches<'_>) -> Result<usize, RunFault>
    ensures found { IfOk result (λ workers. workers ≡ workers_by (value_at matches.now (codes "workers"))) }
    ensures causes { IfErr result IsWordsFault }
{
    let Some(text) = matches.get_str("workers") else {
        return Ok(1);
    };
    match text.parse::<usize>() {
        Ok(workers) => Ok(workers),
        Err(_) => Err(misread(alloc)),
    }
}

/// The drill that is asked for.
fn drill_of(alloc: Global, matches: &ArgMatches<'_>) -> Result<Drill, RunFault>
    ensures threads { IfOk result (λ drill. unsigned (value_at matches.now (codes "threads")) ≡ Some drill.threads) }
    ensures commits { IfOk result (λ drill. unsigned (value_at matches.now (codes "commits")) ≡ Some drill.commits) }
    ensures causes { IfErr result IsWordsFault }
{
    let threads = required_unsigned(alloc, matches, "threads")?;
    let commits = required_unsigned(alloc, matches, "commits")?;
    match Drill::new(threads, commits) {
        Some(drill) => Ok(drill),
        None => Err(RunFault::Words(text_of(
            alloc,
            "error: a drill has from 1 to 64 threads, and from 1 to 100 commits of each\n",
        )?)),
    }
}

/// Why a word is no UUID, and how to learn more.
fn no_uuid(alloc: Global, word: &str) -> RunFault
    ensures { IsWordsFault result }
{
    match format!(in alloc;
        "error: invalid value '{word}' for '--uuid <U>': it is no UUID\n\nFor more information, try '--help'.\n"
    ) {
        Ok(text) => RunFault::Words(Text::from_string(text)),
        Err(_) => RunFault::Memory,
    }
}

/// The names that the commit takes, and its time.
fn ids_of(alloc: Global, matches: &ArgMatches<'_>) -> Result<Ids, RunFault>
    ensures snapshot { IfOk result (λ ids. signed (value_at matches.now (codes "snapshot-id")) ≡ Some ids.snapshot) }
    ensures uuid { IfOk result (λ ids. option_and_then parsed (value_at matches.now (codes "uuid")) ≡ Some ids.uuid) }
    ensures now_ms { IfOk result (λ ids. signed (value_at matches.now (codes "now-ms")) ≡ Some ids.now_ms) }
    ensures causes { IfErr result IsWordsFault }
{
    let Some(word) = matches.get_str("uuid") else {
        return Err(misread(alloc));
    };
    let Ok(uuid) = Uuid::parse_str(word) else {
        return Err(no_uuid(alloc, word));
    };
    Ok(Ids {
        snapshot: required_signed(alloc, matches, "snapshot-id")?,
        uuid,
        now_ms: required_signed(alloc, matches, "now-ms")?,
    })
}

/// The commit that is asked for.
fn commit_of(
    alloc: Global,
    matches: &ArgMatches<'_>,
    kind: ChangeKind,
) -> Result<CommitRequest, RunFault>
    ensures kind { IfOk result (λ request. request.kind ≡ kind) }
    ensures metadata { IfOk result (λ request. value_at matches.now (codes "metadata") ≡ Some request.metadata) }
    ensures change { IfOk result (λ request. value_at matches.now (codes "change") ≡ Some request.change) }
    ensures out { IfOk result (λ request. value_at matches.now (codes "out") ≡ Some request.out) }
    ensures causes { IfErr result IsWordsFault }
{
    Ok(CommitRequest {
        kind,
        ids: ids_of(alloc, matches)?,
        metadata: required_text(alloc, matches, "metadata")?,
        change: required_text(alloc, matches, "change")?,
        out: required_text(alloc, matches, "out")?,
    })
}

/// Where the files of a table are, in which form it is told of, by how many workers, and where its metadata is.
fn told_of(
    alloc: Global,
    matches: &ArgMatches<'_>,
) -> Result<(Source, Format, usize, Text), RunFault>
    ensures causes { IfErr result IsWordsFault }
{
    let format = format_of(matches);
    let workers = workers_of(alloc, matches)?;
    let metadata = required_text(alloc, matches, "metadata")?;
    let source = source_of(alloc, matches)?;
    Ok((source, format, workers, metadata))
}

/// The plan that is asked for, or its explanation.
fn scan_command(alloc: Global, matches: &ArgMatches<'_>, what: Relaxed) -> Result<Command, RunFault>
    ensures name { IfOk result (λ command. command_name command ≡ relaxed_name what) }
    ensures causes { IfErr result IsWordsFault }
{
    let (source, format, workers, metadata) = told_of(alloc, matches)?;
    let request = request_of(alloc, matches)?;
    if matches.get_flag("relax") {
        return Ok(Command::Relaxed(what, source, request, format, workers, metadata));
    }
    match what {
        Relaxed::Plan => Ok(Command::Plan(source, request, format, workers, metadata)),
        Relaxed::Explanation => Ok(Command::Explain(source, request, format, workers, metadata)),
    }
}

/// What is asked for of metadata.
fn show_command(alloc: Global, matches: &ArgMatches<'_>) -> Result<Command, RunFault>
    ensures name { IfOk result (λ command. command_name command ≡ codes "show") }
    ensures causes { IfErr result IsWordsFault }
{
    Ok(Command::Show(
        source_of(alloc, matches)?,
        format_of(matches),
        required_text(alloc, matches, "metadata")?,
    ))
}

/// The table that is to be located.
fn locate_command(alloc: Global, matches: &ArgMatches<'_>) -> Result<Command, RunFault>
    ensures name { IfOk result (λ command. command_name command ≡ codes "locate") }
    ensures causes { IfErr result IsWordsFault }
{
    let located = if matches.get_flag("all") {
        Located::All
    } else if matches.get_flag("null") {
        Located::Newest(Separator::Nul)
    } else {
        Located::Newest(Separator::Space)
    };
    Ok(Command::Locate(required_text(alloc, matches, "folder")?, located))
}

/// The columns that are asked for.
fn columns_command(alloc: Global, matches: &ArgMatches<'_>) -> Result<Command, RunFault>
    ensures name { IfOk result (λ command. command_name command ≡ codes "columns") }
    ensures causes { IfErr result IsWordsFault }
{
    let format = format_of(matches);
    let metadata = required_text(alloc, matches, "metadata")?;
    let source = source_of(alloc, matches)?;
    let target = target_of(alloc, matches)?;
    Ok(Command::Columns(source, target, format, metadata))
}

/// The audit that is asked for.
fn audit_command(alloc: Global, matches: &ArgMatches<'_>) -> Result<Command, RunFault>
    ensures name { IfOk result (λ command. command_name command ≡ codes "audit") }
    ensures causes { IfErr result IsWordsFault }
{
    let (source, format, workers, metadata) = told_of(alloc, matches)?;
    if matches.get_flag("all") {
        return Ok(Command::AuditAll(source, format, workers, metadata));
    }
    let target = target_of(alloc, matches)?;
    Ok(Command::Audit(source, target, format, workers, metadata))
}

/// The changes that are asked for.
fn changes_command(alloc: Global, matches: &ArgMatches<'_>) -> Result<Command, RunFault>
    ensures name { IfOk result (λ command. command_name command ≡ codes "changes") }
    ensures causes { IfErr result IsWordsFault }
{
    let (source, format, workers, metadata) = told_of(alloc, matches)?;
    let request = changes_of(alloc, matches)?;
    Ok(Command::Changes(source, request, format, workers, metadata))
}

/// The part that is asked for.
fn part_of(alloc: Global, matches: &ArgMatches<'_>) -> Result<Part, AllocError>
    ensures { IfOk result (λ part. IsPart (value_at matches.now (codes "only")) (value_at matches.now (codes "without"))
        part) }
{
    if let Some(snapshots) = matches.get_str("only") {
        return Ok(Part::Only(text_of(alloc, snapshots)?));
    }
    match matches.get_str("without") {
        Some(snapshots) => Ok(Part::Without(text_of(alloc, snapshots)?)),
        None => Ok(Part::All),
    }
}

/// The files of a folder that are asked for.
fn orphans_command(alloc: Global, matches: &ArgMatches<'_>) -> Result<Command, RunFault>
    ensures name { IfOk result (λ command. command_name command ≡ codes "orphans") }
    ensures causes { IfErr result IsWordsFault }
{
    let Source::Folder(place) = source_of(alloc, matches)? else {
        return Err(misread(alloc));
    };
    Ok(Command::Orphans(
        place,
        required_unsigned(alloc, matches, "older-than-ms")?,
        format_of(matches),
        required_text(alloc, matches, "metadata")?,
    ))
}

/// The files of a table that are asked for.
fn reachable_command(alloc: Global, matches: &ArgMatches<'_>) -> Result<Command, RunFault>
    ensures name { IfOk result (λ command. command_name command ≡ codes "reachable") }
    ensures causes { IfErr result IsWordsFault }
{
    Ok(Command::Reachable(
        source_of(alloc, matches)?,
        part_of(alloc, matches)?,
        format_of(matches),
        required_text(alloc, matches, "metadata")?,
    ))
}

/// What is asked of a table, under the filter as it stands or relaxed.
fn asked_of(alloc: Global, matches: &ArgMatches<'_>) -> Result<Asked, RunFault>
    ensures { IfErr result IsWordsFault }
{
    Ok(Asked {
        request: request_of(alloc, matches)?,
        relaxed: matches.get_flag("relax"),
    })
}

/// The share that a text names, as `1/4`.
fn share_in(text: &str) -> Option<Share> {
    let (number, count) = text.split_once('/')?;
    let number = number.parse::<u64>().ok()?;
    let count = count.parse::<u64>().ok()?;
    Share::new(number, count)
}

/// The share that is asked for.
fn share_of(alloc: Global, matches: &ArgMatches<'_>) -> Result<Share, RunFault>
    ensures { IfErr result IsWordsFault }
{
    let Some(text) = matches.get_str("part") else {
        return Err(misread(alloc));
    };
    match share_in(text) {
        Some(share) => Ok(share),
        None => Err(RunFault::Words(text_of(
            alloc,
            "error: a share is K/N, with K from 1 to N, and N at most 65536\n",
        )?)),
    }
}

/// The files of states that are named.
fn states_of(alloc: Global, matches: &ArgMatches<'_>) -> Result<States, RunFault>
    ensures { IfErr result IsWordsFault }
{
    let Some(words) = matches.get_strs("states") else {
        return Err(misread(alloc));
    };
    let mut paths = Items::new(alloc);
    'words: for word in words {
        paths.push(text_of(alloc, word)?)?;
    }
    match States::new(paths) {
        Some(states) => Ok(states),
        None => Err(misread(alloc)),
    }
}

/// The share of a plan that is asked for.
fn take_command(alloc: Global, matches: &ArgMatches<'_>) -> Result<Command, RunFault>
    ensures name { IfOk result (λ command. command_name command ≡ codes "take") }
    ensures causes { IfErr result IsWordsFault }
{
    let share = share_of(alloc, matches)?;
    let workers = workers_of(alloc, matches)?;
    let metadata = required_text(alloc, matches, "metadata")?;
    let source = source_of(alloc, matches)?;
    let asked = asked_of(alloc, matches)?;
    Ok(Command::Take(source, asked, share, workers, metadata))
}

/// The states that are to be joined.
fn join_command(alloc: Global, matches: &ArgMatches<'_>) -> Result<Command, RunFault>
    ensures name { IfOk result (λ command. command_name command ≡ codes "join") }
    ensures causes { IfErr result IsWordsFault }
{
    Ok(Command::Join(states_of(alloc, matches)?))
}

/// The plan of states that is asked for.
fn finish_command(alloc: Global, matches: &ArgMatches<'_>) -> Result<Command, RunFault>
    ensures name { IfOk result (λ command. command_name command ≡ codes "finish") }
    ensures causes { IfErr result IsWordsFault }
{
    let (source, format, workers, metadata) = told_of(alloc, matches)?;
    let states = states_of(alloc, matches)?;
    let asked = asked_of(alloc, matches)?;
    Ok(Command::Finish(source, asked, states, format, workers, metadata))
}

/// The commit that is asked for, and where its files are.
fn commit_command(
    alloc: Global,
    matches: &ArgMatches<'_>,
    kind: ChangeKind,
) -> Result<Command, RunFault>
    ensures name { IfOk result (λ command. command_name command ≡ name_of kind) }
    ensures causes { IfErr result IsWordsFault }
{
    Ok(Command::Commit(source_of(alloc, matches)?, commit_of(alloc, matches, kind)?))
}

/// The plan of a manifest list that is asked for.
fn list_plan_command(alloc: Global, matches: &ArgMatches<'_>) -> Result<Command, RunFault>
    ensures name { IfOk result (λ command. command_name command ≡ codes "list-plan") }
    ensures causes { IfErr result IsWordsFault }
{
    Ok(Command::ListPlan(lists_of(alloc, matches)?, format_of(matches)))
}

/// What the words were found to ask for.
fn command_of(alloc: Global, matches: &ArgMatches<'_>) -> Result<Command, RunFault>
    ensures name { IfOk result (λ command. subcommand_name_of matches.now ≡ Some (command_name command)) }
    ensures causes { IfErr result IsWordsFault }
{
    let Some((command, matches)) = matches.subcommand() else {
        return Err(misread(alloc));
    };
    match command {
        "plan" => scan_command(alloc, matches, Relaxed::Plan),
        "list-plan" => list_plan_command(alloc, matches),
        "show" => show_command(alloc, matches),
        "locate" => locate_command(alloc, matches),
        "columns" => columns_command(alloc, matches),
        "audit" => audit_command(alloc, matches),
        "explain" => scan_command(alloc, matches, Relaxed::Explanation),
        "changes" => changes_command(alloc, matches),
        "reachable" => reachable_command(alloc, matches),
        "orphans" => orphans_command(alloc, matches),
        "append" => commit_command(alloc, matches, ChangeKind::Append),
        "row-delta" => commit_command(alloc, matches, ChangeKind::RowDelta),
        "take" => take_command(alloc, matches),
        "join" => join_command(alloc, matches),
        "finish" => finish_command(alloc, matches),
        "drill" => Ok(Command::Drill(drill_of(alloc, matches)?)),
        _ => Err(misread(alloc)),
    }
}

/// The same, of matches that are not needed any more.
pub fn matched(alloc: Global, matches: ArgMatches<'_>) -> Result<Command, RunFault>
    ensures { IfErr result IsWordsFault }
{
    let command = command_of(alloc, &matches);
    drop(matches);
    command
}
