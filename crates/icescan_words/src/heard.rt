//! Whether a command is the one that the words ask for, found without the parser.

ghost use Rattle.std.specs.Prelude.{◌≡◌, ◌∷◌, [], IfOk, IfSome, IsTrue, None, Some, bytes_eq, codes, false};
ghost use Rattle.std.specs.Prelude.{if◌then◌else◌, map, nat_eq};
ghost use Rattle.std.specs.Prelude.{option_and_then, option_map, string_bytes, true};
ghost use Rattle.std.specs.List.{after_first, before_first, list_any, starts_with};
ghost use Rattle.uuid.specs.Text.{parsed};
ghost use Rattle.icescan_words.specs.Heard.{HasChanges, HasNamedPlan, IsFlagged, IsNamed, IsRelaxed, relaxed_name};
ghost use Rattle.icescan_words.specs.Heard.{AsksFor, HasCommit, HasDrill, HasFormat, HasIds, HasRequest, HasSource};
ghost use Rattle.icescan_words.specs.Heard.{HasLocated, HasPart, HasTarget, HasWorkers, Names, asks_help, is_equals};
ghost use Rattle.icescan_words.specs.Heard.{HasAsked, HasShare, IsOfAll, is_flag, is_slash};
ghost use Rattle.icescan_words.specs.Heard.{list_of, name_of};
ghost use Rattle.icescan_words.specs.Heard.{option_in, option_items, plain_words, located_by, signed, source_of};
ghost use Rattle.icescan_words.specs.Heard.{takes_next};
ghost use Rattle.icescan_words.specs.Heard.{unsigned};
ghost use Rattle.icescan_words.specs.declared.command.Source.TheVariants as source;

use crate::answer_format::format_by;
use crate::command::{Asked, Command, Lists, Located, Place, Relaxed, Source, States};
use contract_words::Text;
use ice_catalog_changes::Ids;
use ice_meta::Target;
use icescan_forms::{Format, Part};
use icescan_text::{ChangeKind, ChangesRequest, CommitRequest, Drill, Request, Separator, Share};
use std::alloc::{AllocError, Global};
use uuid::Uuid;

/// What stands before the first `=` of a word, and what stands after it if there is one.
fn parts_of(word: &str) -> (&str, Option<&str>)
    ensures front { result.0.now ≡ before_first is_equals word.now }
    ensures value { option_map (λ s. s.now) result.1
        ≡ (if list_any is_equals word.now then Some (after_first is_equals word.now) else None) }
{
    match word.split_once('=') {
        Some((front, value)) => (front, Some(value)),
        None => (word, None),
    }
}

/// The value that the words give the option of this name.
fn option_in<'a>(words: &'a [String], name: &str) -> Option<&'a str>
    ensures { option_map (λ s. s.now) result ≡ option_in (map string_bytes words.now) name.now }
{
    for i in 0..words.len() {
        let word = words[i].as_str();
        if word == "--" {
            return None;
        }
        let (front, value) = parts_of(word);
        if front == name {
            return match value {
                Some(_) => value,
                None => words.get(i + 1).map(String::as_str),
            };
        }
    }
    None
}

/// Whether it is an option that has no value.
fn is_flag(word: &str) -> bool
    ensures { result ≡ is_flag word.now }
{
    word == "--bundle"
        || word == "--quiet"
        || word == "--null"
        || word == "--all"
        || word == "--appends"
        || word == "--explain"
        || word == "--no-links"
        || word == "--relax"
}

/// Whether the word after this option is its value.
fn takes_next(word: &str) -> bool
    ensures { result ≡ takes_next word.now }
{
    match parts_of(word).1 {
        Some(_) => false,
        None => !is_flag(word),
    }
}

/// Whether a word begins with two hyphens, as an option does.
fn is_option(word: &str) -> bool
    ensures { result ≡ starts_with nat_eq word.now (codes "--") }
{
    word.starts_with("--")
}

/// The words that are no options and no values of options.
fn plain_words<'a>(alloc: Global, words: &'a [String]) -> Result<Vec<&'a str>, AllocError>
    ensures { IfOk result (λ plain. map (λ s. s.now) plain.items ≡ plain_words (map string_bytes words.now)) }
{
    let mut plain = Vec::new(alloc);
    let mut is_value = false;
    let mut is_path = false;
    for word in words {
        let word = word.as_str();
        if is_path {
            plain.push(word)?;
        } else if is_value {
            is_value = false;
        } else if word == "--" {
            is_path = true;
        } else if is_option(word) {
            is_value = takes_next(word);
        } else {
            plain.push(word)?;
        }
    }
    Ok(plain)
}

/// Whether a word asks for help or for the version.
fn asks_help(word: &str) -> bool
    ensures { result ≡ asks_help word.now }
{
    word == "help"
        || word == "--help"
        || word == "--version"
        || word.starts_with("-h")
        || word.starts_with("-V")
}

/// Whether one of the words asks for help or for the version.
fn any_asks_help(words: &[String]) -> bool
    ensures { result ≡ list_any asks_help (map string_bytes words.now) }
{
    for word in words {
        if asks_help(word.as_str()) {
            return true;
        }
    }
    false
}

/// Whether one of the words is this one.
fn has_word(words: &[String], wanted: &str) -> bool
    ensures { result ≡ list_any (λ word. bytes_eq word wanted.now) (map string_bytes words.now) }
{
    for word in words {
        if word.as_str() == wanted {
            return true;
        }
    }
    false
}

/// Whether a value is this text.
fn is_text(value: Option<&str>, text: &str) -> bool
    ensures { IsTrue result → option_map (λ s. s.now) value.entry ≡ Some text.now }
{
    match value {
        Some(word) => word == text,
        None => false,
    }
}

/// Whether a value writes this number.
fn is_signed(value: Option<&str>, number: i64) -> bool
    ensures { IsTrue result → signed (option_map (λ s. s.now) value.entry) ≡ Some number }
{
    let Some(text) = value else {
        return false;
    };
    match text.parse::<i64>() {
        Ok(read) => read == number,
        Err(_) => false,
    }
}

/// Whether a value writes this number.
fn is_unsigned(value: Option<&str>, number: u64) -> bool
    ensures { IsTrue result → unsigned (option_map (λ s. s.now) value.entry) ≡ Some number }
{
    let Some(text) = value else {
        return false;
    };
    match text.parse::<u64>() {
        Ok(read) => read == number,
        Err(_) => false,
    }
}

/// Whether a value is the text of this UUID.
fn is_uuid(value: Option<&str>, uuid: &Uuid) -> bool
    ensures { IsTrue result → option_and_then parsed (option_map (λ s. s.now) value.entry) ≡ Some uuid.now }
{
    let Some(text) = value else {
        return false;
    };
    match Uuid::parse_str(text) {
        Ok(read) => read == *uuid,
        Err(_) => false,
    }
}

/// Whether the words give the option of this name this text.
fn has_text(words: &[String], name: &str, text: &str) -> bool
    ensures { IsTrue result → option_in (map string_bytes words.now) name.now ≡ Some text.now }
{
    is_text(option_in(words, name), text)
}

/// Whether the words give the option of this name this number.
fn has_signed(words: &[String], name: &str, number: i64) -> bool
    ensures { IsTrue result → signed (option_in (map string_bytes words.now) name.now) ≡ Some number }
{
    is_signed(option_in(words, name), number)
}

/// Whether the words give the option of this name this number.
fn has_unsigned(words: &[String], name: &str, number: u64) -> bool
    ensures { IsTrue result → unsigned (option_in (map string_bytes words.now) name.now) ≡ Some number }
{
    is_unsigned(option_in(words, name), number)
}

/// Whether the words give this UUID.
fn has_uuid(words: &[String], uuid: &Uuid) -> bool
    ensures { IsTrue result
        → option_and_then parsed (option_in (map string_bytes words.now) (codes "--uuid")) ≡ Some uuid.now }
{
    is_uuid(option_in(words, "--uuid"), uuid)
}

/// Whether the plain words are these.
fn are_words(plain: &[&str], wanted: &[&str]) -> bool
    ensures { IsTrue result → map (λ s. s.now) plain.now ≡ map (λ s. s.now) wanted.now }
{
    plain == wanted
}

/// Whether the words name no folder.
fn is_bundle(words: &[String]) -> bool
    ensures { IsTrue result → HasSource (map string_bytes words.now) source.Bundle }
{
    option_in(words, "--dir").is_none() || option_in(words, "--prefix").is_none()
}

/// Whether the words name this folder.
fn is_place(words: &[String], place: &Place) -> bool
    ensures { IsTrue result → HasSource (map string_bytes words.now) (source.Folder place.now) }
{
    has_text(words, "--dir", place.folder.as_str())
        && has_text(words, "--prefix", place.prefix.as_str())
}

/// Whether the words say that the files are there.
fn has_source(words: &[String], source: &Source) -> bool
    ensures { IsTrue result → HasSource (map string_bytes words.now) source.now }
{
    match source {
        Source::Bundle => is_bundle(words),
        Source::Folder(place) => is_place(words, place),
    }
}

/// Whether the words name this snapshot.
fn has_target(words: &[String], target: &Target) -> bool
    ensures { IsTrue result → HasTarget (map string_bytes words.now) target.now }
{
    let name = option_in(words, "--ref");
    let id = option_in(words, "--snapshot");
    match target {
        Target::Main => name.is_none() && id.is_none(),
        Target::Ref(wanted) => is_text(name, wanted.as_str()),
        Target::Snapshot(wanted) => name.is_none() && is_signed(id, *wanted),
    }
}

/// Whether the words have this filter, or none.
fn has_filter(words: &[String], filter: Option<&Text>) -> bool
    ensures { IsTrue result
        → option_in (map string_bytes words.now) (codes "--filter") ≡ option_map (λ t. t.now) filter.entry }
{
    let value = option_in(words, "--filter");
    match filter {
        Some(wanted) => is_text(value, wanted.as_str()),
        None => value.is_none(),
    }
}

/// Whether the words ask this of a table.
fn has_request(words: &[String], request: &Request) -> bool
    ensures { IsTrue result → HasRequest (map string_bytes words.now) request.now }
{
    has_filter(words, request.filter.as_ref()) && has_target(words, &request.target)
}

/// Whether the words name this form.
fn has_format(words: &[String], format: Format) -> bool
    ensures { IsTrue result → HasFormat (map string_bytes words.now) format }
{
    format == format_by(option_in(words, "--format"))
}

/// What is told of a table where a word asks for all of its metadata or for a NUL, and where none does.
fn located_by(is_all: bool, is_null: bool) -> Located
    ensures { result ≡ located_by is_all is_null }
{
    if is_all {
        Located::All
    } else if is_null {
        Located::Newest(Separator::Nul)
    } else {
        Located::Newest(Separator::Space)
    }
}

/// Whether the words ask for this of a table.
fn has_located(words: &[String], located: Located) -> bool
    ensures { IsTrue result → HasLocated (map string_bytes words.now) located }
{
    located == located_by(has_word(words, "--all"), has_word(words, "--null"))
}

/// Whether the words ask for so many workers.
fn has_workers(words: &[String], workers: usize) -> bool
    ensures { IsTrue result → HasWorkers (map string_bytes words.now) workers }
{
    let value = option_in(words, "--workers");
    if value.is_none() {
        workers == 1
    } else {
        is_unsigned(value, workers as u64)
    }
}

/// Whether the plain words are the name of a commit's command and its two paths.
fn has_paths(plain: &[&str], request: &CommitRequest) -> bool
    ensures { IsTrue result → map (λ s. s.now) plain.now
        ≡ name_of request.now.kind ∷ request.now.metadata ∷ request.now.change ∷ [] }
{
    let metadata = request.metadata.as_str();
    let change = request.change.as_str();
    match request.kind {
        ChangeKind::Append => are_words(plain, &["append", metadata, change]),
        ChangeKind::RowDelta => are_words(plain, &["row-delta", metadata, change]),
    }
}

/// Whether the words give a commit these names and this time.
fn has_ids(words: &[String], ids: &Ids) -> bool
    ensures { IsTrue result → HasIds (map string_bytes words.now) ids.now }
{
    has_signed(words, "--snapshot-id", ids.snapshot)
        && has_uuid(words, &ids.uuid)
        && has_signed(words, "--now-ms", ids.now_ms)
}

/// Whether the words ask for this commit.
fn has_commit(words: &[String], plain: &[&str], request: &CommitRequest) -> bool
    requires { map (λ s. s.now) plain.now ≡ plain_words (map string_bytes words.now) }
    ensures { IsTrue result → HasCommit (map string_bytes words.now) request.now }
{
    has_paths(plain, request)
        && has_ids(words, &request.ids)
        && has_text(words, "--out", request.out.as_str())
}

/// Whether the words ask for this drill.
fn has_drill(words: &[String], plain: &[&str], drill: Drill) -> bool
    requires { map (λ s. s.now) plain.now ≡ plain_words (map string_bytes words.now) }
    ensures { IsTrue result → HasDrill (map string_bytes words.now) drill }
{
    are_words(plain, &["drill"])
        && has_unsigned(words, "--threads", drill.threads())
        && has_unsigned(words, "--commits", drill.commits())
}

/// Whether the plain words are `list-plan` and the path of this list, if it has one.
fn names_list(plain: &[&str], lists: &Lists) -> bool
    ensures { IsTrue result → map (λ s. s.now) plain.now ≡ codes "list-plan" ∷ option_items (list_of lists.now) }
{
    match lists {
        Lists::Bundle(None) => are_words(plain, &["list-plan"]),
        Lists::Bundle(Some(list)) | Lists::Folder(_, list) => {
            are_words(plain, &["list-plan", list.as_str()])
        }
    }
}

/// Whether the words say that the manifest list is there.
fn has_lists(words: &[String], lists: &Lists) -> bool
    ensures { IsTrue result → HasSource (map string_bytes words.now) (source_of lists.now) }
{
    match lists {
        Lists::Bundle(_) => is_bundle(words),
        Lists::Folder(place, _) => is_place(words, place),
    }
}

/// Whether the words ask for the plan of this manifest list, in whatever form.
fn is_list(words: &[String], plain: &[&str], lists: &Lists) -> bool
    requires { map (λ s. s.now) plain.now ≡ plain_words (map string_bytes words.now) }
    ensures { IsTrue result
        → (plain_words (map string_bytes words.now) ≡ codes "list-plan" ∷ option_items (list_of lists.now))
        × HasSource (map string_bytes words.now) (source_of lists.now) }
{
    names_list(plain, lists) && has_lists(words, lists)
}

/// Whether the words name this command, its one path and where its files are.
fn is_about(words: &[String], plain: &[&str], name: &str, source: &Source, path: &str) -> bool
    requires { map (λ s. s.now) plain.now ≡ plain_words (map string_bytes words.now) }
    ensures { IsTrue result → Names (map string_bytes words.now) name.now path.now
        × HasSource (map string_bytes words.now) source.now }
{
    are_words(plain, &[name, path]) && has_source(words, source)
}

/// Whether this word is among the words just where it is asked.
fn is_flagged(words: &[String], word: &str, asked: bool) -> bool
    ensures { IsTrue result → IsFlagged (map string_bytes words.now) word.now asked }
{
    asked == has_word(words, word)
}

/// Whether the words ask this of a table, in this form and by so many workers, with the filter relaxed or not.
fn has_plan(
    words: &[String],
    request: &Request,
    format: Format,
    workers: usize,
    relaxed: bool,
) -> bool
    ensures { IsTrue result → HasRequest (map string_bytes words.now) request.now
        × HasFormat (map string_bytes words.now) format × HasWorkers (map string_bytes words.now) workers
        × IsRelaxed (map string_bytes words.now) relaxed }
{
    has_request(words, request)
        && has_format(words, format)
        && has_workers(words, workers)
        && is_flagged(words, "--relax", relaxed)
}

/// The name of the command that asks for this.
fn relaxed_name(what: Relaxed) -> &'static str
    ensures { result.now ≡ relaxed_name what }
{
    match what {
        Relaxed::Plan => "plan",
        Relaxed::Explanation => "explain",
    }
}

/// Whether the words ask for this snapshot, in this form.
fn has_columns(words: &[String], target: &Target, format: Format) -> bool
    ensures { IsTrue result → HasTarget (map string_bytes words.now) target.now
        × HasFormat (map string_bytes words.now) format }
{
    has_target(words, target) && has_format(words, format)
}

/// Whether the words ask for the audit of this snapshot, in this form and by so many workers.
fn has_audit(words: &[String], target: &Target, format: Format, workers: usize) -> bool
    ensures { IsTrue result → HasTarget (map string_bytes words.now) target.now
        × HasFormat (map string_bytes words.now) format × HasWorkers (map string_bytes words.now) workers
        × IsOfAll (map string_bytes words.now) false }
{
    has_columns(words, target, format)
        && has_workers(words, workers)
        && is_flagged(words, "--all", false)
}

/// Whether the words ask for the audits of all snapshots, in this form and by so many workers.
fn has_audits(words: &[String], format: Format, workers: usize) -> bool
    ensures { IsTrue result → HasFormat (map string_bytes words.now) format
        × HasWorkers (map string_bytes words.now) workers × IsOfAll (map string_bytes words.now) true }
{
    has_format(words, format) && has_workers(words, workers) && is_flagged(words, "--all", true)
}

/// Whether the words name this snapshot by the option of this name.
fn has_named(words: &[String], name: &str, target: &Target) -> bool
    ensures { IsTrue result → IsNamed (option_in (map string_bytes words.now) name.now) target.now }
{
    let value = option_in(words, name);
    match target {
        Target::Main => value.is_none(),
        Target::Ref(wanted) => is_text(value, wanted.as_str()),
        Target::Snapshot(wanted) => is_signed(value, *wanted),
    }
}

/// Whether the words ask for the plan of the snapshot that the option of this name names.
fn has_named_plan(words: &[String], name: &str, request: &Request) -> bool
    ensures { IsTrue result → HasNamedPlan (map string_bytes words.now) name.now request.now }
{
    has_filter(words, request.filter.as_ref()) && has_named(words, name, &request.target)
}

/// Whether the words ask for these changes.
fn has_changes(words: &[String], request: &ChangesRequest) -> bool
    ensures { IsTrue result → HasChanges (map string_bytes words.now) request.now }
{
    has_named_plan(words, "--from", &request.earlier)
        && has_named_plan(words, "--to", &request.later)
        && is_flagged(words, "--appends", request.appends)
}

/// Whether the words ask for these changes, in this form and by so many workers.
fn has_changes_told(
    words: &[String],
    request: &ChangesRequest,
    format: Format,
    workers: usize,
) -> bool
    ensures { IsTrue result → HasChanges (map string_bytes words.now) request.now
        × HasFormat (map string_bytes words.now) format × HasWorkers (map string_bytes words.now) workers }
{
    has_changes(words, request) && has_format(words, format) && has_workers(words, workers)
}

/// Whether the words ask for this part.
fn has_part(words: &[String], part: &Part) -> bool
    ensures { IsTrue result → HasPart (map string_bytes words.now) part.now }
{
    let only = option_in(words, "--only");
    let without = option_in(words, "--without");
    match part {
        Part::All => only.is_none() && without.is_none(),
        Part::Only(wanted) => is_text(only, wanted.as_str()),
        Part::Without(wanted) => only.is_none() && is_text(without, wanted.as_str()),
    }
}

/// Whether the words ask for this part, in this form.
fn has_part_told(words: &[String], part: &Part, format: Format) -> bool
    ensures { IsTrue result → HasPart (map string_bytes words.now) part.now
        × HasFormat (map string_bytes words.now) format }
{
    has_part(words, part) && has_format(words, format)
}

/// Whether the words name this folder, and so many milliseconds.
fn has_age(words: &[String], place: &Place, older_than_ms: u64) -> bool
    ensures { IsTrue result → HasSource (map string_bytes words.now) (source.Folder place.now)
        × (unsigned (option_in (map string_bytes words.now) (codes "--older-than-ms")) ≡ Some older_than_ms) }
{
    is_place(words, place) && has_unsigned(words, "--older-than-ms", older_than_ms)
}

/// Whether the words name this folder, so many milliseconds, and this form.
fn has_age_told(words: &[String], place: &Place, older_than_ms: u64, format: Format) -> bool
    ensures { IsTrue result → HasSource (map string_bytes words.now) (source.Folder place.now)
        × (unsigned (option_in (map string_bytes words.now) (codes "--older-than-ms")) ≡ Some older_than_ms)
        × HasFormat (map string_bytes words.now) format }
{
    has_age(words, place, older_than_ms) && has_format(words, format)
}

/// Whether the words ask for this plan, under its filter as it stands or relaxed.
fn has_asked(words: &[String], asked: &Asked) -> bool
    ensures { IsTrue result → HasAsked (map string_bytes words.now) asked.now }
{
    has_request(words, &asked.request) && is_flagged(words, "--relax", asked.relaxed)
}

/// Whether a text is a share's number, a slash, and how many shares there are.
fn is_share(text: &str, share: Share) -> bool
    ensures { IsTrue result → (unsigned (Some (before_first is_slash text.now)) ≡ Some share.number)
        × (unsigned (Some (after_first is_slash text.now)) ≡ Some share.count) }
{
    match text.split_once('/') {
        Some((number, count)) => {
            is_unsigned(Some(number), share.number()) && is_unsigned(Some(count), share.count())
        }
        None => false,
    }
}

/// Whether the words ask for this share.
fn has_share(words: &[String], share: Share) -> bool
    ensures { IsTrue result → HasShare (map string_bytes words.now) share }
{
    match option_in(words, "--part") {
        Some(text) => is_share(text, share),
        None => false,
    }
}

/// Whether the words ask for this share of this plan, by so many workers.
fn has_take(words: &[String], asked: &Asked, share: Share, workers: usize) -> bool
    ensures { IsTrue result → HasAsked (map string_bytes words.now) asked.now
        × HasShare (map string_bytes words.now) share × HasWorkers (map string_bytes words.now) workers }
{
    has_asked(words, asked) && has_share(words, share) && has_workers(words, workers)
}

/// Whether words are these texts.
fn are_texts(words: &[&str], texts: &[Text]) -> bool
    ensures { IsTrue result → map (λ s. s.now) words.now ≡ texts.now }
{
    if words.len() != texts.len() {
        return false;
    }
    'words: for i in 0..words.len() {
        if words[i] != texts[i].as_str() {
            return false;
        }
    }
    true
}

/// The words behind the first, where that is this one.
fn words_behind<'b, 'a>(words: &'b [&'a str], first: &str) -> Option<&'b [&'a str]>
    ensures { IfSome result (λ rest. map (λ s. s.now) words.now ≡ first.now ∷ map (λ s. s.now) rest.now) }
{
    let (word, rest) = words.split_first()?;
    if *word == first { Some(rest) } else { None }
}

/// Whether the plain words are `join` and these files.
fn names_joined(plain: &[&str], states: &States) -> bool
    ensures { IsTrue result → map (λ s. s.now) plain.now ≡ codes "join" ∷ states.now.paths }
{
    match words_behind(plain, "join") {
        Some(rest) => are_texts(rest, states.paths()),
        None => false,
    }
}

/// Whether the plain words are `finish`, this path and these files.
fn names_finished(plain: &[&str], path: &str, states: &States) -> bool
    ensures { IsTrue result → map (λ s. s.now) plain.now ≡ codes "finish" ∷ path.now ∷ states.now.paths }
{
    let Some(rest) = words_behind(plain, "finish") else {
        return false;
    };
    match words_behind(rest, path) {
        Some(rest) => are_texts(rest, states.paths()),
        None => false,
    }
}

/// Whether the words ask for this plan, in this form and by so many workers.
fn has_finish(words: &[String], asked: &Asked, format: Format, workers: usize) -> bool
    ensures { IsTrue result → HasAsked (map string_bytes words.now) asked.now
        × HasFormat (map string_bytes words.now) format × HasWorkers (map string_bytes words.now) workers }
{
    has_asked(words, asked) && has_format(words, format) && has_workers(words, workers)
}

/// Whether the words, of which the plain ones are given, ask for this command.
fn asks_with(words: &[String], plain: &[&str], command: &Command) -> bool
    requires { map (λ s. s.now) plain.now ≡ plain_words (map string_bytes words.now) }
    ensures { IsTrue result → AsksFor (map string_bytes words.now) command.now }
{
    match command {
        Command::ListPlan(lists, format) => {
            is_list(words, plain, lists) && has_format(words, *format)
        }
        Command::Plan(source, request, format, workers, path) => {
            is_about(words, plain, "plan", source, path.as_str())
                && has_plan(words, request, *format, *workers, false)
        }
        Command::Commit(source, request) => {
            has_commit(words, plain, request) && has_source(words, source)
        }
        Command::Show(source, format, path) => {
            is_about(words, plain, "show", source, path.as_str()) && has_format(words, *format)
        }
        Command::Locate(folder, located) => {
            are_words(plain, &["locate", folder.as_str()]) && has_located(words, *located)
        }
        Command::Columns(source, target, format, path) => {
            is_about(words, plain, "columns", source, path.as_str())
                && has_columns(words, target, *format)
        }
        Command::Audit(source, target, format, workers, path) => {
            is_about(words, plain, "audit", source, path.as_str())
                && has_audit(words, target, *format, *workers)
        }
        Command::AuditAll(source, format, workers, path) => {
            is_about(words, plain, "audit", source, path.as_str())
                && has_audits(words, *format, *workers)
        }
        Command::Explain(source, request, format, workers, path) => {
            is_about(words, plain, "explain", source, path.as_str())
                && has_plan(words, request, *format, *workers, false)
        }
        Command::Relaxed(what, source, request, format, workers, path) => {
            is_about(words, plain, relaxed_name(*what), source, path.as_str())
                && has_plan(words, request, *format, *workers, true)
        }
        Command::Changes(source, request, format, workers, path) => {
            is_about(words, plain, "changes", source, path.as_str())
                && has_changes_told(words, request, *format, *workers)
        }
        Command::Reachable(source, part, format, path) => {
            is_about(words, plain, "reachable", source, path.as_str())
                && has_part_told(words, part, *format)
        }
        Command::Orphans(place, older_than_ms, format, path) => {
            are_words(plain, &["orphans", path.as_str()])
                && has_age_told(words, place, *older_than_ms, *format)
        }
        Command::Take(source, asked, share, workers, path) => {
            is_about(words, plain, "take", source, path.as_str())
                && has_take(words, asked, *share, *workers)
        }
        Command::Join(states) => names_joined(plain, states),
        Command::Finish(source, asked, states, format, workers, path) => {
            names_finished(plain, path.as_str(), states)
                && has_source(words, source)
                && has_finish(words, asked, *format, *workers)
        }
        Command::Drill(drill) => has_drill(words, plain, *drill),
        Command::Text(_) => any_asks_help(words),
    }
}

/// Whether the words ask for this command.
pub fn asks_for(alloc: Global, words: &[String], command: &Command) -> Result<bool, AllocError>
    ensures { IfOk result (λ asked. IsTrue asked → AsksFor (map string_bytes words.now) command.now) }
{
    let plain = plain_words(alloc, words)?;
    Ok(asks_with(words, &plain, command))
}
