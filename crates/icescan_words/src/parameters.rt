//! The words and options that commands take.

use crate::parameter::{Kind, Parameter, Rule};
use clap::builder::ValueParser;

/// The path of a table's metadata.
pub const METADATA: Parameter = Parameter {
    name: "metadata",
    kind: Kind::Word,
    value: "METADATA",
    takes: ValueParser::String,
    rule: Rule::Free,
    help: "The path of the table's metadata",
};

/// The path of a manifest list.
pub const LIST: Parameter = Parameter {
    name: "list",
    kind: Kind::OptionalWord,
    value: "LIST",
    rule: Rule::Unless("bundle"),
    help: "The path of the manifest list, or else the bundle's first file",
    ..METADATA
};

/// The files of states.
pub const STATES: Parameter = Parameter {
    name: "states",
    kind: Kind::Words,
    value: "STATE",
    takes: ValueParser::NonEmptyString,
    help: "The files of the states, on this machine",
    ..METADATA
};

/// The share that is taken.
pub const PART: Parameter = Parameter {
    name: "part",
    kind: Kind::Required,
    value: "K/N",
    takes: ValueParser::String,
    rule: Rule::Free,
    help: "Take the K-th of N shares, by the bytes of the manifests",
};

/// The folder of a table.
pub const FOLDER: Parameter = Parameter {
    name: "folder",
    value: "FOLDER",
    takes: ValueParser::NonEmptyString,
    help: "The folder of the table",
    ..METADATA
};

/// The path of a change file.
pub const CHANGE: Parameter = Parameter {
    name: "change",
    value: "CHANGE",
    help: "The path of the change file; the long help shows one",
    ..METADATA
};

/// Files from standard input.
pub const BUNDLE: Parameter = Parameter {
    name: "bundle",
    kind: Kind::Flag,
    help: "Read the files from standard input, in hexadecimal",
    ..METADATA
};

/// Files below a folder.
pub const DIR: Parameter = Parameter {
    name: "dir",
    kind: Kind::Optional,
    value: "DIR",
    takes: ValueParser::NonEmptyString,
    rule: Rule::With("prefix"),
    help: "Read the files below this folder",
};

/// How the paths of the files below the folder begin.
pub const PREFIX: Parameter = Parameter {
    name: "prefix",
    kind: Kind::Optional,
    value: "TEXT",
    takes: ValueParser::String,
    rule: Rule::With("dir"),
    help: "The front of the table's paths: PREFIX/a is DIR/a",
};

/// Whether what can't be asked of a column is left out of the filter.
pub const RELAX: Parameter = Parameter {
    name: "relax",
    rule: Rule::With("filter"),
    help: "Leave out of the filter what its columns can't be asked",
    ..BUNDLE
};

/// Keeps a terminal from being shown what is read. It has no effect on what the words ask for.
pub const QUIET: Parameter = Parameter {
    name: "quiet",
    help: "Don't show on a terminal how much was read so far",
    ..BUNDLE
};

/// Words that end with a NUL.
pub const NULL: Parameter = Parameter {
    name: "null",
    help: "End each word with a NUL",
    ..BUNDLE
};

/// Every metadata file. Words that end with a NUL are not among its lines.
pub const ALL: Parameter = Parameter {
    name: "all",
    rule: Rule::Without("null"),
    help: "Print each metadata file with its number and time",
    ..BUNDLE
};

/// The form of a plan.
pub const FORMAT: Parameter = Parameter {
    name: "format",
    kind: Kind::Optional,
    value: "FORMAT",
    takes: ValueParser::Names(&["text", "json"]),
    rule: Rule::Default("text"),
    help: "Print lines of text, or a REST catalog's answer as JSON",
};

/// The form in which lines are printed.
pub const LINES_FORMAT: Parameter = Parameter {
    help: "Print lines of text, or an object of JSON in each line",
    ..FORMAT
};

/// The branch or tag whose snapshot is meant. At most one of this and `--snapshot` is there.
pub const REF: Parameter = Parameter {
    name: "ref",
    kind: Kind::Optional,
    value: "NAME",
    takes: ValueParser::String,
    rule: Rule::Without("snapshot"),
    help: "Plan the snapshot of this branch or tag",
};

/// The snapshot that is meant.
pub const SNAPSHOT: Parameter = Parameter {
    name: "snapshot",
    kind: Kind::Optional,
    value: "ID",
    takes: ValueParser::Signed(i64::MIN, i64::MAX),
    rule: Rule::Free,
    help: "Plan the snapshot of this id",
};

/// The same, for an audit.
pub const AUDITED_REF: Parameter = Parameter {
    help: "Audit the snapshot of this branch or tag",
    ..REF
};

pub const AUDITED_SNAPSHOT: Parameter = Parameter {
    rule: Rule::Without("all"),
    help: "Audit the snapshot of this id",
    ..SNAPSHOT
};

/// Whether all snapshots are audited.
pub const AUDITED_ALL: Parameter = Parameter {
    name: "all",
    rule: Rule::Without("ref"),
    help: "Audit all snapshots, each manifest once",
    ..BUNDLE
};

/// The same, for columns.
pub const COLUMNS_REF: Parameter = Parameter {
    help: "The columns of this branch or tag",
    ..REF
};

pub const COLUMNS_SNAPSHOT: Parameter = Parameter {
    help: "The columns of the snapshot of this id",
    ..SNAPSHOT
};

/// Snapshots whose own files are asked for.
pub const ONLY: Parameter = Parameter {
    name: "only",
    kind: Kind::Optional,
    value: "IDS",
    takes: ValueParser::NonEmptyString,
    rule: Rule::Without("without"),
    help: "The files that these snapshots alone need: ids, with commas between them",
};

/// Snapshots that are left out.
pub const WITHOUT: Parameter = Parameter {
    name: "without",
    rule: Rule::Free,
    help: "The files that are needed without these snapshots",
    ..ONLY
};

/// How old files are that are orphans.
pub const OLDER_THAN_MS: Parameter = Parameter {
    name: "older-than-ms",
    kind: Kind::Required,
    value: "N",
    takes: ValueParser::Unsigned(0, u64::MAX),
    rule: Rule::Free,
    help: "Files that were changed in the last N milliseconds are no orphans",
};

/// The folder whose files are asked for, and the front of their paths.
pub const SEARCHED_DIR: Parameter = Parameter {
    kind: Kind::Required,
    help: "The folder whose files are looked at, and below which the table's are",
    ..DIR
};

pub const SEARCHED_PREFIX: Parameter = Parameter {
    kind: Kind::Required,
    ..PREFIX
};

/// The rows that are asked for.
pub const FILTER: Parameter = Parameter {
    name: "filter",
    kind: Kind::Optional,
    value: "TEXT",
    takes: ValueParser::String,
    rule: Rule::Free,
    help: "Leave out files without such rows; see plan --help",
};

/// How many workers there are.
pub const WORKERS: Parameter = Parameter {
    name: "workers",
    kind: Kind::Optional,
    value: "N",
    takes: ValueParser::Unsigned(0, u64::MAX),
    rule: Rule::Default("1"),
    help: "How many threads read manifests, 1 to 64",
};

/// The snapshot from which changes are told, and the one up to which they are.
pub const FROM: Parameter = Parameter {
    name: "from",
    kind: Kind::Required,
    value: "SNAPSHOT|REF",
    takes: ValueParser::String,
    rule: Rule::Free,
    help: "Tell the changes from this snapshot's id, branch or tag",
};

pub const TO: Parameter = Parameter {
    name: "to",
    kind: Kind::Optional,
    help: "Up to this one, or else to the current snapshot",
    ..FROM
};

/// Whether each snapshot between has to be an append.
pub const APPENDS: Parameter = Parameter {
    name: "appends",
    help: "Refuse where a snapshot between is no append",
    ..BUNDLE
};

/// How many threads a drill has.
pub const THREADS: Parameter = Parameter {
    name: "threads",
    kind: Kind::Required,
    value: "T",
    takes: ValueParser::Unsigned(1, 64),
    rule: Rule::Free,
    help: "How many threads commit at once: from 1 to 64",
};

/// How many commits each thread of a drill makes.
pub const COMMITS: Parameter = Parameter {
    name: "commits",
    value: "C",
    takes: ValueParser::Unsigned(1, 100),
    help: "How many commits each of them makes: from 1 to 100",
    ..THREADS
};

/// The id of a commit's snapshot.
pub const SNAPSHOT_ID: Parameter = Parameter {
    name: "snapshot-id",
    kind: Kind::Required,
    value: "N",
    takes: ValueParser::Signed(i64::MIN, i64::MAX),
    rule: Rule::Free,
    help: "The id of the new snapshot, which none may have",
};

/// The UUID by which a commit's files are named.
pub const UUID: Parameter = Parameter {
    name: "uuid",
    kind: Kind::Required,
    value: "U",
    takes: ValueParser::String,
    rule: Rule::Free,
    help: "A new UUID, by which the new files are named",
};

/// The time of a commit.
pub const NOW_MS: Parameter = Parameter {
    name: "now-ms",
    help: "The time, in milliseconds since 1970-01-01 UTC",
    ..SNAPSHOT_ID
};

/// The path at which a commit writes its metadata.
pub const OUT: Parameter = Parameter {
    name: "out",
    value: "PATH",
    help: "The path of the new metadata, where no file may be",
    ..UUID
};
