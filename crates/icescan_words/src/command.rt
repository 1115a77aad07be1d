//! What the words of a command line ask for.

ghost use Rattle.std.specs.Prelude.{◌≡◌, ◌<◌, [], length, MatchOption};

use contract_words::{Items, Text};
use ice_meta::Target;
use icescan_forms::{Format, Part};
use icescan_text::{ChangesRequest, CommitRequest, Drill, Request, Separator, Share};

/// A folder, and how the paths of the files below it begin.
#[derive(Debug, Drop)]
pub struct Place {
    pub folder: Text,
    pub prefix: Text,
}

/// Where a manifest list is.
#[derive(Debug, Drop)]
pub enum Lists {
    /// At this path of a bundle; where there is none, it is the bundle's first file.
    Bundle(Option<Text>),
    /// Below a folder, at this path.
    Folder(Place, Text),
}

/// Where a file is.
#[derive(Debug, Drop)]
pub enum Source {
    /// In a bundle.
    Bundle,
    /// Below a folder.
    Folder(Place),
}

/// What is told of a table in a folder.
#[derive(Clone, Copy, Debug, PartialEq, Eq)]
pub enum Located {
    /// Words that name its newest metadata, set apart so.
    Newest(Separator),
    /// Each of its metadata files.
    All,
}

/// What is asked for under a relaxed filter.
#[derive(Clone, Copy, Debug, PartialEq, Eq)]
pub enum Relaxed {
    /// The plan.
    Plan,
    /// The plan, explained.
    Explanation,
}

/// The plan that is asked of a table, under its filter as it stands or relaxed.
#[derive(Debug, Drop)]
pub struct Asked {
    pub request: Request,
    pub relaxed: bool,
}

/// The names of the files of states, of which there is one at least.
#[derive(Debug, Drop)]
pub struct States {
    paths: Items<Text>,
    ghost some: { 0 < length paths },
}

impl States {
    /// These names, where there is one.
    pub fn new(paths: Items<Text>) -> Option<States>
        ensures { MatchOption result (paths ≡ []) (λ states. states.paths ≡ paths) }
    {
        if paths.as_slice().is_empty() {
            return None;
        }
        Some(States { paths })
    }

    /// The names.
    pub fn paths(&self) -> &[Text]
        ensures same { result.now ≡ self.now.paths }
        ensures some { 0 < length result.now }
    {
        self.paths.as_slice()
    }
}

/// What the words ask for.
#[derive(Debug, Drop)]
pub enum Command {
    /// The plan of a manifest list, in this form.
    ListPlan(Lists, Format),
    /// The plan, in this form and by so many workers, that is asked of the table whose metadata is at this path.
    Plan(Source, Request, Format, usize, Text),
    /// A commit.
    Commit(Source, CommitRequest),
    /// What the metadata at this path says, in this form.
    Show(Source, Format, Text),
    /// This of the table in this folder.
    Locate(Text, Located),
    /// The columns, in this form, that a filter of this snapshot names, of the table whose metadata is at this path.
    Columns(Source, Target, Format, Text),
    /// The audit, in this form and by so many workers, of this snapshot of the table whose metadata is at this path.
    Audit(Source, Target, Format, usize, Text),
    /// The audits, in this form and by so many workers, of all snapshots of the table whose metadata is at this path.
    AuditAll(Source, Format, usize, Text),
    /// The plan, by so many workers, that is asked of the table whose metadata is at this path, explained in this form.
    Explain(Source, Request, Format, usize, Text),
    /// This of the table whose metadata is at this path, in this form and by so many workers, under a relaxed filter.
    Relaxed(Relaxed, Source, Request, Format, usize, Text),
    /// The changes, in this form and by so many workers, that are asked of the table whose metadata is at this path.
    Changes(Source, ChangesRequest, Format, usize, Text),
    /// This part, in this form, of the files that the table reaches whose metadata is at this path.
    Reachable(Source, Part, Format, Text),
    /// The files below this folder, older than so many milliseconds, in this form, that the table does not reach whose
    /// metadata is at this path.
    Orphans(Place, u64, Format, Text),
    /// The state of this share, by so many workers, of the plan that is asked of the table whose metadata is at this path.
    Take(Source, Asked, Share, usize, Text),
    /// The states in these files as one.
    Join(States),
    /// The plan of the states in these files, in this form and its text by so many workers, that is asked of the table
    /// whose metadata is at this path.
    Finish(Source, Asked, States, Format, usize, Text),
    /// A drill.
    Drill(Drill),
    /// A text of help, or the version.
    Text(Text),
}
