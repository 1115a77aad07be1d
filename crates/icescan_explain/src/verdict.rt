//! What became of a manifest or a file.

ghost use Rattle.std.specs.Prelude.{◌≡◌};
ghost use Rattle.icescan_explain.specs.Fates.{is_kept, subject_of};
ghost use Rattle.icescan_explain.specs.Texts.{subject_name};

use contract_words::{Items, Text};
use ice_value::FileContent;
use shared_value::Shared;

/// What a verdict is about.
#[derive(Clone, Copy, Debug, PartialEq, Eq)]
pub enum Subject {
    /// A manifest.
    Manifest,
    /// A data file.
    Data,
    /// A delete file.
    Deletes,
}

impl Subject {
    /// The subject of what a file holds.
    pub fn of(content: FileContent) -> Subject
        ensures { result ≡ subject_of content }
    {
        match content {
            FileContent::Data => Subject::Data,
            FileContent::PositionDeletes | FileContent::EqualityDeletes => Subject::Deletes,
        }
    }

    /// The word for it in an explanation.
    pub fn name(self) -> &'static [u8]
        ensures { result.now ≡ subject_name self }
    {
        match self {
            Subject::Manifest => b"manifest",
            Subject::Data => b"data",
            Subject::Deletes => b"delete",
        }
    }
}

/// What became of a manifest or a file under a filter.
#[derive(Debug, Drop)]
pub enum Fate {
    /// A manifest is read, a file is kept.
    Kept,
    /// It is left out by the filter's projection through its partition spec: a manifest by its row's summaries, a file
    /// by its partition values. The partition field is that of the first test, predicate by predicate, that alone says
    /// no. There is none where the filter is never met, as `false` is, whatever its predicates are.
    ByPartition(Option<Shared<Text>>),
    /// A data file that the projection keeps is left out by its counts and bounds. The column is that of the first
    /// predicate that alone says no.
    ByBounds(Option<Shared<Text>>),
}

impl Fate {
    /// Whether it is not left out.
    pub fn is_kept(&self) -> bool
        ensures { result ≡ is_kept self.now }
    {
        matches!(self, Fate::Kept)
    }
}

/// A manifest or a live file, and what became of it.
#[derive(Debug, Drop)]
pub struct Verdict {
    /// Its path.
    pub path: Items<u8>,
    /// How many bytes it has, as the manifest list or the manifest says; any number.
    pub bytes: i64,
    /// What it is.
    pub subject: Subject,
    /// What became of it.
    pub fate: Fate,
}
