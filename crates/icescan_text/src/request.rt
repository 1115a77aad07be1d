//! What is asked of a table.

use crate::change::ChangeKind;
use contract_words::Text;
use ice_catalog_changes::Ids;
use ice_meta::Target;

/// What of a table is asked for.
#[derive(Debug, Drop)]
pub struct Request {
    /// The snapshot.
    pub target: Target,
    /// The text of a filter; without one every row is asked for.
    pub filter: Option<Text>,
}

/// The changes of a table that are asked for.
#[derive(Debug, Drop)]
pub struct ChangesRequest {
    /// The plan from which they are told.
    pub earlier: Request,
    /// The plan up to which they are told.
    pub later: Request,
    /// Whether each snapshot after the earlier one has to be an append.
    pub appends: bool,
}

/// How the words of an answer are set apart.
#[derive(Clone, Copy, Debug, PartialEq, Eq)]
pub enum Separator {
    /// By spaces, on one line.
    Space,
    /// Each word is ended by a NUL.
    Nul,
}

/// A commit that is asked for.
#[derive(Debug, Drop)]
pub struct CommitRequest {
    /// What it may add.
    pub kind: ChangeKind,
    /// The names that it takes, and its time.
    pub ids: Ids,
    /// The path of the table's metadata.
    pub metadata: Text,
    /// The path of the change file.
    pub change: Text,
    /// The path of the new metadata.
    pub out: Text,
}
