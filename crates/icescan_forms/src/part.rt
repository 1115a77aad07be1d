//! The part of an answer that is asked for.

use contract_words::Text;

/// Which of the files that a table reaches are told.
#[derive(Debug, Drop)]
pub enum Part {
    /// All of them.
    All,
    /// Those that some snapshots alone reach: their ids, with commas between them.
    Only(Text),
    /// Those that are reached without some snapshots: their ids, with commas between them.
    Without(Text),
}
