//! What a commit adds to a table.

ghost use Rattle.std.specs.Prelude.{◌≡◌};
ghost use Rattle.ice_meta.specs.Committing.{operation_name};

use contract_words::Text;

/// What a change does to a table.
#[derive(Clone, Copy, Debug, PartialEq, Eq)]
pub enum Operation {
    /// It adds data files alone.
    Append,
    /// It adds delete files alone.
    Delete,
    /// It adds both.
    Overwrite,
}

impl Operation {
    /// The operation's name in the summary of a snapshot.
    pub fn name(self) -> &'static str
        ensures { result.now ≡ operation_name self }
    {
        match self {
            Operation::Append => "append",
            Operation::Delete => "delete",
            Operation::Overwrite => "overwrite",
        }
    }
}

/// The snapshot that a commit makes. What follows from the table that it is added to is not in it: the sequence number,
/// the snapshot that it is made from, and the schema.
#[derive(Debug, PartialEq, Drop)]
pub struct NewSnapshot {
    /// The snapshot's id: one that no snapshot of the table has, and not -1, which stands for none.
    pub id: i64,
    /// When the commit is made, in milliseconds since 1970-01-01 00:00 UTC.
    pub timestamp_ms: i64,
    /// The path of the manifest list.
    pub manifest_list: Text,
    /// What the change does.
    pub operation: Operation,
}
