//! Files that a commit adds.

ghost use Rattle.std.specs.Prelude.{◌≡◌, IfOk};

use contract_words::{Items, Text};
use ice_value::{Cell, FileContent};
use std::alloc::{AllocError, Global};

/// A file that a commit adds to a table. Whether the table can have it is asked when the commit is prepared.
#[derive(Debug, PartialEq, Drop)]
pub struct NewFile {
    pub content: FileContent,
    pub path: Text,
    /// Such as `parquet`. It is written as it is given.
    pub format: Text,
    /// The id of its partition spec.
    pub spec_id: i32,
    /// The partition values, in the order of the spec's fields.
    pub tuple: Items<Cell>,
    pub record_count: i64,
    /// In bytes.
    pub file_size: i64,
    pub equality_ids: Items<i32>,
    /// The path of the one data file that a position delete file is about; none where it is about several.
    pub referenced: Option<Text>,
}

impl NewFile {
    /// The same file.
    pub fn copy(&self, alloc: Global) -> Result<NewFile, AllocError>
        ensures { IfOk result (λ copied. copied ≡ self.now) }
    {
        Ok(NewFile {
            content: self.content,
            path: self.path.copy(alloc)?,
            format: self.format.copy(alloc)?,
            spec_id: self.spec_id,
            tuple: self.tuple.copy(alloc)?,
            record_count: self.record_count,
            file_size: self.file_size,
            equality_ids: self.equality_ids.copy(alloc)?,
            referenced: copied(alloc, &self.referenced)?,
        })
    }
}

fn copied(alloc: Global, path: &Option<Text>) -> Result<Option<Text>, AllocError>
    ensures { IfOk result (λ copied. copied ≡ path.now) }
{
    match path {
        Some(path) => Ok(Some(path.copy(alloc)?)),
        None => Ok(None),
    }
}
