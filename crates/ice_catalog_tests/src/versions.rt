//! Versions, commits to them, and catalogs of them.

ghost use Rattle.std.specs.Prelude.{◌≡◌, [], IfOk};

mod machine;
mod seats;

use contract_words::{Items, Text};
use ice_catalog::{Change, Ids, NewFile, PrepareFault, Prepared, Version, World, prepare};
use ice_meta::MetaFault;
use ice_value::FileContent;
use std::alloc::{AllocError, Global};
use uuid::Uuid;

/// A table without partitions or snapshots, whose last sequence number is 4.
const TABLE: &[u8] =
    br#"{"format-version":2,"table-uuid":"00000000-0000-0000-0000-000000000001","location":"mem://t","last-sequence-number":4,"last-updated-ms":0,"last-column-id":1,"schemas":[{"type":"struct","schema-id":0,"fields":[{"id":1,"name":"c","required":false,"type":"int"}]}],"current-schema-id":0,"partition-specs":[{"spec-id":0,"fields":[]}],"default-spec-id":0,"last-partition-id":999}"#;

/// A table as it is opened, without files.
fn opened(alloc: Global, bytes: &[u8]) -> Result<Version, MetaFault>
    ensures { IfOk result (λ version. version.journal ≡ []) }
{
    Version::open(alloc, bytes, World::new(alloc))
}

/// A file of 10 rows and 100 bytes, without partition values.
fn file(
    alloc: Global,
    content: FileContent,
    path: &str,
    spec_id: i32,
) -> Result<NewFile, AllocError> {
    Ok(NewFile {
        content,
        path: Text::from_string(String::from_str(alloc, path)?),
        format: Text::from_string(String::from_str(alloc, "parquet")?),
        spec_id,
        tuple: Items::new(alloc),
        record_count: 10,
        file_size: 100,
        equality_ids: Items::new(alloc),
        referenced: None,
    })
}

/// A change that adds one data file.
fn adding(alloc: Global, path: &str) -> Result<Change, AllocError> {
    let mut files = Items::new(alloc);
    files.push(file(alloc, FileContent::Data, path, 0)?)?;
    Ok(Change {
        files,
        deletes: Items::new(alloc),
    })
}

/// Names of a commit that no commit of another number has.
fn ids(number: u8) -> Ids {
    Ids {
        snapshot: i64::from(number),
        uuid: Uuid::from_bytes([number; 16]),
        now_ms: 0,
    }
}

/// A commit that adds a file to this version.
fn prepared(
    alloc: Global,
    base: &Version,
    path: &str,
    number: u8,
) -> Result<Prepared, PrepareFault> {
    prepare(alloc, base, &adding(alloc, path)?, ids(number))
}
