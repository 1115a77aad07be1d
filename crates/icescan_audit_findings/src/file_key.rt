//! What delete files go by.

ghost use Rattle.std.specs.Prelude.{◌≡◌, IfOk, None, Some};
ghost use Rattle.std.specs.Option.{option_copied};
ghost use Rattle.icescan_audit_findings.specs.Keys.{file_key, key_of};
ghost use Rattle.ice_manifest_reading.specs.Lending.{lent};

use crate::basis::Basis;
use contract_words::{Duplicate, Items};
use ice_manifest_reading::LentEntry;
use ice_value::{Cell, FileContent, SequenceNumber};
use std::alloc::{AllocError, Global};
use std::marker::Model;

/// What of a live file decides which delete files apply to which data files.
#[derive(Debug, Drop)]
pub struct FileKey {
    /// What the file holds.
    pub content: FileContent,
    /// Its partition spec, and whether that partitions nothing.
    pub spec_id: i32,
    pub unpartitioned: bool,
    /// Its partition values.
    pub tuple: Items<Cell>,
    /// Its sequence number, inherited already.
    pub sequence_number: SequenceNumber,
    /// The path of the one data file that it is about, if it names one.
    pub referenced: Option<Items<u8>>,
}

/// The key of a file, or none where it is not kept. Contracts see it as that `Option`.
#[derive(Debug, Drop)]
pub struct KeptKey {
    key: Option<Box<FileKey>>,
}

impl Model for KeptKey {
    ghost use Rattle.std.specs.Prelude.{Option};
    ghost use Rattle.icescan_audit_findings.specs.Keys.{key_kept};
    ghost use Rattle.icescan_audit_findings.specs.declared.file_key.FileKey.{FileKey};

    ghost Value = { Option FileKey };

    ghost view = { λ k. key_kept k.key };
}

impl KeptKey {
    /// No key.
    pub fn none() -> KeptKey
        ensures { result ≡ None }
    {
        KeptKey { key: None }
    }

    /// This key.
    pub fn some(alloc: Global, key: FileKey) -> Result<KeptKey, AllocError>
        ensures { IfOk result (λ kept. kept ≡ Some key) }
    {
        Ok(KeptKey {
            key: Some(Box::new(alloc, key)?),
        })
    }

    /// The key, lent.
    pub fn as_ref(&self) -> Option<&FileKey>
        ensures { option_copied result ≡ self.now }
    {
        match &self.key {
            Some(key) => Some(&**key),
            None => None,
        }
    }
}

fn copied(alloc: Global, path: Option<&[u8]>) -> Result<Option<Items<u8>>, AllocError>
    ensures { IfOk result (λ copied. copied ≡ option_copied path.entry) }
{
    match path {
        Some(path) => Ok(Some(Items::from_vec(path.to_vec(alloc)?))),
        None => Ok(None),
    }
}

/// The key of a live entry's file.
fn file_key(alloc: Global, entry: &LentEntry<'_>) -> Result<FileKey, AllocError>
    ensures { IfOk result (λ key. key ≡ file_key (lent entry.now)) }
{
    Ok(FileKey {
        content: entry.content,
        spec_id: entry.spec_id,
        unpartitioned: entry.unpartitioned,
        tuple: Items::from_vec(Cell::copy_slice(entry.tuple, alloc)?),
        sequence_number: entry.sequence_number,
        referenced: copied(alloc, entry.referenced)?,
    })
}

/// The key of a live entry's file, where the snapshot has delete files.
pub fn key_of(alloc: Global, basis: &Basis, entry: &LentEntry<'_>) -> Result<KeptKey, AllocError>
    ensures { IfOk result (λ key. key ≡ key_of basis.now (lent entry.now)) }
{
    if basis.has_deletes {
        KeptKey::some(alloc, file_key(alloc, entry)?)
    } else {
        Ok(KeptKey::none())
    }
}
