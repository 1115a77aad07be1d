//! Live entries of a manifest.

ghost use Rattle.std.specs.Prelude.{◌≡◌, IfOk};
ghost use Rattle.ice_manifest_reading.specs.Lending.{lent, HasShortPaths};

use crate::data_file::{DataFile, FileView};
use ice_value::{Cell, FileBounds, FileContent, FileFormat, SequenceNumber};
use std::alloc::{AllocError, Global};
use std::marker::Model;

/// A live entry of a manifest: one that exists or was added. Its snapshot and numbers are inherited already.
#[derive(Debug, Drop)]
pub struct Entry {
    /// Its place in its manifest, counted from 0 over all entries, deleted ones too.
    pub position: u64,
    /// The partition spec of its manifest, and whether that spec partitions nothing.
    pub spec_id: i32,
    pub unpartitioned: bool,
    /// The snapshot that its status is of.
    pub snapshot_id: i64,
    pub sequence_number: SequenceNumber,
    /// The number of the commit that added the file. An existing entry of an early writer has none.
    pub file_sequence_number: Option<SequenceNumber>,
    pub file: DataFile,
}

impl Entry {
    /// The same entry.
    pub fn copy(&self, alloc: Global) -> Result<Entry, AllocError>
        ensures { IfOk result (λ copied. copied ≡ self.now) }
    {
        Ok(Entry {
            position: self.position,
            spec_id: self.spec_id,
            unpartitioned: self.unpartitioned,
            snapshot_id: self.snapshot_id,
            sequence_number: self.sequence_number,
            file_sequence_number: self.file_sequence_number,
            file: self.file.copy(alloc)?,
        })
    }
}

/// An entry that is lent, by whoever keeps it.
#[derive(Clone, Copy, Debug)]
pub struct LentEntry<'a> {
    pub position: u64,
    pub spec_id: i32,
    pub unpartitioned: bool,
    pub snapshot_id: i64,
    pub sequence_number: SequenceNumber,
    pub file_sequence_number: Option<SequenceNumber>,
    pub content: FileContent,
    /// None where the manifest names no format that is known.
    pub format: Option<FileFormat>,
    pub path: &'a [u8],
    pub tuple: &'a [Cell],
    pub record_count: i64,
    pub file_size: i64,
    pub equality_ids: &'a [i32],
    pub referenced: Option<&'a [u8]>,
}

impl Entry {
    /// The entry, lent.
    pub fn lent(&self) -> LentEntry<'_>
        ensures { lent result ≡ self.now }
    {
        LentEntry {
            position: self.position,
            spec_id: self.spec_id,
            unpartitioned: self.unpartitioned,
            snapshot_id: self.snapshot_id,
            sequence_number: self.sequence_number,
            file_sequence_number: self.file_sequence_number,
            content: self.file.content,
            format: self.file.format,
            path: self.file.path.as_slice(),
            tuple: self.file.tuple.as_slice(),
            record_count: self.file.record_count,
            file_size: self.file.file_size,
            equality_ids: self.file.equality_ids.as_slice(),
            referenced: self.file.referenced.as_ref().map(|path| path.as_slice()),
        }
    }
}

/// An entry of whose file the paths lie in the manifest still. They have at most 65,535 bytes.
#[derive(Debug, Drop)]
pub struct EntryView<'a> {
    pub(crate) position: u64,
    pub(crate) spec_id: i32,
    pub(crate) unpartitioned: bool,
    pub(crate) snapshot_id: i64,
    pub(crate) sequence_number: SequenceNumber,
    pub(crate) file_sequence_number: Option<SequenceNumber>,
    pub(crate) file: FileView<'a>,
}

impl<'a> Model for EntryView<'a> {
    ghost use Rattle.ice_manifest_reading.specs.declared.entry.Entry.{Entry};

    ghost Value = { Entry };

    ghost view = { λ e. record {
      position = e.position;
      spec_id = e.spec_id;
      unpartitioned = e.unpartitioned;
      snapshot_id = e.snapshot_id;
      sequence_number = e.sequence_number;
      file_sequence_number = e.file_sequence_number;
      file = e.file;
    } };
}

impl<'a> EntryView<'a> {
    /// What the file holds.
    pub fn content(&self) -> FileContent
        ensures { result ≡ self.now.file.content }
    {
        self.file.content()
    }

    /// The partition values of the file, in the order of the spec's fields.
    pub fn tuple(&self) -> &[Cell]
        ensures { result.now ≡ self.now.file.tuple }
    {
        self.file.tuple()
    }

    /// The entry, lent.
    pub fn lent(&self) -> LentEntry<'_>
        ensures same { lent result ≡ self.now }
        ensures short { HasShortPaths result }
    {
        LentEntry {
            position: self.position,
            spec_id: self.spec_id,
            unpartitioned: self.unpartitioned,
            snapshot_id: self.snapshot_id,
            sequence_number: self.sequence_number,
            file_sequence_number: self.file_sequence_number,
            content: self.file.content,
            format: self.file.format(),
            path: self.file.path(),
            tuple: self.file.tuple(),
            record_count: self.file.record_count(),
            file_size: self.file.file_size(),
            equality_ids: self.file.equality_ids(),
            referenced: self.file.referenced(),
        }
    }

    /// The entry, with copies of the paths.
    pub(crate) fn owned(self, alloc: Global) -> Result<Entry, AllocError>
        ensures { IfOk result (λ entry. entry ≡ self.entry) }
    {
        let EntryView {
            position,
            spec_id,
            unpartitioned,
            snapshot_id,
            sequence_number,
            file_sequence_number,
            file,
        } = self;
        Ok(Entry {
            position,
            spec_id,
            unpartitioned,
            snapshot_id,
            sequence_number,
            file_sequence_number,
            file: file.owned(alloc)?,
        })
    }
}

/// A live entry and what its manifest says of the columns of its file: enough to tell whether it is kept. It lends what
/// lies in the manifest.
#[derive(Debug, Drop)]
pub struct Live<'a, 'd> {
    pub entry: EntryView<'d>,
    pub bounds: FileBounds<'a, 'd>,
}
