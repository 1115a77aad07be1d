//! The file that a manifest entry is about.

ghost use Rattle.std.specs.Prelude.{◌≡◌, ◌≤◌, IfOk, IfSome, length};
ghost use Rattle.std.specs.Option.{option_copied};

use contract_words::Items;
use ice_value::{Cell, FileContent, FileFormat};
use std::alloc::{AllocError, Global};
use std::marker::Model;

/// What a live entry says of its file.
#[derive(Debug, Drop)]
pub struct DataFile {
    pub content: FileContent,
    /// None where the manifest names no format that is known. Plans do not need it.
    pub format: Option<FileFormat>,
    /// The bytes of a text: that they are UTF-8 was checked when they were read.
    pub path: Items<u8>,
    /// The partition values, in the order of the spec's fields.
    pub tuple: Items<Cell>,
    /// As the manifest says; any number.
    pub record_count: i64,
    /// In bytes, as the manifest says; any number.
    pub file_size: i64,
    pub equality_ids: Items<i32>,
    /// The path of the one data file that a position delete file is about, where it names one. Other files have none.
    pub referenced: Option<Items<u8>>,
}

impl DataFile {
    /// The same file.
    pub fn copy(&self, alloc: Global) -> Result<DataFile, AllocError>
        ensures { IfOk result (λ copied. copied ≡ self.now) }
    {
        Ok(DataFile {
            content: self.content,
            format: self.format,
            path: self.path.copy(alloc)?,
            tuple: self.tuple.copy(alloc)?,
            record_count: self.record_count,
            file_size: self.file_size,
            equality_ids: self.equality_ids.copy(alloc)?,
            referenced: copied(alloc, &self.referenced)?,
        })
    }
}

fn copied(alloc: Global, path: &Option<Items<u8>>) -> Result<Option<Items<u8>>, AllocError>
    ensures { IfOk result (λ copied. copied ≡ path.now) }
{
    match path {
        Some(path) => Ok(Some(path.copy(alloc)?)),
        None => Ok(None),
    }
}

fn bytes_of(alloc: Global, path: &str) -> Result<Items<u8>, AllocError>
    ensures { IfOk result (λ bytes. bytes ≡ path.now) }
{
    Ok(Items::from_vec(path.as_bytes().to_vec(alloc)?))
}

fn bytes_if_some(alloc: Global, path: Option<&str>) -> Result<Option<Items<u8>>, AllocError>
    ensures { IfOk result (λ bytes. bytes ≡ option_copied path.entry) }
{
    match path {
        Some(path) => Ok(Some(bytes_of(alloc, path)?)),
        None => Ok(None),
    }
}

/// A file whose paths lie in the manifest still. They have at most 65,535 bytes.
#[derive(Debug, Drop)]
pub(crate) struct FileView<'a> {
    pub(crate) content: FileContent,
    pub(crate) format: Option<FileFormat>,
    pub(crate) path: &'a str,
    pub(crate) tuple: Items<Cell>,
    pub(crate) record_count: i64,
    pub(crate) file_size: i64,
    pub(crate) equality_ids: Items<i32>,
    pub(crate) referenced: Option<&'a str>,
}

impl<'a> Model for FileView<'a> {
    ghost use Rattle.std.specs.Option.{option_copied};
    ghost use Rattle.ice_manifest_reading.specs.declared.data_file.DataFile.{DataFile};

    ghost Value = { DataFile };

    ghost view = { λ f. record {
      content = f.content;
      format = f.format;
      path = f.path.now;
      tuple = f.tuple;
      record_count = f.record_count;
      file_size = f.file_size;
      equality_ids = f.equality_ids;
      referenced = option_copied f.referenced;
    } };

    ghost use Rattle.std.specs.Prelude.{◌≤◌, length, IfSome};

    ghost invariant = { λ f. (length f.path.now ≤ 65535) × IfSome f.referenced (λ path. length path.now ≤ 65535) };
}

impl<'a> FileView<'a> {
    pub(crate) fn content(&self) -> FileContent
        ensures { result ≡ self.now.content }
    {
        self.content
    }

    pub(crate) fn format(&self) -> Option<FileFormat>
        ensures { result ≡ self.now.format }
    {
        self.format
    }

    pub(crate) fn tuple(&self) -> &[Cell]
        ensures { result.now ≡ self.now.tuple }
    {
        self.tuple.as_slice()
    }

    pub(crate) fn path(&self) -> &'a [u8]
        ensures same { result.now ≡ self.now.path }
        ensures short { length result.now ≤ 65535 }
    {
        self.path.as_bytes()
    }

    pub(crate) fn referenced(&self) -> Option<&'a [u8]>
        ensures same { option_copied result ≡ self.now.referenced }
        ensures short { IfSome result (λ path. length path.now ≤ 65535) }
    {
        self.referenced.map(|path| path.as_bytes())
    }

    pub(crate) fn equality_ids(&self) -> &[i32]
        ensures { result.now ≡ self.now.equality_ids }
    {
        self.equality_ids.as_slice()
    }

    pub(crate) fn record_count(&self) -> i64
        ensures { result ≡ self.now.record_count }
    {
        self.record_count
    }

    pub(crate) fn file_size(&self) -> i64
        ensures { result ≡ self.now.file_size }
    {
        self.file_size
    }

    /// The file, with copies of the paths.
    pub(crate) fn owned(self, alloc: Global) -> Result<DataFile, AllocError>
        ensures { IfOk result (λ file. file ≡ self.entry) }
    {
        let FileView {
            content,
            format,
            path,
            tuple,
            record_count,
            file_size,
            equality_ids,
            referenced,
        } = self;
        Ok(DataFile {
            content,
            format,
            path: bytes_of(alloc, path)?,
            tuple,
            record_count,
            file_size,
            equality_ids,
            referenced: bytes_if_some(alloc, referenced)?,
        })
    }
}
