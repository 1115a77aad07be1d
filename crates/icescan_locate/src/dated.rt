//! The metadata files of a table in a folder, each with its number and the time that it says.

ghost use Rattle.std.specs.Prelude.{◌≡◌, ℕ, List, Option, IfOk, IsErrOf, OnOk, Some, None, filter, map};
ghost use Rattle.std.specs.List.{All, flat_map};
ghost use Rattle.icescan_locate.specs.Dated.{IsDated, file_line, is_metadata, newest_first, or_dash, time_in};
ghost use Rattle.ice_meta_files.specs.Newest.{number_in};
ghost use Rattle.icescan_locate.specs.Located.{metadata_path};
ghost use Rattle.icescan_print.specs.Written.{Sent};
ghost use Rattle.icescan_text.specs.Writes.{WroteOrRefused};
ghost use Rattle.ice_meta_files.specs.declared.newest_fault.NewestFault.{NewestFault};

use crate::located::metadata_path;
use contract_words::Text;
use ice_desk::{Files, ReadFault};
use ice_meta::{MetaFault, Metadata};
use ice_meta_files::metadata_name;
use icescan_print::{Page, Sink, SinkFault};
use icescan_text::RunFault;
use std::alloc::{AllocError, Global};

/// A metadata file.
#[derive(Debug, Drop)]
pub struct DatedFile {
    /// The number in its name.
    pub number: u32,
    /// When it was written, in milliseconds since 1970-01-01 UTC, where it is metadata that can be read.
    pub time: Option<i64>,
    /// Its name.
    pub name: Text,
}

/// The time that the bytes of a file say, where they are metadata.
fn time_of(alloc: Global, bytes: &[u8]) -> Result<Option<i64>, AllocError>
    ensures { IfOk result (λ time. time ≡ time_in (Some bytes.now)) }
{
    match Metadata::read(alloc, bytes) {
        Ok(metadata) => Ok(Some(metadata.table().last_updated_ms)),
        Err(MetaFault::Memory) => Err(AllocError),
        Err(_) => Ok(None),
    }
}

/// The time that the metadata of a name says, where there is such metadata.
fn time_at<F: Files>(
    alloc: Global,
    files: &F,
    folder: &str,
    name: &str,
) -> Result<Option<i64>, RunFault>
    ensures given { IfOk result (λ time. (bytes : Option (List ℕ)) ×
        F.gives files.now (metadata_path folder.now name.now) bytes × (time ≡ time_in bytes)) }
    ensures refused { (why : NewestFault) → IsErrOf result (RunFault.Locate why) → ⊥ }
{
    let path = metadata_path(alloc, folder, name)?;
    match files.read(alloc, path.as_str()) {
        Ok(bytes) => Ok(time_of(alloc, &bytes)?),
        Err(ReadFault::Absent) => Ok(None),
        Err(ReadFault::Device) => Err(RunFault::Device(Text::from_string(path))),
        Err(ReadFault::Memory) => Err(RunFault::Memory),
    }
}

/// The metadata file of a name that has a number.
fn dated_file<F: Files>(
    alloc: Global,
    files: &F,
    folder: &str,
    name: &Text,
    number: u32,
) -> Result<DatedFile, RunFault>
    requires { number_in name.now ≡ Some number }
    ensures named { IfOk result (λ file. file.name ≡ name.now) }
    ensures dated { IfOk result (λ file. IsDated (F.gives files.now) folder.now file) }
    ensures refused { (why : NewestFault) → IsErrOf result (RunFault.Locate why) → ⊥ }
{
    Ok(DatedFile {
        number,
        time: time_at(alloc, files, folder, name.as_str())?,
        name: name.copy(alloc)?,
    })
}

/// The metadata files among names.
pub fn dated_files<F: Files>(
    alloc: Global,
    files: &F,
    folder: &str,
    names: &[Text],
) -> Result<Vec<DatedFile>, RunFault>
    ensures all { IfOk result (λ found. map (λ (f : DatedFile). f.name) found.items ≡ filter is_metadata names.now) }
    ensures dated { IfOk result (λ found. All (IsDated (F.gives files.now) folder.now) found.items) }
    ensures refused { (why : NewestFault) → IsErrOf result (RunFault.Locate why) → ⊥ }
{
    let mut found = Vec::new(alloc);
    'names: for name in names {
        if let Some(known) = metadata_name(name.as_str()) {
            found.push(dated_file(alloc, files, folder, name, known.number)?)?;
        }
    }
    Ok(found)
}

/// Puts the files with the highest numbers first.
pub fn sort_files(files: &mut Vec<DatedFile>) -> Result<(), AllocError>
    ensures { OnOk result (files.new.items ≡ newest_first files.old.items) }
{
    files.sort_by(|a, b| {
        b.number
            .cmp(&a.number)
            .then(a.name.as_bytes().cmp(b.name.as_bytes()))
    })?;
    Ok(())
}

/// Sends the time of a file.
fn put_time<S: Sink>(page: &mut Page, sink: &mut S, time: Option<i64>) -> Result<(), SinkFault>
    ensures { Sent S.taken S.may_fail sink.old page.old result sink.new page.new (or_dash time) }
{
    match time {
        Some(time) => page.put_named_long(sink, b" at ", time),
        None => page.put(sink, b" at -"),
    }
}

/// Sends the line of a file.
fn put_file<S: Sink>(page: &mut Page, sink: &mut S, file: &DatedFile) -> Result<(), SinkFault>
    ensures { Sent S.taken S.may_fail sink.old page.old result sink.new page.new (file_line file.now) }
{
    page.put_named_number(sink, b"metadata ", file.number)?;
    put_time(page, sink, file.time)?;
    page.put_named_path(sink, b" file ", file.name.as_bytes())?;
    page.put(sink, b"\n")
}

/// Sends the lines of files.
fn put_files<S: Sink>(page: &mut Page, sink: &mut S, files: &[DatedFile]) -> Result<(), SinkFault>
    ensures { Sent S.taken S.may_fail sink.old page.old result sink.new page.new (flat_map file_line files.now) }
{
    'files: for file in files {
        put_file(page, sink, file)?;
    }
    Ok(())
}

/// Writes the lines of files and nothing else. It refuses when out of memory, and then nothing was written, or where a
/// write fails, and then a front of the lines was.
pub fn write_files<S: Sink>(
    alloc: Global,
    files: &[DatedFile],
    sink: &mut S,
) -> Result<(), RunFault>
    ensures { WroteOrRefused S.taken S.may_fail sink.old result sink.new (flat_map file_line files.now) }
{
    let mut page = Page::new(alloc)?;
    put_files(&mut page, sink, files)?;
    page.flush(sink)?;
    Ok(())
}
