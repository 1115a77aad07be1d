//! The newest metadata of a table in a folder.

ghost use Rattle.std.specs.Prelude.{◌≡◌, ◌≢◌, ℕ, List, Option, Ok, Some, None, IfErr, IfOk, IsErrOf, OnOk};
ghost use Rattle.std.specs.Prelude.{string_bytes};
ghost use Rattle.ice_meta_files.specs.declared.newest_fault.NewestFault.{NewestFault};
ghost use Rattle.icescan_locate.specs.Dated.{AreThere, HasNoFiles, WroteDated};
ghost use Rattle.icescan_locate.specs.Located.{Found, HasLocation, HasNoNewest, WroteLocated};
ghost use Rattle.icescan_locate.specs.Located.{hint_in, hint_path};
ghost use Rattle.icescan_locate.specs.Located.{metadata_folder, metadata_path};

use crate::dated::{DatedFile, dated_files, sort_files, write_files};
use crate::located::{below, hint_of, metadata_path, words_text};
use contract_words::Text;
use ice_desk::{Files, ReadFault};
use ice_meta::Metadata;
use ice_meta_files::{NewestFault, newest_metadata};
use icescan_files::{Below, Folders};
use icescan_print::{Sink, write_all};
use icescan_text::{RunFault, Separator, read_file};
use std::alloc::Global;

/// The names in the folder of a table's metadata.
fn metadata_names<S: Folders>(
    alloc: Global,
    folders: &S,
    folder: &str,
) -> Result<Vec<Text>, RunFault>
    ensures listed { IfOk result (λ names. S.lists folders.now (metadata_folder folder.now) (Some names.items)) }
    ensures refused { (why : NewestFault) → IsErrOf result (RunFault.Locate why) →
        (why ≡ NewestFault.NoFolder) × S.lists folders.now (metadata_folder folder.now) None }
{
    let path = below(alloc, folder, "metadata")?;
    match folders.names_in(alloc, path.as_str()) {
        Ok(names) => Ok(names),
        Err(ReadFault::Absent) => Err(RunFault::Locate(NewestFault::NoFolder)),
        Err(ReadFault::Device) => Err(RunFault::Device(Text::from_string(path))),
        Err(ReadFault::Memory) => Err(RunFault::Memory),
    }
}

/// The number that the hint of a table has, where it has one.
fn hint_below<F: Files>(alloc: Global, files: &F, folder: &str) -> Result<Option<u32>, RunFault>
    ensures given { IfOk result (λ number. (hint : Option (List ℕ)) × F.gives files.now (hint_path folder.now) hint ×
        (number ≡ hint_in hint)) }
    ensures refused { (why : NewestFault) → IsErrOf result (RunFault.Locate why) → ⊥ }
{
    let path = below(alloc, folder, "metadata/version-hint.text")?;
    match files.read(alloc, path.as_str()) {
        Ok(bytes) => Ok(hint_of(&bytes)),
        Err(ReadFault::Absent) => Ok(None),
        Err(ReadFault::Device) => Err(RunFault::Device(Text::from_string(path))),
        Err(ReadFault::Memory) => Err(RunFault::Memory),
    }
}

/// The name of the newest metadata of the table in a folder. The files of the metadata are in the folder `metadata`
/// below it.
///
/// The refusal is `Locate` where there is no newest metadata that can be read (`newest_metadata`), or no folder
/// `metadata`; `Device` where that folder or the hint can't be read; or `Memory`.
pub fn newest_name<S: Folders>(alloc: Global, folders: &S, folder: &str) -> Result<Text, RunFault>
    ensures found { IfOk result (λ name. Found (S.lists folders.now) (S.gives folders.now folder.now folder.now)
        folder.now (Ok name)) }
    ensures refused { (why : NewestFault) → IsErrOf result (RunFault.Locate why) →
        HasNoNewest (S.lists folders.now) (S.gives folders.now folder.now folder.now) folder.now why }
{
    let names = metadata_names(alloc, folders, folder)?;
    let hint = hint_below(alloc, &Below::new(folders, folder, folder), folder)?;
    match newest_metadata(alloc, &names, hint) {
        Ok(name) => Ok(name),
        Err(NewestFault::Memory) => Err(RunFault::Memory),
        Err(fault) => Err(RunFault::Locate(fault)),
    }
}

/// The metadata of a name.
fn read_metadata<F: Files>(
    alloc: Global,
    files: &F,
    folder: &str,
    name: &str,
) -> Result<Metadata, RunFault>
    ensures { IfOk result (λ metadata. HasLocation (F.gives files.now) folder.now name.now metadata.table.location) }
{
    let path = metadata_path(alloc, folder, name)?;
    let bytes = read_file(alloc, files, path.as_str())?;
    let metadata = Metadata::read(alloc, &bytes)?;
    Ok(metadata)
}

/// Writes the words by which other commands are told of the table in a folder: the folder, the table's location, and
/// the path of its newest metadata.
///
/// The refusal is that of `newest_name`; `Absent` where the metadata was there in the listing alone; `Device` where it
/// can't be read; `Metadata` where its bytes are refused; `Write` where a write failed, and then a front of the words
/// was written; or `Memory`. After any refusal but `Write` nothing was written.
pub fn locate_folder<S: Folders, W: Sink>(
    alloc: Global,
    folders: &S,
    folder: &str,
    separator: Separator,
    output: &mut W,
) -> Result<(), RunFault>
    ensures located { OnOk result (WroteLocated (S.lists folders.now) (S.gives folders.now folder.now folder.now)
        folder.now separator (W.taken output.old) (W.taken output.new)) }
    ensures nothing { IfErr result (λ fault. fault ≢ RunFault.Write → W.taken output.new ≡ W.taken output.old) }
{
    let name = newest_name(alloc, folders, folder)?;
    let files = Below::new(folders, folder, folder);
    let metadata = read_metadata(alloc, &files, folder, name.as_str())?;
    let location = metadata.table().location.as_str();
    let path = metadata_path(alloc, location, name.as_str())?;
    let text = words_text(alloc, separator, folder, location, path.as_str())?;
    write_all(output, &text)?;
    Ok(())
}

/// The metadata files in the folder `metadata` below a folder, as they stand in its listing.
fn files_below<S: Folders>(
    alloc: Global,
    folders: &S,
    folder: &str,
) -> Result<Vec<DatedFile>, RunFault>
    ensures found { IfOk result (λ files. AreThere (S.lists folders.now) (S.gives folders.now folder.now folder.now)
        folder.now files.items) }
    ensures refused { (why : NewestFault) → IsErrOf result (RunFault.Locate why) →
        HasNoFiles (S.lists folders.now) folder.now why }
{
    let names = metadata_names(alloc, folders, folder)?;
    let files = dated_files(alloc, &Below::new(folders, folder, folder), folder, &names)?;
    if files.is_empty() {
        Err(RunFault::Locate(NewestFault::NoMetadata))
    } else {
        Ok(files)
    }
}

/// Writes each metadata file of the table in a folder, the newest first: the number in its name, the time that it says,
/// and its name.
///
/// The refusal is `Locate` where there is no folder `metadata`, or no metadata file in it; `Device` where that folder
/// or one of the files can't be read; `Write` where a write failed, and then a front of the lines was written; or
/// `Memory`. After any refusal but `Write` nothing was written.
pub fn locate_all<S: Folders, W: Sink>(
    alloc: Global,
    folders: &S,
    folder: &str,
    output: &mut W,
) -> Result<(), RunFault>
    ensures located { OnOk result (WroteDated (S.lists folders.now) (S.gives folders.now folder.now folder.now)
        folder.now (W.taken output.old) (W.taken output.new)) }
    ensures refused { (why : NewestFault) → IsErrOf result (RunFault.Locate why) →
        HasNoFiles (S.lists folders.now) folder.now why }
    ensures nothing { IfErr result (λ fault. fault ≢ RunFault.Write → W.taken output.new ≡ W.taken output.old) }
{
    let mut files = files_below(alloc, folders, folder)?;
    sort_files(&mut files)?;
    write_files(alloc, &files, output)
}
