//! Files that are handed over in one text, a line each.

ghost use Rattle.std.specs.Prelude.{◌≡◌, ◌≢◌, ◌==◌, position, [], option_map, string_bytes};
ghost use Rattle.std.specs.Prelude.{IfOk, OnOk, IfErr, Some, Ok, Err};
ghost use Rattle.contract_words.specs.Outcome.{Gives};
ghost use Rattle.icescan_files.specs.Bundles.{added, bundle_of, file_of, first_path, path_of};

use crate::bundle_text::Front;
use crate::digits::bytes_from;
use ice_desk::{Files, ReadFault};
use icescan_print::unescape;
use icescan_text::RunFault;
use indexmap::IndexMap;
use std::alloc::Global;
use std::marker::Model;

/// The files of a bundle, in the order of its lines. Each path stands once.
#[derive(Drop)]
pub struct Bundle {
    files: IndexMap<String, Vec<u8>>,
}

impl Model for Bundle {
    ghost use Rattle.std.specs.Prelude.{List, map, string_bytes};
    ghost use Rattle.icescan_files.specs.Bundles.{File};

    ghost Value = { List File };

    ghost view = { λ b. map (λ f. record { path = string_bytes f.0; bytes = f.1.items }) b.files.entries };
}

/// Where a text first has a byte.
pub fn find_byte(text: &[u8], byte: u8) -> Option<usize>
    ensures { result ≡ position (λ b. b == byte) text.now }
{
    text.iter().position(|b| *b == byte)
}

/// The path that an escaped text names.
#[tactic(auto, unfolding(crate::specs::Bundles::path_of))]
fn path_from(alloc: Global, escaped: &[u8]) -> Result<Option<String>, RunFault>
    ensures { Gives RunFault.Memory (option_map string_bytes) result (Ok (path_of escaped.now)) }
{
    let Some(path) = unescape(alloc, escaped)? else {
        return Ok(None);
    };
    match String::from_utf8(path) {
        Ok(path) => Ok(Some(path)),
        Err(_) => Ok(None),
    }
}

/// A line's path and bytes.
#[derive(Drop)]
struct NamedFile {
    path: String,
    bytes: Vec<u8>,
}

impl Model for NamedFile {
    ghost use Rattle.std.specs.Prelude.{string_bytes};
    ghost use Rattle.icescan_files.specs.Bundles.{File};

    ghost Value = { File };

    ghost view = { λ f. record { path = string_bytes f.path; bytes = f.bytes.items } };
}

/// The file of a line.
#[tactic(auto, unfolding(crate::specs::Bundles::file_of))]
fn file_from(alloc: Global, line: &[u8]) -> Result<Option<NamedFile>, RunFault>
    ensures { Gives RunFault.Memory (λ file. file) result (Ok (file_of line.now)) }
{
    let Some(at) = find_byte(line, b' ') else {
        return Ok(None);
    };
    let Some(path) = path_from(alloc, &line[..at])? else {
        return Ok(None);
    };
    let Some(bytes) = bytes_from(alloc, &line[at + 1..])? else {
        return Ok(None);
    };
    Ok(Some(NamedFile { path, bytes }))
}

impl Bundle {
    /// No files.
    pub(crate) fn empty(alloc: Global) -> Bundle
        ensures { result ≡ [] }
    {
        Bundle {
            files: IndexMap::new(alloc),
        }
    }

    /// Puts this file, which line `number` has, behind the others. Its path has to be new.
    fn add_file(&mut self, number: u64, file: NamedFile) -> Result<(), RunFault>
        ensures ok { OnOk result (added number self.old (Some file) ≡ Ok self.new) }
        ensures err { IfErr result (λ e. e ≢ RunFault.Memory → added number self.old (Some file) ≡ Err e) }
    {
        let NamedFile { path, bytes } = file;
        if self.files.contains_key(path.as_str()) {
            return Err(RunFault::Bundle(number));
        }
        self.files.insert(path, bytes)?;
        Ok(())
    }

    /// Puts the file of this line, which is line `number`, behind the others, where the line has one.
    pub(crate) fn add_line(
        &mut self,
        alloc: Global,
        number: u64,
        line: &[u8],
    ) -> Result<(), RunFault>
        ensures ok { OnOk result (added number self.old (file_of line.now) ≡ Ok self.new) }
        ensures err { IfErr result (λ e. e ≢ RunFault.Memory → added number self.old (file_of line.now) ≡ Err e) }
    {
        match file_from(alloc, line)? {
            Some(file) => self.add_file(number, file),
            None => Err(RunFault::Bundle(number)),
        }
    }

    /// The files of a bundle's text, or its first line that is none.
    pub fn read(alloc: Global, text: &[u8]) -> Result<Bundle, RunFault>
        ensures { Gives RunFault.Memory (λ bundle. bundle) result (bundle_of text.now) }
    {
        let mut front = Front::empty(alloc);
        front.take(alloc, text)?;
        front.finish(alloc)
    }

    /// The path of the first line.
    pub fn first_path(&self) -> Option<&str>
        ensures { option_map (λ path. path.now) result ≡ first_path self.now }
    {
        let (path, _) = self.files.first()?;
        Some(path.as_str())
    }
}

/// Puts these bytes in place of those that `bytes` has.
fn copy_into(found: &[u8], bytes: &mut Vec<u8>) -> Result<(), ReadFault>
    ensures ok { OnOk result (bytes.new.items ≡ found.now) }
    ensures err { IfErr result (λ e. e ≡ ReadFault.Memory) }
{
    bytes.clear();
    bytes
        .extend_from_slice(found)
        .map_err(|_| ReadFault::Memory)
}

impl Files for Bundle {
    ghost use Rattle.std.specs.Prelude.{◌≡◌, Some};
    ghost use Rattle.icescan_files.specs.Bundles.{bytes_at};

    ghost world = { λ files. Some (λ path. bytes_at files path) };

    ghost gives = { λ files path found. bytes_at files path ≡ found };

    ghost may_fail = { λ files path. ⊥ };

    fn read(&self, alloc: Global, path: &str) -> Result<Vec<u8>, ReadFault> {
        let mut bytes = Vec::new(alloc);
        self.read_into(alloc, path, &mut bytes)?;
        Ok(bytes)
    }

    fn read_into(&self, _alloc: Global, path: &str, bytes: &mut Vec<u8>) -> Result<(), ReadFault> {
        match self.files.get(path) {
            Some(found) => copy_into(found, bytes),
            None => Err(ReadFault::Absent),
        }
    }
}
