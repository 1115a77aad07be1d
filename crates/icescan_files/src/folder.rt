//! Files below a folder, by the paths that a table gives them.

ghost use Rattle.std.specs.Prelude.{◌≡◌, ◌≢◌, ◌↔◌, ◌++◌, ◌∷◌, ℕ, List, Option, Some, option_map, string_bytes, IfOk};
ghost use Rattle.std.specs.Prelude.{IfErr, IsOk, IsTrue};
ghost use Rattle.std.specs.Prelude.{MatchOption};
ghost use Rattle.std.specs.Fs.{IsFile, file_type};
ghost use Rattle.std.specs.IoError.{error_kind};
ghost use Rattle.icescan_files.specs.Folders.{Inside, IsNamed, has_dots, is_dots};

mod disk;
mod links;
mod placing;

use crate::bundle::find_byte;
use crate::input::{MOST_READS, read_all_into};
pub use disk::{Disk, HostDisk};
use ice_desk::{Files, ReadFault};
pub use links::Links;
use links::meets_link;
pub use placing::{CommitFolder, DiskFolder};
use std::alloc::{AllocError, Global};
use std::fs::{self, Metadata};
use std::io::{self, ErrorKind};

/// Files below a folder. A path that begins with the prefix is the file that its rest names below the folder; any other
/// path, and one with a segment `.` or `..` behind the prefix, is absent, and nothing is opened. What is no regular
/// file is not opened either, nor a path at which a link is met, where links are refused. What lies below a folder may
/// change from one read to the next, so it tells no world.
#[derive(Drop)]
pub struct Folder<'a, H> {
    host: &'a H,
    folder: &'a str,
    prefix: &'a str,
    links: Links,
}

impl<'a, H: std::rt::Files> Folder<'a, H> {
    /// The files of `host` below a folder, of the paths that begin with a prefix. Links are followed.
    pub fn new(host: &'a H, folder: &'a str, prefix: &'a str) -> Self
        ensures { (result.folder.now ≡ folder.now) × (result.prefix.now ≡ prefix.now) }
    {
        Folder::by_links(host, folder, prefix, Links::Followed)
    }

    /// The same files, with links followed or refused.
    pub fn by_links(host: &'a H, folder: &'a str, prefix: &'a str, links: Links) -> Self
        ensures { (result.folder.now ≡ folder.now) × (result.prefix.now ≡ prefix.now) }
    {
        Folder {
            host,
            folder,
            prefix,
            links,
        }
    }

    /// Whether links are refused, and one is met at a path.
    fn refuses(&self, alloc: Global, path: &str) -> Result<bool, AllocError> {
        match (self.links, rest_of(self.prefix, path)) {
            (Links::Refused, Some(rest)) => meets_link(alloc, self.host, self.folder, rest),
            _ => Ok(false),
        }
    }
}

/// Whether a segment is `.` or `..`.
fn is_dots(segment: &[u8]) -> bool
    ensures { result ≡ is_dots segment.now }
{
    segment == b".".as_slice() || segment == b"..".as_slice()
}

/// Whether a segment of a path is `.` or `..`.
fn has_dots(path: &[u8]) -> bool
    ensures { result ≡ has_dots path.now }
{
    let mut left = path;
    'left: while let Some(at) = find_byte(left, b'/') {
        if is_dots(&left[..at]) {
            return true;
        }
        left = &left[at + 1..];
    }
    is_dots(left)
}

/// What stands behind the prefix in a path, without a slash at its front; none where the path is not inside.
fn rest_of<'a>(prefix: &str, path: &'a str) -> Option<&'a str>
    ensures { MatchOption result ((rest : List ℕ) → Inside prefix.now path.now rest → ⊥)
        (λ rest. Inside prefix.now path.now rest.now) }
{
    let behind = path.strip_prefix(prefix)?;
    if has_dots(behind.as_bytes()) {
        return None;
    }
    match behind.strip_prefix('/') {
        Some(rest) => Some(rest),
        None => Some(behind),
    }
}

/// Whether a path names no file below a folder: it does not begin with the prefix, or has a segment `.` or `..` after it.
pub(crate) fn is_outside(prefix: &str, path: &str) -> bool
    ensures { IsTrue result → (rest : List ℕ) → Inside prefix.now path.now rest → ⊥ }
{
    match rest_of(prefix, path) {
        Some(_) => false,
        None => true,
    }
}

/// The name by which the file at a path is opened. A path that does not begin with the prefix, or that has a segment
/// `.` or `..` behind it, has none.
pub fn file_name(
    alloc: Global,
    folder: &str,
    prefix: &str,
    path: &str,
) -> Result<Option<String>, AllocError>
    ensures { IfOk result (λ name. IsNamed folder.now prefix.now path.now (option_map string_bytes name)) }
{
    let Some(rest) = rest_of(prefix, path) else {
        return Ok(None);
    };
    let mut name = String::from_str(alloc, folder)?;
    name.push('/')?;
    name.push_str(rest)?;
    Ok(Some(name))
}

/// Why a file was not opened. Only one that the system says is not found is absent.
pub fn open_fault(e: &io::Error) -> ReadFault
    ensures absent { (result ≡ ReadFault.Absent) ↔ (error_kind e.now ≡ ErrorKind.NotFound) }
    ensures memory { (result ≡ ReadFault.Memory) ↔ (error_kind e.now ≡ ErrorKind.OutOfMemory) }
{
    match e.kind() {
        ErrorKind::NotFound => ReadFault::Absent,
        ErrorKind::OutOfMemory => ReadFault::Memory,
        _ => ReadFault::Device,
    }
}

/// Refuses what is no regular file.
fn need_regular(found: &Metadata) -> Result<(), ReadFault>
    ensures regular { IsOk result ↔ IsFile (file_type found.now) }
    ensures device { IfErr result (λ fault. fault ≡ ReadFault.Device) }
{
    if found.is_file() {
        Ok(())
    } else {
        Err(ReadFault::Device)
    }
}

/// Opens a regular file. What is none is not opened: a pipe, say, would wait for its writer.
fn open_regular<H: std::rt::Files>(host: &H, name: &str) -> Result<H::File, ReadFault> {
    match fs::metadata(host, name) {
        Ok(found) => need_regular(&found)?,
        Err(e) => return Err(open_fault(&e)),
    }
    match fs::open(host, name) {
        Ok(file) => Ok(file),
        Err(e) => Err(open_fault(&e)),
    }
}

impl<H: std::rt::Files> Files for Folder<'_, H> {
    ghost use Rattle.std.specs.Prelude.{None};

    ghost world = { λ _. None };

    ghost gives = { λ _ _ _. Unit {0} };

    ghost may_fail = { λ _ _. Unit {0} };

    fn read(&self, alloc: Global, path: &str) -> Result<Vec<u8>, ReadFault> {
        let mut bytes = Vec::new(alloc);
        self.read_into(alloc, path, &mut bytes)?;
        Ok(bytes)
    }

    fn read_into(&self, alloc: Global, path: &str, bytes: &mut Vec<u8>) -> Result<(), ReadFault> {
        let Ok(name) = file_name(alloc, self.folder, self.prefix, path) else {
            return Err(ReadFault::Memory);
        };
        let Some(name) = name else {
            return Err(ReadFault::Absent);
        };
        match self.refuses(alloc, path) {
            Ok(false) => {}
            Ok(true) => return Err(ReadFault::Device),
            Err(_) => return Err(ReadFault::Memory),
        }
        let mut file = open_regular(self.host, name.as_str())?;
        read_all_into(&mut file, MOST_READS, bytes)
    }
}
