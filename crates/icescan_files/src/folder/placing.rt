//! New files below a folder.

ghost use Rattle.std.specs.Prelude.{◌≡◌, ◌⊎◌, ◌↔◌, ℕ, List, IfOk, IfErr, IsTrue, OnOk, OnErr, string_bytes};
ghost use Rattle.icescan_files.specs.Folders.{HasNoSync, aside_name};
ghost use Rattle.icescan_files.specs.Disks.{Event, Extends, IsAsideOf, IsFolderKept, IsFolderLost, IsFolderOf};
ghost use Rattle.icescan_files.specs.Disks.{IsLinked};
ghost use Rattle.icescan_files.specs.Disks.{IsMade, IsPlaced, IsWholeAt, NotLinked, NotMade, NotPlaced, filled};
ghost use Rattle.icescan_files.specs.Disks.{IsPlacedAt, NotPlacedAt, names_below};

use super::disk::{Disk, HostDisk};
use super::{Folder, file_name, is_outside};
use crate::store::{Store, StoreFault};
use ice_catalog_changes::Ids;
use std::alloc::{AllocError, Global};
use std::io::{self, ErrorKind};
use uuid::Uuid;

/// How many names are tried for a file that is not whole yet.
const MOST_NAMES: u32 = 1_000;

/// Why a file was not put, where a call was refused.
fn call_fault(e: &io::Error) -> StoreFault
    ensures { (result ≡ StoreFault.Failed) ⊎ (result ≡ StoreFault.Memory) }
{
    match e.kind() {
        ErrorKind::OutOfMemory => StoreFault::Memory,
        _ => StoreFault::Failed,
    }
}

/// The folder in which a file of this name is.
fn folder_of(name: &str) -> &str
    ensures { IsFolderOf name.now result.now }
{
    match name.rsplit_once('/') {
        Some((folder, _)) => folder,
        None => ".",
    }
}

/// The name of the file of this number that a commit has not written whole yet.
fn aside_name(alloc: Global, folder: &str, ids: &Ids, number: u32) -> Result<String, AllocError>
    ensures { IfOk result (λ name. string_bytes name ≡ aside_name folder.now ids.now number) }
{
    let mut buffer = Uuid::encode_buffer();
    let uuid = ids.uuid.hyphenated().encode_lower(&mut buffer);
    let name = format!(in alloc; "{folder}/.icescan-{uuid}-{number}.tmp")?;
    Ok(name)
}

/// An empty new file in the folder of a name, under a name of the commit's own, which nothing had.
fn create_aside<D: Disk>(
    disk: &mut D,
    alloc: Global,
    ids: &Ids,
    name: &str,
) -> Result<D::File, StoreFault>
    ensures made { IfOk result (λ file. Extends (D.events disk.old) (D.events disk.new)
        (IsMade (IsAsideOf ids.now name.now) (D.made_as file))) }
    ensures not { IfErr result (λ fault. Extends (D.events disk.old) (D.events disk.new) (NotMade fault)) }
{
    let folder = folder_of(name);
    for number in 0..MOST_NAMES {
        let Ok(aside) = aside_name(alloc, folder, ids, number) else {
            return Err(StoreFault::Memory);
        };
        match disk.create_new(aside) {
            Ok(file) => return Ok(file),
            Err(e) if e.kind() == ErrorKind::AlreadyExists => {}
            Err(e) => return Err(call_fault(&e)),
        }
    }
    Err(StoreFault::Failed)
}

/// Writes a new file whole, to the disk.
fn fill<D: Disk>(disk: &mut D, file: &mut D::File, bytes: &[u8]) -> Result<(), StoreFault>
    ensures same { D.made_as file.new ≡ D.made_as file.old }
    ensures filled { OnOk result (Extends (D.events disk.old) (D.events disk.new)
        (λ more. more ≡ filled (D.made_as file.old) bytes.now)) }
    ensures not { IfErr result (λ fault. Extends (D.events disk.old) (D.events disk.new) (NotMade fault)) }
{
    if let Err(e) = disk.append(file, bytes) {
        return Err(call_fault(&e));
    }
    match disk.sync_file(file) {
        Ok(()) => Ok(()),
        Err(e) => Err(call_fault(&e)),
    }
}

/// Gives a whole file the name of its place too.
fn link_new<D: Disk>(disk: &mut D, file: &D::File, name: &str) -> Result<(), StoreFault>
    ensures linked { OnOk result (Extends (D.events disk.old) (D.events disk.new)
        (IsLinked (D.made_as file.now) name.now)) }
    ensures not { IfErr result (λ fault. Extends (D.events disk.old) (D.events disk.new)
        (NotLinked (D.made_as file.now) name.now fault)) }
{
    let Err(e) = disk.link(file, name) else {
        return Ok(());
    };
    if e.kind() != ErrorKind::AlreadyExists {
        return Err(call_fault(&e));
    }
    // Over a network a link that was made may be asked for once more, and is there then.
    if disk.is_at(file, name) {
        return Ok(());
    }
    Err(StoreFault::There)
}

/// Writes a new file whole, and then gives it the name of its place.
fn link_whole<D: Disk>(
    disk: &mut D,
    file: &mut D::File,
    name: &str,
    bytes: &[u8],
) -> Result<(), StoreFault>
    ensures same { D.made_as file.new ≡ D.made_as file.old }
    ensures linked { OnOk result (Extends (D.events disk.old) (D.events disk.new)
        (IsWholeAt (D.made_as file.old) name.now bytes.now)) }
    ensures not { IfErr result (λ fault. Extends (D.events disk.old) (D.events disk.new)
        (NotLinked (D.made_as file.old) name.now fault)) }
{
    fill(disk, file, bytes)?;
    link_new(disk, file, name)
}

/// Whether the system has no such thing as the sync that was refused so.
fn has_no_sync(e: &io::Error) -> bool
    ensures { IsTrue result ↔ HasNoSync e.now }
{
    matches!(e.kind(), ErrorKind::InvalidInput | ErrorKind::Unsupported)
}

/// Brings the names of a folder to the disk.
fn sync_folder<D: Disk>(disk: &mut D, folder: &str) -> Result<(), StoreFault>
    ensures kept { OnOk result (Extends (D.events disk.old) (D.events disk.new) (IsFolderKept folder.now)) }
    ensures failed { IfErr result (λ fault. fault ≡ StoreFault.Failed) }
    ensures lost { OnErr result (Extends (D.events disk.old) (D.events disk.new) (IsFolderLost folder.now)) }
{
    match disk.sync_folder(folder) {
        Ok(()) => Ok(()),
        Err(e) if has_no_sync(&e) => Ok(()),
        Err(_) => Err(StoreFault::Failed),
    }
}

/// Puts a new file where none is: it is written whole under a name of its own first, and then linked to its place,
/// which the system refuses where anything is there; its folder is synced last.
fn place_new<D: Disk>(
    disk: &mut D,
    alloc: Global,
    ids: &Ids,
    name: &str,
    bytes: &[u8],
) -> Result<(), StoreFault>
    ensures placed { OnOk result (Extends (D.events disk.old) (D.events disk.new)
        (IsPlaced (IsAsideOf ids.now name.now) name.now bytes.now)) }
    ensures not { IfErr result (λ fault. Extends (D.events disk.old) (D.events disk.new)
        (NotPlaced (IsAsideOf ids.now name.now) name.now bytes.now fault)) }
{
    let mut file = create_aside(disk, alloc, ids, name)?;
    let linked = link_whole(disk, &mut file, name, bytes);
    // A name that can't be removed names nothing that is read.
    let _ = disk.remove(file);
    match linked {
        Ok(()) => sync_folder(disk, folder_of(name)),
        Err(fault) => Err(fault),
    }
}

/// A folder of a disk in which one commit puts its files, as `CommitFolder` does.
#[derive(Drop)]
pub struct DiskFolder<'a, D> {
    disk: D,
    folder: &'a str,
    prefix: &'a str,
    ids: &'a Ids,
}

impl<'a, D: Disk> DiskFolder<'a, D> {
    /// The folder, for the files of the commit that takes these names, of the paths that begin with a prefix.
    pub fn new(disk: D, folder: &'a str, prefix: &'a str, ids: &'a Ids) -> Self
        ensures disk { result.disk ≡ disk }
        ensures place { (result.folder.now ≡ folder.now) × (result.prefix.now ≡ prefix.now) }
        ensures ids { result.ids.now ≡ ids.now }
    {
        DiskFolder {
            disk,
            folder,
            prefix,
            ids,
        }
    }
}

impl<D: Disk> Store for DiskFolder<'_, D> {
    ghost use Rattle.std.specs.Prelude.{None};
    ghost use Rattle.icescan_files.specs.Disks.{names_below};

    ghost files = { λ _. None };

    ghost may_fail = { λ _. Unit {0} };

    ghost events = { λ s. D.events s.disk };

    ghost names = { λ s. names_below s.folder.now s.prefix.now s.ids.now };

    fn has_no_place(&self, path: &str) -> bool {
        is_outside(self.prefix, path)
    }

    fn create_new(&mut self, alloc: Global, path: &str, bytes: &[u8]) -> Result<(), StoreFault> {
        match file_name(alloc, self.folder, self.prefix, path) {
            Ok(Some(name)) => place_new(&mut self.disk, alloc, self.ids, name.as_str(), bytes),
            Ok(None) => Err(StoreFault::Failed),
            Err(_) => Err(StoreFault::Memory),
        }
    }
}

/// A folder in which one commit puts its files. What is not whole yet stands under names with the commit's UUID, so
/// what a commit that was killed left is in no other's way.
///
/// A file that is put is on the disk, and so is its name. Where the file system has such a sync and it fails, the put
/// is `Failed`, and the file stays in its place. The folder that it is in has to be one that may be read.
#[derive(Drop)]
pub struct CommitFolder<'a, H> {
    folder: Folder<'a, H>,
    ids: &'a Ids,
}

impl<'a, H: std::rt::Files> CommitFolder<'a, H> {
    /// The folder, for the files of the commit that takes these names.
    pub fn new(folder: Folder<'a, H>, ids: &'a Ids) -> Self
        ensures { (result.folder ≡ folder.entry) × (result.ids.now ≡ ids.now) }
    {
        CommitFolder { folder, ids }
    }
}

/// The path of the folder in which the file of a path is.
fn above(path: &str) -> &str {
    match path.rsplit_once('/') {
        Some((above, _)) => above,
        None => "",
    }
}

impl<H: std::rt::Files> Store for CommitFolder<'_, H> {
    ghost use Rattle.std.specs.Prelude.{None};

    ghost files = { λ _. None };

    ghost may_fail = { λ _. Unit {0} };

    fn has_no_place(&self, path: &str) -> bool {
        is_outside(self.folder.prefix, path)
    }

    fn create_new(&mut self, alloc: Global, path: &str, bytes: &[u8]) -> Result<(), StoreFault> {
        match self.folder.refuses(alloc, above(path)) {
            Ok(false) => {}
            Ok(true) => return Err(StoreFault::Failed),
            Err(_) => return Err(StoreFault::Memory),
        }
        let Folder {
            host,
            folder,
            prefix,
            links: _,
        } = &self.folder;
        DiskFolder::new(HostDisk::new(*host), folder, prefix, self.ids).create_new(
            alloc, path, bytes,
        )
    }
}
