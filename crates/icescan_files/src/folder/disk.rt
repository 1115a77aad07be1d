//! Where new files are put: a disk, by the calls that it is asked.

ghost use Rattle.std.specs.Prelude.{◌≡◌, ℕ, List, Option, IfOk, string_bytes};
ghost use Rattle.icescan_files.specs.Disks.{Event, Tells, event_of};
ghost use Rattle.icescan_files.specs.Disks.Event.{Done};
ghost use Rattle.icescan_files.specs.Disks.Call.{Append, Compare, Create, Link, Remove, SyncFile, SyncFolder};

use std::fs::{self, Metadata, OpenFile};
use std::io::{self, ErrorKind, Write};
use std::os::unix::fs::MetadataExt;

/// A disk, by the calls that are made for new files.
pub trait Disk {
    /// A new file that is open.
    type File: Drop;

    /// The calls so far, each with how it ended, the newest last; where it tells them.
    ghost events: { Self → Option (List Event) };

    /// The name under which a file was made.
    ghost made_as: { Self.File → List ℕ };

    /// Makes an empty file where nothing has the name.
    fn create_new(&mut self, name: String) -> io::Result<Self::File>
        ensures named { IfOk result (λ file. made_as file ≡ string_bytes name) }
        ensures told { Tells (events self.old) (events self.new) (event_of (Create (string_bytes name)) result) };

    /// Writes all of these bytes at the end of a file.
    fn append(&mut self, file: &mut Self::File, bytes: &[u8]) -> io::Result<()>
        ensures same { made_as file.new ≡ made_as file.old }
        ensures told { Tells (events self.old) (events self.new)
            (event_of (Append (made_as file.old) bytes.now) result) };

    /// Brings a file to the disk.
    fn sync_file(&mut self, file: &Self::File) -> io::Result<()>
        ensures { Tells (events self.old) (events self.new) (event_of (SyncFile (made_as file.now)) result) };

    /// Gives a file a second name, where nothing has it.
    fn link(&mut self, file: &Self::File, place: &str) -> io::Result<()>
        ensures { Tells (events self.old) (events self.new) (event_of (Link (made_as file.now) place.now) result) };

    /// Whether it is this very file that has a name.
    fn is_at(&mut self, file: &Self::File, place: &str) -> bool
        ensures { Tells (events self.old) (events self.new) (Done (Compare (made_as file.now) place.now result)) };

    /// Takes the name away under which a file was made.
    fn remove(&mut self, file: Self::File) -> io::Result<()>
        ensures { Tells (events self.old) (events self.new) (event_of (Remove (made_as file)) result) };

    /// Brings the names in a folder to the disk. `InvalidInput` and `Unsupported` say that there is no such sync.
    fn sync_folder(&mut self, folder: &str) -> io::Result<()>
        ensures { Tells (events self.old) (events self.new) (event_of (SyncFolder folder.now) result) };
}

/// The disk of the system. It tells no calls.
#[derive(Drop)]
pub struct HostDisk<'a, H> {
    host: &'a H,
}

impl<'a, H: std::rt::Files> HostDisk<'a, H> {
    /// The disk of a host.
    pub fn new(host: &'a H) -> Self {
        HostDisk { host }
    }
}

/// A file of the system, and the name under which it was made.
#[derive(Drop)]
pub struct HostFile<F> {
    name: String,
    file: F,
}

/// What the system knows a file by.
#[derive(Clone, Copy, PartialEq, Eq)]
struct Node {
    device: u64,
    inode: u64,
}

/// What the system knows the file of this metadata by; none where the host doesn't tell.
fn node_of(found: &Metadata) -> Option<Node> {
    if found.ino() == 0 {
        return None;
    }
    Some(Node {
        device: found.dev(),
        inode: found.ino(),
    })
}

impl<H: std::rt::Files> Disk for HostDisk<'_, H> {
    ghost use Rattle.std.specs.Prelude.{None, string_bytes};

    type File = HostFile<H::File>;

    ghost events = { λ _. None };

    ghost made_as = { λ file. string_bytes file.name };

    fn create_new(&mut self, name: String) -> io::Result<HostFile<H::File>> {
        let file = fs::File::create_new(self.host, name.as_str())?;
        Ok(HostFile { name, file })
    }

    fn append(&mut self, file: &mut HostFile<H::File>, bytes: &[u8]) -> io::Result<()> {
        file.file.write_all(bytes)
    }

    fn sync_file(&mut self, file: &HostFile<H::File>) -> io::Result<()> {
        file.file.sync_all()
    }

    fn link(&mut self, file: &HostFile<H::File>, place: &str) -> io::Result<()> {
        fs::hard_link(self.host, file.name.as_str(), place)
    }

    fn is_at(&mut self, file: &HostFile<H::File>, place: &str) -> bool {
        match (file.file.metadata(), fs::symlink_metadata(self.host, place)) {
            (Ok(written), Ok(found)) => {
                let node = node_of(&written);
                node.is_some() && node == node_of(&found)
            }
            _ => false,
        }
    }

    fn remove(&mut self, file: HostFile<H::File>) -> io::Result<()> {
        fs::remove_file(self.host, file.name.as_str())
    }

    fn sync_folder(&mut self, folder: &str) -> io::Result<()> {
        match fs::open(self.host, folder) {
            Ok(opened) => opened.sync_all(),
            // A folder that can't be opened is not one that has no sync.
            Err(_) => Err(io::Error::from(ErrorKind::Other)),
        }
    }
}
