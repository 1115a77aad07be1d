//! What stands at a name of the file system.

use contract_words::Text;
use icescan_files::{Folders, HostFolders};
use std::alloc::Global;
use std::fs;
use std::io::ErrorKind;
use std::os::unix::fs::FileTypeExt;

/// What stands at a name.
#[derive(Clone, Copy, Debug, PartialEq, Eq)]
pub enum Kind {
    File,
    Folder,
    /// A pipe or a socket.
    Pipe,
    /// A device.
    Device,
    /// There is no right to see or to read it.
    Denied,
    /// Nothing, or it is not known.
    Unknown,
}

/// Looks at names, and changes nothing.
pub trait Looks {
    /// What stands at a name.
    fn kind(&self, name: &str) -> Kind;

    /// The names in a folder; none where it can't be read.
    fn names(&self, alloc: Global, folder: &str) -> Option<Vec<Text>>;
}

/// What a refusal says of a name.
fn refused(kind: ErrorKind) -> Kind {
    match kind {
        ErrorKind::PermissionDenied => Kind::Denied,
        _ => Kind::Unknown,
    }
}

impl Looks for HostRuntime {
    fn kind(&self, name: &str) -> Kind {
        let found = match fs::metadata(self, name) {
            Ok(found) => found,
            Err(e) => return refused(e.kind()),
        };
        if found.is_dir() {
            return Kind::Folder;
        }
        let file_type = found.file_type();
        if file_type.is_fifo() || file_type.is_socket() {
            return Kind::Pipe;
        }
        if !found.is_file() {
            return Kind::Device;
        }
        match fs::open(self, name) {
            Ok(_) => Kind::File,
            Err(e) => refused(e.kind()),
        }
    }

    fn names(&self, alloc: Global, folder: &str) -> Option<Vec<Text>> {
        HostFolders::new(self).names_in(alloc, folder).ok()
    }
}
