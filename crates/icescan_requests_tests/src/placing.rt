//! Files and folders that are refused while a commit puts its files, and while a file is read.

use ice_catalog_changes::Ids;
use ice_desk::{Files as _, ReadFault};
use icescan_files::{CommitFolder, Folder, Store, StoreFault};
use std::alloc::Allocator;
use std::cell::Cell;
use std::fs::{self, Metadata, OpenFile, OpenOptions};
use std::io::{self, ErrorKind, Read, Seek, SeekFrom, Write};
use std::rt::Files;
use uuid::Uuid;

/// A file that refuses to be written, or to be kept, and is known by this metadata.
#[derive(Drop)]
struct Refusing<'a> {
    written: Option<ErrorKind>,
    kept: Option<ErrorKind>,
    known: Option<&'a Metadata>,
}

/// What a file answers that refuses so.
fn answer(refused: Option<ErrorKind>) -> io::Result<()> {
    match refused {
        Some(kind) => Err(io::Error::from(kind)),
        None => Ok(()),
    }
}

/// What is told of a file that is known so.
fn told(known: Option<&Metadata>) -> io::Result<Metadata> {
    match known {
        Some(known) => Ok(known.clone()?),
        None => Err(io::Error::from(ErrorKind::NotFound)),
    }
}

impl Write for Refusing<'_> {
    fn write(&mut self, buf: &[u8]) -> io::Result<usize> {
        answer(self.written)?;
        Ok(buf.len())
    }

    fn flush(&mut self) -> io::Result<()> {
        Ok(())
    }
}

impl Read for Refusing<'_> {
    fn read(&mut self, _buf: &mut [u8]) -> io::Result<usize> {
        Ok(0)
    }
}

impl Seek for Refusing<'_> {
    fn seek(&mut self, _to: SeekFrom) -> io::Result<u64> {
        Ok(0)
    }
}

impl OpenFile for Refusing<'_> {
    fn metadata(&self) -> io::Result<Metadata> {
        told(self.known)
    }

    fn set_len(&self, _size: u64) -> io::Result<()> {
        Ok(())
    }

    fn sync_all(&self) -> io::Result<()> {
        answer(self.kept)
    }

    fn sync_data(&self) -> io::Result<()> {
        Ok(())
    }
}

/// A host whose new files refuse to be written or kept, and whose one folder refuses to be opened, to be synced or to
/// link a file, with what is known of a new file and of the one at its place. It counts the names that it has.
#[derive(Drop)]
struct Host<'a> {
    written: Option<ErrorKind>,
    kept: Option<ErrorKind>,
    opened: Option<ErrorKind>,
    synced: Option<ErrorKind>,
    linked: Option<ErrorKind>,
    known: Option<&'a Metadata>,
    found: Option<&'a Metadata>,
    names: Cell<u32>,
}

impl<'a> Files for Host<'a> {
    type File = Refusing<'a>;

    type Dir = Refusing<'a>;

    fn open_file(&self, how: &OpenOptions, _path: &str) -> io::Result<Refusing<'a>> {
        if how.asks_create_new() {
            self.names.set(self.names.get().saturating_add(1));
            return Ok(Refusing {
                written: self.written,
                kept: self.kept,
                known: self.known,
            });
        }
        answer(self.opened)?;
        Ok(Refusing {
            written: None,
            kept: self.synced,
            known: None,
        })
    }

    fn open_dir(&self, _path: &str) -> io::Result<Refusing<'a>> {
        Err(io::Error::from(ErrorKind::Unsupported))
    }

    fn metadata(&self, _path: &str) -> io::Result<Metadata> {
        told(self.found)
    }

    fn symlink_metadata(&self, _path: &str) -> io::Result<Metadata> {
        told(self.found)
    }

    fn copy(&self, _from: &str, _to: &str) -> io::Result<u64> {
        Err(io::Error::from(ErrorKind::Unsupported))
    }

    fn rename(&self, _from: &str, _to: &str) -> io::Result<()> {
        Err(io::Error::from(ErrorKind::Unsupported))
    }

    fn remove_file(&self, _path: &str) -> io::Result<()> {
        self.names.set(self.names.get().saturating_sub(1));
        Ok(())
    }

    fn create_dir(&self, _path: &str) -> io::Result<()> {
        Err(io::Error::from(ErrorKind::Unsupported))
    }

    fn remove_dir(&self, _path: &str) -> io::Result<()> {
        Err(io::Error::from(ErrorKind::Unsupported))
    }

    fn remove_dir_all<B: Allocator>(&self, _alloc: B, _path: &str) -> io::Result<()> {
        Err(io::Error::from(ErrorKind::Unsupported))
    }

    fn hard_link(&self, _original: &str, _link: &str) -> io::Result<()> {
        answer(self.linked)?;
        self.names.set(self.names.get().saturating_add(1));
        Ok(())
    }
}

/// How a file is put in the folder of a host, and how many names the host has then.
fn puts(rt: &HostRuntime, host: &Host<'_>) -> (Result<(), StoreFault>, u32) {
    let ids = Ids {
        snapshot: 1,
        uuid: Uuid::from_bytes([7; 16]),
        now_ms: 0,
    };
    let mut folder = CommitFolder::new(Folder::new(host, "table", "mem://t"), &ids);
    let put = folder.create_new(rt.alloc(), "mem://t/metadata/m", b"bytes");
    (put, host.names.get())
}

/// A host that refuses nothing, and knows no file.
fn willing_host<'a>() -> Host<'a> {
    Host {
        written: None,
        kept: None,
        opened: None,
        synced: None,
        linked: None,
        known: None,
        found: None,
        names: Cell::new(0),
    }
}

/// A file that is not whole, or may not last, gets no name, whatever the system says of it.
#[test]
fn files_that_refuse(rt: HostRuntime) {
    let (full, broken) = (Some(ErrorKind::StorageFull), Some(ErrorKind::AlreadyExists));
    for (written, kept) in [(full, None), (None, broken), (broken, full)] {
        let host = Host {
            written,
            kept,
            ..willing_host()
        };
        assert!(rt; puts(&rt, &host) == (Err(StoreFault::Failed), 0));
    }
}

/// A folder that can't be synced refuses a file, which stays, unless there is no such sync.
#[test]
fn folders_that_refuse(rt: HostRuntime) {
    let (failed, none) = (Err(StoreFault::Failed), Some(ErrorKind::Unsupported));
    for (opened, synced, wanted) in [
        (None, None, Ok(())),
        (None, none, Ok(())),
        (None, Some(ErrorKind::InvalidInput), Ok(())),
        (None, Some(ErrorKind::ReadOnlyFilesystem), failed),
        (None, Some(ErrorKind::Other), failed),
        (Some(ErrorKind::PermissionDenied), None, failed),
        (none, none, failed),
    ] {
        let host = Host {
            opened,
            synced,
            ..willing_host()
        };
        assert!(rt; puts(&rt, &host) == (wanted, 1));
    }
}

/// A link that is said to be there was made where what is there is the file itself.
#[test]
fn links_that_refuse(rt: HostRuntime) -> io::Result<()> {
    let (one, other) = (fs::metadata(&rt, "/")?, fs::metadata(&rt, "/proc")?);
    let untold = Metadata::of_file(5);
    let there = Err(StoreFault::There);
    for (known, found, wanted) in [
        (Some(&one), Some(&one), Ok(())),
        (Some(&one), Some(&other), there),
        (Some(&one), None, there),
        (None, None, there),
        (Some(&untold), Some(&untold), there),
    ] {
        let host = Host {
            linked: Some(ErrorKind::AlreadyExists),
            known,
            found,
            ..willing_host()
        };
        assert!(rt; puts(&rt, &host) == (wanted, 0));
    }
    Ok(())
}

/// How a file is read in the folder of a host.
fn reads(rt: &HostRuntime, host: &Host<'_>) -> Result<usize, ReadFault> {
    let folder = Folder::new(host, "table", "mem://t");
    Ok(folder.read(rt.alloc(), "mem://t/metadata/m")?.len())
}

/// Only what is not found is absent, and what is no regular file is not opened.
#[test]
fn reads_that_refuse(rt: HostRuntime) -> io::Result<()> {
    let (file, device) = (Metadata::of_file(5), fs::metadata(&rt, "/dev/null")?);
    let (absent, refused) = (Err(ReadFault::Absent), Err(ReadFault::Device));
    for (found, opened, wanted) in [
        (Some(&file), None, Ok(0)),
        (None, None, absent),
        (Some(&file), Some(ErrorKind::NotFound), absent),
        (Some(&file), Some(ErrorKind::PermissionDenied), refused),
        (Some(&device), None, refused),
    ] {
        let host = Host {
            opened,
            found,
            ..willing_host()
        };
        assert!(rt; reads(&rt, &host) == wanted);
    }
    Ok(())
}
