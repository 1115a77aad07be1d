//! A walk through a folder of the host.

use crate::aged_folders::AgedFolders;
use contract_words::{Items, Text};
use ice_desk::ReadFault;
use icescan_files::{Folders, HostFolders};
use icescan_paths::AgedFile;
use std::alloc::{AllocError, Global};
use std::fs::{self, Metadata};
use std::io::{self, ErrorKind};
use std::rt::Clock;
use std::time::SystemTime;

/// The file in which tables without a catalog keep the number of their newest metadata. No metadata names it, and readers
/// need it, so it is none of the files that are looked for.
const VERSION_HINT: &str = "metadata/version-hint.text";

/// A walk through a folder of a host, and what it found.
#[derive(Drop)]
struct Walk<'a, H> {
    host: &'a H,
    alloc: Global,
    folder: &'a str,
    prefix: &'a str,
    /// When it began.
    began: SystemTime,
    /// The folders that it has not been in, below the folder.
    left: Vec<String>,
    found: Vec<AgedFile>,
}

/// Why the host refused something.
fn refused(e: &io::Error) -> ReadFault {
    match e.kind() {
        ErrorKind::OutOfMemory => ReadFault::Memory,
        _ => ReadFault::Device,
    }
}

fn no_memory(_e: AllocError) -> ReadFault {
    ReadFault::Memory
}

/// A name behind a front, with a slash between them where the front has none at its end.
fn joined(alloc: Global, front: &str, name: &str) -> Result<String, AllocError> {
    let mut path = String::from_str(alloc, front)?;
    if !front.as_bytes().ends_with(b"/") {
        path.push('/')?;
    }
    path.push_str(name)?;
    Ok(path)
}

/// The path of a name in a folder that is below the folder of the walk; that folder itself has an empty path.
fn below(alloc: Global, at: &str, name: &str) -> Result<String, AllocError> {
    if at.is_empty() {
        String::from_str(alloc, name)
    } else {
        joined(alloc, at, name)
    }
}

/// How many milliseconds before a time a file was changed. It is 0 where the file tells no time, or a later one.
fn age_of(found: &Metadata, began: SystemTime) -> u64 {
    let Ok(changed) = found.modified() else {
        return 0;
    };
    match began.duration_since(changed) {
        Ok(age) => u64::try_from(age.as_millis()).unwrap_or(u64::MAX),
        Err(_) => 0,
    }
}

impl<'a, H: std::rt::Files> Walk<'a, H> {
    /// The name by which the host knows what is at a path below the folder.
    fn host_name(&self, at: &str) -> Result<String, ReadFault> {
        if at.is_empty() {
            String::from_str(self.alloc, self.folder).map_err(no_memory)
        } else {
            joined(self.alloc, self.folder, at).map_err(no_memory)
        }
    }

    /// Puts a file last among those that were found.
    fn put_file(&mut self, at: &str, age_ms: u64) -> Result<(), AllocError> {
        let path = joined(self.alloc, self.prefix, at)?;
        self.found.push(AgedFile {
            path: Items::from_vec(Vec::from_slice(self.alloc, path.as_bytes())?),
            age_ms,
        })?;
        Ok(())
    }

    /// Looks at what is at a path below the folder: it is a file, a folder for later, or nothing that counts, as a link
    /// or the version hint.
    fn look(&mut self, at: String) -> Result<(), ReadFault> {
        let name = self.host_name(at.as_str())?;
        let found = match fs::symlink_metadata(self.host, name.as_str()) {
            Ok(found) => found,
            Err(e) if e.kind() == ErrorKind::NotFound => return Ok(()),
            Err(e) => return Err(refused(&e)),
        };
        if found.is_dir() {
            return self.left.push(at).map_err(|_| ReadFault::Memory);
        }
        if found.is_file() && at.as_str() != VERSION_HINT {
            let age_ms = age_of(&found, self.began);
            return self.put_file(at.as_str(), age_ms).map_err(no_memory);
        }
        Ok(())
    }

    /// The names in a folder at a path below the folder; none where it is not there any more.
    fn names_at(&self, at: &str) -> Result<Vec<Text>, ReadFault> {
        let name = self.host_name(at)?;
        match HostFolders::new(self.host).names_in(self.alloc, name.as_str()) {
            Err(ReadFault::Absent) if !at.is_empty() => Ok(Vec::new(self.alloc)),
            names => names,
        }
    }

    /// Looks at what is in a folder at a path below the folder.
    fn enter(&mut self, at: &str) -> Result<(), ReadFault> {
        for name in self.names_at(at)? {
            if name.as_str() != "." && name.as_str() != ".." && !name.as_str().is_empty() {
                let path = below(self.alloc, at, name.as_str()).map_err(no_memory)?;
                self.look(path)?;
            }
        }
        Ok(())
    }

    /// All files below the folder.
    fn go(mut self) -> Result<Vec<AgedFile>, ReadFault> {
        self.enter("")?;
        for _ in 0..u64::MAX {
            match self.left.pop() {
                Some(at) => self.enter(at.as_str())?,
                None => return Ok(self.found),
            }
        }
        Err(ReadFault::Device)
    }
}

/// Files in the order of their paths.
fn in_order(mut files: Vec<AgedFile>) -> Result<Vec<AgedFile>, AllocError> {
    files.sort_by(|a, b| a.path.as_slice().cmp(b.path.as_slice()))?;
    Ok(files)
}

/// The files below a folder of a host, in the order of their paths, and how long ago each was changed. Links are not
/// followed, and are no files.
fn aged_files<H: std::rt::Files + Clock>(
    host: &H,
    alloc: Global,
    folder: &str,
    prefix: &str,
) -> Result<Vec<AgedFile>, ReadFault> {
    let began = match SystemTime::now(host) {
        Ok(began) => began,
        Err(e) => return Err(refused(&e)),
    };
    let walk = Walk {
        host,
        alloc,
        folder,
        prefix,
        began,
        left: Vec::new(alloc),
        found: Vec::new(alloc),
    };
    in_order(walk.go()?).map_err(no_memory)
}

impl AgedFolders for HostRuntime {
    fn aged_files(
        &self,
        alloc: Global,
        folder: &str,
        prefix: &str,
    ) -> Result<Vec<AgedFile>, ReadFault> {
        aged_files(self, alloc, folder, prefix)
    }
}
