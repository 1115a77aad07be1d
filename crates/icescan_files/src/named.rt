//! Files by the names that words give them.

ghost use Rattle.std.specs.Prelude.{◌≡◌, None};

use crate::folders::{Below, Folders};
use ice_desk::{Files, ReadFault};
use std::alloc::Global;

/// The files of a system by their names: each lies below the folder that the front of its name says, up to the last
/// slash.
#[derive(Drop)]
pub struct NamedFiles<'a, D> {
    folders: &'a D,
}

impl<'a, D: Folders> NamedFiles<'a, D> {
    /// The files of these folders.
    pub fn new(folders: &'a D) -> Self
        ensures { result.folders.now ≡ folders.now }
    {
        NamedFiles { folders }
    }

    /// The files of the folder that the front of a name says.
    fn beside<'b>(&'b self, name: &'b str) -> Below<'b, D>
        ensures { result.folders.now ≡ self.now.folders.now }
    {
        match name.rsplit_once('/') {
            Some((folder, _)) => Below::new(self.folders, folder, folder),
            None => Below::new(self.folders, ".", ""),
        }
    }
}

impl<D: Folders> Files for NamedFiles<'_, D> {
    ghost use Rattle.icescan_files.specs.Folders.{named};

    ghost world = { λ _. None };

    ghost gives = { λ files. named (D.gives files.folders.now) };

    ghost may_fail = { λ _ _. Unit {0} };

    fn read(&self, alloc: Global, path: &str) -> Result<Vec<u8>, ReadFault> {
        self.beside(path).read(alloc, path)
    }

    fn read_into(&self, alloc: Global, path: &str, bytes: &mut Vec<u8>) -> Result<(), ReadFault> {
        self.beside(path).read_into(alloc, path, bytes)
    }
}
