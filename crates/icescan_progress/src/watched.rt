//! Files whose reads are told.

ghost use Rattle.std.specs.Prelude.{◌≡◌, Bool, true};

use ice_desk::{Files, ReadFault};
use std::alloc::Global;

/// Is told of reads, by any thread, where it may be.
pub trait Progress {
    /// It may be told of reads.
    ghost may_be_told: { Self → Bool };

    /// A file of so many bytes was read.
    fn file_read(&self, bytes: usize)
        requires { may_be_told self.now ≡ true };

    /// Something is about to be written: what was shown has to be gone.
    fn clear(&self);
}

/// Shows nothing.
#[derive(Drop)]
pub struct Silent;

impl Progress for Silent {
    ghost may_be_told = { λ _. true };

    fn file_read(&self, _bytes: usize) {}

    fn clear(&self) {}
}

/// Files of which each read is told. They tell the world of the files themselves, and a read of them gives what one
/// of those may give, and may fail where that may.
#[derive(Drop)]
pub struct Watched<'a, F, P: Progress> {
    files: F,
    progress: &'a P,
    ghost leave: { P.may_be_told progress.now ≡ true },
}

impl<'a, F: Files, P: Progress> Watched<'a, F, P> {
    /// These files, and who is told.
    pub fn new(files: F, progress: &'a P) -> Self
        requires { P.may_be_told progress.now ≡ true }
        ensures { result.files ≡ files }
    {
        Watched { files, progress }
    }
}

impl<F: Files, P: Progress> Files for Watched<'_, F, P> {
    ghost world = { λ watched. F.world watched.files };

    ghost gives = { λ watched. F.gives watched.files };

    ghost may_fail = { λ watched. F.may_fail watched.files };

    fn read(&self, alloc: Global, path: &str) -> Result<Vec<u8>, ReadFault> {
        let bytes = self.files.read(alloc, path)?;
        self.progress.file_read(bytes.len());
        Ok(bytes)
    }

    fn read_into(&self, alloc: Global, path: &str, bytes: &mut Vec<u8>) -> Result<(), ReadFault> {
        self.files.read_into(alloc, path, bytes)?;
        self.progress.file_read(bytes.len());
        Ok(())
    }
}
