//! Where new files are put.

ghost use Rattle.std.specs.Prelude.{◌≡◌, ℕ, List, Option, None, OnOk, OnErr, IfErr, IsTrue};
ghost use Rattle.icescan_files.specs.Bundles.{File};
ghost use Rattle.icescan_files.specs.Stores.{MayLack, MayRefuse, Puts, PutsAll, StopsAt, WereFree};
ghost use Rattle.icescan_files.specs.Disks.{ArePlaced, Event, Extends, IsPlacedAt, NotPlacedAt, StopsPlacing};

use contract_words::{Items, Text};
use std::alloc::Global;

/// Why a file was not put.
#[derive(Clone, Copy, Debug, PartialEq, Eq)]
pub enum StoreFault {
    /// Something stands at the path already; it is as it was.
    There,
    /// The path names no place here, writing failed, or it is not sure that the file lasts.
    Failed,
    /// A growth was refused.
    Memory,
}

/// Takes new files. What stands at a path is never replaced.
pub trait Store {
    /// The files that it has, the newest last, where it tells them.
    ghost files: { Self → Option (List File) };

    /// Putting a file may fail.
    ghost may_fail: { Self → Type 0 };

    /// The calls that were made to its disk so far, each with how it ended; where it tells them.
    ghost events: { Self → Option (List Event) } = { λ _. None };

    /// The name that the file of a path has on its disk, and a name that it may have until it is whole.
    ghost names: { Self → List ℕ → List ℕ → List ℕ → Type 0 } = { λ _ _ _ _. ⊥ };

    /// Whether a path is known to have no place here, before any call to a disk: a file can't be put there.
    fn has_no_place(&self, _path: &str) -> bool
        ensures { IsTrue result → may_fail self.now }
    {
        false
    }

    /// Puts a file where there was none. A reader finds the whole file or none, also after a refusal and where the
    /// process is killed.
    fn create_new(&mut self, alloc: Global, path: &str, bytes: &[u8]) -> Result<(), StoreFault>
        ensures free { OnOk result (MayLack (files self.old) path.now) }
        ensures puts { OnOk result (Puts (files self.old) (files self.new) path.now bytes.now) }
        ensures none { OnErr result (files self.new ≡ files self.old) }
        ensures cause { IfErr result (MayRefuse (files self.old) (may_fail self.old) path.now) }
        ensures still { may_fail self.new → may_fail self.old }

        // What is done on the disk, in which order.
        ensures placed { OnOk result (Extends (events self.old) (events self.new)
            (IsPlacedAt (names self.old) path.now bytes.now)) }
        ensures unplaced { IfErr result (λ fault. Extends (events self.old) (events self.new)
            (NotPlacedAt (names self.old) path.now bytes.now fault)) }
        ensures named { (path name aside : List ℕ) → names self.new path name aside → names self.old path name aside };
}

/// Puts files in their order, up to the first that is refused.
pub fn put_files<S: Store>(
    alloc: Global,
    store: &mut S,
    files: &[(Text, Items<u8>)],
) -> Result<(), StoreFault>
    ensures all { OnOk result (PutsAll (S.files store.old) (S.files store.new) files.now) }
    ensures free { OnOk result (WereFree (S.files store.old) files.now) }
    ensures stops { IfErr result (StopsAt (S.files store.old) (S.files store.new) (S.may_fail store.old) files.now) }
    ensures still { S.may_fail store.new → S.may_fail store.old }

    // What is done on the disk, in which order.
    ensures placed { OnOk result (Extends (S.events store.old) (S.events store.new)
        (ArePlaced (S.names store.old) files.now)) }
    ensures unplaced { IfErr result (λ fault. Extends (S.events store.old) (S.events store.new)
        (StopsPlacing (S.names store.old) files.now fault)) }
    ensures named { (path name aside : List ℕ) → S.names store.new path name aside → S.names store.old path name aside }
{
    'files: for file in files {
        let (path, bytes) = file;
        store.create_new(alloc, path.as_str(), bytes.as_slice())?;
    }
    Ok(())
}
