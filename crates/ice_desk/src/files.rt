//! Files by their paths.

ghost use Rattle.std.specs.Prelude.{◌≡◌, ℕ, List, Option, IfOk, OnOk, IsErrOf, Some, None};
ghost use Rattle.ice_desk.specs.Worlds.{HasAt};
ghost use Rattle.ice_state.specs.Contents.{World};

use std::alloc::Global;

/// Why a file's bytes were not given.
#[derive(Clone, Copy, Debug, PartialEq, Eq)]
pub enum ReadFault {
    /// There is no file at the path.
    Absent,
    /// There may be one, and reading it failed.
    Device,
    /// A growth was refused.
    Memory,
}

/// Files that can be read whole.
pub trait Files {
    /// The bytes at each path, where it tells them. They stay the same from one read to the next.
    ghost world: { Self → Option World };

    /// What a read of the file at a path may give: its bytes, or that there is none. Files that change from one read to
    /// the next may give more than one.
    ghost gives: { Self → List ℕ → Option (List ℕ) → Type 0 };

    /// A read of the file at a path may fail.
    ghost may_fail: { Self → List ℕ → Type 0 };

    /// The bytes of the file at a path.
    fn read(&self, alloc: Global, path: &str) -> Result<Vec<u8>, ReadFault>
        ensures found { IfOk result (λ bytes. HasAt (world self.now) path.now (Some bytes.items)) }
        ensures absent { IsErrOf result ReadFault.Absent → HasAt (world self.now) path.now None }
        ensures device { IsErrOf result ReadFault.Device → may_fail self.now path.now }
        ensures given { IfOk result (λ bytes. gives self.now path.now (Some bytes.items)) }
        ensures none_given { IsErrOf result ReadFault.Absent → gives self.now path.now None };

    /// Puts the bytes of the file at a path in place of those that `bytes` has, into its room where they fit: who reads
    /// many files one after the other makes room for the longest alone. A refusal leaves any bytes.
    fn read_into(&self, alloc: Global, path: &str, bytes: &mut Vec<u8>) -> Result<(), ReadFault>
        ensures found { OnOk result (HasAt (world self.now) path.now (Some bytes.new.items)) }
        ensures absent { IsErrOf result ReadFault.Absent → HasAt (world self.now) path.now None }
        ensures device { IsErrOf result ReadFault.Device → may_fail self.now path.now }
        ensures given { OnOk result (gives self.now path.now (Some bytes.new.items)) }
        ensures none_given { IsErrOf result ReadFault.Absent → gives self.now path.now None }
    {
        *bytes = self.read(alloc, path)?;
        Ok(())
    }
}
