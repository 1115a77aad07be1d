//! Files that have to be there, and the rows of manifest lists.

ghost use Rattle.std.specs.Prelude.{◌≡◌, ◌≤◌, ℕ, List, ◌∷◌, [], length, Some, None, Ok, IfOk, IfErr, IsErrOf, OnOk};
ghost use Rattle.ice_desk.specs.Worlds.{EndsAt, HasAt};
ghost use Rattle.ice_state.specs.Contents.{World};
ghost use Rattle.icescan_text.specs.Reads.{AreRowsGiven, IsOfFile, IsUnread, MayEnd, file_in, rows_at};

use crate::fault::RunFault;
use contract_words::Text;
use ice_desk::{Files, ReadFault};
use ice_manifest_reading::{Row, read_list};
use std::alloc::{AllocError, Global};

/// A text of its own.
fn text_of(alloc: Global, path: &str) -> Result<Text, AllocError>
    ensures { IfOk result (λ text. text ≡ path.now) }
{
    Ok(Text::from_string(String::from_str(alloc, path)?))
}

/// The bytes of the file at a path: `Absent` where there is none, `Device` where reading it failed.
pub fn read_file<F: Files>(alloc: Global, files: &F, path: &str) -> Result<Vec<u8>, RunFault>
    ensures found { (world : World) → F.world files.now ≡ Some world →
        IfOk result (λ bytes. file_in world path.now ≡ Ok bytes.items) }
    ensures refused { (world : World) → F.world files.now ≡ Some world →
        IfErr result (MayEnd (file_in world path.now) (EndsAt world (F.may_fail files.now) (path.now ∷ [])) ⊥) }
    ensures absent { (path : List ℕ) → IsErrOf result (RunFault.Absent path) → HasAt (F.world files.now) path None }
    ensures device { (path : List ℕ) → IsErrOf result (RunFault.Device path) → F.may_fail files.now path }
    ensures causes { IfErr result IsOfFile }
    ensures write { IsErrOf result RunFault.Write → ⊥ }
    ensures workers { IsErrOf result RunFault.Workers → ⊥ }
    ensures given { IfOk result (λ bytes. F.gives files.now path.now (Some bytes.items)) }
    ensures none_given { (path : List ℕ) → IsErrOf result (RunFault.Absent path) → F.gives files.now path None }
    ensures unread { IfErr result (IsUnread (F.gives files.now) (F.may_fail files.now) path.now) }
{
    match files.read(alloc, path) {
        Ok(bytes) => Ok(bytes),
        Err(ReadFault::Absent) => Err(RunFault::Absent(text_of(alloc, path)?)),
        Err(ReadFault::Device) => Err(RunFault::Device(text_of(alloc, path)?)),
        Err(ReadFault::Memory) => Err(RunFault::Memory),
    }
}

/// Puts the bytes of the file at a path in place of those that `bytes` has: `Absent` where there is none, `Device`
/// where reading it failed.
pub fn read_file_into<F: Files>(
    alloc: Global,
    files: &F,
    path: &str,
    bytes: &mut Vec<u8>,
) -> Result<(), RunFault>
    ensures found { (world : World) → F.world files.now ≡ Some world →
        OnOk result (file_in world path.now ≡ Ok bytes.new.items) }
    ensures refused { (world : World) → F.world files.now ≡ Some world →
        IfErr result (MayEnd (file_in world path.now) (EndsAt world (F.may_fail files.now) (path.now ∷ [])) ⊥) }
    ensures absent { (path : List ℕ) → IsErrOf result (RunFault.Absent path) → HasAt (F.world files.now) path None }
    ensures device { (path : List ℕ) → IsErrOf result (RunFault.Device path) → F.may_fail files.now path }
    ensures write { IsErrOf result RunFault.Write → ⊥ }
    ensures given { OnOk result (F.gives files.now path.now (Some bytes.new.items)) }
    ensures none_given { (path : List ℕ) → IsErrOf result (RunFault.Absent path) → F.gives files.now path None }
    ensures unread { IfErr result (IsUnread (F.gives files.now) (F.may_fail files.now) path.now) }
{
    match files.read_into(alloc, path, bytes) {
        Ok(()) => Ok(()),
        Err(ReadFault::Absent) => Err(RunFault::Absent(text_of(alloc, path)?)),
        Err(ReadFault::Device) => Err(RunFault::Device(text_of(alloc, path)?)),
        Err(ReadFault::Memory) => Err(RunFault::Memory),
    }
}

/// The rows of the manifest list at a path.
pub fn read_rows<F: Files>(alloc: Global, files: &F, list: &str) -> Result<Vec<Row>, RunFault>
    ensures found { (world : World) → F.world files.now ≡ Some world →
        IfOk result (λ rows. rows_at world list.now ≡ Ok rows.items) }
    ensures refused { (world : World) → F.world files.now ≡ Some world →
        IfErr result (MayEnd (rows_at world list.now) (EndsAt world (F.may_fail files.now) (list.now ∷ [])) ⊥) }
    ensures absent { (path : List ℕ) → IsErrOf result (RunFault.Absent path) → HasAt (F.world files.now) path None }
    ensures device { (path : List ℕ) → IsErrOf result (RunFault.Device path) → F.may_fail files.now path }
    ensures write { IsErrOf result RunFault.Write → ⊥ }
    ensures few { IfOk result (λ rows. length rows.items ≤ 65536) }
    ensures workers { IsErrOf result RunFault.Workers → ⊥ }
    ensures given { IfOk result (λ rows. AreRowsGiven (F.gives files.now) list.now rows.items) }
    ensures none_given { (path : List ℕ) → IsErrOf result (RunFault.Absent path) → F.gives files.now path None }
{
    let bytes = read_file(alloc, files, list)?;
    Ok(read_list(alloc, &bytes)?)
}
