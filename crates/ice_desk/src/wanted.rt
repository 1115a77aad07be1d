//! Taking the manifests that a scan wants.

ghost use Rattle.std.specs.Prelude.{◌≡◌, ◌<◌, ℕ, Bool, List, [], ◌∷◌, Some, None, length, IfOk, IfErr, IsOk, OnOk};
ghost use Rattle.std.specs.Prelude.{IsErrOf};
ghost use Rattle.ice_desk.specs.Given.{IsGiven};
ghost use Rattle.ice_desk.specs.Wanted.{IsContentOf, MayStop, reads_of, untaken};
ghost use Rattle.ice_desk.specs.Worlds.{HasAt};
ghost use Rattle.ice_state.specs.Contents.{World, HasEach, IsOf, every_row, is_row_taken, took};

use crate::fault::WantedFault;
use crate::files::{Files, ReadFault};
use contract_words::Text;
use ice_state::{Partial, Scan};
use std::alloc::{AllocError, Global};

/// A path of its own.
fn path_of(alloc: Global, path: &str) -> Result<Text, AllocError>
    ensures { IfOk result (λ text. text ≡ path.now) }
{
    Ok(Text::from_string(String::from_str(alloc, path)?))
}

/// Puts the bytes of the file at a path in place of those that `bytes` has.
fn read_file<F: Files>(
    alloc: Global,
    files: &F,
    path: &str,
    bytes: &mut Vec<u8>,
) -> Result<(), WantedFault>
    ensures found { OnOk result (HasAt (F.world files.now) path.now (Some bytes.new.items)) }
    ensures refused { (world : World) → F.world files.now ≡ Some world →
        IfErr result (MayStop world (F.may_fail files.now) (path.now ∷ [])) }
    ensures absent { (path : List ℕ) → IsErrOf result (WantedFault.Absent path) → HasAt (F.world files.now) path None }
    ensures device { (path : List ℕ) → IsErrOf result (WantedFault.Device path) → F.may_fail files.now path }
    ensures given { OnOk result (F.gives files.now path.now (Some bytes.new.items)) }
    ensures none_given { (path : List ℕ) → IsErrOf result (WantedFault.Absent path) → F.gives files.now path None }
{
    match files.read_into(alloc, path, bytes) {
        Ok(()) => Ok(()),
        Err(ReadFault::Absent) => Err(WantedFault::Absent(path_of(alloc, path)?)),
        Err(ReadFault::Device) => Err(WantedFault::Device(path_of(alloc, path)?)),
        Err(ReadFault::Memory) => Err(WantedFault::Memory),
    }
}

/// Takes the manifests of a scan that a state lacks, in the order of their paths. The first that is not there, or can't
/// be read, ends it, and then those before it are taken. A state that lacks none needs no memory.
pub fn take_wanted<F: Files>(
    alloc: Global,
    files: &F,
    scan: &Scan,
    state: &mut Partial,
) -> Result<(), WantedFault>
    requires { IsOf scan.now state.old }

    ensures of_scan { IsOf scan.now state.new }

    // Over files that tell their world: every wanted row is taken then, and each that was read is there; or the reads,
    // of the rows that were not taken, end as they may.
    ensures taken { (world : World) (ts : List Bool) → F.world files.now ≡ Some world →
        IsContentOf world scan.now state.old ts →
        OnOk result (IsContentOf world scan.now state.new (every_row scan.now)) }
    ensures present { (world : World) → F.world files.now ≡ Some world →
        OnOk result (HasEach world (untaken state.old scan.now.wanted)) }
    ensures refused { (world : World) → F.world files.now ≡ Some world →
        IfErr result (MayStop world (F.may_fail files.now) (reads_of scan.now state.old)) }

    // Over all files.
    ensures whole { OnOk result (untaken state.new scan.now.wanted ≡ []) }
    ensures absent { (path : List ℕ) → IsErrOf result (WantedFault.Absent path) → HasAt (F.world files.now) path None }
    ensures device { (path : List ℕ) → IsErrOf result (WantedFault.Device path) → F.may_fail files.now path }
    // What it takes is read from bytes that reads of these files gave.
    ensures given { IsGiven (F.gives files.now) scan.now state.old → IsGiven (F.gives files.now) scan.now state.new }
    ensures none_given { (path : List ℕ) → IsErrOf result (WantedFault.Absent path) → F.gives files.now path None }
    // A state that lacks none takes no memory.
    ensures none { untaken state.old scan.now.wanted ≡ [] → IsOk result }
{
    let mut bytes = Vec::new(alloc);
    for (i, row) in scan.wanted().iter().enumerate() {
        if state.is_taken(i) {
            continue;
        }
        read_file(alloc, files, row.path.as_str(), &mut bytes)?;
        state.take(scan, i, bytes.as_slice())?;
    }
    Ok(())
}
