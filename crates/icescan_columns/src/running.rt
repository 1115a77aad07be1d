//! The columns of a table and what its metadata says, in the forms that are asked for.

ghost use Rattle.std.specs.Prelude.{◌≡◌, ◌≢◌, ◌∷◌, [], ℕ, List, Some, IfErr, IsErrOf, OnOk};
ghost use Rattle.ice_desk.specs.Worlds.{EndsAt};
ghost use Rattle.ice_state.specs.Contents.{World};
ghost use Rattle.icescan_columns.specs.Columns.{WroteText, WroteTextFront, columns_at, columns_of, shown_json_at};
ghost use Rattle.icescan_columns.specs.Columns.{shown_json_of};
ghost use Rattle.icescan_text.specs.Reads.{MayEnd};

use crate::asked::{Asked, file_told, write_told};
use ice_desk::Files;
use ice_meta::Target;
use icescan_forms::Format;
use icescan_print::Sink;
use icescan_text::RunFault;
use std::alloc::Global;

/// Writes the columns that a filter of the target names, and the partition specs of the table, in a form.
///
/// The refusal is `Metadata` with the first fault of the bytes, or where a snapshot is asked for by a name or an id and
/// is not there; `Write` where a write failed, and then a front of the text was written; or `Memory`. After any refusal
/// but `Write` nothing was written.
#[tactic(auto, unfolding(crate::specs::Columns::columns_of))]
pub fn run_columns<W: Sink>(
    alloc: Global,
    metadata: &[u8],
    target: &Target,
    format: Format,
    output: &mut W,
) -> Result<(), RunFault>
    ensures written { OnOk result (WroteText (columns_of format metadata.now target.now) (W.taken output.old)
        (W.taken output.new)) }
    ensures refused { IfErr result (MayEnd (columns_of format metadata.now target.now) (λ _. ⊥)
        (W.may_fail output.old)) }
    ensures nothing { IfErr result (λ fault. fault ≢ RunFault.Write → W.taken output.new ≡ W.taken output.old) }
    ensures front { IsErrOf result RunFault.Write →
        WroteTextFront (columns_of format metadata.now target.now) (W.taken output.old) (W.taken output.new) }
{
    write_told(alloc, metadata, &Asked::Columns(target, format), output)
}

/// The same of the metadata in the file at a path.
///
/// The refusal is `Absent` where there is no such file, `Device` where reading it failed, else as `run_columns`'s.
#[tactic(auto, unfolding(crate::specs::Columns::columns_of, crate::specs::Columns::columns_at))]
pub fn columns_file<F: Files, W: Sink>(
    alloc: Global,
    files: &F,
    path: &str,
    target: &Target,
    format: Format,
    output: &mut W,
) -> Result<(), RunFault>
    // Over files that tell their world.
    ensures written { (world : World) → F.world files.now ≡ Some world →
        OnOk result (WroteText (columns_at format world path.now target.now) (W.taken output.old)
        (W.taken output.new)) }
    ensures refused { (world : World) → F.world files.now ≡ Some world →
        IfErr result (MayEnd (columns_at format world path.now target.now)
        (EndsAt world (F.may_fail files.now) (path.now ∷ [])) (W.may_fail output.old)) }
    ensures front { (world : World) → F.world files.now ≡ Some world → IsErrOf result RunFault.Write →
        WroteTextFront (columns_at format world path.now target.now) (W.taken output.old) (W.taken output.new) }

    // Over all files.
    ensures nothing { IfErr result (λ fault. fault ≢ RunFault.Write → W.taken output.new ≡ W.taken output.old) }
    // What is written is the columns of metadata that a read gave.
    ensures given { OnOk result ((metadata : List ℕ) × F.gives files.now path.now (Some metadata)
        × WroteText (columns_of format metadata target.now) (W.taken output.old) (W.taken output.new)) }
{
    file_told(alloc, files, path, &Asked::Columns(target, format), output)
}

/// Writes what the metadata in the file at a path says, with the columns of its schemas, as lines of JSON, an object
/// each.
///
/// The refusal is `Absent` where there is no such file, `Device` where reading it failed, `Metadata` with the first
/// fault of its bytes, `Write` where a write failed, and then a front of the text was written, or `Memory`. After any
/// refusal but `Write` nothing was written.
#[tactic(auto, unfolding(crate::specs::Columns::shown_json_of, crate::specs::Columns::shown_json_at))]
pub fn show_file_json<F: Files, W: Sink>(
    alloc: Global,
    files: &F,
    path: &str,
    output: &mut W,
) -> Result<(), RunFault>
    // Over files that tell their world.
    ensures written { (world : World) → F.world files.now ≡ Some world →
        OnOk result (WroteText (shown_json_at world path.now) (W.taken output.old) (W.taken output.new)) }
    ensures refused { (world : World) → F.world files.now ≡ Some world →
        IfErr result (MayEnd (shown_json_at world path.now)
        (EndsAt world (F.may_fail files.now) (path.now ∷ [])) (W.may_fail output.old)) }
    ensures front { (world : World) → F.world files.now ≡ Some world → IsErrOf result RunFault.Write →
        WroteTextFront (shown_json_at world path.now) (W.taken output.old) (W.taken output.new) }

    // Over all files.
    ensures nothing { IfErr result (λ fault. fault ≢ RunFault.Write → W.taken output.new ≡ W.taken output.old) }
    // What is written is what metadata says that a read gave.
    ensures given { OnOk result ((metadata : List ℕ) × F.gives files.now path.now (Some metadata)
        × WroteText (shown_json_of metadata) (W.taken output.old) (W.taken output.new)) }
{
    file_told(alloc, files, path, &Asked::Table, output)
}
