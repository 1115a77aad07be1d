//! The text of a table's metadata, from the metadata's bytes.

ghost use Rattle.std.specs.Prelude.{◌≡◌, ◌≢◌, ◌∷◌, [], ℕ, List, Some, OnOk, IfErr, IsErrOf};
ghost use Rattle.ice_desk.specs.Worlds.{EndsAt};
ghost use Rattle.ice_state.specs.Contents.{World};
ghost use Rattle.icescan_text.specs.Reads.{MayEnd};
ghost use Rattle.icescan_requests.specs.Shows.{WroteFront, WroteText, show_of, shown_at};
ghost use Rattle.icescan_print.specs.TableTexts.{table_text};
ghost use Rattle.icescan_text.specs.Writes.{WroteOrRefused};

use ice_desk::Files;
use ice_meta::{Metadata, Table};
use icescan_print::{Page, Shown, Sink, main_of, put_table};
use icescan_text::{RunFault, read_file};
use std::alloc::Global;

/// Writes the text of a table and nothing else. It refuses when out of memory, and then nothing was written, or where a
/// write fails, and then a front of the text was.
fn write_table<S: Sink>(alloc: Global, table: &Table, sink: &mut S) -> Result<(), RunFault>
    ensures { WroteOrRefused S.taken S.may_fail sink.old result sink.new (table_text table.now) }
{
    let main = main_of(alloc, table.current_snapshot_id)?;
    let shown = Shown::of(alloc, table, &main)?;
    let mut page = Page::new(alloc)?;
    put_table(&mut page, sink, table, &shown)?;
    page.flush(sink)?;
    Ok(())
}

/// Writes what the bytes of a table's metadata say, as text.
///
/// The refusal is `Metadata` with the first fault of the bytes, `Write` where a write failed, and then a front of the
/// text was written, or `Memory`. After any refusal but `Write` nothing was written.
pub fn run_show<W: Sink>(alloc: Global, metadata: &[u8], output: &mut W) -> Result<(), RunFault>
    ensures written { OnOk result (WroteText (show_of metadata.now) (W.taken output.old) (W.taken output.new)) }
    ensures refused { IfErr result (MayEnd (show_of metadata.now) (λ _. ⊥) (W.may_fail output.old)) }
    ensures nothing { IfErr result (λ fault. fault ≢ RunFault.Write → W.taken output.new ≡ W.taken output.old) }
    ensures front { IsErrOf result RunFault.Write →
        WroteFront (show_of metadata.now) (W.taken output.old) (W.taken output.new) }
{
    let metadata = Metadata::read(alloc, metadata)?;
    write_table(alloc, metadata.table(), output)
}

/// Writes what the metadata in the file at a path says, as text.
///
/// The refusal is `Absent` where there is no such file, `Device` where reading it failed, else as `run_show`'s.
pub fn show_file<F: Files, W: Sink>(
    alloc: Global,
    files: &F,
    path: &str,
    output: &mut W,
) -> Result<(), RunFault>
    // Over files that tell their world.
    ensures written { (world : World) → F.world files.now ≡ Some world →
        OnOk result (WroteText (shown_at world path.now) (W.taken output.old) (W.taken output.new)) }
    ensures refused { (world : World) → F.world files.now ≡ Some world →
        IfErr result (MayEnd (shown_at world path.now) (EndsAt world (F.may_fail files.now) (path.now ∷ []))
        (W.may_fail output.old)) }
    ensures front { (world : World) → F.world files.now ≡ Some world → IsErrOf result RunFault.Write →
        WroteFront (shown_at world path.now) (W.taken output.old) (W.taken output.new) }

    // Over all files.
    ensures nothing { IfErr result (λ fault. fault ≢ RunFault.Write → W.taken output.new ≡ W.taken output.old) }
    // What is written is the text of bytes that a read gave.
    ensures given { OnOk result ((metadata : List ℕ) × F.gives files.now path.now (Some metadata)
        × WroteText (show_of metadata) (W.taken output.old) (W.taken output.new)) }
{
    let bytes = read_file(alloc, files, path)?;
    run_show(alloc, &bytes, output)
}
