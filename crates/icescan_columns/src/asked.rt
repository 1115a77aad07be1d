//! What is asked of a table's metadata, from its bytes.

ghost use Rattle.std.specs.Prelude.{◌≡◌, ◌≢◌, ◌∷◌, [], ℕ, List, Some, Ok, IfErr, IfOk, IsErrOf, OnOk};
ghost use Rattle.contract_words.specs.Outcome.{Gives};
ghost use Rattle.ice_desk.specs.Worlds.{EndsAt};
ghost use Rattle.ice_state.specs.Contents.{World};
ghost use Rattle.serde_json.specs.View.{view};
ghost use Rattle.icescan_columns.specs.Columns.{IsOfMetadata, WroteText, WroteTextFront, columns_for, columns_in};
ghost use Rattle.icescan_columns.specs.Columns.{is_there, made_at, made_of, told};
ghost use Rattle.icescan_text.specs.Reads.{MayEnd};

use crate::json_lines::{columns_objects, table_objects};
use crate::lines::columns_lines;
use ice_desk::Files;
use ice_meta::{MetaFault, Metadata, Schema, Target};
use icescan_forms::Format;
use icescan_print::{Sink, write_all};
use icescan_text::{RunFault, read_file};
use std::alloc::{AllocError, Global};

/// What is asked of a table's metadata.
#[derive(Clone, Copy)]
pub enum Asked<'a> {
    /// The columns that a filter of this snapshot names, and the partition specs, in this form.
    Columns(&'a Target, Format),
    /// What it says, as lines of JSON.
    Table,
}

/// Stops where the snapshot that is asked for by name or id is not there.
fn check_target(metadata: &Metadata, target: &Target) -> Result<(), MetaFault>
    ensures { result ≡ is_there target.now metadata.now.table }
{
    match target {
        Target::Main => Ok(()),
        _ => {
            metadata.resolve(target)?;
            Ok(())
        }
    }
}

/// The columns of a schema and the partition specs that this metadata says, in a form.
fn columns_in(
    alloc: Global,
    format: Format,
    metadata: &Metadata,
    schema: &Schema,
) -> Result<Vec<u8>, AllocError>
    ensures { IfOk result (λ text. text.items
        ≡ columns_in format (view metadata.now.json) schema.now metadata.now.table) }
{
    match format {
        Format::Text => columns_lines(alloc, metadata, schema),
        Format::Json => columns_objects(alloc, metadata, schema),
    }
}

/// The columns that a filter of the target names, in a form.
#[tactic(auto, unfolding(crate::specs::Columns::columns_for))]
fn columns_for(
    alloc: Global,
    format: Format,
    metadata: &Metadata,
    target: &Target,
) -> Result<Vec<u8>, RunFault>
    ensures gives { Gives RunFault.Memory (λ text. text.items) result
        (columns_for format (view metadata.now.json) metadata.now.table target.now) }
    ensures causes { IfErr result IsOfMetadata }
{
    check_target(metadata, target)?;
    let schema = metadata.schema_for(target);
    let text = columns_in(alloc, format, metadata, schema)?;
    Ok(text)
}

/// What is asked of metadata.
fn told(alloc: Global, metadata: &Metadata, asked: &Asked<'_>) -> Result<Vec<u8>, RunFault>
    ensures gives { Gives RunFault.Memory (λ text. text.items) result
        (told asked.now (view metadata.now.json) metadata.now.table) }
    ensures causes { IfErr result IsOfMetadata }
{
    match asked {
        Asked::Columns(target, format) => columns_for(alloc, *format, metadata, target),
        Asked::Table => Ok(table_objects(alloc, metadata.json(), metadata.table())?),
    }
}

/// The same, of the metadata that these are the bytes of.
#[tactic(auto, unfolding(crate::specs::Columns::made_of))]
fn told_of(alloc: Global, metadata: &[u8], asked: &Asked<'_>) -> Result<Vec<u8>, RunFault>
    ensures gives { Gives RunFault.Memory (λ text. text.items) result (made_of (told asked.now) metadata.now) }
    ensures causes { IfErr result IsOfMetadata }
{
    let metadata = Metadata::read(alloc, metadata)?;
    told(alloc, &metadata, asked)
}

/// Writes what is asked of the metadata that these are the bytes of. The refusals are those of `run_columns`.
pub fn write_told<W: Sink>(
    alloc: Global,
    metadata: &[u8],
    asked: &Asked<'_>,
    output: &mut W,
) -> Result<(), RunFault>
    ensures written { OnOk result (WroteText (made_of (told asked.now) metadata.now) (W.taken output.old)
        (W.taken output.new)) }
    ensures refused { IfErr result (MayEnd (made_of (told asked.now) metadata.now) (λ _. ⊥) (W.may_fail output.old)) }
    ensures nothing { IfErr result (λ fault. fault ≢ RunFault.Write → W.taken output.new ≡ W.taken output.old) }
    ensures front { IsErrOf result RunFault.Write →
        WroteTextFront (made_of (told asked.now) metadata.now) (W.taken output.old) (W.taken output.new) }
{
    let text = told_of(alloc, metadata, asked)?;
    write_all(output, &text)?;
    Ok(())
}

/// The same of the metadata in the file at a path. The refusals are those of `columns_file`.
pub fn file_told<F: Files, W: Sink>(
    alloc: Global,
    files: &F,
    path: &str,
    asked: &Asked<'_>,
    output: &mut W,
) -> Result<(), RunFault>
    ensures written { (world : World) → F.world files.now ≡ Some world →
        OnOk result (WroteText (made_at (told asked.now) world path.now) (W.taken output.old) (W.taken output.new)) }
    ensures refused { (world : World) → F.world files.now ≡ Some world →
        IfErr result (MayEnd (made_at (told asked.now) world path.now)
        (EndsAt world (F.may_fail files.now) (path.now ∷ [])) (W.may_fail output.old)) }
    ensures front { (world : World) → F.world files.now ≡ Some world → IsErrOf result RunFault.Write →
        WroteTextFront (made_at (told asked.now) world path.now) (W.taken output.old) (W.taken output.new) }
    ensures nothing { IfErr result (λ fault. fault ≢ RunFault.Write → W.taken output.new ≡ W.taken output.old) }
    ensures given { OnOk result ((metadata : List ℕ) × F.gives files.now path.now (Some metadata)
        × WroteText (made_of (told asked.now) metadata) (W.taken output.old) (W.taken output.new)) }
{
    let metadata = read_file(alloc, files, path)?;
    write_told(alloc, &metadata, asked, output)
}
