//! What is wrong with one live entry.

ghost use Rattle.std.specs.Prelude.{◌≡◌, ◌++◌, IfOk, OnOk, map};
ghost use Rattle.icescan_audit_findings.specs.Coverage.{outside, unbounded};
ghost use Rattle.icescan_audit_findings.specs.EntryFlaws.{deletes_by_none, entry_flaw, entry_flaws, has_flaw};
ghost use Rattle.icescan_audit_findings.specs.Findings.{flaws_beside, flaws_by, has_column, missing, missing_columns};
ghost use Rattle.icescan_audit_findings.specs.Flaws.{flaw_where};
ghost use Rattle.ice_manifest_reading.specs.Lending.{lent};

use crate::basis::Basis;
use crate::fields::{SourceField, push_fields_flaws, push_of_field};
use crate::finding::{EntryFlaw, FieldFlaw, Flaw};
use crate::limits::FieldLimits;
use ice_manifest_reading::{LentEntry, Row};
use ice_value::{Cell, FileBounds, FileContent};
use std::alloc::{AllocError, AllocFailed, Global};

/// Puts the fields last whose value is not within the limits.
fn push_uncovered(
    flaws: &mut Vec<Flaw>,
    limits: &[FieldLimits],
    tuple: &[Cell],
) -> Result<(), AllocError>
    ensures { OnOk result (flaws.new.items ≡ flaws.old.items ++ map Flaw.Uncovered (outside limits.now tuple.now)) }
{
    'fields: for i in 0..limits.len().min(tuple.len()) {
        if !limits[i].allows(&tuple[i]) {
            flaws.push(Flaw::Uncovered(limits[i].name.share()?))?;
        }
    }
    Ok(())
}

/// Puts the fields last whose value isn't null beside a summary that lacks a bound.
fn push_unbounded(
    flaws: &mut Vec<Flaw>,
    limits: &[FieldLimits],
    tuple: &[Cell],
) -> Result<(), AllocError>
    ensures { OnOk result (flaws.new.items
        ≡ flaws.old.items ++ map (Flaw.OfField FieldFlaw.Unbounded) (unbounded limits.now tuple.now)) }
{
    'fields: for i in 0..limits.len().min(tuple.len()) {
        let bounded = limits[i].is_bounded(&tuple[i]);
        push_of_field(flaws, !bounded, FieldFlaw::Unbounded, &limits[i].name)?;
    }
    Ok(())
}

/// Puts a flaw last, where it was found.
pub fn push_where(flaws: &mut Vec<Flaw>, found: bool, flaw: Flaw) -> Result<(), AllocFailed<Flaw>>
    ensures { OnOk result (flaws.new.items ≡ flaws.old.items ++ flaw_where found flaw) }
{
    if found {
        flaws.push(flaw)?;
    }
    Ok(())
}

fn has_column(columns: &[i32], id: i32) -> bool
    ensures { result ≡ has_column columns.now id }
{
    columns.iter().any(|column| *column == id)
}

/// Puts those of the ids last that no column has.
fn push_missing(flaws: &mut Vec<Flaw>, columns: &[i32], ids: &[i32]) -> Result<(), AllocError>
    ensures { OnOk result (flaws.new.items ≡ flaws.old.items ++ map Flaw.NoColumn (missing columns.now ids.now)) }
{
    'ids: for id in ids {
        if !has_column(columns, *id) {
            flaws.push(Flaw::NoColumn(*id))?;
        }
    }
    Ok(())
}

/// Puts the columns last by which an equality delete file deletes and that the schema lacks.
fn push_missing_columns(
    flaws: &mut Vec<Flaw>,
    basis: &Basis,
    entry: &LentEntry<'_>,
) -> Result<(), AllocError>
    ensures { OnOk result (flaws.new.items ≡ flaws.old.items ++ missing_columns basis.now (lent entry.now)) }
{
    match entry.content {
        FileContent::EqualityDeletes => push_missing(
            flaws,
            basis.columns.as_slice(),
            entry.equality_ids,
        ),
        _ => Ok(()),
    }
}

/// What is wrong with a live entry of a row's manifest, whose values may be within these limits.
pub fn flaws_of(
    alloc: Global,
    basis: &Basis,
    row: &Row,
    limits: &[FieldLimits],
    entry: &LentEntry<'_>,
) -> Result<Vec<Flaw>, AllocError>
    ensures { IfOk result (λ flaws. flaws.items ≡ flaws_by basis.now row.now limits.now (lent entry.now)) }
{
    let number = entry.sequence_number.get();
    let mut flaws = Vec::new(alloc);
    push_uncovered(&mut flaws, limits, entry.tuple)?;
    push_where(
        &mut flaws,
        number < row.min_sequence_number.get(),
        Flaw::BelowLeast,
    )?;
    push_where(&mut flaws, basis.last.get() < number, Flaw::AboveLast)?;
    push_missing_columns(&mut flaws, basis, entry)?;
    Ok(flaws)
}

/// Whether a file of this content deletes by the values of columns, and these are none.
fn deletes_by_none(content: FileContent, ids: &[i32]) -> bool
    ensures { result ≡ deletes_by_none content ids.now }
{
    match content {
        FileContent::EqualityDeletes => ids.is_empty(),
        _ => false,
    }
}

/// Whether a live entry of a row's manifest has the flaw.
fn has_flaw(flaw: EntryFlaw, row: &Row, entry: &LentEntry<'_>) -> bool
    ensures { result ≡ has_flaw flaw row.now (lent entry.now) }
{
    match flaw {
        EntryFlaw::AboveManifest => row.sequence_number.get() < entry.sequence_number.get(),
        EntryFlaw::NoEqualityIds => deletes_by_none(entry.content, entry.equality_ids),
        EntryFlaw::NegativeSize => entry.record_count < 0 || entry.file_size < 0,
        EntryFlaw::UnknownFormat => entry.format.is_none(),
    }
}

/// Puts the flaw last, where a live entry of a row's manifest has it.
fn push_entry_flaw(
    flaws: &mut Vec<Flaw>,
    flaw: EntryFlaw,
    row: &Row,
    entry: &LentEntry<'_>,
) -> Result<(), AllocError>
    ensures { OnOk result (flaws.new.items ≡ flaws.old.items ++ entry_flaw flaw row.now (lent entry.now)) }
{
    if has_flaw(flaw, row, entry) {
        flaws.push(Flaw::OfEntry(flaw))?;
    }
    Ok(())
}

/// Puts what is wrong with what a live entry of a row's manifest says of itself and of its file last.
fn push_entry_flaws(
    flaws: &mut Vec<Flaw>,
    row: &Row,
    entry: &LentEntry<'_>,
) -> Result<(), AllocError>
    ensures { OnOk result (flaws.new.items ≡ flaws.old.items ++ entry_flaws row.now (lent entry.now)) }
{
    push_entry_flaw(flaws, EntryFlaw::AboveManifest, row, entry)?;
    push_entry_flaw(flaws, EntryFlaw::NoEqualityIds, row, entry)?;
    push_entry_flaw(flaws, EntryFlaw::NegativeSize, row, entry)?;
    push_entry_flaw(flaws, EntryFlaw::UnknownFormat, row, entry)
}

/// Puts the further flaws of a live entry of a row's manifest last: those of its values of the spec's fields, which these
/// are, and then those of the entry itself.
pub fn push_further_flaws(
    alloc: Global,
    flaws: &mut Vec<Flaw>,
    row: &Row,
    limits: &[FieldLimits],
    fields: &[SourceField],
    entry: &LentEntry<'_>,
    bounds: &FileBounds<'_, '_>,
) -> Result<(), AllocError>
    ensures { OnOk result (flaws.new.items
        ≡ flaws.old.items ++ flaws_beside row.now limits.now fields.now (lent entry.now) bounds.now) }
{
    push_unbounded(flaws, limits, entry.tuple)?;
    push_fields_flaws(alloc, flaws, bounds, fields, entry.tuple)?;
    push_entry_flaws(flaws, row, entry)
}
