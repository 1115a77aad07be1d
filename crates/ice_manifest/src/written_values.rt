//! The data that are written for the rows of manifest lists.

ghost use Rattle.std.specs.Prelude.{◌≡◌, ◌<◌, ◌^◌, ◌++◌, pos, length, IfOk, IfSome};
ghost use Rattle.std.specs.List.{AllByRecursion};
ghost use Rattle.std.specs.Option.{option_copied};
ghost use Rattle.avro_file.specs.Value.{small, whole, truth, text as text_value, run, chosen, fields, values_of};
ghost use Rattle.avro_file.specs.View.{view, views};
ghost use Rattle.ice_meta.specs.Committing.{IsLong};
ghost use Rattle.ice_manifest.specs.Adding.{IsId};
ghost use Rattle.ice_manifest.specs.Fitting.{IsShort, IsText, SummaryFits, CountsFit, RowFits};
ghost use Rattle.ice_manifest.specs.WrittenValues.{no_value as no_value_written, if_some};
ghost use Rattle.ice_manifest.specs.WrittenValues.{summary_value as value_of_summary};
ghost use Rattle.ice_manifest.specs.WrittenValues.{summaries_value as value_of_summaries, row_content};
ghost use Rattle.ice_manifest.specs.WrittenValues.{count_values as values_of_counts, row_value as value_of_row};

use avro_file::Datum;
use contract_words::{Items, Text};
use ice_manifest_reading::{ManifestContent, Row};
use ice_value::{SequenceNumber, Summary};
use std::alloc::{AllocError, Global};

/// Null, where a value may be null.
pub fn no_value<'a>() -> Datum<'a>
    ensures { view result ≡ no_value_written }
{
    Datum::NullBranch(0)
}

/// A value, where it may be null.
pub fn some_value<'a>(alloc: Global, datum: Datum<'a>) -> Result<Datum<'a>, AllocError>
    ensures { IfOk result (λ chosen_one. view chosen_one ≡ chosen 1 (view datum.entry)) }
{
    Ok(Datum::Union(1, Box::new(alloc, datum)?))
}

/// A record of these values.
pub fn record<'a>(values: Vec<Datum<'a>>) -> Datum<'a>
    ensures { view result ≡ fields (values_of (views values.entry.items)) }
{
    Datum::Record(values)
}

#[tactic(auto, using(crate::proofs::Ids::is_id))]
fn optional_int<'a>(alloc: Global, number: Option<i32>) -> Result<Datum<'a>, AllocError>
    ensures value { IfOk result (λ datum. view datum ≡ if_some small number) }
    ensures fits { IfOk result (λ _. IfSome number IsId) }
{
    match number {
        Some(number) => some_value(alloc, Datum::Int(number)),
        None => Ok(no_value()),
    }
}

#[tactic(auto, using(crate::proofs::Ids::is_long))]
fn optional_long<'a>(alloc: Global, number: Option<i64>) -> Result<Datum<'a>, AllocError>
    ensures value { IfOk result (λ datum. view datum ≡ if_some whole number) }
    ensures fits { IfOk result (λ _. IfSome number IsLong) }
{
    match number {
        Some(number) => some_value(alloc, Datum::Long(number)),
        None => Ok(no_value()),
    }
}

fn optional_truth<'a>(alloc: Global, flag: Option<bool>) -> Result<Datum<'a>, AllocError>
    ensures { IfOk result (λ datum. view datum ≡ if_some truth flag) }
{
    match flag {
        Some(flag) => some_value(alloc, Datum::Boolean(flag)),
        None => Ok(no_value()),
    }
}

fn optional_bytes<'a>(alloc: Global, bytes: Option<&'a [u8]>) -> Result<Datum<'a>, AllocError>
    ensures value { IfOk result (λ datum. view datum ≡ if_some run (option_copied bytes.entry)) }
    ensures fits { IfOk result (λ _. IfSome (option_copied bytes.entry) IsShort) }
{
    match bytes {
        Some(bytes) => some_value(alloc, Datum::Bytes(bytes)),
        None => Ok(no_value()),
    }
}

/// A text as it is written.
pub fn text_of<'a>(text: &'a Text) -> Datum<'a>
    ensures value { view result ≡ text_value text.now }
    ensures fits { IsText text.now }
{
    Datum::String(text.as_str())
}

fn summary_datum<'a>(alloc: Global, summary: &'a Summary) -> Result<Datum<'a>, AllocError>
    ensures value { IfOk result (λ datum. view datum ≡ value_of_summary summary.now) }
    ensures fits { IfOk result (λ _. SummaryFits summary.now) }
{
    Ok(record(vec![in alloc;
        Datum::Boolean(summary.contains_null()),
        optional_truth(alloc, summary.contains_nan())?,
        optional_bytes(alloc, summary.lower())?,
        optional_bytes(alloc, summary.upper())?,
    ]?))
}

/// A list of field summaries.
fn summaries_datum<'a>(alloc: Global, summaries: &'a [Summary]) -> Result<Datum<'a>, AllocError>
    ensures value { IfOk result (λ datum. view datum ≡ value_of_summaries summaries.now) }
    ensures fits { IfOk result (λ _. AllByRecursion SummaryFits summaries.now) }
{
    let mut data = Vec::new(alloc);
    'summaries: for summary in summaries {
        data.push(summary_datum(alloc, summary)?)?;
    }
    Ok(Datum::Array(data))
}

fn partitions_datum<'a>(
    alloc: Global,
    partitions: &'a Option<Items<Summary>>,
) -> Result<Datum<'a>, AllocError>
    ensures value { IfOk result (λ datum. view datum ≡ if_some value_of_summaries partitions.now) }
    ensures fits { IfOk result (λ _. IfSome partitions.now (AllByRecursion SummaryFits)) }
{
    match partitions {
        Some(summaries) => some_value(alloc, summaries_datum(alloc, summaries.as_slice())?),
        None => Ok(no_value()),
    }
}

/// The counts of a row, and its summaries behind them.
fn counts_data<'a>(alloc: Global, row: &'a Row) -> Result<Vec<Datum<'a>>, AllocError>
    ensures value { IfOk result (λ all. views all.items ≡ values_of_counts row.now) }
    ensures fits { IfOk result (λ _. CountsFit row.now.counts) }
    ensures summaries { IfOk result (λ _. IfSome row.now.partitions (AllByRecursion SummaryFits)) }
{
    let counts = row.counts;
    let mut all = Vec::with_capacity(alloc, 7)?;
    all.push(optional_int(alloc, counts.added_files)?)?;
    all.push(optional_int(alloc, counts.existing_files)?)?;
    all.push(optional_int(alloc, counts.deleted_files)?)?;
    all.push(optional_long(alloc, counts.added_rows)?)?;
    all.push(optional_long(alloc, counts.existing_rows)?)?;
    all.push(optional_long(alloc, counts.deleted_rows)?)?;
    all.push(partitions_datum(alloc, &row.partitions)?)?;
    Ok(all)
}

fn code_of(content: ManifestContent) -> i32
    ensures { result ≡ row_content content }
{
    match content {
        ManifestContent::Data => 0,
        ManifestContent::Deletes => 1,
    }
}

/// A sequence number as a long.
#[tactic(auto, using(crate::proofs::Ids::is_long))]
fn number_datum<'a>(number: SequenceNumber) -> Datum<'a>
    ensures value { view result ≡ whole (pos number) }
    ensures fits { number < 2 ^ 63 }
{
    Datum::Long(number.get() as i64)
}

/// A number of 32 bits.
#[tactic(auto, using(crate::proofs::Ids::is_id))]
pub fn int_datum<'a>(number: i32) -> Datum<'a>
    ensures value { view result ≡ small number }
    ensures fits { IsId number }
{
    Datum::Int(number)
}

/// A number of 64 bits.
#[tactic(auto, using(crate::proofs::Ids::is_long))]
pub fn long_datum<'a>(number: i64) -> Datum<'a>
    ensures value { view result ≡ whole number }
    ensures fits { IsLong number }
{
    Datum::Long(number)
}

/// A row of a manifest list.
#[tactic(auto, unfolding(crate::specs::WrittenValues::row_value))]
pub fn row_datum<'a>(alloc: Global, row: &'a Row) -> Result<Datum<'a>, AllocError>
    ensures value { IfOk result (λ datum. view datum ≡ value_of_row row.now) }
    ensures fits { IfOk result (λ _. RowFits row.now) }
{
    let mut data = vec![in alloc;
        text_of(&row.path),
        long_datum(row.length),
        int_datum(row.spec_id),
        int_datum(code_of(row.content)),
        number_datum(row.sequence_number),
        number_datum(row.min_sequence_number),
        long_datum(row.added_snapshot_id),
    ]?;
    data.append(&mut counts_data(alloc, row)?)?;
    Ok(record(data))
}
