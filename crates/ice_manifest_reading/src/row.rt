//! Rows of a manifest list.

ghost use Rattle.std.specs.Prelude.{◌≡◌, IfOk};
ghost use Rattle.std.specs.Option.{option_eq};
ghost use Rattle.std.specs.Cmp.Lexicographic.{pointwise};
ghost use Rattle.ice_value.specs.Summaries.{same_summary};
ghost use Rattle.ice_manifest_reading.specs.Gathering.{summaries_kept};
ghost use Rattle.ice_manifest_reading.specs.Lists.{same_content as contents_same};
ghost use Rattle.ice_manifest_reading.specs.Equality.{manifests_same, numbers_same, rows_same};

use crate::counts::Counts;
use contract_words::{Items, Text};
use ice_value::{SequenceNumber, Summary};
use std::alloc::{AllocError, Global};
use std::marker::Model;

/// What the files of a manifest's entries hold.
#[derive(Clone, Copy, Debug, PartialEq, Eq)]
pub enum ManifestContent {
    Data,
    Deletes,
}

/// A row of a manifest list. It stands for one manifest.
#[derive(Debug, PartialEq, Drop)]
pub struct Row {
    /// Where the manifest is.
    pub path: Text,
    /// In bytes, as the list says; any number.
    pub length: i64,
    /// The id of its partition spec.
    pub spec_id: i32,
    pub content: ManifestContent,
    /// The number of the commit that added the manifest. Its added entries inherit it.
    pub sequence_number: SequenceNumber,
    /// The least number of its live entries, as the list says.
    pub min_sequence_number: SequenceNumber,
    /// The snapshot that added the manifest. Its entries that name none inherit it.
    pub added_snapshot_id: i64,
    pub counts: Counts,
    /// What the values of each partition field are, in the order of the spec's fields, where the list says it.
    pub partitions: Option<Items<Summary>>,
}

impl Row {
    /// The same row.
    pub fn copy(&self, alloc: Global) -> Result<Row, AllocError>
        ensures { IfOk result (λ copied. copied ≡ self.now) }
    {
        Ok(Row {
            path: self.path.copy(alloc)?,
            length: self.length,
            spec_id: self.spec_id,
            content: self.content,
            sequence_number: self.sequence_number,
            min_sequence_number: self.min_sequence_number,
            added_snapshot_id: self.added_snapshot_id,
            counts: self.counts,
            partitions: copied(alloc, &self.partitions)?,
        })
    }
}

fn copied(
    alloc: Global,
    partitions: &Option<Items<Summary>>,
) -> Result<Option<Items<Summary>>, AllocError>
    ensures { IfOk result (λ copied. copied ≡ partitions.now) }
{
    match partitions {
        Some(summaries) => Ok(Some(summaries.copy(alloc)?)),
        None => Ok(None),
    }
}

/// The summaries in memory of their own.
pub(crate) fn kept_summaries(
    alloc: Global,
    summaries: Option<Items<Summary>>,
) -> Result<Option<Box<Items<Summary>>>, AllocError>
    ensures { IfOk result (λ kept. summaries_kept kept ≡ summaries) }
{
    match summaries {
        Some(summaries) => Ok(Some(Box::new(alloc, summaries)?)),
        None => Ok(None),
    }
}

/// The summaries that were kept.
fn unkept_summaries(kept: Option<Box<Items<Summary>>>) -> Option<Items<Summary>>
    ensures { result ≡ summaries_kept kept }
{
    match kept {
        Some(summaries) => Some(Box::into_inner(summaries)),
        None => None,
    }
}

/// Whether the contents are the same.
fn same_content(a: ManifestContent, b: ManifestContent) -> bool
    ensures { result ≡ contents_same a b }
{
    match (a, b) {
        (ManifestContent::Data, ManifestContent::Data) => true,
        (ManifestContent::Deletes, ManifestContent::Deletes) => true,
        _ => false,
    }
}

/// Whether both are none, or the same summaries.
fn same_summaries(a: &Option<Box<Items<Summary>>>, b: &Option<Box<Items<Summary>>>) -> bool
    ensures { result ≡ option_eq (pointwise same_summary) (summaries_kept a.now) (summaries_kept b.now) }
{
    match (a, b) {
        (Some(a), Some(b)) => **a == **b,
        (None, None) => true,
        _ => false,
    }
}

/// A row as it is gathered. It lends its path from the file, and its counts and summaries take memory only where the
/// list says them, since a list may have millions of rows of a few bytes.
#[derive(Drop)]
pub(crate) struct LentRow<'d> {
    pub(crate) path: &'d str,
    pub(crate) length: i64,
    pub(crate) spec_id: i32,
    pub(crate) content: ManifestContent,
    pub(crate) sequence_number: SequenceNumber,
    pub(crate) min_sequence_number: SequenceNumber,
    pub(crate) added_snapshot_id: i64,
    pub(crate) counts: Option<Box<Counts>>,
    pub(crate) partitions: Option<Box<Items<Summary>>>,
}

impl<'d> Model for LentRow<'d> {
    ghost use Rattle.ice_manifest_reading.specs.declared.row.Row.{Row};
    ghost use Rattle.ice_manifest_reading.specs.Gathering.{counts_kept, summaries_kept};

    ghost Value = { Row };

    ghost view = { λ r. record {
      path = r.path.now;
      length = r.length;
      spec_id = r.spec_id;
      content = r.content;
      sequence_number = r.sequence_number;
      min_sequence_number = r.min_sequence_number;
      added_snapshot_id = r.added_snapshot_id;
      counts = counts_kept r.counts;
      partitions = summaries_kept r.partitions;
    } };
}

impl<'d> LentRow<'d> {
    pub(crate) fn path(&self) -> &'d str
        ensures { result.now ≡ self.now.path }
    {
        self.path
    }

    /// Whether both stand for the same manifest.
    fn same_manifest(&self, other: &LentRow) -> bool
        ensures { result ≡ manifests_same self.now other.now }
    {
        self.path == other.path
            && self.length == other.length
            && self.spec_id == other.spec_id
            && same_content(self.content, other.content)
    }

    /// Whether both say the same commits and snapshot.
    fn same_numbers(&self, other: &LentRow) -> bool
        ensures { result ≡ numbers_same self.now other.now }
    {
        self.sequence_number == other.sequence_number
            && self.min_sequence_number == other.min_sequence_number
            && self.added_snapshot_id == other.added_snapshot_id
    }

    /// Whether the rows agree in every field.
    fn is_same(&self, other: &LentRow) -> bool
        ensures { result ≡ rows_same self.now other.now }
    {
        self.same_manifest(other)
            && self.same_numbers(other)
            && Counts::are_same(&self.counts, &other.counts)
            && same_summaries(&self.partitions, &other.partitions)
    }

    /// The row, with a copy of its path.
    pub(crate) fn owned(self, alloc: Global) -> Result<Row, AllocError>
        ensures { IfOk result (λ row. row ≡ self.entry) }
    {
        let LentRow {
            path,
            length,
            spec_id,
            content,
            sequence_number,
            min_sequence_number,
            added_snapshot_id,
            counts,
            partitions,
        } = self;
        Ok(Row {
            path: Text::from_string(String::from_str(alloc, path)?),
            length,
            spec_id,
            content,
            sequence_number,
            min_sequence_number,
            added_snapshot_id,
            counts: Counts::unkept(counts),
            partitions: unkept_summaries(partitions),
        })
    }
}

impl<'d> PartialEq for LentRow<'d> {
    ghost use Rattle.std.specs.Cmp.{partial_equiv_from_equiv};
    ghost use Rattle.ice_manifest_reading.specs.Lists.{same_row};
    ghost use Rattle.ice_manifest_reading.specs.Equality.{equality};

    ghost eq = { same_row };

    ghost laws = { partial_equiv_from_equiv equality };

    fn eq(&self, other: &Self) -> bool {
        self.is_same(other)
    }
}
