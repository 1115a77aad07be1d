//! What many entries have in common.

ghost use Rattle.std.specs.Prelude.{◌≡◌, ◌↔◌, IfOk, IsTrue};
ghost use Rattle.ice_manifest_reading.specs.Lending.{lent};
ghost use Rattle.ice_state_entries.specs.InCommon.{common_of, common_in, IsOfSpec, HasListsOf};
ghost use Rattle.ice_state_entries.specs.Alike.{AreOfKind};

use contract_words::{Duplicate, Items};
use ice_manifest_reading::LentEntry;
use ice_value::{Cell, FileContent, FileFormat, is_same_tuple};
use std::alloc::{AllocError, Global};

/// What many entries have in common: those of a partition, say.
#[derive(Drop)]
pub(crate) struct Common {
    pub(crate) content: FileContent,
    pub(crate) format: Option<FileFormat>,
    pub(crate) spec_id: i32,
    pub(crate) unpartitioned: bool,
    pub(crate) tuple: Items<Cell>,
    pub(crate) equality_ids: Items<i32>,
}

/// The same, lent.
#[derive(Clone, Copy)]
pub(crate) struct LentCommon<'a> {
    pub(crate) content: FileContent,
    pub(crate) format: Option<FileFormat>,
    pub(crate) spec_id: i32,
    pub(crate) unpartitioned: bool,
    pub(crate) tuple: &'a [Cell],
    pub(crate) equality_ids: &'a [i32],
}

impl Common {
    /// The same, lent.
    pub(crate) fn lent(&self) -> LentCommon<'_>
        ensures { common_of result ≡ self.now }
    {
        LentCommon {
            content: self.content,
            format: self.format,
            spec_id: self.spec_id,
            unpartitioned: self.unpartitioned,
            tuple: self.tuple.as_slice(),
            equality_ids: self.equality_ids.as_slice(),
        }
    }

    /// Whether the files are of one kind, one format and one spec.
    fn is_of_spec(&self, wanted: &LentCommon<'_>) -> bool
        ensures { IsTrue result ↔ IsOfSpec self.now (common_of wanted.now) }
    {
        self.spec_id == wanted.spec_id
            && self.unpartitioned == wanted.unpartitioned
            && self.content == wanted.content
            && self.format == wanted.format
    }

    /// Whether the files have the same partition values and equality ids.
    fn has_lists_of(&self, wanted: &LentCommon<'_>) -> bool
        ensures { IsTrue result ↔ HasListsOf self.now (common_of wanted.now) }
    {
        is_same_tuple(self.tuple.as_slice(), wanted.tuple)
            && self.equality_ids.as_slice() == wanted.equality_ids
    }

    /// Whether the files hold the same and are of one partition.
    pub(crate) fn is_of_kind_of(&self, other: &Common) -> bool
        ensures { IsTrue result ↔ AreOfKind self.now other.now }
    {
        self.content == other.content
            && self.spec_id == other.spec_id
            && is_same_tuple(self.tuple.as_slice(), other.tuple.as_slice())
    }

    /// Whether it is the same as one that is lent.
    pub(crate) fn is(&self, wanted: &LentCommon<'_>) -> bool
        ensures { IsTrue result ↔ (self.now ≡ common_of wanted.now) }
    {
        self.is_of_spec(wanted) && self.has_lists_of(wanted)
    }
}

impl Duplicate for Common {
    fn copy(&self, alloc: Global) -> Result<Common, AllocError> {
        self.lent().copy(alloc)
    }
}

impl<'a> LentCommon<'a> {
    /// What an entry has in common with others.
    pub(crate) fn new(entry: &LentEntry<'a>) -> LentCommon<'a>
        ensures { common_of result ≡ common_in (lent entry.now) }
    {
        LentCommon {
            content: entry.content,
            format: entry.format,
            spec_id: entry.spec_id,
            unpartitioned: entry.unpartitioned,
            tuple: entry.tuple,
            equality_ids: entry.equality_ids,
        }
    }

    /// A copy that owns its lists.
    pub(crate) fn copy(&self, alloc: Global) -> Result<Common, AllocError>
        ensures { IfOk result (λ copied. copied ≡ common_of self.now) }
    {
        Ok(Common {
            content: self.content,
            format: self.format,
            spec_id: self.spec_id,
            unpartitioned: self.unpartitioned,
            tuple: Items::from_vec(Cell::copy_slice(self.tuple, alloc)?),
            equality_ids: Items::from_vec(i32::copy_slice(self.equality_ids, alloc)?),
        })
    }
}
