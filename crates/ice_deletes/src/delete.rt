//! Delete files with their numbers.

ghost use Rattle.std.specs.Prelude.{◌≡◌, IfOk};
ghost use Rattle.std.specs.Ordering.{is_lt};
ghost use Rattle.ice_deletes.specs.Keys.{key_of, key_in, entry_of, sought};
ghost use Rattle.ice_deletes.specs.Groups.{sort_key, is_older, is_up_to};
ghost use Rattle.ice_deletes.specs.Shelves.{earlier};

use crate::group::Group;
use crate::record::Record;
use crate::search_key::SearchKey;
use contract_words::{Duplicate, Items};
use ice_value::{Cell, FileContent};
use std::alloc::{AllocError, Global};
use std::cmp::Ordering;

/// A delete file and its number.
#[derive(Debug, Drop)]
pub struct Delete {
    pub content: FileContent,
    pub spec_id: i32,
    pub unpartitioned: bool,
    pub tuple: Items<Cell>,
    pub sequence_number: u64,
    pub referenced: Option<Items<u8>>,
    pub number: usize,
}

impl Delete {
    /// A copy of the file with this number.
    pub fn new(alloc: Global, file: &Record, number: usize) -> Result<Delete, AllocError>
        ensures { IfOk result (λ delete. entry_of delete ≡ (number, key_of file.now)) }
    {
        let referenced = match file.referenced {
            Some(path) => Some(Items::from_vec(path.to_vec(alloc)?)),
            None => None,
        };
        Ok(Delete {
            content: file.content,
            spec_id: file.spec_id,
            unpartitioned: file.unpartitioned,
            tuple: Items::from_vec(Cell::copy_slice(file.tuple, alloc)?),
            sequence_number: file.sequence_number,
            referenced,
            number,
        })
    }

    /// The same file under another number.
    pub fn renumbered(&self, alloc: Global, number: usize) -> Result<Delete, AllocError>
        ensures { IfOk result (λ delete. entry_of delete ≡ (number, key_in self.now)) }
    {
        let referenced = match &self.referenced {
            Some(path) => Some(path.copy(alloc)?),
            None => None,
        };
        Ok(Delete {
            content: self.content,
            spec_id: self.spec_id,
            unpartitioned: self.unpartitioned,
            tuple: self.tuple.copy(alloc)?,
            sequence_number: self.sequence_number,
            referenced,
            number,
        })
    }

    /// What it is sorted by.
    fn key(&self) -> SearchKey<'_>
        ensures { sought result ≡ sort_key (key_in self.now) }
    {
        SearchKey {
            path: self.referenced.as_ref().map(|path| path.as_slice()),
            spec_id: self.spec_id,
            tuple: self.tuple.as_slice(),
            sequence_number: self.sequence_number,
        }
    }

    /// Whether its place in the group is the one that is sought, or comes before.
    pub fn is_up_to(&self, group: Group, key: &SearchKey) -> bool
        ensures { result ≡ is_up_to group (sought key.now) (key_in self.now) }
    {
        self.key().place_order(group, key).is_le()
    }

    /// Whether its place comes before, or is the one that is sought and its sequence number is smaller.
    pub fn is_older(&self, group: Group, key: &SearchKey) -> bool
        ensures { result ≡ is_older group (sought key.now) (key_in self.now) }
    {
        self.key().order(group, key).is_lt()
    }

    /// The order of two delete files of a group: by place, then by sequence number.
    pub fn order(&self, group: Group, other: &Delete) -> Ordering
        ensures { is_lt result ≡ earlier group self.now other.now }
    {
        self.key().order(group, &other.key())
    }
}
