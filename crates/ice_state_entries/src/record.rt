//! What each entry has of its own, and what it shares.

ghost use Rattle.std.specs.Prelude.{◌≡◌, ◌<◌, ◌≤◌, ◌↔◌, length, IfOk, IfSome, IsTrue, List, ℕ};
ghost use Rattle.std.specs.Option.{option_copied, option_map};
ghost use Rattle.path_arena.specs.Arena.{string, KeepsNumbers};
ghost use Rattle.ice_manifest_reading.specs.Lending.{lent, HasShortPaths};
ghost use Rattle.ice_state_entries.specs.InCommon.{common_at};
ghost use Rattle.ice_state_entries.specs.Alike.{AreAlike};
ghost use Rattle.ice_state_entries.specs.Sharing.{entry_in, IsWithin, KeepsShared};

use crate::common::LentCommon;
use crate::commons::Commons;
use crate::origin::Origin;
use crate::origins::Origins;
use crate::paths::Paths;
use ice_manifest_reading::LentEntry;
use ice_value::FileContent;
use path_arena::PathId;
use std::alloc::{AllocError, Global};
use std::marker::Model;

/// An entry but for its path: what it has of its own, and the numbers of what it shares. It owns nothing.
#[derive(Clone, Copy)]
pub(crate) struct Record {
    position: u64,
    record_count: i64,
    file_size: i64,
    common: u32,
    origin: u32,
    referenced: Option<PathId>,
}

impl Model for Record {
    ghost use Rattle.ice_state_entries.specs.Own.{Own};

    ghost Value = { Own };

    ghost view = { λ r. record {
      position = r.position;
      record_count = r.record_count;
      file_size = r.file_size;
      common = r.common;
      origin = r.origin;
      referenced = r.referenced;
    } };

    ghost inverse = { λ r. record {
      position = r.position;
      record_count = r.record_count;
      file_size = r.file_size;
      common = r.common;
      origin = r.origin;
      referenced = r.referenced;
    } };
}

impl Record {
    /// Whether another record is the same.
    pub(crate) fn is_same(&self, other: &Record) -> bool
        ensures { IsTrue result → self.now ≡ other.now }
    {
        self.position == other.position
            && self.record_count == other.record_count
            && self.file_size == other.file_size
            && self.common == other.common
            && self.origin == other.origin
            && self.referenced == other.referenced
    }
}

/// What entries share: what they have in common, the commits that they came from, and the paths that position deletes
/// name.
#[derive(Drop)]
pub(crate) struct Shared {
    pub(crate) commons: Commons,
    pub(crate) origins: Origins,
    pub(crate) names: Paths,
}

impl Shared {
    /// Nothing yet.
    pub(crate) fn new(alloc: Global) -> Shared {
        Shared {
            commons: Commons::new(alloc),
            origins: Origins::new(alloc),
            names: Paths::new(alloc),
        }
    }

    /// The record of an entry. What there was keeps its numbers, also where memory is refused.
    pub(crate) fn record_of(
        &mut self,
        alloc: Global,
        entry: &LentEntry<'_>,
    ) -> Result<Record, AllocError>
        requires { HasShortPaths entry.now }
        ensures keeps { KeepsShared self.old self.new }
        ensures ok { IfOk result (λ own. IsWithin self.new own ×
            (entry_in self.new (entry.now.path.now, own) ≡ lent entry.now)) }
    {
        let common = self.commons.number(alloc, &LentCommon::new(entry))?;
        let origin = self.origins.number(&Origin::new(entry))?;
        let referenced = named(&mut self.names, entry.referenced)?;
        Ok(Record {
            position: entry.position,
            record_count: entry.record_count,
            file_size: entry.file_size,
            common,
            origin,
            referenced,
        })
    }

    /// The entry of a path and a record.
    pub(crate) fn lent<'a>(&'a self, path: &'a [u8], own: &Record) -> LentEntry<'a>
        requires within { IsWithin self.now own.now }
        requires short { length path.now ≤ 65535 }
        ensures same { lent result ≡ entry_in self.now (path.now, own.now) }
        ensures short { HasShortPaths result }
    {
        let common = self.commons.get(own.common);
        let origin = self.origins.get(own.origin);
        LentEntry {
            position: own.position,
            spec_id: common.spec_id,
            unpartitioned: common.unpartitioned,
            snapshot_id: origin.snapshot_id,
            sequence_number: origin.sequence_number,
            file_sequence_number: origin.file_sequence_number,
            content: common.content,
            format: common.format,
            path,
            tuple: common.tuple.as_slice(),
            record_count: own.record_count,
            file_size: own.file_size,
            equality_ids: common.equality_ids.as_slice(),
            referenced: path_of(&self.names, own.referenced),
        }
    }

    /// What the file of a record holds.
    pub(crate) fn content(&self, own: &Record) -> FileContent
        requires { IsWithin self.now own.now }
        ensures { result ≡ (common_at self.now.commons own.now.common).content }
    {
        self.commons.get(own.common).content
    }

    /// Whether the files of two records are alike: they hold the same and are of one partition, with the same sequence
    /// number.
    pub(crate) fn are_alike(&self, a: &Record, b: &Record) -> bool
        requires first { IsWithin self.now a.now }
        requires second { IsWithin self.now b.now }
        ensures { (path other : List ℕ) → IsTrue result
            ↔ AreAlike (entry_in self.now (path, a.now)) (entry_in self.now (other, b.now)) }
    {
        self.commons.are_of_kind(a.common, b.common)
            && self.origins.are_of_one_number(a.origin, b.origin)
    }

    /// The same by the same numbers.
    pub(crate) fn copy(&self, alloc: Global) -> Result<Shared, AllocError>
        ensures { IfOk result (λ copied. copied ≡ self.now) }
    {
        Ok(Shared {
            commons: self.commons.copy(alloc)?,
            origins: self.origins.copy(alloc)?,
            names: self.names.copy(alloc)?,
        })
    }
}

/// The number of a path, if there is one.
fn named(names: &mut Paths, path: Option<&[u8]>) -> Result<Option<PathId>, AllocError>
    requires { IfSome path (λ path. length path.now ≤ 65535) }
    ensures keeps { KeepsNumbers names.old names.new }
    ensures ok { IfOk result (λ name. IfSome name (λ id. id < length names.new) ×
        (option_map (string names.new) name ≡ option_copied path.entry)) }
{
    match path {
        Some(path) => Ok(Some(names.intern(path)?)),
        None => Ok(None),
    }
}

/// The path of a number, if there is one.
fn path_of(names: &Paths, name: Option<PathId>) -> Option<&[u8]>
    requires { IfSome name (λ id. id < length names.now) }
    ensures same { option_copied result ≡ option_map (string names.now) name }
    ensures short { IfSome result (λ path. length path.now ≤ 65535) }
{
    match name {
        Some(id) => Some(names.get(id)),
        None => None,
    }
}
