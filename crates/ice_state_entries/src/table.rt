//! Records by the numbers of their paths.

ghost use Rattle.std.specs.Prelude.{◌≡◌, ◌+◌, ◌<◌, ◌≤◌, ◌^◌, ◌++◌, ◌∷◌, [], length, IfOk, OnErr};
ghost use Rattle.ice_state_entries.specs.Tables.{no_rows, IsIn, row_at, Has, HasOwnPaths, HasKnownPaths};

use crate::entries::EntryNumber;
use crate::paths::Paths;
use crate::record::Record;
use path_arena::PathId;
use std::alloc::{AllocError, Global};
use std::marker::Model;

/// A further record of a path.
#[derive(Clone, Copy)]
struct Clash {
    path: PathId,
    own: Record,
}

/// Records with their paths. The record of a number is the first one of the path with that number.
#[derive(Drop)]
pub(crate) struct Table {
    paths: Paths,
    records: Vec<Record>,
    clashes: Vec<Clash>,
}

impl Model for Table {
    ghost use Rattle.ice_state_entries.specs.Tables.{Rows, with_paths, with_their_paths, IsTable};

    ghost Value = { Rows };

    ghost view = { λ t. record {
      records = with_paths t.paths t.records.items;
      clashes = with_their_paths t.paths t.clashes.items;
    } };

    ghost invariant = { λ t. IsTable t.paths t.records.items t.clashes.items };
}

/// Puts a clash last, and gives its number. As many as can be numbered count as want of memory.
fn push_clash(clashes: &mut Vec<Clash>, clash: Clash) -> Result<u32, AllocError>
    ensures ok { IfOk result (λ number. (number ≡ length clashes.old.items) ×
        (clashes.new.items ≡ clashes.old.items ++ clash ∷ [])) }
    ensures err { OnErr result (clashes.new.items ≡ clashes.old.items) }
{
    let Ok(number) = u32::try_from(clashes.len()) else {
        return Err(AllocError);
    };
    clashes.reserve(1)?;
    clashes.push_reserved(clash);
    Ok(number)
}

impl Table {
    /// None yet.
    pub(crate) fn new(alloc: Global) -> Table
        ensures { result ≡ no_rows }
    {
        Table {
            paths: Paths::new(alloc),
            records: Vec::new(alloc),
            clashes: Vec::new(alloc),
        }
    }

    /// How many records there are.
    pub(crate) fn len(&self) -> usize
        ensures { result ≡ length self.now.records + length self.now.clashes }
    {
        self.records.len() + self.clashes.len()
    }

    /// Each path is that of one record, and may be that of further ones.
    pub(crate) fn each_path_once(&self)
        ensures own { HasOwnPaths self.now }
        ensures known { HasKnownPaths self.now }
    {
        let _ = self.paths.len();
    }

    /// Makes room for so many more records, and for so many more paths of so many bytes in all.
    pub(crate) fn reserve(&mut self, records: usize, bytes: usize) -> Result<(), AllocError>
        ensures { self.new ≡ self.old }
    {
        self.records.reserve(records)?;
        self.paths.reserve(records, bytes)
    }

    /// Puts a record last, with its path: among the further ones if the path is known. Where the path's first record is
    /// the same, that one stands for it, so that what a refused call put is found when the call is repeated.
    pub(crate) fn put(&mut self, path: &[u8], own: Record) -> Result<EntryNumber, AllocError>
        requires { length path.now ≤ 65535 }
        ensures ok { IfOk result (λ number. Has self.old number (path.now, own) self.new) }
        ensures err { OnErr result (self.new ≡ self.old) }
    {
        // Room comes first, so that a new path is never without its record.
        self.records.reserve(1)?;
        let id = self.paths.intern(path)?;
        if id.place() as usize == self.records.len() {
            self.records.push_reserved(own);
            return Ok(EntryNumber::Record(id.place()));
        }
        if self.records[id.place() as usize].is_same(&own) {
            return Ok(EntryNumber::Record(id.place()));
        }
        let number = push_clash(&mut self.clashes, Clash { path: id, own })?;
        Ok(EntryNumber::Clash(number))
    }

    /// The record of a number.
    pub(crate) fn record(&self, number: EntryNumber) -> &Record
        requires { IsIn self.now number }
        ensures { result.now ≡ (row_at self.now number).1 }
    {
        match number {
            EntryNumber::Record(number) => &self.records[number as usize],
            EntryNumber::Clash(number) => &self.clashes[number as usize].own,
        }
    }

    /// The path of a number's record.
    pub(crate) fn path(&self, number: EntryNumber) -> &[u8]
        requires { IsIn self.now number }
        ensures same { result.now ≡ (row_at self.now number).0 }
        ensures short { length result.now ≤ 65535 }
    {
        match number {
            EntryNumber::Record(number) => self.paths.get(PathId::new(number)),
            EntryNumber::Clash(number) => self.paths.get(self.clashes[number as usize].path),
        }
    }

    /// The same records by the same numbers.
    pub(crate) fn copy(&self, alloc: Global) -> Result<Table, AllocError>
        ensures { IfOk result (λ copied. copied ≡ self.now) }
    {
        Ok(Table {
            paths: self.paths.copy(alloc)?,
            records: self.records.as_slice().to_vec(alloc)?,
            clashes: self.clashes.as_slice().to_vec(alloc)?,
        })
    }
}
