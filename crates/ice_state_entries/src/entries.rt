//! Entries that are kept.

ghost use Rattle.std.specs.Prelude.{◌≡◌, ◌↔◌, length, IfOk, IsTrue};
ghost use Rattle.ice_manifest_reading.specs.Lending.{lent, HasShortPaths};
ghost use Rattle.ice_state_entries.specs.Kept.{nothing_kept, IsKept, AreKept, entry_at, entries_at, count, Keeps};
ghost use Rattle.ice_state_entries.specs.Kept.{HasEachPathOnce, HasKnownPaths};
ghost use Rattle.ice_state_entries.specs.Alike.{AreAlike};

use crate::record::Shared;
use crate::table::Table;
use ice_manifest_reading::{EntryView, LentEntry};
use ice_value::FileContent;
use std::alloc::{AllocError, Global};
use std::fmt;
use std::fmt::{Debug, Formatter};
use std::marker::Model;

/// The number of an entry that is kept.
#[derive(Clone, Copy, Debug, PartialEq, Eq)]
pub enum EntryNumber {
    /// The first entry of its path.
    Record(u32),
    /// A further entry of a path that was known, which is not the same.
    Clash(u32),
}

/// For how much of what there has to be room, so that entries can be kept.
#[derive(Clone, Copy, Debug)]
pub struct Room {
    entries: usize,
    /// All bytes of the entries' paths.
    path_bytes: usize,
    /// The paths that position deletes name, and all their bytes.
    names: usize,
    name_bytes: usize,
}

impl Room {
    /// For nothing.
    pub fn none() -> Room {
        Room {
            entries: 0,
            path_bytes: 0,
            names: 0,
            name_bytes: 0,
        }
    }

    /// For so many entries, of whose paths nothing is known.
    pub fn of_entries(entries: usize) -> Room {
        Room {
            entries,
            ..Room::none()
        }
    }

    /// For how many entries.
    pub fn entries(self) -> usize {
        self.entries
    }

    /// For one more entry. Where more is asked than there can be, there is no more to ask for.
    fn with(self, entry: &LentEntry<'_>) -> Room {
        let named = entry.referenced.map_or(0, |path| path.len());
        Room {
            entries: self.entries.saturating_add(1),
            path_bytes: self.path_bytes.saturating_add(entry.path.len()),
            names: self
                .names
                .saturating_add(entry.referenced.is_some() as usize),
            name_bytes: self.name_bytes.saturating_add(named),
        }
    }
}

/// Entries that are kept, each under a number that stands for no other. Each path stands once, and so does what else
/// is the same in many of them.
pub struct Entries {
    alloc: Global,
    shared: Shared,
    table: Table,
}

impl Model for Entries {
    ghost use Rattle.ice_state_entries.specs.Kept.{Kept};
    ghost use Rattle.ice_state_entries.specs.Keeping.{kept_of, HasAllOf};

    ghost Value = { Kept };

    ghost view = { λ e. kept_of e.shared e.table };

    ghost invariant = { λ e. HasAllOf e.shared e.table };
}

/// Drops the whole, so that callers don't have to know of what it is made.
impl Drop for Entries {
    fn drop(self) {
        let Entries {
            alloc: _,
            shared,
            table,
        } = self;
        drop(shared);
        drop(table);
    }
}

/// How many there are.
impl Debug for Entries {
    fn fmt<W: fmt::Write>(&self, f: &mut Formatter<W>) -> fmt::Result {
        f.debug_struct("Entries").field("len", &self.len()).finish()
    }
}

/// The room that entries of a manifest take.
fn room_of(views: &[EntryView<'_>]) -> Room {
    let mut room = Room::none();
    for view in views {
        room = room.with(&view.lent());
    }
    room
}

impl Entries {
    /// None yet.
    pub fn new(alloc: Global) -> Entries
        ensures { result ≡ nothing_kept }
    {
        Entries {
            alloc,
            shared: Shared::new(alloc),
            table: Table::new(alloc),
        }
    }

    /// How many there are.
    pub fn len(&self) -> usize
        ensures { result ≡ count self.now }
    {
        self.table.len()
    }

    /// Each path is that of one record, and may be that of clashes too.
    pub fn each_path_once(&self)
        ensures once { HasEachPathOnce self.now }
        ensures known { HasKnownPaths self.now }
    {
        self.table.each_path_once();
    }

    /// Keeps an entry, as a clash if its path is that of another one. The same one again gets the number that it has, so
    /// that what a refused call kept is found when the call is repeated. A refusal, for want of memory, forgets none that
    /// was kept.
    pub fn add(&mut self, entry: &LentEntry<'_>) -> Result<EntryNumber, AllocError>
        requires { HasShortPaths entry.now }
        ensures keeps { Keeps self.old self.new }
        ensures kept { IfOk result (λ number. IsKept self.new number) }
        ensures ok { IfOk result (λ number. entry_at self.new number ≡ lent entry.now) }
    {
        let record = self.shared.record_of(self.alloc, entry)?;
        self.table.put(entry.path, record)
    }

    /// Keeps entries of a manifest. A refusal, for want of memory, forgets none that was kept.
    pub fn add_read(&mut self, views: &[EntryView<'_>]) -> Result<Vec<EntryNumber>, AllocError>
        ensures keeps { Keeps self.old self.new }
        ensures kept { IfOk result (λ numbers. AreKept self.new numbers.items) }
        ensures ok { IfOk result (λ numbers. entries_at self.new numbers.items ≡ views.now) }
    {
        self.reserve(room_of(views))?;
        let mut numbers = Vec::with_capacity(self.alloc, views.len())?;
        'views: for view in views {
            numbers.push(self.add(&view.lent())?)?;
        }
        Ok(numbers)
    }

    /// Makes room. A refusal, for want of memory, forgets nothing.
    pub fn reserve(&mut self, room: Room) -> Result<(), AllocError>
        ensures { self.new ≡ self.old }
    {
        self.shared.names.reserve(room.names, room.name_bytes)?;
        self.table.reserve(room.entries, room.path_bytes)
    }

    /// The room, and that which these entries take.
    pub fn room_with(&self, numbers: &[EntryNumber], room: Room) -> Room
        requires { AreKept self.now numbers.now }
    {
        let mut room = room;
        for number in numbers {
            room = room.with(&self.entry(*number));
        }
        room
    }

    /// Keeps entries that others keep. A refusal, for want of memory, forgets none that was kept.
    pub fn add_kept(
        &mut self,
        others: &Entries,
        numbers: &[EntryNumber],
    ) -> Result<Vec<EntryNumber>, AllocError>
        requires { AreKept others.now numbers.now }

        ensures keeps { Keeps self.old self.new }
        ensures kept { IfOk result (λ added. AreKept self.new added.items) }
        ensures ok { IfOk result (λ added. entries_at self.new added.items ≡ entries_at others.now numbers.now) }
    {
        let mut added = Vec::with_capacity(self.alloc, numbers.len())?;
        'numbers: for number in numbers {
            added.push(self.add(&others.entry(*number))?)?;
        }
        Ok(added)
    }

    /// The entry of a number.
    pub fn entry(&self, number: EntryNumber) -> LentEntry<'_>
        requires { IsKept self.now number }
        ensures same { lent result ≡ entry_at self.now number }
        ensures short { HasShortPaths result }
    {
        self.shared
            .lent(self.table.path(number), self.table.record(number))
    }

    /// What the file of an entry holds.
    pub fn content(&self, number: EntryNumber) -> FileContent
        requires { IsKept self.now number }
        ensures { result ≡ (entry_at self.now number).file.content }
    {
        self.shared.content(self.table.record(number))
    }

    /// Whether the files of two entries are alike: they hold the same and are of one spec, with the same partition
    /// values and the same sequence number.
    pub fn are_alike(&self, a: EntryNumber, b: EntryNumber) -> bool
        requires first { IsKept self.now a }
        requires second { IsKept self.now b }
        ensures { IsTrue result ↔ AreAlike (entry_at self.now a) (entry_at self.now b) }
    {
        self.shared
            .are_alike(self.table.record(a), self.table.record(b))
    }

    /// The path of an entry.
    pub fn path(&self, number: EntryNumber) -> &[u8]
        requires { IsKept self.now number }
        ensures { result.now ≡ (entry_at self.now number).file.path }
    {
        self.table.path(number)
    }

    /// The same entries by the same numbers.
    pub fn copy(&self, alloc: Global) -> Result<Entries, AllocError>
        ensures { IfOk result (λ copied. copied ≡ self.now) }
    {
        Ok(Entries {
            alloc,
            shared: self.shared.copy(alloc)?,
            table: self.table.copy(alloc)?,
        })
    }
}
