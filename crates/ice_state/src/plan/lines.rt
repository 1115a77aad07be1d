//! The lines of a plan as they are lent: whoever owns the entries, callers see the same.

ghost use Rattle.std.specs.Prelude.{◌≡◌, ◌<◌, ◌^◌, length, Some, slice_get, IsTrue};
ghost use Rattle.std.specs.List.{AllByRecursion};
ghost use Rattle.std.specs.Option.{option_copied};
ghost use Rattle.ice_state.specs.Lines.{LacksDeletes, deletes_at};
ghost use Rattle.ice_state.specs.Segments.{IsKept, entry_at};
ghost use Rattle.ice_manifest_reading.specs.Lending.{lent};

use crate::kept::segments::{FileNumber, Segments};
use crate::plan::shared_places::SharedPlaces;
use ice_manifest_reading::LentEntry;
use ice_value::{Cell, FileContent, FileFormat, SequenceNumber};
use std::marker::Model;

/// Files of a plan, by the numbers of their entries.
#[derive(Clone, Copy, Debug)]
pub(crate) struct Files<'a> {
    pub(crate) entries: &'a Segments,
    pub(crate) numbers: &'a [FileNumber],
}

impl<'a> Files<'a> {
    ghost use Rattle.ice_state.specs.Lines.{entries_of, AreFiles};

    /// The number of the entry at a place.
    fn number(&self, i: usize) -> FileNumber
        requires kept { AreFiles self.now }
        requires within { i < length (entries_of self.now) }
        ensures kept { IsKept self.now.entries.now result }
        ensures at { slice_get (entries_of self.now) i ≡ Some (entry_at self.now.entries.now result) }
    {
        self.numbers[i]
    }

    /// The entry at a place.
    pub(crate) fn entry(&self, i: usize) -> LentEntry<'a>
        requires kept { AreFiles self.now }
        requires within { i < length (entries_of self.now) }
        ensures { slice_get (entries_of self.now) i ≡ Some (lent result) }
    {
        self.entries.entry(self.number(i))
    }
}

/// A file of a plan.
#[derive(Debug, Drop)]
pub struct PlanFile<'a> {
    pub(crate) entry: LentEntry<'a>,
}

impl<'a> Model for PlanFile<'a> {
    ghost use Rattle.ice_manifest_reading.specs.declared.entry.Entry.{Entry};
    ghost use Rattle.ice_manifest_reading.specs.Lending.{lent};

    ghost Value = { Entry };

    ghost view = { λ f. lent f.entry };
}

impl<'a> PlanFile<'a> {
    /// The bytes of its path.
    pub fn path(&self) -> &[u8]
        ensures { result.now ≡ self.now.file.path }
    {
        self.entry.path
    }

    /// Its format, where its manifest names a known one.
    pub fn format(&self) -> Option<FileFormat>
        ensures { result ≡ self.now.file.format }
    {
        self.entry.format
    }

    /// The id of its partition spec.
    pub fn spec_id(&self) -> i32
        ensures { result ≡ self.now.spec_id }
    {
        self.entry.spec_id
    }

    /// Its sequence number.
    pub fn sequence_number(&self) -> SequenceNumber
        ensures { result ≡ self.now.sequence_number }
    {
        self.entry.sequence_number
    }

    /// The sequence number of the commit that added it. An existing entry of an early writer has none.
    pub fn file_sequence_number(&self) -> Option<SequenceNumber>
        ensures { result ≡ self.now.file_sequence_number }
    {
        self.entry.file_sequence_number
    }

    /// How many rows it has, as its manifest says; any number.
    pub fn record_count(&self) -> i64
        ensures { result ≡ self.now.file.record_count }
    {
        self.entry.record_count
    }

    /// How many bytes it has, as its manifest says; any number.
    pub fn file_size(&self) -> i64
        ensures { result ≡ self.now.file.file_size }
    {
        self.entry.file_size
    }

    /// The ids of the columns by which an equality delete file deletes.
    pub fn equality_ids(&self) -> &[i32]
        ensures { result.now ≡ self.now.file.equality_ids }
    {
        self.entry.equality_ids
    }

    /// What it holds.
    pub fn content(&self) -> FileContent
        ensures { result ≡ self.now.file.content }
    {
        self.entry.content
    }

    /// Its partition values, in the order of its spec's fields.
    pub fn tuple(&self) -> &[Cell]
        ensures { result.now ≡ self.now.file.tuple }
    {
        self.entry.tuple
    }

    /// The path of the one data file that a position delete file is about, where it names one. Other files have none.
    pub fn referenced(&self) -> Option<&[u8]>
        ensures { option_copied result ≡ self.now.file.referenced }
    {
        self.entry.referenced
    }
}

/// Delete files of a line, by path.
#[derive(Debug, Drop)]
pub struct PlanFiles<'a> {
    files: Files<'a>,
    places: &'a [u32],
}

impl<'a> Model for PlanFiles<'a> {
    ghost use Rattle.std.specs.Prelude.{List, length};
    ghost use Rattle.ice_manifest_reading.specs.declared.entry.Entry.{Entry};

    ghost Value = { List Entry };

    ghost use Rattle.ice_state.specs.Lines.{entries_of, entries_at, AreFiles, AreWithin};

    ghost view = { λ f. entries_at (entries_of f.files) f.places.now };

    ghost invariant = { λ f. record {
      files : AreFiles f.files;
      within : AreWithin (length (entries_of f.files)) f.places.now;
    } };
}

impl<'a> PlanFiles<'a> {
    /// How many there are.
    pub fn len(&self) -> usize
        ensures counted { result ≡ length self.now }
        ensures few { result < 2 ^ 63 }
    {
        self.places.len()
    }

    /// The file at a place.
    pub fn file(&self, i: usize) -> PlanFile<'a>
        requires { i < length self.now }
        ensures { slice_get self.now i ≡ Some result }
    {
        PlanFile {
            entry: self.files.entry(self.places[i] as usize),
        }
    }
}

/// A line of a plan: a data file, with the delete files that apply to it.
#[derive(Debug, Drop)]
pub struct Line<'a> {
    entries: &'a Segments,
    file: FileNumber,
    deletes: Files<'a>,
    positions: &'a [u32],
    equalities: &'a [u32],
}

impl<'a> Model for Line<'a> {
    ghost use Rattle.std.specs.Prelude.{length};
    ghost use Rattle.ice_state.specs.Segments.{IsKept, entry_at};
    ghost use Rattle.ice_state.specs.Lines.{OwnedLine, entries_of, line_at, AreFiles, IsLineWithin};

    ghost Value = { OwnedLine };

    ghost view = { λ l. line_at (entries_of l.deletes) (entry_at l.entries.now l.file)
        (record { positions = l.positions.now; equalities = l.equalities.now }) };

    ghost invariant = { λ l. record {
      kept : IsKept l.entries.now l.file;
      deletes : AreFiles l.deletes;
      within : IsLineWithin (length (entries_of l.deletes))
          (record { positions = l.positions.now; equalities = l.equalities.now });
    } };
}

impl<'a> Line<'a> {
    /// The data file.
    pub fn file(&self) -> PlanFile<'a>
        ensures { result ≡ self.now.file }
    {
        PlanFile {
            entry: self.entries.entry(self.file),
        }
    }

    /// The position delete files that apply to it.
    pub fn positions(&self) -> PlanFiles<'a>
        ensures { result ≡ self.now.positions }
    {
        PlanFiles {
            files: self.deletes,
            places: self.positions,
        }
    }

    /// The equality delete files that apply to it.
    pub fn equalities(&self) -> PlanFiles<'a>
        ensures { result ≡ self.now.equalities }
    {
        PlanFiles {
            files: self.deletes,
            places: self.equalities,
        }
    }
}

/// The lines of a plan, by the paths of their data files.
#[derive(Debug, Drop)]
pub struct Lines<'a> {
    pub(crate) files: Files<'a>,
    pub(crate) deletes: Files<'a>,
    pub(crate) places: &'a SharedPlaces,
}

impl<'a> Model for Lines<'a> {
    ghost use Rattle.std.specs.Prelude.{List};
    ghost use Rattle.ice_state.specs.Lines.{OwnedLine, entries_of, lines_at, AreFiles, AreLinesOf};

    ghost Value = { List OwnedLine };

    ghost view = { λ l. lines_at (entries_of l.deletes) (entries_of l.files) l.places.now };

    ghost invariant = { λ l. record {
      files : AreFiles l.files;
      deletes : AreFiles l.deletes;
      lines : AreLinesOf (entries_of l.files) (entries_of l.deletes) l.places.now;
    } };
}

impl<'a> Lines<'a> {
    /// How many there are.
    pub fn len(&self) -> usize
        ensures counted { result ≡ length self.now }
        ensures few { result < 2 ^ 63 }
    {
        self.places.len()
    }

    /// Whether the plan has no delete files at all, which is found without a look at its lines.
    pub fn lacks_deletes(&self) -> bool
        ensures { IsTrue result → AllByRecursion LacksDeletes self.now }
    {
        self.deletes.numbers.is_empty()
    }

    /// The line at a place.
    pub fn line(&self, i: usize) -> Line<'a>
        requires { i < length self.now }
        ensures { slice_get self.now i ≡ Some result }
    {
        Line {
            entries: self.files.entries,
            file: self.files.number(i),
            deletes: self.deletes,
            positions: self.places.positions(i),
            equalities: self.places.equalities(i),
        }
    }

    /// Whether the same delete files apply to two data files, by the places of these files among all delete files of
    /// the plan. That it finds all such pairs is no clause: it serves to save work alone.
    pub fn have_same_deletes(&self, i: usize, j: usize) -> bool
        requires first { i < length self.now }
        requires second { j < length self.now }
        ensures { IsTrue result → deletes_at self.now i ≡ deletes_at self.now j }
    {
        self.places.positions(i) == self.places.positions(j)
            && self.places.equalities(i) == self.places.equalities(j)
    }

    /// A number that is the same for data files to which the same delete files apply, and mostly another for others. By
    /// it a caller looks for what it remembers of them.
    pub fn deletes_hint(&self, i: usize) -> usize
        requires { i < length self.now }
    {
        hint_of(self.places.positions(i)) ^ hint_of(self.places.equalities(i)).rotate_left(7)
    }
}

/// A number that the first and last of some places and how many there are make.
fn hint_of(places: &[u32]) -> usize {
    match places {
        [] => 0,
        [first, ..] => {
            let last = places[places.len() - 1];
            (*first as usize).wrapping_mul(31) ^ (last as usize).wrapping_mul(131) ^ places.len()
        }
    }
}
