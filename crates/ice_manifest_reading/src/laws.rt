//! What the definitions of rows and entries come to.

ghost use Rattle.std.specs.Prelude.{◌≢◌, ℕ, List, Err};
ghost use Rattle.ice_meta.specs.declared.spec.Spec.{Spec};
ghost use Rattle.ice_manifest_fields.specs.declared.fault.ListFault.TheVariants as list;
ghost use Rattle.ice_manifest_fields.specs.declared.fault.ManifestFault.TheVariants as manifest;
ghost use Rattle.ice_manifest_reading.specs.declared.row.Row.{Row};
ghost use Rattle.ice_manifest_reading.specs.Lists.{rows_of};
ghost use Rattle.ice_manifest_reading.specs.Manifests.{live_of};
ghost use Rattle.ice_manifest_reading.specs.Laws.{ReadsRowsExactly, GivesHeldRows, GivesTheRows, RefusesTwo};
ghost use Rattle.ice_manifest_reading.specs.Laws.{RefusesTheLeast};
ghost use Rattle.ice_manifest_reading.specs.Laws.{ReadsEntriesExactly, GivesHeldEntries, KeepsItsNumber};
ghost use Rattle.ice_manifest_reading.specs.Laws.{InheritsTheRows};
ghost use Rattle.ice_manifest_reading.specs.Laws.{NeedsItsOwn, HasZeroUnderZero, KeepsItsFileNumber};
ghost use Rattle.ice_manifest_reading.specs.Laws.{InheritsTheRowsForItsFile};
ghost use Rattle.ice_manifest_reading.specs.Laws.{HasNoFileNumber, HasZeroForItsFile};
ghost use Rattle.ice_manifest_reading.specs.Laws.{KeepsItsSnapshot, InheritsItsSnapshot, FitsItsRow, AreOfTheirSpec};
ghost use Rattle.ice_manifest_reading.specs.Laws.{HasACellForEach, IsOfDeletesWhereReferenced};
ghost use Rattle.ice_manifest_reading.specs.Absent.{IsZeroWhereAbsent, IsRefusedWhereNull, HasRowsOfVersionOne};
ghost use Rattle.ice_manifest_reading.specs.Absent.{HasFilesOfVersionOne};
ghost use Rattle.ice_manifest_reading.specs.Faults.{TellsTheFirstRow, TellsTheListsEnd, TellsTheFirstEntry};
ghost use Rattle.ice_manifest_reading.specs.Faults.{TellsTheManifestsEnd, RefusesAPathExactly, RefusesManyExactly};
ghost use Rattle.ice_manifest_reading.specs.Same.{SkipsOtherFieldsOfEntries, SkipsOtherFieldsOfRows};

use avro_file::{held_is_read, no_fault_is_memory};

/// The rows of a list are the set of the rows that its objects say. It is refused for a path only where two different
/// rows have it, and then for the least such path.
pub fn rows_are_a_set()
    ensures exactly { ReadsRowsExactly }
    ensures held { GivesHeldRows }
    ensures same { GivesTheRows }
    ensures twice { RefusesTwo }
    ensures least { RefusesTheLeast }
{
    held_is_read();
}

/// The entries of a manifest are those that its objects say, each with the position that its object has among all.
/// An object of a deleted entry says none.
pub fn entries_are_the_live_ones()
    ensures exactly { ReadsEntriesExactly }
    ensures held { GivesHeldEntries }
{
    held_is_read();
}

/// An entry has the sequence number that it names. Where it names none an added entry has its row's, and an existing
/// one is refused, but has 0 where its row has 0.
pub fn numbers_are_inherited()
    ensures own { KeepsItsNumber }
    ensures added { InheritsTheRows }
    ensures existing { NeedsItsOwn }
    ensures zero { HasZeroUnderZero }
{}

/// A file has the sequence number that its entry names for it. Without one the file of an added entry has the row's,
/// and that of an existing one has none, but 0 where the row has 0.
pub fn file_numbers_are_inherited()
    ensures own { KeepsItsFileNumber }
    ensures added { InheritsTheRowsForItsFile }
    ensures existing { HasNoFileNumber }
    ensures zero { HasZeroForItsFile }
{}

/// An entry is of the snapshot that it names, and else, also where it exists already, of that which added its manifest.
pub fn snapshots_are_inherited()
    ensures own { KeepsItsSnapshot }
    ensures none { InheritsItsSnapshot }
{}

/// A list or a manifest of version 1 has no field for what was not known then, and this is 0: its rows are of data,
/// their numbers are 0, and its files hold data. A field that is there and null is refused.
pub fn absent_fields_are_zero()
    ensures absent { IsZeroWhereAbsent }
    ensures null { IsRefusedWhereNull }
    ensures row { HasRowsOfVersionOne }
    ensures file { HasFilesOfVersionOne }
{}

/// The fault of a list or a manifest that opens and has its fields is that of its first object at fault, whatever comes
/// after it. Where no object is at fault, it is the fault with which the container ends.
pub fn first_faults_are_told()
    ensures row { TellsTheFirstRow }
    ensures list_end { TellsTheListsEnd }
    ensures entry { TellsTheFirstEntry }
    ensures manifest_end { TellsTheManifestsEnd }
{}

/// A list is refused for its rows together exactly where it has no other fault: for the least path of two different
/// rows, and where there is none, for more than 65,536 different rows.
pub fn rows_are_refused_together()
    ensures path { RefusesAPathExactly }
    ensures many { RefusesManyExactly }
{}

/// Each entry holds what its row's content allows: data under a row of data, deletes under one of deletes. Only
/// position deletes name one data file that they are about. An entry is of its row's spec, and has a partition value
/// for each field of the spec.
pub fn contents_fit()
    ensures content { FitsItsRow }
    ensures referenced { IsOfDeletesWhereReferenced }
    ensures spec { AreOfTheirSpec }
    ensures cells { HasACellForEach }
{}

/// Two files whose objects say the same in the fields that are read give the same, whatever else they hold: other
/// fields, other names, and objects that lie otherwise in blocks.
pub fn other_fields_are_skipped()
    ensures entries { SkipsOtherFieldsOfEntries }
    ensures rows { SkipsOtherFieldsOfRows }
{}

/// No fault of a list or a manifest is want of memory: reading answers `Memory` for want of it alone.
pub fn no_refusal_is_memory()
    ensures list { (bytes : List ℕ) → rows_of bytes ≢ Err list.Memory }
    ensures manifest { (row : Row) (spec : Spec) (bytes : List ℕ) → live_of row spec bytes ≢ Err manifest.Memory }
{
    no_fault_is_memory();
}
