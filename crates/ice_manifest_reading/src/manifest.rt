//! Reading a manifest.

ghost use Rattle.std.specs.Prelude.{◌≡◌, ◌≤◌, ◌<◌, ◌^◌, pos, true, IfOk, IfSome, length};
ghost use Rattle.std.specs.Option.{option_copied};
ghost use Rattle.contract_words.specs.Outcome.{Gives};
ghost use Rattle.avro_file.specs.Ahead.{still_ahead};
ghost use Rattle.avro_file.specs.Files.{ahead, type_of};
ghost use Rattle.avro_file_picked.specs.Finding.{layout_tree, field_paths_of, is_structure};
ghost use Rattle.avro_file_picked.specs.Placing.{IsLayout};
ghost use Rattle.ice_manifest_fields.specs.Fields.{int_or_zero as int_or_zero_said, path_at as path_said};
ghost use Rattle.ice_manifest_fields.specs.Fields.{long_at as long_said, ints_at as ints_said};
ghost use Rattle.ice_manifest_fields.specs.Fields.{int_at as int_said, optional_number as number_said};
ghost use Rattle.ice_manifest_fields.specs.Naming.{in_manifest, told};
ghost use Rattle.ice_manifest_fields.specs.Schemas.{fields_in};
ghost use Rattle.ice_manifest_fields.specs.Seen.{result_map};
ghost use Rattle.ice_manifest_layouts.specs.Seen.{entry_seen, IsPlaced, file_seen, IsFile};
ghost use Rattle.ice_manifest_layouts.specs.FieldPaths.{entry_id, file_id, wanted_field_paths};
ghost use Rattle.ice_manifest_reading.specs.Manifests.{live_of, status_of as status_in, status_at as status_said};
ghost use Rattle.ice_manifest_reading.specs.Manifests.{content_of as content_in, content_at as content_said};
ghost use Rattle.ice_manifest_reading.specs.Manifests.{format_at as format_said};
ghost use Rattle.ice_manifest_reading.specs.Manifests.{inherited as inherited_in, file_inherited as file_inherited_in};
ghost use Rattle.ice_manifest_reading.specs.Manifests.{sequence_at as sequence_said};
ghost use Rattle.ice_manifest_reading.specs.Manifests.{file_sequence_at as file_sequence_said};
ghost use Rattle.ice_manifest_reading.specs.Manifests.{snapshot_at as snapshot_said, referenced_at as referenced_said};
ghost use Rattle.ice_manifest_reading.specs.Manifests.{file_of as file_said};
ghost use Rattle.ice_manifest_reading.specs.Manifests.{live_at as live_said, entry_of as entry_said, entries_ahead};
ghost use Rattle.ice_manifest_reading.specs.Manifests.{kept_of, entries_of};
ghost use Rattle.ice_manifest_reading.specs.Behind.{ReadsFile};
ghost use Rattle.ice_manifest_reading.specs.Collecting.{given_of, given_behind, live_behind, behind};
ghost use Rattle.ice_manifest_reading.specs.Collecting.{kept_each, told_each};
ghost use Rattle.ice_manifest_reading.specs.Telling.{told_of};
ghost use Rattle.ice_manifest_reading.specs.Tallying.{rows_of as rows_said, tallies_of, tallies_in, objects_ahead};
ghost use Rattle.ice_manifest_reading.specs.Counted.{IsCountedOf};
ghost use Rattle.ice_meta.specs.Partitioning.{is_unpartitioned};

use crate::collect::{Asked, Nothing, Views, put_live};
use crate::columns::check_columns;
use crate::data_file::FileView;
use crate::entry::{Entry, EntryView};
use crate::gather::Gather;
use crate::keep::{Everything, Keep};
use crate::opening::open_after;
use crate::row::{ManifestContent, Row};
use crate::shape::check_entry_fields;
use crate::status::Status;
use crate::tally::{Counted, Tallied, Tallies};
use crate::tell::{Silent, Tell};
use crate::tuple::tuple_at;
use avro_file::{KnownSchema, Objects, objects_take_bytes};
use avro_file_picked::Layout;
use contract_words::Items;
use ice_manifest_fields::{FieldFault, ManifestFault, fields_of, type_at};
use ice_manifest_layouts::{EntryField, FileField, FoundEntry, FoundFile, entry_layout};
use ice_manifest_values::{
    int_asked, ints, long_asked, optional_number, optional_path, path_asked, text, whole,
};
use ice_meta::Spec;
use ice_value::{FileContent, FileFormat, SequenceNumber};
use std::alloc::{AllocError, Global};

/// The field id of the items of a file's equality ids.
const EQUALITY_ID: i32 = 136;

fn status_of(code: i32) -> Result<Status, ManifestFault>
    ensures { result ≡ status_in code }
{
    match code {
        0 => Ok(Status::Existing),
        1 => Ok(Status::Added),
        2 => Ok(Status::Deleted),
        _ => Err(ManifestFault::BadStatus),
    }
}

/// The code of an entry's status.
fn status_code(entry: &FoundEntry) -> Result<i32, FieldFault>
    requires { IsPlaced entry.now }
    ensures { result ≡ int_said (pos 0) (entry_seen entry.now) }
{
    let field = EntryField::Status;
    int_asked(entry.found(field), field.id())
}

#[tactic(auto, unfolding(crate::specs::Manifests::status_at))]
fn status_at(entry: &FoundEntry) -> Result<Status, ManifestFault>
    requires { IsPlaced entry.now }
    ensures { result ≡ status_said (entry_seen entry.now) }
{
    status_of(status_code(entry)?)
}

/// What a file of a manifest of this content holds.
fn content_of(of_row: ManifestContent, code: i32) -> Result<FileContent, FieldFault>
    ensures { result ≡ content_in of_row code }
{
    match (of_row, code) {
        (ManifestContent::Data, 0) => Ok(FileContent::Data),
        (ManifestContent::Deletes, 1) => Ok(FileContent::PositionDeletes),
        (ManifestContent::Deletes, 2) => Ok(FileContent::EqualityDeletes),
        _ => Err(FieldFault::BadContent),
    }
}

/// A whole number of 32 bits; 0 where the file's type has no such field.
fn int_or_zero(file: &FoundFile, field: FileField) -> Result<i32, FieldFault>
    requires { IsFile file.now }
    ensures { result ≡ int_or_zero_said (file_id field) (file_seen file.now) }
{
    if type_at(file.fields, field.id()).is_none() {
        return Ok(0);
    }
    int_asked(file.found(field), field.id())
}

#[tactic(auto, unfolding(crate::specs::Manifests::content_at))]
fn content_at(of_row: ManifestContent, file: &FoundFile) -> Result<FileContent, FieldFault>
    requires { IsFile file.now }
    ensures { result ≡ content_said of_row (file_seen file.now) }
{
    content_of(of_row, int_or_zero(file, FileField::Content)?)
}

/// The format of a file, where a known one is named.
fn format_at(file: &FoundFile) -> Option<FileFormat>
    requires { IsFile file.now }
    ensures { result ≡ format_said (file_seen file.now) }
{
    FileFormat::parse(text(file.found(FileField::Format))?)
}

/// A path of at most 65,535 bytes.
#[tactic(auto, unfolding(ice_manifest_fields::specs::Fields::path_at))]
fn path_at<'d>(file: &FoundFile<'_, '_, '_, 'd>, field: FileField) -> Result<&'d str, FieldFault>
    requires { IsFile file.now }
    ensures said { result_map (λ path. path.now) result ≡ path_said (file_id field) (file_seen file.now) }
    ensures short { IfOk result (λ path. length path.now ≤ 65535) }
{
    path_asked(file.found(field), field.id())
}

/// A whole number of 64 bits.
fn long_at(file: &FoundFile, field: FileField) -> Result<i64, FieldFault>
    requires { IsFile file.now }
    ensures { result ≡ long_said (file_id field) (file_seen file.now) }
{
    long_asked(file.found(field), field.id())
}

/// The one data file that position deletes are about, where they name one.
#[tactic(auto, unfolding(crate::specs::Manifests::referenced_at, ice_manifest_fields::specs::Fields::optional_path))]
fn referenced_at<'d>(
    content: FileContent,
    file: &FoundFile<'_, '_, '_, 'd>,
) -> Result<Option<&'d str>, FieldFault>
    requires { IsFile file.now }
    ensures said { result_map option_copied result ≡ referenced_said content (file_seen file.now) }
    ensures short { IfOk result (λ found. IfSome found (λ path. length path.now ≤ 65535)) }
{
    let field = FileField::ReferencedFile;
    match content {
        FileContent::PositionDeletes => optional_path(file.found(field), field.id()),
        FileContent::Data | FileContent::EqualityDeletes => Ok(None),
    }
}

/// The ids of the columns by which equality deletes compare rows.
#[tactic(auto, unfolding(ice_manifest_fields::specs::Fields::ints_at))]
fn equality_ids_at(alloc: Global, file: &FoundFile) -> Result<Items<i32>, ManifestFault>
    requires { IsFile file.now }
    ensures { Gives ManifestFault.Memory (λ ids. ids) result
        (told in_manifest (ints_said (pos 135) (pos 136) (file_seen file.now))) }
{
    ints(alloc, file.found(FileField::EqualityIds), EQUALITY_ID)
}

/// The file of an entry in a manifest of this content. What is said of its columns has no fault, and is not given.
#[tactic(auto, unfolding(crate::specs::Manifests::file_of))]
fn file_of<'d>(
    alloc: Global,
    of_row: ManifestContent,
    file: &FoundFile<'_, '_, '_, 'd>,
) -> Result<FileView<'d>, ManifestFault>
    requires { IsFile file.now }
    ensures { ReadsFile result (file_said of_row file.now.entry.now.partition.now (file_seen file.now)) }
{
    let content = content_at(of_row, file)?;
    let path = path_at(file, FileField::Path)?;
    let tuple = tuple_at(alloc, file)?;
    let record_count = long_at(file, FileField::RecordCount)?;
    let file_size = long_at(file, FileField::FileSize)?;
    check_columns(alloc, file)?;
    let equality_ids = equality_ids_at(alloc, file)?;
    let referenced = referenced_at(content, file)?;
    Ok(FileView {
        content,
        format: format_at(file),
        path,
        tuple,
        record_count,
        file_size,
        equality_ids,
        referenced,
    })
}

/// An entry's sequence number: its own, or that of its manifest's row.
fn inherited(
    of_row: SequenceNumber,
    status: Status,
    own: Option<SequenceNumber>,
) -> Result<SequenceNumber, ManifestFault>
    ensures { result ≡ inherited_in of_row status own }
{
    match (own, status) {
        (Some(own), _) => Ok(own),
        (None, Status::Added) => Ok(of_row),
        (None, _) if of_row == SequenceNumber::zero() => Ok(of_row),
        (None, _) => Err(ManifestFault::NoSequence),
    }
}

/// A sequence number that an entry may have.
fn number_at(entry: &FoundEntry, field: EntryField) -> Result<Option<SequenceNumber>, FieldFault>
    requires { IsPlaced entry.now }
    ensures { result ≡ number_said (entry_id field) (entry_seen entry.now) }
{
    optional_number(entry.found(field), field.id())
}

#[tactic(auto, unfolding(crate::specs::Manifests::sequence_at))]
fn sequence_at(
    row: &Row,
    status: Status,
    entry: &FoundEntry,
) -> Result<SequenceNumber, ManifestFault>
    requires { IsPlaced entry.now }
    ensures { result ≡ sequence_said row.now status (entry_seen entry.now) }
{
    let own = number_at(entry, EntryField::SequenceNumber)?;
    inherited(row.sequence_number, status, own)
}

/// The sequence number of an entry's file: its own, or that of its manifest's row. An existing entry may have none.
fn file_inherited(
    of_row: SequenceNumber,
    status: Status,
    own: Option<SequenceNumber>,
) -> Option<SequenceNumber>
    ensures { result ≡ file_inherited_in of_row status own }
{
    match (own, status) {
        (Some(own), _) => Some(own),
        (None, Status::Added) => Some(of_row),
        (None, _) if of_row == SequenceNumber::zero() => Some(of_row),
        (None, _) => None,
    }
}

#[tactic(auto, unfolding(crate::specs::Manifests::file_sequence_at))]
fn file_sequence_at(
    row: &Row,
    status: Status,
    entry: &FoundEntry,
) -> Result<Option<SequenceNumber>, FieldFault>
    requires { IsPlaced entry.now }
    ensures { result ≡ file_sequence_said row.now status (entry_seen entry.now) }
{
    let own = number_at(entry, EntryField::FileSequenceNumber)?;
    Ok(file_inherited(row.sequence_number, status, own))
}

/// The snapshot of an entry: its own, or that which added its manifest.
fn snapshot_at(row: &Row, entry: &FoundEntry) -> i64
    requires { IsPlaced entry.now }
    ensures { result ≡ snapshot_said row.now (entry_seen entry.now) }
{
    whole(entry.found(EntryField::SnapshotId)).unwrap_or(row.added_snapshot_id)
}

/// The row of a manifest and its spec, and whether that partitions nothing.
#[derive(Drop)]
struct Source<'a> {
    row: &'a Row,
    spec: &'a Spec,
    unpartitioned: bool,
    ghost known: { unpartitioned ≡ is_unpartitioned spec.now },
}

/// How many rows the file of an entry has, as the entry says; 0 where it says no number.
#[tactic(auto, unfolding(crate::specs::Tallying::rows_of))]
fn rows_of(entry: &FoundEntry) -> i64
    requires { IsPlaced entry.now }
    ensures { result ≡ rows_said (entry_seen entry.now) }
{
    match FoundFile::of(entry) {
        Some(file) => whole(file.found(FileField::RecordCount)).unwrap_or(0),
        None => 0,
    }
}

/// Takes in an entry that exists or was added: what is told of it is put last, and it is gathered if it is kept.
/// Gives how many rows its file has.
#[tactic(auto, unfolding(crate::specs::Manifests::live_at))]
fn read_live<'d, K: Keep, T: Tell, G: Gather<'d>>(
    alloc: Global,
    source: &Source<'_>,
    asked: &Asked<'_, K, T>,
    told: &mut Vec<T::Told>,
    gather: &mut G,
    position: u64,
    status: Status,
    entry: &FoundEntry<'_, '_, 'd>,
) -> Result<i64, ManifestFault>
    requires placed { IsPlaced entry.now }
    requires partition { entry.now.partition.now ≡ source.now.spec.now.fields }
    ensures told { Gives ManifestFault.Memory (λ _. told.new.items) result
        (live_behind (told_each (T.told asked.now.tell.now)) told.old.items
        (live_said source.now.row.now source.now.spec.now position status (entry_seen entry.now))) }
    ensures gathered { Gives ManifestFault.Memory (λ _. G.gathered gather.new) result
        (live_behind (kept_each (K.kept asked.now.keep.now)) (G.gathered gather.old)
        (live_said source.now.row.now source.now.spec.now position status (entry_seen entry.now))) }
    ensures keeps { G.keeps gather.old gather.new }
    ensures rows { IfOk result (λ rows. rows ≡ rows_said (entry_seen entry.now)) }
{
    let row = source.row;
    let snapshot_id = snapshot_at(row, entry);
    let sequence_number = sequence_at(row, status, entry)?;
    let file_sequence_number = file_sequence_at(row, status, entry)?;
    let Some(file) = FoundFile::of(entry) else {
        return Err(ManifestFault::MissingField(EntryField::DataFile.id()));
    };
    let view = file_of(alloc, row.content, &file)?;
    let rows = view.record_count;
    let entry = EntryView {
        position,
        spec_id: row.spec_id,
        unpartitioned: source.unpartitioned,
        snapshot_id,
        sequence_number,
        file_sequence_number,
        file: view,
    };
    put_live(alloc, asked, told, gather, entry, &file)?;
    Ok(rows)
}

/// Takes in the entry that an object says, if it is live. Of a deleted one nothing but the status can be at
/// fault. Gives what counts of the entry.
#[tactic(auto, unfolding(crate::specs::Manifests::entry_of))]
fn read_object<'d, K: Keep, T: Tell, G: Gather<'d>>(
    alloc: Global,
    source: &Source<'_>,
    asked: &Asked<'_, K, T>,
    told: &mut Vec<T::Told>,
    gather: &mut G,
    position: u64,
    entry: &FoundEntry<'_, '_, 'd>,
) -> Result<Counted, ManifestFault>
    requires placed { IsPlaced entry.now }
    requires partition { entry.now.partition.now ≡ source.now.spec.now.fields }
    ensures told { Gives ManifestFault.Memory (λ _. told.new.items) result
        (given_behind (told_each (T.told asked.now.tell.now)) told.old.items
        (entry_said source.now.row.now source.now.spec.now position (entry_seen entry.now))) }
    ensures gathered { Gives ManifestFault.Memory (λ _. G.gathered gather.new) result
        (given_behind (kept_each (K.kept asked.now.keep.now)) (G.gathered gather.old)
        (entry_said source.now.row.now source.now.spec.now position (entry_seen entry.now))) }
    ensures keeps { G.keeps gather.old gather.new }
    ensures counted { IfOk result (IsCountedOf (entry_seen entry.now)) }
{
    let status = status_at(entry)?;
    match status {
        Status::Deleted => {
            let rows = rows_of(entry);
            Ok(Counted { status, rows })
        }
        _ => {
            let rows = read_live(alloc, source, asked, told, gather, position, status, entry)?;
            Ok(Counted { status, rows })
        }
    }
}

/// Takes in the entries of all objects that are to come, which are records and few enough to be numbered. Gives
/// what is told, and how many there are.
fn all_entries<'s, 'd, K: Keep, T: Tell, G: Gather<'d>>(
    alloc: Global,
    source: &Source<'_>,
    asked: &Asked<'_, K, T>,
    gather: &mut G,
    layout: &Layout<'s>,
    mut reader: Objects<'s, 'd>,
) -> Result<Tallied<T::Told>, ManifestFault>
    requires few { still_ahead (ahead reader) < 2 ^ 64 }
    requires layout { IsLayout layout.now }
    requires field_paths { field_paths_of layout.now ≡ wanted_field_paths source.now.spec.now.fields }
    requires schema { layout_tree layout.now ≡ type_of reader }
    requires records { is_structure (layout_tree layout.now) ≡ true }
    ensures told { Gives ManifestFault.Memory (λ read. read.told.items) result
        (given_of (told_each (T.told asked.now.tell.now)) (entries_ahead source.now.row.now source.now.spec.now
        (fields_in (layout_tree layout.now)) 0 (ahead reader.entry))) }
    ensures gathered { Gives ManifestFault.Memory (λ _. G.gathered gather.new) result
        (behind (G.gathered gather.old) (given_of (kept_each (K.kept asked.now.keep.now))
        (entries_ahead source.now.row.now source.now.spec.now (fields_in (layout_tree layout.now)) 0
        (ahead reader.entry)))) }
    ensures keeps { G.keeps gather.old gather.new }
    ensures tallies { IfOk result (λ read. read.tallies
        ≡ tallies_in (objects_ahead (fields_in (layout_tree layout.now)) (ahead reader.entry))) }
{
    let partition = source.spec.fields.as_slice();
    let mut places = layout.places(alloc)?;
    let mut told = Vec::new(alloc);
    let mut tallies = Tallies::none();
    let mut position: u64 = 0;
    'objects: while let Some(object) = layout.next_placed(&mut reader, &mut places)? {
        let entry = FoundEntry {
            partition,
            layout,
            places: &places,
            object,
        };
        let counted = read_object(alloc, source, asked, &mut told, gather, position, &entry)?;
        tallies.count(counted);
        position += 1;
    }
    Ok(Tallied { told, tallies })
}

/// What is told of the live entries of a row's manifest, of which those that are kept are gathered, in the order of
/// their positions, and how many entries there are. `last` is the schema of the manifest that was read before. The fault
/// is that of `read_kept`.
#[tactic(auto, unfolding(crate::specs::Manifests::live_of, crate::specs::Tallying::tallies_of))]
fn read_given<'d, K: Keep, T: Tell, G: Gather<'d>>(
    alloc: Global,
    row: &Row,
    spec: &Spec,
    asked: &Asked<'_, K, T>,
    bytes: &'d [u8],
    gather: &mut G,
    last: &mut Option<KnownSchema>,
) -> Result<Tallied<T::Told>, ManifestFault>
    ensures told { Gives ManifestFault.Memory (λ read. read.told.items) result
        (given_of (told_each (T.told asked.now.tell.now)) (live_of row.now spec.now bytes.now)) }
    ensures gathered { Gives ManifestFault.Memory (λ _. G.gathered gather.new) result
        (behind (G.gathered gather.old) (given_of (kept_each (K.kept asked.now.keep.now))
        (live_of row.now spec.now bytes.now))) }
    ensures keeps { G.keeps gather.old gather.new }
    ensures tallies { IfOk result (λ read. read.tallies ≡ tallies_of bytes.now) }
{
    let container = open_after(alloc, last, bytes)?;
    let schema = container.schema();
    check_entry_fields(spec, fields_of(schema))?;
    let layout = entry_layout(alloc, schema, spec.fields.as_slice())?;
    let source = Source {
        row,
        spec,
        unpartitioned: spec.is_unpartitioned(),
    };
    // An entry takes a byte at least, so there are no more of them than bytes.
    objects_take_bytes();
    all_entries(alloc, &source, asked, gather, &layout, container.objects())
}

/// As `read_into_told`, for manifests that are read one after the other: `last` is the schema of the one before, and
/// then this one's. A schema of the same text is not read again, so where most manifests have one schema, they take
/// less time; nothing else depends on it.
pub fn read_after<'d, K: Keep, T: Tell, G: Gather<'d>>(
    alloc: Global,
    row: &Row,
    spec: &Spec,
    asked: &Asked<'_, K, T>,
    bytes: &'d [u8],
    gather: &mut G,
    last: &mut Option<KnownSchema>,
) -> Result<Vec<T::Told>, ManifestFault>
    ensures told { Gives ManifestFault.Memory (λ found. found.items) result
        (told_of (T.told asked.now.tell.now) (live_of row.now spec.now bytes.now)) }
    ensures gathered { Gives ManifestFault.Memory (λ _. G.gathered gather.new) result
        (behind (G.gathered gather.old) (kept_of (K.kept asked.now.keep.now) (live_of row.now spec.now bytes.now))) }
    ensures keeps { G.keeps gather.old gather.new }
{
    let read = read_given(alloc, row, spec, asked, bytes, gather, last)?;
    Ok(read.told)
}

/// Gathers those live entries of a row's manifest that are kept, as `read_into` does, and gives what is told of each
/// live entry, in the order of their positions. What is said of the columns of an entry's file is read once, and only
/// where one of both asks for it.
pub fn read_into_told<'d, K: Keep, T: Tell, G: Gather<'d>>(
    alloc: Global,
    row: &Row,
    spec: &Spec,
    keep: &K,
    tell: &T,
    bytes: &'d [u8],
    gather: &mut G,
) -> Result<Vec<T::Told>, ManifestFault>
    ensures told { Gives ManifestFault.Memory (λ found. found.items) result
        (told_of (T.told tell.now) (live_of row.now spec.now bytes.now)) }
    ensures gathered { Gives ManifestFault.Memory (λ _. G.gathered gather.new) result
        (behind (G.gathered gather.old) (kept_of (K.kept keep.now) (live_of row.now spec.now bytes.now))) }
    ensures keeps { G.keeps gather.old gather.new }
{
    read_after(
        alloc,
        row,
        spec,
        &Asked { keep, tell },
        bytes,
        gather,
        &mut None,
    )
}

/// Gathers those live entries of a row's manifest that are kept, as they are read: in the order of their positions,
/// with their numbers inherited. Their paths are lent by the bytes.
///
/// The fault is that of `read_kept`. Some entries may be gathered before it is met.
pub fn read_into<'d, K: Keep, G: Gather<'d>>(
    alloc: Global,
    row: &Row,
    spec: &Spec,
    keep: &K,
    bytes: &'d [u8],
    gather: &mut G,
) -> Result<(), ManifestFault>
    ensures gathered { Gives ManifestFault.Memory (λ _. G.gathered gather.new) result
        (behind (G.gathered gather.old) (kept_of (K.kept keep.now) (live_of row.now spec.now bytes.now))) }
    ensures keeps { G.keeps gather.old gather.new }
{
    read_into_told(alloc, row, spec, keep, &Silent, bytes, gather)?;
    Ok(())
}

/// Those live entries of a row's manifest that are kept, in the order of their positions, with their numbers inherited.
/// Their paths are lent by the bytes.
///
/// The fault is the first of these: the file's as it is opened; that of the first field that the schema lacks or has
/// with another type; entry by entry, also of entries that are not kept, the file's, or that of the entry's first field
/// at fault. Of a deleted entry nothing but the status is looked at.
pub fn read_kept<'d, K: Keep>(
    alloc: Global,
    row: &Row,
    spec: &Spec,
    keep: &K,
    bytes: &'d [u8],
) -> Result<Vec<EntryView<'d>>, ManifestFault>
    ensures { Gives ManifestFault.Memory (λ found. found.items) result
        (kept_of (K.kept keep.now) (live_of row.now spec.now bytes.now)) }
{
    let mut views = Views {
        list: Vec::new(alloc),
    };
    read_into(alloc, row, spec, keep, bytes, &mut views)?;
    Ok(views.list)
}

/// What is told of each live entry of a row's manifest, in the order of their positions. The fault is that of
/// `read_kept`.
pub fn read_told<T: Tell>(
    alloc: Global,
    row: &Row,
    spec: &Spec,
    tell: &T,
    bytes: &[u8],
) -> Result<Vec<T::Told>, ManifestFault>
    ensures { Gives ManifestFault.Memory (λ found. found.items) result
        (told_of (T.told tell.now) (live_of row.now spec.now bytes.now)) }
{
    let mut none = Views {
        list: Vec::new(alloc),
    };
    read_into_told(alloc, row, spec, &Nothing, tell, bytes, &mut none)
}

/// What is told of each live entry of a row's manifest, in the order of their positions, and how many entries of each
/// status the manifest has. The fault is that of `read_kept`.
pub fn read_tallied<T: Tell>(
    alloc: Global,
    row: &Row,
    spec: &Spec,
    tell: &T,
    bytes: &[u8],
) -> Result<Tallied<T::Told>, ManifestFault>
    ensures told { Gives ManifestFault.Memory (λ read. read.told.items) result
        (told_of (T.told tell.now) (live_of row.now spec.now bytes.now)) }
    ensures tallies { IfOk result (λ read. read.tallies ≡ tallies_of bytes.now) }
{
    let keep = &Nothing;
    let mut none = Views {
        list: Vec::new(alloc),
    };
    let asked = &Asked { keep, tell };
    read_given(alloc, row, spec, asked, bytes, &mut none, &mut None)
}

/// The entries, with copies of their paths.
fn owned(alloc: Global, views: Vec<EntryView<'_>>) -> Result<Vec<Entry>, AllocError>
    ensures { IfOk result (λ entries. entries.items ≡ views.entry.items) }
{
    let mut entries = Vec::with_capacity(alloc, views.len())?;
    'views: for view in views {
        entries.push(view.owned(alloc)?)?;
    }
    Ok(entries)
}

/// All live entries of a row's manifest, in the order of their positions, with their numbers inherited. The fault is
/// that of `read_kept`.
pub fn read_manifest(
    alloc: Global,
    row: &Row,
    spec: &Spec,
    bytes: &[u8],
) -> Result<Vec<Entry>, ManifestFault>
    ensures { Gives ManifestFault.Memory (λ found. found.items) result (entries_of row.now spec.now bytes.now) }
{
    let views = read_kept(alloc, row, spec, &Everything, bytes)?;
    Ok(owned(alloc, views)?)
}
