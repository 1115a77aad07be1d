//! The file of an entry whose fields were found.

ghost use Rattle.std.specs.Prelude.{◌≡◌, ◌<◌, length, get_or, None, is_some, IfSome, MatchOption};
ghost use Rattle.avro_file_picked.specs.Finding.{is_structure};
ghost use Rattle.avro_schema.specs.View.{tree};
ghost use Rattle.avro_file_picked.specs.Finding.{IsMet};
ghost use Rattle.ice_meta.specs.declared.spec.PartitionField.{PartitionField};
ghost use Rattle.ice_manifest_fields.specs.Fields.{at};
ghost use Rattle.ice_manifest_layouts.specs.FieldPaths.{file_id};
ghost use Rattle.ice_manifest_layouts.specs.Seen.{IsPlaced, IsFile, HasTuple, file_of, file_seen, tuple_of, tuple_seen};
ghost use Rattle.ice_manifest_layouts.specs.Seen.{IsGuidedFile};

use crate::entry::FoundEntry;
use crate::entry_field::{EntryField, FileField, PARTITION_START};
use avro_file_picked::{Found, GuidedObject};
use avro_schema::{Field, Schema};
use ice_manifest_fields::fields_of;

/// The file that an entry is about, a record of these fields.
#[derive(Clone, Copy, Debug)]
pub struct FoundFile<'f, 'e, 's, 'a> {
    pub entry: &'f FoundEntry<'e, 's, 'a>,
    pub fields: &'s [Field],
}

impl<'f, 'e, 's, 'a> FoundFile<'f, 'e, 's, 'a> {
    /// The file of an entry; none where it is absent or null, or no record.
    pub fn of(entry: &'f FoundEntry<'e, 's, 'a>) -> Option<FoundFile<'f, 'e, 's, 'a>>
        requires { IsPlaced entry.now }
        ensures { MatchOption result (file_of entry.now ≡ None)
            (λ file. IsFile file × (file.entry.now ≡ entry.now)) }
    {
        let schema = entry.found(EntryField::DataFile)?.schema();
        if is_record(schema) {
            let fields = fields_of(schema);
            Some(FoundFile { entry, fields })
        } else {
            None
        }
    }

    /// What stands at a field of the file; none where it is absent or null.
    pub fn found(&self, field: FileField) -> Option<Found<'s, 'a>>
        requires { IsFile self.now }
        ensures { IsMet result (at (file_id field) (file_seen self.now)) }
    {
        let entry = self.entry;
        entry
            .layout
            .found(entry.object, entry.places, field.number())
    }

    /// The object in which the file stands, with a guide that keeps the fields of its maps' pairs; none where the
    /// layout has no guide.
    pub fn guided(&self) -> Option<GuidedObject<'e, 's, 'a>>
        requires { IsFile self.now }
        ensures { IfSome result (λ guided. IsGuidedFile self.now guided) }
    {
        let entry = self.entry;
        entry.layout.guided(entry.object)
    }

    /// Whether the partition values are there.
    pub fn has_tuple(&self) -> bool
        requires { IsFile self.now }
        ensures { result ≡ is_some (tuple_of self.now) }
    {
        match self.found(FileField::Partition) {
            Some(found) => is_record(found.schema()),
            None => false,
        }
    }

    /// The value of a partition field; none where it is absent or null.
    pub fn found_cell(&self, index: usize) -> Option<Found<'s, 'a>>
        requires file { IsFile self.now }
        requires tuple { HasTuple self.now }
        requires index { index < length self.now.entry.now.partition.now }
        ensures { (p : PartitionField) → p ≡ get_or self.now.entry.now.partition.now index p →
            IsMet result (at p.field_id (tuple_seen self.now)) }
    {
        let entry = self.entry;
        entry
            .layout
            .found(entry.object, entry.places, PARTITION_START + index)
    }
}

/// Whether the values of the schema are records.
fn is_record(schema: &Schema) -> bool
    ensures { result ≡ is_structure (tree schema.now) }
{
    match schema {
        Schema::Record(_) => true,
        _ => false,
    }
}
