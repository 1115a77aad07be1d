//! An object in which the fields of a manifest list's row were found.

ghost use Rattle.std.specs.Prelude.{◌≡◌, ◌≤◌, length, is_none, IfOk};
ghost use Rattle.avro_file_picked.specs.Finding.{IsMet};
ghost use Rattle.ice_manifest_fields.specs.Fields.{at, long_at, int_at, int_or_zero, number_or_zero, path_at};
ghost use Rattle.ice_manifest_fields.specs.Fields.{number_at, optional_long, optional_int};
ghost use Rattle.ice_manifest_fields.specs.Schemas.{fields_in, type_at as type_said};
ghost use Rattle.ice_manifest_fields.specs.Seen.{result_map};
ghost use Rattle.avro_file_picked.specs.Guides.{MayGuide};
ghost use Rattle.ice_manifest_layouts.specs.RowsFound.{row_id, row_seen, summary_ids, IsRow};

use crate::row_field::RowField;
use avro_file::Object;
use avro_file_picked::{Found, Guide, Layout, Places};
use ice_manifest_fields::{FieldFault, fields_of, type_at};
use ice_manifest_values::{int_asked, long_asked, number_asked, optional_int, path_asked, whole};
use ice_value::SequenceNumber;

/// An object of a manifest list whose values were placed. It lends the file's bytes and owns nothing.
#[derive(Clone, Copy, Debug)]
pub struct FoundRow<'e, 's, 'a> {
    pub layout: &'e Layout<'s>,
    pub places: &'e Places,
    pub object: Object<'s, 'a>,
}

impl<'e, 's, 'a> FoundRow<'e, 's, 'a> {
    /// What stands at a field of the row; none where it is absent or null.
    pub fn found(&self, field: RowField) -> Option<Found<'s, 'a>>
        requires { IsRow self.now }
        ensures { IsMet result (at (row_id field) (row_seen self.now)) }
    {
        self.layout.found(self.object, self.places, field.number())
    }

    /// The guide of the items of the list that stands at a field of the row, by which what a summary says is found;
    /// none where no list stands there, or the layout has no guide.
    pub fn items_guide(&self, field: RowField) -> Option<&'e Guide<'s>>
        requires { IsRow self.now }
        ensures { MayGuide summary_ids result (at (row_id field) (row_seen self.now)) }
    {
        let guided = self.layout.guided(self.object)?;
        guided.items_guide(&[field.id()])
    }

    /// Whether the list's rows have no such field.
    fn lacks(&self, field: RowField) -> bool
        ensures { result ≡ is_none (type_said (row_id field) (fields_in (row_seen self.now).0)) }
    {
        type_at(fields_of(self.object.schema()), field.id()).is_none()
    }

    /// A whole number of 64 bits.
    pub fn long(&self, field: RowField) -> Result<i64, FieldFault>
        requires { IsRow self.now }
        ensures { result ≡ long_at (row_id field) (row_seen self.now) }
    {
        long_asked(self.found(field), field.id())
    }

    /// A whole number of 64 bits; none where it is absent or null.
    pub fn optional_long(&self, field: RowField) -> Option<i64>
        requires { IsRow self.now }
        ensures { result ≡ optional_long (row_id field) (row_seen self.now) }
    {
        whole(self.found(field))
    }

    /// A whole number of 32 bits.
    pub fn int(&self, field: RowField) -> Result<i32, FieldFault>
        requires { IsRow self.now }
        ensures { result ≡ int_at (row_id field) (row_seen self.now) }
    {
        int_asked(self.found(field), field.id())
    }

    /// A whole number of 32 bits; none where it is absent or null.
    pub fn optional_int(&self, field: RowField) -> Result<Option<i32>, FieldFault>
        requires { IsRow self.now }
        ensures { result ≡ optional_int (row_id field) (row_seen self.now) }
    {
        optional_int(self.found(field), field.id())
    }

    /// A whole number of 32 bits; 0 where the list's rows have no such field.
    #[tactic(auto, unfolding(ice_manifest_fields::specs::Fields::int_or_zero))]
    pub fn int_or_zero(&self, field: RowField) -> Result<i32, FieldFault>
        requires { IsRow self.now }
        ensures { result ≡ int_or_zero (row_id field) (row_seen self.now) }
    {
        if self.lacks(field) {
            return Ok(0);
        }
        self.int(field)
    }

    /// A sequence number.
    fn number(&self, field: RowField) -> Result<SequenceNumber, FieldFault>
        requires { IsRow self.now }
        ensures { result ≡ number_at (row_id field) (row_seen self.now) }
    {
        number_asked(self.found(field), field.id())
    }

    /// A sequence number; 0 where the list's rows have no such field.
    #[tactic(auto, unfolding(ice_manifest_fields::specs::Fields::number_or_zero))]
    pub fn number_or_zero(&self, field: RowField) -> Result<SequenceNumber, FieldFault>
        requires { IsRow self.now }
        ensures { result ≡ number_or_zero (row_id field) (row_seen self.now) }
    {
        if self.lacks(field) {
            return Ok(SequenceNumber::zero());
        }
        self.number(field)
    }

    /// A path of at most 65,535 bytes, lent from the file.
    #[tactic(auto, unfolding(ice_manifest_fields::specs::Fields::path_at))]
    pub fn path(&self, field: RowField) -> Result<&'a str, FieldFault>
        requires { IsRow self.now }
        ensures said { result_map (λ path. path.now) result ≡ path_at (row_id field) (row_seen self.now) }
        ensures short { IfOk result (λ path. length path.now ≤ 65535) }
    {
        path_asked(self.found(field), field.id())
    }
}
