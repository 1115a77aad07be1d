//! An object in which the fields of a manifest's entry were found.

ghost use Rattle.std.specs.Prelude.{◌≡◌, IfSome};
ghost use Rattle.avro_file.specs.Value.{Value};
ghost use Rattle.avro_file.specs.Picking.{pick};
ghost use Rattle.avro_file.specs.Files.{Shows};
ghost use Rattle.avro_schema.specs.View.{tree};
ghost use Rattle.avro_file_picked.specs.Finding.{field_paths_of, IsMet};
ghost use Rattle.avro_file_picked.specs.Placing.{ArePlaced};
ghost use Rattle.ice_manifest_fields.specs.Fields.{at};
ghost use Rattle.ice_manifest_layouts.specs.FieldPaths.{entry_id, wanted_field_paths};
ghost use Rattle.ice_manifest_layouts.specs.Seen.{entry_seen, IsPlaced};

use crate::entry_field::EntryField;
use avro_file::Object;
use avro_file_picked::{Found, Layout, Places};
use ice_meta::PartitionField;

/// An object of a manifest whose values were placed. It lends the file's bytes and owns nothing.
#[derive(Clone, Copy, Debug)]
pub struct FoundEntry<'e, 's, 'a> {
    /// The partition fields of the manifest's spec.
    pub partition: &'e [PartitionField],
    pub layout: &'e Layout<'s>,
    pub places: &'e Places,
    pub object: Object<'s, 'a>,
}

impl<'e, 's, 'a> FoundEntry<'e, 's, 'a> {
    /// What stands at a field of the entry; none where it is absent or null.
    pub fn found(&self, field: EntryField) -> Option<Found<'s, 'a>>
        requires { IsPlaced self.now }
        ensures { IsMet result (at (entry_id field) (entry_seen self.now)) }
    {
        self.layout.found(self.object, self.places, field.number())
    }
}
