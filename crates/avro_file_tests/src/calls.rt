//! Public calls once more, each under the one clause that its wrong implementations turn, so that the gate can try
//! these cheaply.

ghost use Rattle.std.specs.Prelude.{◌≡◌};
ghost use Rattle.contract_words.specs.Outcome.{Gives};
ghost use Rattle.avro_file.specs.Files.{Next, Shows, ahead, opened, opened_at, type_of};
ghost use Rattle.avro_file_picked.specs.Finding.{NextPicked, layout_tree, field_paths_of};
ghost use Rattle.avro_schema.specs.View.{tree};
ghost use Rattle.avro_schema.specs.Texts.{schema_of as tree_of_text};

use avro_file::{AvroFault, Container, Datum, Object, Objects};
use avro_file_picked::Layout;
use avro_schema::{Schema, SchemaFault};
use std::alloc::Global;

/// Reads a schema.
pub fn from_json(alloc: Global, text: &[u8]) -> Result<Schema, SchemaFault>
    ensures { Gives SchemaFault.Memory tree result (tree_of_text text.now) }
{
    Schema::from_json(alloc, text)
}

/// The file of these bytes.
pub fn open(alloc: Global, bytes: &[u8]) -> Result<Container<'_>, AvroFault>
    ensures { Gives AvroFault.Memory opened result (opened_at bytes.now) }
{
    Container::open(alloc, bytes)
}

/// The next object; none at the end of the file.
pub fn next<'s, 'a>(objects: &mut Objects<'s, 'a>) -> Result<Option<Object<'s, 'a>>, AvroFault>
    ensures { Next Shows (ahead objects.old) result (ahead objects.new) }
{
    objects.next()
}

/// What the next object has where each field path leads.
pub fn next_with<'a>(
    alloc: Global,
    layout: &Layout<'_>,
    objects: &mut Objects<'_, 'a>,
) -> Result<Option<Vec<Option<Datum<'a>>>>, AvroFault>
    requires { layout_tree layout.now ≡ type_of objects.old }
    ensures { NextPicked (layout_tree layout.now) (field_paths_of layout.now) (ahead objects.old) result
        (ahead objects.new) }
{
    layout.next_with(alloc, objects)
}
