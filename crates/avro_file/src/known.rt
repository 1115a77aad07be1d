//! Schemas that are not read again.

ghost use Rattle.std.specs.Prelude.{◌≡◌, List, Ok};
ghost use Rattle.contract_words.specs.Outcome.{Gives};
ghost use Rattle.avro_schema.specs.View.{tree};
ghost use Rattle.avro_schema.specs.Texts.{schema_of};
ghost use Rattle.avro_file.specs.Blocks.{refused};
ghost use Rattle.avro_file.specs.Known.{known_tree};

use crate::container::schema_named;
use crate::fault::AvroFault;
use crate::named::KnownSchema;
use avro_schema::Schema;
use std::alloc::Global;

impl KnownSchema {
    /// The schema.
    pub fn schema(&self) -> &Schema
        ensures { tree result.now ≡ known_tree self.now }
    {
        &self.schema
    }
}

/// The schema that a text names, which is not read where it is known.
pub fn schema_once(
    alloc: Global,
    known: Option<&KnownSchema>,
    text: &[u8],
) -> Result<Schema, AvroFault>
    ensures { Gives AvroFault.Memory tree result (refused AvroFault.Schema (schema_of text.now)) }
{
    match known {
        Some(known) if known.text.as_slice() == text => Ok(known.schema.share()?),
        _ => schema_named(alloc, text),
    }
}
