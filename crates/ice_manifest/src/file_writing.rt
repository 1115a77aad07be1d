//! Beginning a file that is written.

ghost use Rattle.std.specs.Prelude.{◌≡◌, [], Ok, IfOk};
ghost use Rattle.std.specs.List.{AllByRecursion};
ghost use Rattle.std.specs.Str.{IsUtf8};
ghost use Rattle.avro_schema.specs.Tree.{Tree};
ghost use Rattle.avro_schema.specs.Texts.{schema_of};
ghost use Rattle.avro_file.specs.Property.{shown_properties};
ghost use Rattle.avro_file.specs.Writing.{in_order};
ghost use Rattle.avro_file.specs.Writers.{WasGiven, WillWrite};

use avro_file::{AvroFault, Property, Writer};
use std::alloc::{AllocError, Global};

/// A file of this schema, which has no objects yet.
pub fn begun(
    alloc: Global,
    schema: &str,
    metadata: &[Property<'_>],
    sync: [u8; 16],
) -> Result<Writer, AllocError>
    requires keys { AllByRecursion (λ p. IsUtf8 p.0) (shown_properties metadata.now) }
    requires named { (t : Tree) × (schema_of schema.now ≡ Ok t) }
    ensures given { IfOk result (λ w. (t : Tree) → schema_of schema.now ≡ Ok t
        → WasGiven w (in_order schema.now (shown_properties metadata.now)) t []) }
    ensures exact { IfOk result (λ w. WillWrite w (in_order schema.now (shown_properties metadata.now)) sync []) }
{
    match Writer::new(alloc, schema.as_bytes(), metadata, sync) {
        Ok(writer) => Ok(writer),
        Err(fault) => match fault {
            AvroFault::Memory => Err(AllocError),
            _ => unreachable!(),
        },
    }
}
