//! An object of a file.

ghost use Rattle.std.specs.Prelude.{◌≡◌, IfOk};

use crate::blocks::object_of;
use crate::datum::Datum;
use avro_schema::Schema;
use std::alloc::{AllocError, Global};

/// An object of a file, which was checked whole. It lends the file's bytes, owns nothing, and
/// knows the schema of the container.
#[derive(Clone, Copy, Debug)]
pub struct Object<'s, 'a> {
    pub(crate) schema: &'s Schema,
    pub(crate) bytes: &'a [u8],
}

impl<'s, 'a> Object<'s, 'a> {
    ghost use Rattle.avro_file.specs.Files.{Shows};
    ghost use Rattle.avro_file.specs.View.{view};
    ghost use Rattle.avro_file.specs.Value.{Value};

    /// The object as a tree, which is built now. Its texts and bytes are those of the file.
    pub fn datum(self, alloc: Global) -> Result<Datum<'a>, AllocError>
        ensures { (v : Value) → Shows self.entry v → IfOk result (λ datum. view datum ≡ v) }
    {
        match object_of(alloc, self.schema, self.bytes) {
            Ok((datum, _)) => Ok(datum),
            // It was checked, so that only memory can lack.
            Err(_) => Err(AllocError),
        }
    }

    /// Its type.
    pub fn schema(self) -> &'s Schema
        ensures { result.now ≡ self.entry.schema.now }
    {
        self.schema
    }

    /// The bytes at whose front it stands.
    pub fn bytes(self) -> &'a [u8]
        ensures { result.now ≡ self.entry.bytes.now }
    {
        self.bytes
    }

    /// Lets go of the object, of which nothing was built. This takes no memory and cannot fail; the reader gives what
    /// follows as if the object had been built.
    pub fn skip(self) {}
}
