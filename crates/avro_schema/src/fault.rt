//! Why a text names no tree.

ghost use Rattle.std.specs.Prelude.{◌≡◌};
ghost use Rattle.avro_schema.specs.declared.fault.SchemaFault.TheVariants.{Memory};

use std::alloc::{AllocError, AllocFailed};

/// Why a text names no tree: the first fault on a walk from the root, fields and branches in their order.
#[derive(Clone, Copy, Debug, PartialEq, Eq)]
pub enum SchemaFault {
    /// The text is no JSON in UTF-8.
    NotJson,
    /// The JSON is no type: neither a text, an array nor an object with a text `type`, or an attribute that it needs is
    /// missing or of the wrong kind, or a union stands in a union.
    UnknownType,
    /// A name is used that nothing before defines.
    UnknownName,
    /// A name is used inside its own definition.
    Recursive,
    /// The tree has more than 10,000 nodes or 32 levels; a used name counts as the whole tree of its definition.
    TooBig,
    /// Two fields of one record have this id.
    FieldTwice(i32),
    /// No memory was left.
    Memory,
    /// A full name is defined twice.
    NameTwice,
}

impl From<AllocError> for SchemaFault {
    ghost from_gives = { λ _ e. e ≡ Memory };

    fn from(_e: AllocError) -> SchemaFault {
        SchemaFault::Memory
    }
}

impl<T: Drop> From<AllocFailed<T>> for SchemaFault {
    ghost from_gives = { λ _ e. e ≡ Memory };

    fn from(_e: AllocFailed<T>) -> SchemaFault {
        SchemaFault::Memory
    }
}
