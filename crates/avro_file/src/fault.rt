//! Why a file gives no further object.

ghost use Rattle.std.specs.Prelude.{◌≡◌, IfOk};
ghost use Rattle.avro_file.specs.declared.fault.AvroFault.TheVariants.{Memory};

use avro_schema::SchemaFault;
use std::alloc::{AllocError, AllocFailed, Global};
use std::marker::Model;

/// The bytes that name a codec.
#[derive(Debug, Drop)]
pub struct CodecName {
    bytes: Vec<u8>,
}

impl Model for CodecName {
    ghost use Rattle.std.specs.Prelude.{List, ℕ};

    ghost Value = { List ℕ };

    ghost view = { λ n. n.bytes.items };
}

impl CodecName {
    /// The codec of this name, which may be any bytes.
    pub fn from_vec(bytes: Vec<u8>) -> Self
        ensures { result ≡ bytes.items }
    {
        CodecName { bytes }
    }

    /// The bytes of the name, as the file has them.
    pub fn as_slice(&self) -> &[u8]
        ensures { result.now ≡ self.now }
    {
        self.bytes.as_slice()
    }

    /// The same name, in memory of its own.
    pub fn copy(&self, alloc: Global) -> Result<Self, AllocError>
        ensures { IfOk result (λ copied. copied ≡ self.now) }
    {
        Ok(CodecName {
            bytes: self.as_slice().to_vec(alloc)?,
        })
    }
}

/// The first fault of a container file.
#[derive(Debug, Drop)]
pub enum AvroFault {
    /// The file does not begin as a container does, or its metadata names no schema.
    NotAvro,
    /// Its objects are compressed by this codec.
    Codec(CodecName),
    /// It ends inside the number, run of bytes, block content or marker that begins at this offset.
    Truncated(usize),
    /// A number does not fit, or a length is negative.
    BadNumber,
    /// A union has no such branch.
    BadUnion,
    /// A text is not UTF-8.
    BadUtf8,
    /// A block does not end in the file's marker.
    BadSync,
    /// A block's objects do not fill it, or run past it, or its count or size is negative.
    BlockSize,
    /// The schema's text names no schema.
    Schema(SchemaFault),
    /// A growth was refused.
    Memory,
    /// A boolean is neither 0 nor 1.
    BadBoolean,
    /// One object has more than 16,777,216 items in its arrays and maps.
    TooManyItems,
}

impl From<AllocError> for AvroFault {
    ghost from_gives = { λ _ e. e ≡ Memory };

    fn from(_e: AllocError) -> AvroFault {
        AvroFault::Memory
    }
}

impl<T: Drop> From<AllocFailed<T>> for AvroFault {
    ghost from_gives = { λ _ e. e ≡ Memory };

    fn from(_e: AllocFailed<T>) -> AvroFault {
        AvroFault::Memory
    }
}

impl AvroFault {
    /// The same fault, in memory of its own.
    pub fn copy(&self, alloc: Global) -> Result<AvroFault, AllocError>
        ensures { IfOk result (λ copied. copied ≡ self.now) }
    {
        Ok(match self {
            AvroFault::NotAvro => AvroFault::NotAvro,
            AvroFault::Codec(name) => AvroFault::Codec(name.copy(alloc)?),
            AvroFault::Truncated(offset) => AvroFault::Truncated(*offset),
            AvroFault::BadNumber => AvroFault::BadNumber,
            AvroFault::BadUnion => AvroFault::BadUnion,
            AvroFault::BadUtf8 => AvroFault::BadUtf8,
            AvroFault::BadSync => AvroFault::BadSync,
            AvroFault::BlockSize => AvroFault::BlockSize,
            AvroFault::Schema(fault) => AvroFault::Schema(*fault),
            AvroFault::Memory => AvroFault::Memory,
            AvroFault::BadBoolean => AvroFault::BadBoolean,
            AvroFault::TooManyItems => AvroFault::TooManyItems,
        })
    }
}
