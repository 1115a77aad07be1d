//! The fault of a manifest, put last.

ghost use Rattle.std.specs.Prelude.{◌≡◌, ℕ, List, Ok, IfOk, IfSome};
ghost use Rattle.ice_state_sections.specs.Faults.{schema_fault, schema_fault_of, file_fault, file_fault_of};
ghost use Rattle.ice_state_sections.specs.Faults.{fault as fault_said, fault_of};
ghost use Rattle.ice_state_sections.specs.Parts.{int};
ghost use Rattle.ice_state_sections.specs.Written.{Adds};

use crate::adding::{add_int, add_number, add_run};
use avro_file::AvroFault;
use avro_schema::SchemaFault;
use ice_manifest_fields::ManifestFault;
use std::alloc::AllocError;

/// The number of a schema's fault that has nothing with it.
fn schema_code(fault: SchemaFault) -> Option<u64>
    ensures { IfSome result (λ code. (rest : List ℕ) → schema_fault_of code rest ≡ Ok (fault, rest)) }
{
    match fault {
        SchemaFault::NotJson => Some(0),
        SchemaFault::UnknownType => Some(1),
        SchemaFault::UnknownName => Some(2),
        SchemaFault::Recursive => Some(3),
        SchemaFault::TooBig => Some(4),
        SchemaFault::NameTwice => Some(6),
        SchemaFault::FieldTwice(_) | SchemaFault::Memory => None,
    }
}

/// Puts a schema's fault last. Want of memory is not written.
fn add_schema_fault(bytes: Vec<u8>, fault: SchemaFault) -> Result<Vec<u8>, AllocError>
    ensures { IfOk result (λ all. Adds schema_fault fault bytes.items all.items) }
{
    if let Some(code) = schema_code(fault) {
        return Ok(add_number(bytes, code)?);
    }
    match fault {
        SchemaFault::FieldTwice(id) => {
            let bytes = add_number(bytes, 5)?;
            Ok(add_int(bytes, id)?)
        }
        _ => Err(AllocError),
    }
}

/// The number of a container's fault that has nothing with it.
fn file_code(fault: &AvroFault) -> Option<u64>
    ensures { IfSome result (λ code. (rest : List ℕ) → file_fault_of code rest ≡ Ok (fault.now, rest)) }
{
    match fault {
        AvroFault::NotAvro => Some(0),
        AvroFault::BadNumber => Some(3),
        AvroFault::BadUnion => Some(4),
        AvroFault::BadUtf8 => Some(5),
        AvroFault::BadSync => Some(6),
        AvroFault::BlockSize => Some(7),
        AvroFault::BadBoolean => Some(9),
        AvroFault::TooManyItems => Some(10),
        AvroFault::Codec(_) | AvroFault::Truncated(_) | AvroFault::Schema(_) | AvroFault::Memory =>
            None,
    }
}

/// Puts a container's fault last. Want of memory is not written.
fn add_file_fault(bytes: Vec<u8>, fault: &AvroFault) -> Result<Vec<u8>, AllocError>
    ensures { IfOk result (λ all. Adds file_fault fault.now bytes.items all.items) }
{
    if let Some(code) = file_code(fault) {
        return Ok(add_number(bytes, code)?);
    }
    match fault {
        AvroFault::Codec(name) => {
            let bytes = add_number(bytes, 1)?;
            Ok(add_run(bytes, name.as_slice())?)
        }
        AvroFault::Truncated(offset) => {
            let bytes = add_number(bytes, 2)?;
            Ok(add_number(bytes, *offset as u64)?)
        }
        AvroFault::Schema(fault) => {
            let bytes = add_number(bytes, 8)?;
            Ok(add_schema_fault(bytes, *fault)?)
        }
        _ => Err(AllocError),
    }
}

/// The number of a manifest's fault that has nothing with it.
fn plain_code(fault: &ManifestFault) -> Option<u64>
    ensures { IfSome result (λ code. (rest : List ℕ) → fault_of code rest ≡ Ok (fault.now, rest)) }
{
    match fault {
        ManifestFault::BadStatus => Some(4),
        ManifestFault::BadContent => Some(5),
        ManifestFault::NoSequence => Some(6),
        _ => None,
    }
}

/// The number of a manifest's fault that has the id of a field with it, and the id.
fn field_code(fault: &ManifestFault) -> Option<(u64, i32)>
    ensures { IfSome result (λ code. (bytes rest : List ℕ) → int bytes ≡ Ok (code.1, rest) →
        fault_of code.0 bytes ≡ Ok (fault.now, rest)) }
{
    match fault {
        ManifestFault::MissingField(id) => Some((1, *id)),
        ManifestFault::WrongFieldType(id) => Some((2, *id)),
        ManifestFault::OutOfRange(id) => Some((3, *id)),
        ManifestFault::FloatPartition(id) => Some((7, *id)),
        _ => None,
    }
}

/// Puts a manifest's fault last. Want of memory is not written.
pub(crate) fn add_fault(bytes: Vec<u8>, fault: &ManifestFault) -> Result<Vec<u8>, AllocError>
    ensures { IfOk result (λ all. Adds fault_said fault.now bytes.items all.items) }
{
    if let Some(code) = plain_code(fault) {
        return Ok(add_number(bytes, code)?);
    }
    if let Some((code, id)) = field_code(fault) {
        let bytes = add_number(bytes, code)?;
        return Ok(add_int(bytes, id)?);
    }
    match fault {
        ManifestFault::Avro(fault) => {
            let bytes = add_number(bytes, 0)?;
            Ok(add_file_fault(bytes, fault)?)
        }
        _ => Err(AllocError),
    }
}
