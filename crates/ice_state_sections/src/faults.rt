//! The fault of a manifest, as it is read.

ghost use Rattle.contract_words.specs.Outcome.{Gives};
ghost use Rattle.avro_file_parts.specs.Exact.{IsRead};
ghost use Rattle.ice_state_sections.specs.Faults.{schema_fault, file_fault, fault};
ghost use Rattle.ice_state_sections.specs.Parts.{run};

use crate::parts::{int_of, number_of, run_of};
use crate::section_fault::SectionFault;
use avro_file::{AvroFault, CodecName};
use avro_schema::SchemaFault;
use ice_manifest_fields::ManifestFault;
use std::alloc::Global;

#[tactic(auto, unfolding(crate::specs::Faults::schema_fault))]
fn schema_fault_of(bytes: &[u8]) -> Result<(SchemaFault, &[u8]), SectionFault>
    ensures { IsRead (λ x. (x.0, x.1.now)) result (schema_fault bytes.now) }
{
    let (code, rest) = number_of(bytes)?;
    match code {
        0 => Ok((SchemaFault::NotJson, rest)),
        1 => Ok((SchemaFault::UnknownType, rest)),
        2 => Ok((SchemaFault::UnknownName, rest)),
        3 => Ok((SchemaFault::Recursive, rest)),
        4 => Ok((SchemaFault::TooBig, rest)),
        5 => {
            let (id, rest) = int_of(rest)?;
            Ok((SchemaFault::FieldTwice(id), rest))
        }
        6 => Ok((SchemaFault::NameTwice, rest)),
        _ => Err(SectionFault::NoSection),
    }
}

/// A codec's name, in memory of its own.
fn codec_of(alloc: Global, bytes: &[u8]) -> Result<(CodecName, &[u8]), SectionFault>
    ensures { Gives SectionFault.Memory (λ x. (x.0, x.1.now)) result (run bytes.now) }
{
    let (name, rest) = run_of(bytes)?;
    Ok((CodecName::from_vec(name.to_vec(alloc)?), rest))
}

#[tactic(auto, unfolding(crate::specs::Faults::file_fault))]
fn file_fault_of(alloc: Global, bytes: &[u8]) -> Result<(AvroFault, &[u8]), SectionFault>
    ensures { Gives SectionFault.Memory (λ x. (x.0, x.1.now)) result (file_fault bytes.now) }
{
    let (code, rest) = number_of(bytes)?;
    match code {
        0 => Ok((AvroFault::NotAvro, rest)),
        1 => {
            let (name, rest) = codec_of(alloc, rest)?;
            Ok((AvroFault::Codec(name), rest))
        }
        2 => {
            let (offset, rest) = number_of(rest)?;
            Ok((AvroFault::Truncated(offset as usize), rest))
        }
        3 => Ok((AvroFault::BadNumber, rest)),
        4 => Ok((AvroFault::BadUnion, rest)),
        5 => Ok((AvroFault::BadUtf8, rest)),
        6 => Ok((AvroFault::BadSync, rest)),
        7 => Ok((AvroFault::BlockSize, rest)),
        8 => {
            let (fault, rest) = schema_fault_of(rest)?;
            Ok((AvroFault::Schema(fault), rest))
        }
        9 => Ok((AvroFault::BadBoolean, rest)),
        10 => Ok((AvroFault::TooManyItems, rest)),
        _ => Err(SectionFault::NoSection),
    }
}

/// The fault of a manifest.
#[tactic(auto, unfolding(crate::specs::Faults::fault))]
pub(crate) fn fault_of(alloc: Global, bytes: &[u8]) -> Result<(ManifestFault, &[u8]), SectionFault>
    ensures { Gives SectionFault.Memory (λ x. (x.0, x.1.now)) result (fault bytes.now) }
{
    let (code, rest) = number_of(bytes)?;
    match code {
        0 => {
            let (fault, rest) = file_fault_of(alloc, rest)?;
            Ok((ManifestFault::Avro(fault), rest))
        }
        1 => {
            let (id, rest) = int_of(rest)?;
            Ok((ManifestFault::MissingField(id), rest))
        }
        2 => {
            let (id, rest) = int_of(rest)?;
            Ok((ManifestFault::WrongFieldType(id), rest))
        }
        3 => {
            let (id, rest) = int_of(rest)?;
            Ok((ManifestFault::OutOfRange(id), rest))
        }
        4 => Ok((ManifestFault::BadStatus, rest)),
        5 => Ok((ManifestFault::BadContent, rest)),
        6 => Ok((ManifestFault::NoSequence, rest)),
        7 => {
            let (id, rest) = int_of(rest)?;
            Ok((ManifestFault::FloatPartition(id), rest))
        }
        _ => Err(SectionFault::NoSection),
    }
}
