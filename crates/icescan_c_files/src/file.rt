//! The files of a plan as C has them.

ghost use Rattle.std.specs.Prelude.{◌≡◌};
ghost use Rattle.icescan_c_files.specs.Files.{IsFileOf, number_or_none, number_of_format};

use ice_state::PlanFile;
use ice_value::{FileFormat, SequenceNumber};
use icescan_c_lent::{Bytes, Ids};

/// A data file or a delete file of a plan.
#[repr(C)]
#[derive(Drop)]
pub struct File {
    /// Its path.
    pub path: Bytes,
    /// The columns by which an equality delete file deletes.
    pub equality_ids: Ids,
    /// Its sequence number.
    pub sequence_number: u64,
    /// How many rows it has, as its manifest says; any number.
    pub record_count: i64,
    /// How many bytes it has, as its manifest says; any number.
    pub file_size: i64,
    /// How many position delete files apply to it.
    pub positions: usize,
    /// How many equality delete files apply to it.
    pub equalities: usize,
    /// The id of its partition spec.
    pub spec_id: i32,
    /// The number of its format; 0 where its manifest names none that is known.
    pub format: u32,
    /// Its place among the data files of the plan, or among its delete files.
    pub number: usize,
    /// How many partition values it has.
    pub values: usize,
    /// The sequence number of the commit that added it, or the largest number where it has none.
    pub file_sequence_number: u64,
}

/// The number by which C is told a format.
fn number_of_format(format: Option<FileFormat>) -> u32
    ensures { result ≡ number_of_format format }
{
    match format {
        None => 0,
        Some(FileFormat::Avro) => 1,
        Some(FileFormat::Orc) => 2,
        Some(FileFormat::Parquet) => 3,
    }
}

/// A sequence number, or the largest number where there is none.
fn number_or_none(number: Option<SequenceNumber>) -> u64
    ensures { result ≡ number_or_none number }
{
    match number {
        Some(number) => number.get(),
        None => 0xffff_ffff_ffff_ffff,
    }
}

impl File {
    /// What is lent of a file at a place, to which so many delete files apply.
    pub fn of(file: &PlanFile<'_>, number: usize, positions: usize, equalities: usize) -> File
        ensures { IsFileOf file.now number positions equalities result }
    {
        File {
            path: Bytes::of(file.path()),
            equality_ids: Ids::of(file.equality_ids()),
            sequence_number: file.sequence_number().get(),
            record_count: file.record_count(),
            file_size: file.file_size(),
            positions,
            equalities,
            spec_id: file.spec_id(),
            format: number_of_format(file.format()),
            number,
            values: file.tuple().len(),
            file_sequence_number: number_or_none(file.file_sequence_number()),
        }
    }
}
