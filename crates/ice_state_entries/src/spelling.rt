//! What entries share, spelled as bytes.

use crate::common::LentCommon;
use crate::origin::Origin;
use contract_words::Text;
use ice_value::{Cell, FileContent, FileFormat};
use std::alloc::AllocError;

/// What can be spelled. Whoever finds one by its spelling has to compare it: that two have two spellings is true of
/// short ones only, and is promised of none.
pub(crate) trait Spell {
    /// Puts its spelling last.
    fn spell(&self, spelling: &mut Vec<u8>) -> Result<(), AllocError>;
}

impl<'a> Spell for LentCommon<'a> {
    fn spell(&self, spelling: &mut Vec<u8>) -> Result<(), AllocError> {
        spelling.extend_from_slice(&[
            code_of(self.content),
            code_of_format(self.format),
            self.unpartitioned as u8,
        ])?;
        spelling.extend_from_slice(&self.spec_id.to_le_bytes())?;
        spelling.extend_from_slice(&self.equality_ids.len().to_le_bytes())?;
        spell_ids(spelling, self.equality_ids)?;
        spell_tuple(spelling, self.tuple)
    }
}

impl Spell for Origin {
    fn spell(&self, spelling: &mut Vec<u8>) -> Result<(), AllocError> {
        spelling.extend_from_slice(&self.snapshot_id.to_le_bytes())?;
        spelling.extend_from_slice(&self.sequence_number.get().to_le_bytes())?;
        match self.file_sequence_number {
            Some(number) => spelling.extend_from_slice(&number.get().to_le_bytes()),
            None => Ok(()),
        }
    }
}

/// Puts a list of bytes last, behind its length.
fn spell_bytes(spelling: &mut Vec<u8>, bytes: &[u8]) -> Result<(), AllocError> {
    spelling.extend_from_slice(&bytes.len().to_le_bytes())?;
    spelling.extend_from_slice(bytes)
}

fn spell_cell(spelling: &mut Vec<u8>, cell: &Cell) -> Result<(), AllocError> {
    match cell {
        Cell::Null => spelling.extend_from_slice(&[0]),
        Cell::Bool(truth) => spelling.extend_from_slice(&[1, *truth as u8]),
        Cell::Whole(number) => {
            spelling.extend_from_slice(&[2])?;
            spelling.extend_from_slice(&number.to_le_bytes())
        }
        Cell::Text(text) => {
            spelling.extend_from_slice(&[3])?;
            spell_bytes(spelling, text.as_bytes())
        }
        Cell::Bytes(bytes) => {
            spelling.extend_from_slice(&[4])?;
            spell_bytes(spelling, bytes.as_slice())
        }
    }
}

fn code_of(content: FileContent) -> u8 {
    match content {
        FileContent::Data => 0,
        FileContent::PositionDeletes => 1,
        FileContent::EqualityDeletes => 2,
    }
}

fn code_of_format(format: Option<FileFormat>) -> u8 {
    match format {
        None => 0,
        Some(FileFormat::Avro) => 1,
        Some(FileFormat::Orc) => 2,
        Some(FileFormat::Parquet) => 3,
    }
}

fn spell_ids(spelling: &mut Vec<u8>, ids: &[i32]) -> Result<(), AllocError> {
    for id in ids {
        spelling.extend_from_slice(&id.to_le_bytes())?;
    }
    Ok(())
}

fn spell_tuple(spelling: &mut Vec<u8>, tuple: &[Cell]) -> Result<(), AllocError> {
    for cell in tuple {
        spell_cell(spelling, cell)?;
    }
    Ok(())
}
