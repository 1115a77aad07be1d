//! What is said of data files, as it is read.

ghost use Rattle.std.specs.Prelude.{◌≡◌, ◌++◌, [], IfOk};
ghost use Rattle.contract_words.specs.Outcome.{Gives};
ghost use Rattle.avro_file_parts.specs.Exact.{IsRead};
ghost use Rattle.ice_state_sections.specs.Parts.{optional, behind, int, run};
ghost use Rattle.ice_state_sections.specs.Values.{content, format, path, cell, cells, ids};

use crate::parts::{int_of, long_of, number_of, run_of, text_of, truth_of};
use crate::section_fault::SectionFault;
use contract_words::Items;
use ice_value::{Cell, FileContent, FileFormat};
use std::alloc::{AllocError, Global};

#[tactic(auto, unfolding(crate::specs::Values::content))]
pub(crate) fn content_of(bytes: &[u8]) -> Result<(FileContent, &[u8]), SectionFault>
    ensures { IsRead (λ x. (x.0, x.1.now)) result (content bytes.now) }
{
    let (code, rest) = number_of(bytes)?;
    match code {
        0 => Ok((FileContent::Data, rest)),
        1 => Ok((FileContent::PositionDeletes, rest)),
        2 => Ok((FileContent::EqualityDeletes, rest)),
        _ => Err(SectionFault::NoSection),
    }
}

#[tactic(auto, unfolding(crate::specs::Values::format))]
pub(crate) fn format_of(bytes: &[u8]) -> Result<(Option<FileFormat>, &[u8]), SectionFault>
    ensures { IsRead (λ x. (x.0, x.1.now)) result (format bytes.now) }
{
    let (code, rest) = number_of(bytes)?;
    match code {
        0 => Ok((None, rest)),
        1 => Ok((Some(FileFormat::Avro), rest)),
        2 => Ok((Some(FileFormat::Orc), rest)),
        3 => Ok((Some(FileFormat::Parquet), rest)),
        _ => Err(SectionFault::NoSection),
    }
}

/// A path, the front and the back of which may be those of a path that is known.
#[tactic(auto, unfolding(crate::specs::Values::path))]
pub(crate) fn path_of<'a>(
    alloc: Global,
    known: &[u8],
    bytes: &'a [u8],
) -> Result<(Items<u8>, &'a [u8]), SectionFault>
    ensures { Gives SectionFault.Memory (λ x. (x.0, x.1.now)) result (path known.now bytes.now) }
{
    let (front_len, rest) = number_of(bytes)?;
    let (back_len, rest) = number_of(rest)?;
    let (own, rest) = run_of(rest)?;
    let len = known.len() as u64;
    if front_len > len || back_len > len {
        return Err(SectionFault::NoSection);
    }
    let (front, _) = known.split_at(front_len as usize);
    let (_, back) = known.split_at((len - back_len) as usize);
    Ok((joined(alloc, front, own, back)?, rest))
}

/// The runs, one behind the other.
fn joined(alloc: Global, front: &[u8], own: &[u8], back: &[u8]) -> Result<Items<u8>, AllocError>
    ensures { IfOk result (λ all. all ≡ front.now ++ own.now ++ back.now) }
{
    let mut all = Vec::with_capacity(alloc, front.len() + own.len())?;
    all.extend_from_slice(front)?;
    all.extend_from_slice(own)?;
    all.extend_from_slice(back)?;
    Ok(Items::from_vec(all))
}

/// Bytes in memory of their own.
fn bytes_of(alloc: Global, bytes: &[u8]) -> Result<(Items<u8>, &[u8]), SectionFault>
    ensures { Gives SectionFault.Memory (λ x. (x.0, x.1.now)) result (run bytes.now) }
{
    let (run, rest) = run_of(bytes)?;
    Ok((Items::from_vec(run.to_vec(alloc)?), rest))
}

#[tactic(auto, unfolding(crate::specs::Values::cell))]
fn cell_of(alloc: Global, bytes: &[u8]) -> Result<(Cell, &[u8]), SectionFault>
    ensures { Gives SectionFault.Memory (λ x. (x.0, x.1.now)) result (cell bytes.now) }
{
    let (code, rest) = number_of(bytes)?;
    match code {
        0 => Ok((Cell::Null, rest)),
        1 => Ok((Cell::Bool(false), rest)),
        2 => Ok((Cell::Bool(true), rest)),
        3 => {
            let (number, rest) = long_of(rest)?;
            Ok((Cell::Whole(number), rest))
        }
        4 => {
            let (text, rest) = text_of(alloc, rest)?;
            Ok((Cell::Text(text), rest))
        }
        5 => {
            let (bytes, rest) = bytes_of(alloc, rest)?;
            Ok((Cell::Bytes(bytes), rest))
        }
        _ => Err(SectionFault::NoSection),
    }
}

/// So many partition values.
pub(crate) fn cells_of(
    alloc: Global,
    count: usize,
    bytes: &[u8],
) -> Result<(Items<Cell>, &[u8]), SectionFault>
    ensures { Gives SectionFault.Memory (λ x. (x.0, x.1.now)) result (cells count bytes.now) }
{
    let mut cells = Items::new(alloc);
    let mut rest = bytes;
    'cells: for _ in 0..count {
        let (cell, after) = cell_of(alloc, rest)?;
        cells.push(cell)?;
        rest = after;
    }
    Ok((cells, rest))
}

/// So many column ids.
fn ids_of_count(
    alloc: Global,
    count: u64,
    bytes: &[u8],
) -> Result<(Items<i32>, &[u8]), SectionFault>
    ensures { Gives SectionFault.Memory (λ x. (x.0, x.1.now)) result (behind (λ _. int) count [] bytes.now) }
{
    let mut ids = Items::new(alloc);
    let mut rest = bytes;
    'ids: for _ in 0..count {
        let (id, after) = int_of(rest)?;
        ids.push(id)?;
        rest = after;
    }
    Ok((ids, rest))
}

/// How many column ids, and these.
#[tactic(auto, unfolding(crate::specs::Values::ids))]
pub(crate) fn ids_of(alloc: Global, bytes: &[u8]) -> Result<(Items<i32>, &[u8]), SectionFault>
    ensures { Gives SectionFault.Memory (λ x. (x.0, x.1.now)) result (ids bytes.now) }
{
    let (count, rest) = number_of(bytes)?;
    ids_of_count(alloc, count, rest)
}

/// The path of the file that the file of this path is about, where there is one.
pub(crate) fn referenced_of<'a>(
    alloc: Global,
    own: &[u8],
    bytes: &'a [u8],
) -> Result<(Option<Items<u8>>, &'a [u8]), SectionFault>
    ensures { Gives SectionFault.Memory (λ x. (x.0, x.1.now)) result (optional (path own.now) bytes.now) }
{
    let (is_there, rest) = truth_of(bytes)?;
    if !is_there {
        return Ok((None, rest));
    }
    let (referenced, rest) = path_of(alloc, own, rest)?;
    Ok((Some(referenced), rest))
}
