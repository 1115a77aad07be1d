//! What is said of data files, put last.

ghost use Rattle.std.specs.Prelude.{◌≡◌, ◌≤◌, ◌-◌, ℕ, List, [], length, take, drop, Ok, IfOk};
ghost use Rattle.std.specs.Option.{option_copied};
ghost use Rattle.ice_state_sections.specs.Parts.{optional, behind, int};
ghost use Rattle.ice_state_sections.specs.Values.{content, content_of, format, format_of, path as path_said};
ghost use Rattle.ice_state_sections.specs.Values.{cell as cell_said, cell_of, cells as cells_said, ids as ids_said};
ghost use Rattle.ice_state_sections.specs.Written.{Adds};

use crate::adding::{add_int, add_long, add_number, add_run, add_text, add_truth};
use ice_value::{Cell, FileContent, FileFormat};
use std::alloc::AllocError;

fn content_code(holds: FileContent) -> u64
    ensures { (rest : List ℕ) → content_of result rest ≡ Ok (holds, rest) }
{
    match holds {
        FileContent::Data => 0,
        FileContent::PositionDeletes => 1,
        FileContent::EqualityDeletes => 2,
    }
}

pub(crate) fn add_content(bytes: Vec<u8>, holds: FileContent) -> Result<Vec<u8>, AllocError>
    ensures { IfOk result (λ all. Adds content holds bytes.items all.items) }
{
    let code = content_code(holds);
    Ok(add_number(bytes, code)?)
}

fn format_code(named: Option<FileFormat>) -> u64
    ensures { (rest : List ℕ) → format_of result rest ≡ Ok (named, rest) }
{
    match named {
        None => 0,
        Some(FileFormat::Avro) => 1,
        Some(FileFormat::Orc) => 2,
        Some(FileFormat::Parquet) => 3,
    }
}

pub(crate) fn add_format(bytes: Vec<u8>, named: Option<FileFormat>) -> Result<Vec<u8>, AllocError>
    ensures { IfOk result (λ all. Adds format named bytes.items all.items) }
{
    let code = format_code(named);
    Ok(add_number(bytes, code)?)
}

/// How many bytes both begin with.
fn shared_front(known: &[u8], path: &[u8]) -> usize
    ensures known { result ≤ length known.now }
    ensures path { result ≤ length path.now }
    ensures same { take result known.now ≡ take result path.now }
{
    let end = known.len().min(path.len());
    'bytes: for index in 0..end {
        if known[index] != path[index] {
            return index;
        }
    }
    end
}

/// How many bytes both end in.
fn shared_back(known: &[u8], path: &[u8]) -> usize
    ensures known { result ≤ length known.now }
    ensures path { result ≤ length path.now }
    ensures same { drop (length known.now - result) known.now ≡ drop (length path.now - result) path.now }
{
    let end = known.len().min(path.len());
    'bytes: for index in 0..end {
        if known[known.len() - 1 - index] != path[path.len() - 1 - index] {
            return index;
        }
    }
    end
}

/// Puts a path last: how many bytes it begins and ends in as a path that is known does, and the bytes between.
pub(crate) fn add_path(bytes: Vec<u8>, known: &[u8], path: &[u8]) -> Result<Vec<u8>, AllocError>
    ensures { IfOk result (λ all. Adds (path_said known.now) path.now bytes.items all.items) }
{
    let front = shared_front(known, path);
    let (_, known_rest) = known.split_at(front);
    let (_, path_rest) = path.split_at(front);
    let back = shared_back(known_rest, path_rest);
    let (own, _) = path_rest.split_at(path_rest.len() - back);
    let bytes = add_number(bytes, front as u64)?;
    let bytes = add_number(bytes, back as u64)?;
    Ok(add_run(bytes, own)?)
}

/// Puts the path of the file that the file of this path is about, where there is one.
pub(crate) fn add_referenced(
    bytes: Vec<u8>,
    own: &[u8],
    referenced: Option<&[u8]>,
) -> Result<Vec<u8>, AllocError>
    ensures { IfOk result (λ all.
        Adds (optional (path_said own.now)) (option_copied referenced.entry) bytes.items all.items) }
{
    match referenced {
        None => Ok(add_truth(bytes, false)?),
        Some(path) => {
            let bytes = add_truth(bytes, true)?;
            Ok(add_path(bytes, own, path)?)
        }
    }
}

fn flag_code(truth: bool) -> u64
    ensures { (rest : List ℕ) → cell_of result rest ≡ Ok (Cell.Bool truth, rest) }
{
    if truth { 2 } else { 1 }
}

/// Puts a partition value last.
fn add_cell(bytes: Vec<u8>, cell: &Cell) -> Result<Vec<u8>, AllocError>
    ensures { IfOk result (λ all. Adds cell_said cell.now bytes.items all.items) }
{
    match cell {
        Cell::Null => Ok(add_number(bytes, 0)?),
        Cell::Bool(truth) => {
            let code = flag_code(*truth);
            Ok(add_number(bytes, code)?)
        }
        Cell::Whole(number) => {
            let bytes = add_number(bytes, 3)?;
            Ok(add_long(bytes, *number)?)
        }
        Cell::Text(text) => {
            let bytes = add_number(bytes, 4)?;
            Ok(add_text(bytes, text)?)
        }
        Cell::Bytes(run) => {
            let bytes = add_number(bytes, 5)?;
            Ok(add_run(bytes, run.as_slice())?)
        }
    }
}

/// Puts partition values last. Their number is not written.
pub(crate) fn add_cells(bytes: Vec<u8>, cells: &[Cell]) -> Result<Vec<u8>, AllocError>
    ensures { IfOk result (λ all. Adds (cells_said (length cells.now)) cells.now bytes.items all.items) }
{
    let mut bytes = bytes;
    'cells: for cell in cells {
        bytes = add_cell(bytes, cell)?;
    }
    Ok(bytes)
}

fn add_each_id(bytes: Vec<u8>, ids: &[i32]) -> Result<Vec<u8>, AllocError>
    ensures { IfOk result (λ all. Adds (behind (λ _. int) (length ids.now) []) ids.now bytes.items all.items) }
{
    let mut bytes = bytes;
    'ids: for id in ids {
        bytes = add_int(bytes, *id)?;
    }
    Ok(bytes)
}

/// Puts column ids last, and before them how many there are.
pub(crate) fn add_ids(bytes: Vec<u8>, ids: &[i32]) -> Result<Vec<u8>, AllocError>
    ensures { IfOk result (λ all. Adds ids_said ids.now bytes.items all.items) }
{
    let bytes = add_number(bytes, ids.len() as u64)?;
    Ok(add_each_id(bytes, ids)?)
}
