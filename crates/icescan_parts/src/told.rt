//! What the line of a file tells, and lines in a form.

ghost use Rattle.std.specs.Prelude.{◌≡◌, ◌++◌, IfOk, OnOk, unwrap_or};
ghost use Rattle.icescan_forms.specs.Objects.{object_line};
ghost use Rattle.icescan_parts.specs.Told.{file_members, file_object, file_objects, front_of, lines_in, path_told};
ghost use Rattle.icescan_parts.specs.Told.{word_told};
ghost use Rattle.icescan_print.specs.Escaping.{unescaped};

use crate::apart::path_of;
use contract_words::Items;
use icescan_forms::{Format, ObjectLines, Value};
use icescan_print::unescape;
use icescan_reachable::text_of;
use std::alloc::{AllocError, Global};

/// A text without its last byte.
fn front_of(text: &[u8]) -> &[u8]
    ensures { result.now ≡ front_of text.now }
{
    match text {
        [front @ .., _] => front,
        [] => text,
    }
}

/// The bytes that an escaped text stands for, or itself where it stands for none.
fn read_back(alloc: Global, text: &[u8]) -> Result<Items<u8>, AllocError>
    ensures { IfOk result (λ bytes. bytes ≡ unwrap_or (unescaped text.now) text.now) }
{
    match unescape(alloc, text)? {
        Some(bytes) => Ok(Items::from_vec(bytes)),
        None => Ok(Items::from_vec(Vec::from_slice(alloc, text)?)),
    }
}

/// The path that a line tells.
pub fn path_told(alloc: Global, line: &[u8]) -> Result<Items<u8>, AllocError>
    ensures { IfOk result (λ path. path ≡ path_told line.now) }
{
    read_back(alloc, front_of(path_of(line)))
}

/// The word for what the file is that a line tells of.
fn word_told(alloc: Global, line: &[u8]) -> Result<Vec<u8>, AllocError>
    ensures { IfOk result (λ word. word.items ≡ word_told line.now) }
{
    let mut word = Vec::new(alloc);
    let mut left = line;
    'left: while let [first, rest @ ..] = left {
        if *first == b' ' {
            return Ok(word);
        }
        word.push(*first)?;
        left = rest;
    }
    Ok(word)
}

/// Puts the object of a file last.
fn push_members<'a>(
    objects: &mut ObjectLines,
    word: &'a [u8],
    path: &'a [u8],
) -> Result<(), AllocError>
    ensures { OnOk result (objects.new ≡ objects.old ++ object_line (file_members word.now path.now)) }
{
    objects.push(&[("kind", Value::Text(word)), ("path", Value::Text(path))])
}

/// Puts last the object of the file that a line tells of.
#[tactic(auto, unfolding(crate::specs::Told::file_object))]
fn push_object(objects: &mut ObjectLines, alloc: Global, line: &[u8]) -> Result<(), AllocError>
    ensures { OnOk result (objects.new ≡ objects.old ++ file_object line.now) }
{
    let word = word_told(alloc, line)?;
    let path = path_told(alloc, line)?;
    push_members(objects, &word, path.as_slice())
}

/// The objects of the files that lines tell of.
fn file_objects(alloc: Global, lines: &[Items<u8>]) -> Result<Vec<u8>, AllocError>
    ensures { IfOk result (λ text. text.items ≡ file_objects lines.now) }
{
    let mut objects = ObjectLines::new(alloc)?;
    'lines: for line in lines {
        push_object(&mut objects, alloc, line.as_slice())?;
    }
    objects.into_text()
}

/// Lines in a form.
pub fn lines_in(alloc: Global, format: Format, lines: &[Items<u8>]) -> Result<Vec<u8>, AllocError>
    ensures { IfOk result (λ text. text.items ≡ lines_in format lines.now) }
{
    match format {
        Format::Text => text_of(alloc, lines),
        Format::Json => file_objects(alloc, lines),
    }
}
