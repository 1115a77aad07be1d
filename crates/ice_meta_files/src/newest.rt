//! Which of a folder's metadata files is the newest.

ghost use Rattle.std.specs.Prelude.{◌≡◌, ◌+◌, ◌<◌, ◌≤◌, ◌^◌, IfOk, filter, map, option_map};
ghost use Rattle.std.specs.List.{list_any};
ghost use Rattle.contract_words.specs.Outcome.{Gives};
ghost use Rattle.ice_meta_files.specs.Newest.{climbed, has_number, highest, hinted, larger, newest};
ghost use Rattle.ice_meta_files.specs.Newest.{next_number, number_in};
ghost use Rattle.ice_meta_files.specs.MetadataNames.{metadata_name};
ghost use Rattle.ice_meta_files.specs.Newest.{IsByHint, IsHighestIf, is_compressed, only_name, readable};

use crate::names::metadata_name;
use crate::newest_fault::NewestFault;
use contract_words::Text;
use std::alloc::{AllocError, Global};

/// The number in the name of a metadata file.
fn number_in(name: &Text) -> Option<u32>
    ensures { result ≡ number_in name.now }
{
    match metadata_name(name.as_str()) {
        Some(found) => Some(found.number),
        None => None,
    }
}

/// Whether it is a metadata file of this number.
fn has_number(number: u64, name: &Text) -> bool
    ensures { result ≡ has_number number name.now }
{
    match number_in(name) {
        Some(found) => u64::from(found) == number,
        None => false,
    }
}

/// Whether there is a metadata file of this number.
fn any_has(names: &[Text], number: u64) -> bool
    ensures { result ≡ list_any (has_number number) names.now }
{
    'names: for name in names {
        if has_number(number, name) {
            return true;
        }
    }
    false
}

/// The larger of two numbers that may be there.
fn larger(first: Option<u32>, second: Option<u32>) -> Option<u32>
    ensures { result ≡ larger first second }
{
    match (first, second) {
        (None, second) => second,
        (Some(first), None) => Some(first),
        (Some(first), Some(second)) => {
            if first < second {
                Some(second)
            } else {
                Some(first)
            }
        }
    }
}

/// The highest number of a metadata file.
fn highest(names: &[Text]) -> Option<u32>
    ensures { result ≡ highest names.now }
{
    let mut best = None;
    'names: for name in names {
        best = larger(best, number_in(name));
    }
    best
}

/// The next number, where there is a metadata file of it.
fn next_number(names: &[Text], number: u64) -> u64
    requires { number + 1 < 2 ^ 64 }
    ensures next { result ≡ next_number names.now number }
    ensures step { result ≤ number + 1 }
{
    if any_has(names, number + 1) {
        number + 1
    } else {
        number
    }
}

/// The last of the numbers that follow one another from this one on.
fn climbed(names: &[Text], number: u32) -> u64
    ensures { result ≡ climbed names.now names.now number }
{
    let mut last = u64::from(number);
    'turns: for turn in names {
        last = next_number(names, last);
    }
    last
}

/// The number of the newest file, by what a hint says.
fn hinted(names: &[Text], hint: Option<u32>) -> Option<u64>
    ensures { result ≡ hinted names.now hint }
{
    if let Some(hint) = hint {
        if any_has(names, u64::from(hint)) {
            return Some(climbed(names, hint));
        }
    }
    match highest(names) {
        Some(number) => Some(u64::from(number)),
        None => None,
    }
}

/// The names of metadata files of a number.
fn all_of<'a>(alloc: Global, names: &'a [Text], number: u64) -> Result<Vec<&'a Text>, AllocError>
    ensures { IfOk result (λ found. map (λ x. x.now) found.items ≡ filter (has_number number) names.now) }
{
    let mut found = Vec::new(alloc);
    'names: for name in names {
        if has_number(number, name) {
            found.push(name)?;
        }
    }
    Ok(found)
}

/// Whether it is a metadata file whose bytes are compressed.
fn is_compressed(name: &Text) -> bool
    ensures { result ≡ is_compressed (metadata_name name.now) }
{
    match metadata_name(name.as_str()) {
        Some(found) => found.is_compressed,
        None => false,
    }
}

/// A name whose file can be read.
fn readable(alloc: Global, name: &Text) -> Result<Text, NewestFault>
    ensures { Gives NewestFault.Memory (λ name. name) result (readable name.now) }
{
    let copied = name.copy(alloc)?;
    if is_compressed(name) {
        Err(NewestFault::Compressed(copied))
    } else {
        Ok(copied)
    }
}

/// The one name of a number, where its file can be read.
fn only_name(alloc: Global, names: &[&Text]) -> Result<Text, NewestFault>
    ensures { Gives NewestFault.Memory (λ name. name) result (only_name (map (λ x. x.now) names.now)) }
{
    match names {
        [] => Err(NewestFault::NoMetadata),
        [name] => readable(alloc, *name),
        [name, other, ..] => Err(NewestFault::TwoOfOneNumber(
            name.copy(alloc)?,
            other.copy(alloc)?,
        )),
    }
}

/// The name of the newest metadata file among a folder's names, by what a hint says.
fn newest_name(alloc: Global, names: &[Text], hint: Option<u32>) -> Result<Text, NewestFault>
    ensures { Gives NewestFault.Memory (λ name. name) result (newest names.now hint) }
{
    match hinted(names, hint) {
        Some(number) => {
            let found = all_of(alloc, names, number)?;
            only_name(alloc, &found)
        }
        None => Err(NewestFault::NoMetadata),
    }
}

/// The name of the newest metadata file among a folder's names: without a hint it is the one with the highest number. A
/// hint is what a table in a folder of its own keeps in `version-hint.text`: a version that was there once. Where one
/// is still there, the newest is the last of those that follow it one by one.
pub fn newest_metadata(
    alloc: Global,
    names: &[Text],
    hint: Option<u32>,
) -> Result<Text, NewestFault>
    ensures gives { Gives NewestFault.Memory (λ name. name) result (newest names.now hint) }
    ensures highest { IfOk result (IsHighestIf names.now hint) }
    ensures by_hint { IfOk result (IsByHint names.now hint) }
{
    let name = newest_name(alloc, names, hint)?;
    Ok(name)
}
