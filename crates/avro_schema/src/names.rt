//! Full names, and the names that were met.

ghost use Rattle.std.specs.Prelude.{◌≡◌, Ok, option_map};
ghost use Rattle.avro_schema.specs.Names.{dotted, space_of, full, lookup, put};
ghost use Rattle.avro_schema.specs.Joined.{joined};
ghost use Rattle.contract_words.specs.Outcome.{Gives};
ghost use Rattle.avro_schema.specs.View.{tree};
ghost use Rattle.avro_schema.specs.Reading.{used, defined, named};
ghost use Rattle.avro_schema.specs.Met.{met, Reads};

use crate::attributes::plain_of;
use crate::fault::SchemaFault;
use crate::full_name::FullName;
use crate::repeat::{copy, is_higher, spend_below};
use crate::schema::Schema;
use std::alloc::Global;
use std::collections::BTreeMap;

/// What a walk carries along.
#[derive(Drop)]
pub struct Seen<'a> {
    /// Where trees and names are kept.
    pub alloc: Global,
    /// The full names that were met, each with its tree; without one while its definition is open.
    pub names: BTreeMap<FullName<'a>, Option<Schema>>,
    /// How many nodes may still come.
    pub left: u32,
}

/// A tree, and what the walk carries on.
pub type Read<'a> = Result<(Schema, Seen<'a>), SchemaFault>;

/// Whether a dot is in the name.
fn is_dotted(name: &[u8]) -> bool
    ensures { result ≡ dotted name.now }
{
    'bytes: for byte in name {
        if *byte == b'.' {
            return true;
        }
    }
    false
}

/// The text before the last dot.
pub fn space_in(name: &[u8]) -> &[u8]
    ensures { result.now ≡ space_of name.now }
{
    let mut end = name.len();
    'bytes: while end > 0 {
        end -= 1;
        if name[end] == b'.' {
            return &name[..end];
        }
    }
    &name[..0]
}

/// What a name in a namespace stands for.
#[tactic(auto, unfolding(crate::specs::Names::full))]
pub fn full_name<'a>(space: &'a [u8], name: &'a [u8]) -> FullName<'a>
    ensures { joined result ≡ full space.now name.now }
{
    if is_dotted(name) {
        FullName { space: &[], name }
    } else {
        FullName { space, name }
    }
}

/// The namespace of what a name in a namespace stands for.
#[tactic(auto, using(crate::proofs::Parts::space_around), unfolding(crate::specs::Names::full))]
pub fn inner_space<'a>(space: &'a [u8], name: &'a [u8]) -> &'a [u8]
    ensures { result.now ≡ space_of (full space.now name.now) }
{
    if is_dotted(name) {
        space_in(name)
    } else {
        space
    }
}

/// The tree of a name that was defined before.
fn used_at<'a>(name: FullName<'a>, most: u32, seen: Seen<'a>) -> Read<'a>
    ensures { Reads result (used most (lookup (joined name.entry) (met seen.entry).names) (met seen.entry)) }
{
    match seen.names.get(&name) {
        None => Err(SchemaFault::UnknownName),
        Some(None) => Err(SchemaFault::Recursive),
        Some(Some(schema)) => {
            let Some(left) = spend_below(schema, seen.left) else {
                return Err(SchemaFault::TooBig);
            };
            if is_higher(schema, most) {
                return Err(SchemaFault::TooBig);
            }
            let copied = copy(schema)?;
            Ok((
                copied,
                Seen {
                    alloc: seen.alloc,
                    names: seen.names,
                    left,
                },
            ))
        }
    }
}

/// The tree of the type that a text names.
#[tactic(auto, unfolding(crate::specs::Reading::named))]
pub fn named_at<'a>(text: &'a str, most: u32, space: &'a [u8], seen: Seen<'a>) -> Read<'a>
    ensures { Reads result (named most space.now text.now (met seen.entry)) }
{
    if let Some(schema) = plain_of(text) {
        return Ok((schema, seen));
    }
    used_at(full_name(space, text.as_bytes()), most, seen)
}

/// The names with this one, which may have been there.
pub fn set<'a>(
    name: FullName<'a>,
    schema: Option<Schema>,
    seen: Seen<'a>,
) -> Result<Seen<'a>, SchemaFault>
    ensures { Gives SchemaFault.Memory met result (Ok
        (record (met seen.entry) { names = put (joined name.entry) (option_map tree schema) (met seen.entry).names })) }
{
    let Seen {
        alloc,
        mut names,
        left,
    } = seen;
    drop(names.insert(name, schema)?);
    Ok(Seen { alloc, names, left })
}

/// The names with a new one.
#[tactic(auto, unfolding(crate::specs::Reading::defined))]
pub fn define<'a>(
    name: FullName<'a>,
    schema: Option<Schema>,
    seen: Seen<'a>,
) -> Result<Seen<'a>, SchemaFault>
    ensures { Gives SchemaFault.Memory met result
        (defined (joined name.entry) (option_map tree schema) (met seen.entry)) }
{
    let Seen {
        alloc,
        mut names,
        left,
    } = seen;
    match names.insert(name, schema)? {
        Some(_) => Err(SchemaFault::NameTwice),
        None => Ok(Seen { alloc, names, left }),
    }
}
