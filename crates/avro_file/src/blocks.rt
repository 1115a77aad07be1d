//! The blocks of a file, and the objects in them.

ghost use Rattle.std.specs.Prelude.{◌≡◌, ◌≢◌, List, length, Ok};
ghost use Rattle.contract_words.specs.Outcome.{Gives};
ghost use Rattle.avro_file_parts.specs.Exact.{IsRead};
ghost use Rattle.avro_file_parts.specs.Parts.{behind};
ghost use Rattle.avro_schema.specs.Tree.{Tree};
ghost use Rattle.avro_schema.specs.View.{tree};
ghost use Rattle.avro_file.specs.Alike.{EndAlike};
ghost use Rattle.avro_file.specs.View.{view};
ghost use Rattle.avro_file.specs.Blocks.{inside, object_at, Enters, Steps};
ghost use Rattle.avro_file.specs.Where.{file_position_of};

use crate::datum::Datum;
use crate::decode::datum_of;
use crate::ends::end_of;
use crate::quick::value_end;
use avro_file_parts::{Place, Refusal, head_of, long_of, run_of_len};
use avro_schema::Schema;
use std::alloc::Global;

/// The most items that the arrays and maps of one object may have.
const MAX_ITEMS: u64 = 16_777_216;

/// Where a reader stands: so many objects are still in the block, then come its bytes, then other blocks.
#[derive(Clone, Copy, Debug)]
pub struct Spot<'a> {
    pub count: u64,
    pub block: &'a [u8],
    pub bytes: &'a [u8],
}

/// A refusal that is met in an object: it may not pass its block's end.
fn refused_inside(refusal: Refusal) -> Refusal
    ensures { result ≡ inside refusal }
{
    match refusal {
        Refusal::Short(_) => Refusal::BlockSize,
        other => other,
    }
}

/// An object at the front of what is left of its block.
#[tactic(auto, unfolding(crate::specs::Blocks::object_at))]
pub fn object_of<'a>(
    alloc: Global,
    schema: &Schema,
    block: &'a [u8],
) -> Result<(Datum<'a>, &'a [u8]), Refusal>
    ensures { Gives Refusal.Memory (λ x. (view x.0, x.1.now)) result (object_at (tree schema.now) block.now) }
{
    let place = Place {
        bytes: block,
        left: MAX_ITEMS,
    };
    match datum_of(alloc, schema, place) {
        Ok((datum, after)) => Ok((datum, after.bytes)),
        Err(refusal) => Err(refused_inside(refusal)),
    }
}

/// What follows the object at the front of what is left of its block, or its first fault.
fn read_object<'a>(schema: &Schema, block: &'a [u8]) -> Result<&'a [u8], Refusal>
    ensures { IsRead (λ rest. rest.now) result (behind (object_at (tree schema.now) block.now)) }
{
    let place = Place {
        bytes: block,
        left: MAX_ITEMS,
    };
    match end_of(schema, place) {
        Ok(after) => Ok(after.bytes),
        Err(refusal) => Err(refused_inside(refusal)),
    }
}

/// What follows the object at the front of what is left of its block. Mostly it is seen quickly.
fn behind_object<'a>(schema: &Schema, block: &'a [u8]) -> Result<&'a [u8], Refusal>
    ensures { IsRead (λ rest. rest.now) result (behind (object_at (tree schema.now) block.now)) }
{
    let mut left = MAX_ITEMS;
    match value_end(schema, block, 0, &mut left) {
        Some(end) => Ok(&block[end..]),
        None => read_object(schema, block),
    }
}

/// Goes over the blocks' ends and heads to the next object; none at the end of the file.
pub fn entered<'a>(sync: &[u8], start: Spot<'a>) -> Result<Option<Spot<'a>>, Refusal>
    ensures { Enters file_position_of sync.now (file_position_of start.entry) result }
{
    let mut here = start;
    'empty: while here.count == 0 {
        if !here.block.is_empty() {
            return Err(Refusal::BlockSize);
        }
        if here.bytes.is_empty() {
            return Ok(None);
        }
        let head = head_of(sync, here.bytes)?;
        here = Spot {
            count: head.count,
            block: head.content,
            bytes: head.rest,
        };
    }
    Ok(Some(here))
}

/// The bytes at whose front the next object is, which is checked whole, and where the reader stands behind it;
/// none at the end of the file. Any schema serves whose values end where the objects do.
pub fn step<'a>(
    passing: &Schema,
    sync: &[u8],
    start: Spot<'a>,
) -> Result<Option<(&'a [u8], Spot<'a>)>, Refusal>
    ensures { (s : Tree) → EndAlike (tree passing.now) s → Steps (λ x. (x.0.now, file_position_of x.1)) s sync.now
        (file_position_of start.entry) result }
{
    let Some(here) = entered(sync, start)? else {
        return Ok(None);
    };
    let rest = behind_object(passing, here.block)?;
    let after = Spot {
        count: here.count - 1,
        block: rest,
        bytes: here.bytes,
    };
    Ok(Some((here.block, after)))
}
