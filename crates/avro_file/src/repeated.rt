//! Arrays of values that take no bytes: all that a file says of their items is how many there are.

ghost use Rattle.std.specs.Prelude.{◌≡◌, suc, length, replicate};
ghost use Rattle.avro_schema.specs.Tree.{null};
ghost use Rattle.avro_file_parts.specs.Exact.{IsRead};
ghost use Rattle.avro_file_parts.specs.Place.{position_of};
ghost use Rattle.avro_file.specs.Value.{nothing};
ghost use Rattle.avro_file.specs.Reading.{blocks_at, datum_at};

use avro_file_parts::{Place, Refusal, count_of};

/// How many nulls the blocks of an array hold, up to the one that is empty. Other values that take no bytes are counted
/// as nulls are.
pub fn nulls_of<'a>(place: Place<'a>) -> Result<(u64, Place<'a>), Refusal>
    ensures { IsRead (λ x. (replicate x.0 nothing, position_of x.1)) result
        (blocks_at (datum_at null) (suc (length (position_of place.entry).bytes)) (position_of place.entry)) }
{
    let mut total = 0;
    let mut here = place;
    'each_block: loop {
        let (count, after) = count_of(here)?;
        if count == 0 {
            return Ok((total, after));
        }
        total += count;
        here = after;
    }
}
