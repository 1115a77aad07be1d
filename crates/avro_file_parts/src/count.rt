//! Counts of items.

ghost use Rattle.avro_file_parts.specs.Exact.{IsRead};
ghost use Rattle.avro_file_parts.specs.Parts.{count_at};
ghost use Rattle.avro_file_parts.specs.Place.{position_of};

use crate::number::long_of;
use crate::place::Place;
use crate::refusal::Refusal;

/// The count of a block's items.
#[tactic(auto, unfolding(crate::specs::Parts::count_at))]
pub fn count_of(place: Place<'_>) -> Result<(u64, Place<'_>), Refusal>
    ensures { IsRead (λ x. (x.0, position_of x.1)) result (count_at (position_of place.entry)) }
{
    let (count, rest) = long_of(place.bytes)?;
    let items = count.unsigned_abs();
    if items > place.left {
        return Err(Refusal::TooManyItems);
    }
    let left = place.left - items;
    if count >= 0 {
        return Ok((items, Place { bytes: rest, left }));
    }
    let (_, rest) = long_of(rest)?;
    Ok((items, Place { bytes: rest, left }))
}
