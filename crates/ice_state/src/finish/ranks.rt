//! Places, and where they stand in an order.

ghost use Rattle.std.specs.Prelude.{◌≡◌, ◌≢◌, ◌<◌, length, All, AllPairs, IfOk};
ghost use Rattle.std.specs.List.{range_with_len};
ghost use Rattle.ice_state.specs.PlaceLists.{AreRanks};

use std::alloc::{AllocError, Global};

/// So many places from a first one on. More than 4 bytes can number count as want of memory.
pub fn places_from(alloc: Global, first: usize, many: usize) -> Result<Vec<u32>, AllocError>
    ensures { IfOk result (λ places. places.items ≡ range_with_len first many) }
{
    let mut places = Vec::with_capacity(alloc, many)?;
    'places: for i in 0..many {
        let Ok(place) = u32::try_from(first.saturating_add(i)) else {
            return Err(AllocError);
        };
        places.push(place)?;
    }
    Ok(places)
}

/// Where each place stands in an order of all places.
pub fn ranks(alloc: Global, order: &[u32]) -> Result<Vec<u32>, AllocError>
    requires below { All (λ n. n < length order.now) order.now }
    requires once { AllPairs (λ m n. m ≢ n) order.now }
    ensures { IfOk result (λ ranks. AreRanks order.now ranks.items) }
{
    let Ok(end) = u32::try_from(order.len()) else {
        return Err(AllocError);
    };
    let mut ranks = vec![in alloc; 0; order.len()]?;
    for rank in 0..end {
        ranks[order[rank as usize] as usize] = rank;
    }
    Ok(ranks)
}
