//! The places of the delete files of a plan's lines, in one list.

ghost use Rattle.std.specs.Prelude.{◌≡◌, ◌<◌, ◌≤◌, ◌^◌, ◌++◌, [], length, take, IfOk, OnOk, OnErr, Some, slice_get};
ghost use Rattle.std.specs.Prelude.{option_map, replicate, IsOk};
ghost use Rattle.ice_state.specs.PlaceLists.{end_of, no_places, places_at, AreRanked, GainsInOrder, GainsLine};

use std::alloc::{AllocError, Global};
use std::marker::Model;

/// Where the two parts of a line end.
#[derive(Clone, Copy, Debug)]
struct Ends {
    positions: u32,
    equalities: u32,
}

/// The places of the delete files that apply, for each line of a plan, in one list.
#[derive(Debug, Drop)]
pub(crate) struct PlaceTable {
    ends: Vec<Ends>,
    // Behind the last end may stand what a refused push left.
    places: Vec<u32>,
}

impl Model for PlaceTable {
    ghost use Rattle.std.specs.Prelude.{List, length};
    ghost use Rattle.ice_state.specs.PlaceLists.{LinePlaces, lines_from, RiseWithin};

    ghost Value = { List LinePlaces };

    ghost view = { λ t. lines_from 0 t.ends.items t.places.items };

    ghost invariant = { λ t. RiseWithin (length t.places.items) 0 t.ends.items };
}

impl PlaceTable {
    /// No lines.
    pub(crate) fn new(alloc: Global) -> Self
        ensures { result ≡ [] }
    {
        PlaceTable {
            ends: Vec::new(alloc),
            places: Vec::new(alloc),
        }
    }

    /// So many lines, none of which has places.
    pub(crate) fn without_places(alloc: Global, lines: usize) -> Result<Self, AllocError>
        ensures { IfOk result (λ table. table ≡ replicate lines no_places) }
    {
        let none = Ends {
            positions: 0,
            equalities: 0,
        };
        Ok(PlaceTable {
            ends: vec![in alloc; none; lines]?,
            places: Vec::new(alloc),
        })
    }

    /// How many lines there are.
    pub(crate) fn len(&self) -> usize
        ensures counted { result ≡ length self.now }
        ensures few { result < 2 ^ 63 }
    {
        self.ends.len()
    }

    /// The places of the position delete files of a line, the lower ones first.
    pub(crate) fn positions(&self, i: usize) -> &[u32]
        requires { i < length self.now }
        ensures { option_map (λ line. line.positions) (slice_get self.now i) ≡ Some result.now }
    {
        &self.places[start_of(&self.ends, i) as usize..self.ends[i].positions as usize]
    }

    /// The places of the equality delete files of a line, the lower ones first.
    pub(crate) fn equalities(&self, i: usize) -> &[u32]
        requires { i < length self.now }
        ensures { option_map (λ line. line.equalities) (slice_get self.now i) ≡ Some result.now }
    {
        let ends = self.ends[i];
        &self.places[ends.positions as usize..ends.equalities as usize]
    }

    /// Puts a line last: each of its parts has the places, by the ranks, of the numbers of two lists, in whatever order
    /// they come, the lower ones first. A line without places takes room for its ends alone. A refusal, for want of
    /// memory, leaves the lines as they were; so does one of more places than 4 bytes can number.
    pub(crate) fn push(
        &mut self,
        ranks: &[u32],
        positions: &[usize],
        other_positions: &[usize],
        equalities: &[usize],
        other_equalities: &[usize],
    ) -> Result<(), AllocError>
        requires positions { AreRanked ranks.now positions.now }
        requires other_positions { AreRanked ranks.now other_positions.now }
        requires equalities { AreRanked ranks.now equalities.now }
        requires other_equalities { AreRanked ranks.now other_equalities.now }
        ensures ok { OnOk result (GainsLine self.old self.new
            (places_at ranks.now positions.now ++ places_at ranks.now other_positions.now)
            (places_at ranks.now equalities.now ++ places_at ranks.now other_equalities.now)) }
        ensures err { OnErr result (self.new ≡ self.old) }
    {
        let start = start_of(&self.ends, self.ends.len());
        self.places.truncate(start as usize);
        let positions = append_in_order(&mut self.places, ranks, positions, other_positions)?;
        let equalities = append_in_order(&mut self.places, ranks, equalities, other_equalities)?;
        self.ends.push(Ends {
            positions,
            equalities,
        })?;
        Ok(())
    }

    /// The same lines.
    pub(crate) fn copy(&self, alloc: Global) -> Result<Self, AllocError>
        ensures { IfOk result (λ copied. copied ≡ self.now) }
    {
        Ok(PlaceTable {
            ends: self.ends.to_vec(alloc)?,
            places: self.places.to_vec(alloc)?,
        })
    }
}

/// Where a line starts: where the one before it ends.
fn start_of(ends: &[Ends], i: usize) -> u32
    requires { i ≤ length ends.now }
    ensures { result ≡ end_of 0 (take i ends.now) }
{
    if i == 0 { 0 } else { ends[i - 1].equalities }
}

/// Appends the places of the numbers of both lists, the lower ones first, and gives where they end. A refusal leaves
/// what stood there before, and maybe more behind it.
fn append_in_order(
    places: &mut Vec<u32>,
    ranks: &[u32],
    numbers: &[usize],
    others: &[usize],
) -> Result<u32, AllocError>
    requires numbers { AreRanked ranks.now numbers.now }
    requires others { AreRanked ranks.now others.now }
    ensures ok { OnOk result (GainsInOrder places.old.items places.new.items
        (places_at ranks.now numbers.now ++ places_at ranks.now others.now)) }
    ensures end { IfOk result (λ end. end ≡ length places.new.items) }
    ensures err { OnErr result (take (length places.old.items) places.new.items ≡ places.old.items) }
{
    let start = places.len();
    append(places, ranks, numbers)?;
    append(places, ranks, others)?;
    places[start..].sort_unstable();
    narrow(places.len())
}

/// Appends the places of the numbers. A refusal leaves what stood there before, and maybe more behind it.
fn append(places: &mut Vec<u32>, ranks: &[u32], numbers: &[usize]) -> Result<(), AllocError>
    requires { AreRanked ranks.now numbers.now }
    ensures ok { OnOk result (places.new.items ≡ places.old.items ++ places_at ranks.now numbers.now) }
    ensures err { OnErr result (take (length places.old.items) places.new.items ≡ places.old.items) }
{
    'numbers: for n in numbers {
        places.push(ranks[*n])?;
    }
    Ok(())
}

/// The number in 4 bytes. One that needs more counts as want of memory.
fn narrow(n: usize) -> Result<u32, AllocError>
    ensures same { IfOk result (λ m. m ≡ n) }
    ensures fits { n < 2 ^ 32 → IsOk result }
{
    u32::try_from(n).map_err(|_| AllocError)
}
