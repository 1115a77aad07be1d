//! The places of the delete files of a plan's lines, where those that lines share stand once.

ghost use Rattle.std.specs.Prelude.{◌≡◌, ◌<◌, ◌^◌, ◌++◌, [], length, IfOk, OnOk, OnErr, Some, slice_get};
ghost use Rattle.std.specs.Prelude.{option_map, replicate};
ghost use Rattle.ice_state.specs.PlaceLists.{no_places, places_at, AreRanked, GainsLine};
ghost use Rattle.ice_state.specs.SharedPlaces.{line_in};

use crate::plan::places::PlaceTable;
use std::alloc::{AllocError, Global};
use std::marker::Model;

/// The places of the delete files that apply, for each line of a plan. Lines that have the same share them.
#[derive(Debug, Drop)]
pub(crate) struct SharedPlaces {
    /// Of each line, which of the lists it has.
    lines: Vec<u32>,
    lists: PlaceTable,
}

impl Model for SharedPlaces {
    ghost use Rattle.std.specs.Prelude.{List};
    ghost use Rattle.ice_state.specs.PlaceLists.{LinePlaces};
    ghost use Rattle.ice_state.specs.SharedPlaces.{lines_in, AreIn};

    ghost Value = { List LinePlaces };

    ghost view = { λ s. lines_in s.lists s.lines.items };

    ghost invariant = { λ s. AreIn s.lists s.lines.items };
}

impl SharedPlaces {
    /// No lines, with room for so many: one of them that shares its places takes no more memory.
    pub(crate) fn with_capacity(alloc: Global, lines: usize) -> Result<Self, AllocError>
        ensures { IfOk result (λ shared. shared ≡ []) }
    {
        Ok(SharedPlaces {
            lines: Vec::with_capacity(alloc, lines)?,
            lists: PlaceTable::new(alloc),
        })
    }

    /// So many lines, none of which has places.
    pub(crate) fn without_places(alloc: Global, lines: usize) -> Result<Self, AllocError>
        ensures { IfOk result (λ shared. shared ≡ replicate lines no_places) }
    {
        Ok(SharedPlaces {
            lines: vec![in alloc; 0; lines]?,
            lists: PlaceTable::without_places(alloc, 1)?,
        })
    }

    /// How many lines there are.
    pub(crate) fn len(&self) -> usize
        ensures counted { result ≡ length self.now }
        ensures few { result < 2 ^ 63 }
    {
        self.lines.len()
    }

    /// The places of the position delete files of a line, the lower ones first.
    pub(crate) fn positions(&self, i: usize) -> &[u32]
        requires { i < length self.now }
        ensures { option_map (λ line. line.positions) (slice_get self.now i) ≡ Some result.now }
    {
        self.lists.positions(self.lines[i] as usize)
    }

    /// The places of the equality delete files of a line, the lower ones first.
    pub(crate) fn equalities(&self, i: usize) -> &[u32]
        requires { i < length self.now }
        ensures { option_map (λ line. line.equalities) (slice_get self.now i) ≡ Some result.now }
    {
        self.lists.equalities(self.lines[i] as usize)
    }

    /// Puts a line last: each of its parts has the places, by the ranks, of the numbers of two lists, in whatever order
    /// they come, the lower ones first. A refusal, for want of memory, leaves the lines as they were; so does one of
    /// more lists or places than 4 bytes can number.
    pub(crate) fn push(
        &mut self,
        ranks: &[u32],
        positions: &[usize],
        other_positions: &[usize],
        equalities: &[usize],
        other_equalities: &[usize],
    ) -> Result<(), AllocError>
        requires positions { AreRanked ranks.now positions.now }
        requires other_positions { AreRanked ranks.now other_positions.now }
        requires equalities { AreRanked ranks.now equalities.now }
        requires other_equalities { AreRanked ranks.now other_equalities.now }
        ensures ok { OnOk result (GainsLine self.old self.new
            (places_at ranks.now positions.now ++ places_at ranks.now other_positions.now)
            (places_at ranks.now equalities.now ++ places_at ranks.now other_equalities.now)) }
        ensures err { OnErr result (self.new ≡ self.old) }
    {
        let Ok(list) = u32::try_from(self.lists.len()) else {
            return Err(AllocError);
        };
        self.lists.push(
            ranks,
            positions,
            other_positions,
            equalities,
            other_equalities,
        )?;
        self.lines.push(list)?;
        Ok(())
    }

    /// Puts so many lines last that have the places of the line `i`. A refusal, for want of memory, leaves the lines as
    /// they were.
    pub(crate) fn push_again(&mut self, i: usize, many: usize) -> Result<(), AllocError>
        requires { i < length self.old }
        ensures ok { OnOk result (self.new ≡ self.old ++ replicate many (line_in self.old i)) }
        ensures err { OnErr result (self.new ≡ self.old) }
    {
        let list = self.lines[i];
        let Some(lines) = self.lines.len().checked_add(many) else {
            return Err(AllocError);
        };
        self.lines.resize(lines, list)?;
        Ok(())
    }

    /// The same lines.
    pub(crate) fn copy(&self, alloc: Global) -> Result<Self, AllocError>
        ensures { IfOk result (λ copied. copied ≡ self.now) }
    {
        Ok(SharedPlaces {
            lines: self.lines.to_vec(alloc)?,
            lists: self.lists.copy(alloc)?,
        })
    }
}
