//! The files of a plan, each once.

ghost use Rattle.std.specs.Prelude.{◌≡◌, ◌<◌, ◌^◌, length, option_map, slice_get, Some};
ghost use Rattle.ice_state.specs.PlacedFiles.{plan_of, ArePlaced};

use crate::plan::lines::{Files, Lines, PlanFile};
use crate::plan::shared_places::SharedPlaces;
use std::marker::Model;

/// The files of a plan, each once and by path: its data files and its delete files, and for each data file the places,
/// among these, of those that apply to it. There may be delete files that apply to none.
#[derive(Debug, Drop)]
pub struct PlacedFiles<'a> {
    files: Files<'a>,
    deletes: Files<'a>,
    places: &'a SharedPlaces,
}

impl<'a> Model for PlacedFiles<'a> {
    ghost use Rattle.ice_state.specs.Lines.{entries_of, AreFiles, AreLinesOf};
    ghost use Rattle.ice_state.specs.PlacedFiles.{PlanPlaces};

    ghost Value = { PlanPlaces };

    ghost view = { λ p. record {
      files = entries_of p.files;
      deletes = entries_of p.deletes;
      places = p.places.now;
    } };

    ghost invariant = { λ p. record {
      files : AreFiles p.files;
      deletes : AreFiles p.deletes;
      lines : AreLinesOf (entries_of p.files) (entries_of p.deletes) p.places.now;
    } };
}

impl<'a> Lines<'a> {
    /// The files of the plan, each once.
    pub fn placed_files(&self) -> PlacedFiles<'a>
        ensures same { plan_of result ≡ self.now }
        ensures placed { ArePlaced result }
    {
        PlacedFiles {
            files: self.files,
            deletes: self.deletes,
            places: self.places,
        }
    }
}

impl<'a> PlacedFiles<'a> {
    /// How many data files there are.
    pub fn count_files(&self) -> usize
        ensures counted { result ≡ length self.now.files }
        ensures few { result < 2 ^ 63 }
    {
        self.places.len()
    }

    /// The data file at a place.
    pub fn file(&self, i: usize) -> PlanFile<'a>
        requires { i < length self.now.files }
        ensures { slice_get self.now.files i ≡ Some result }
    {
        PlanFile {
            entry: self.files.entry(i),
        }
    }

    /// How many delete files there are.
    pub fn count_deletes(&self) -> usize
        ensures counted { result ≡ length self.now.deletes }
        ensures few { result < 2 ^ 63 }
    {
        self.deletes.numbers.len()
    }

    /// The delete file at a place.
    pub fn delete(&self, i: usize) -> PlanFile<'a>
        requires { i < length self.now.deletes }
        ensures { slice_get self.now.deletes i ≡ Some result }
    {
        PlanFile {
            entry: self.deletes.entry(i),
        }
    }

    /// The places of the position delete files that apply to the data file at a place, the lower ones first.
    pub fn positions(&self, i: usize) -> &[u32]
        requires { i < length self.now.files }
        ensures { option_map (λ line. line.positions) (slice_get self.now.places i) ≡ Some result.now }
    {
        self.places.positions(i)
    }

    /// The places of the equality delete files that apply to the data file at a place, the lower ones first.
    pub fn equalities(&self, i: usize) -> &[u32]
        requires { i < length self.now.files }
        ensures { option_map (λ line. line.equalities) (slice_get self.now.places i) ≡ Some result.now }
    {
        self.places.equalities(i)
    }
}
