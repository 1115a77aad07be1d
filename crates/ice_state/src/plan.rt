//! Plans: lent from a state, or owned.

ghost use Rattle.std.specs.Prelude.{◌≡◌};
ghost use Rattle.ice_state.specs.Lines.{lines_of, IsPlanned};

pub mod keep;
pub mod lines;
pub mod placed_files;
pub mod places;
pub mod shared_places;

use crate::kept::segments::{FileNumber, Segments};
use crate::plan::lines::{Files, Lines};
use crate::plan::shared_places::SharedPlaces;
use std::marker::Model;

/// A plan by the numbers of its entries: the data files, the delete files, and which of these apply to each of those.
#[derive(Debug, Drop)]
pub(crate) struct NumberedPlan {
    pub(crate) files: Vec<FileNumber>,
    pub(crate) deletes: Vec<FileNumber>,
    pub(crate) places: SharedPlaces,
}

impl NumberedPlan {
    /// Its lines, where these are the entries.
    fn lines<'a>(&'a self, entries: &'a Segments) -> Lines<'a>
        requires { IsPlanned entries.now self.now }
        ensures { result ≡ lines_of entries.now self.now }
    {
        Lines {
            files: Files {
                entries,
                numbers: &self.files,
            },
            deletes: Files {
                entries,
                numbers: &self.deletes,
            },
            places: &self.places,
        }
    }
}

/// The data files that a scan has to read, by path, each with the delete files that apply to it. It is lent from the
/// state that it was finished from.
#[derive(Debug, Drop)]
pub struct Plan<'a> {
    pub(crate) entries: &'a Segments,
    pub(crate) numbered: NumberedPlan,
}

impl<'a> Model for Plan<'a> {
    ghost use Rattle.std.specs.Prelude.{List};
    ghost use Rattle.ice_state.specs.Lines.{OwnedLine, lines_of, IsPlanned};

    ghost Value = { List OwnedLine };

    ghost view = { λ p. lines_of p.entries.now p.numbered };

    ghost invariant = { λ p. IsPlanned p.entries.now p.numbered };
}

impl<'a> Plan<'a> {
    /// Its lines.
    pub fn lines(&self) -> Lines<'_>
        ensures { result ≡ self.now }
    {
        self.numbered.lines(self.entries)
    }
}

/// A plan that owns its files, each once, in however many lines a delete file stands.
#[derive(Debug, Drop)]
pub struct OwnedPlan {
    pub(crate) entries: Segments,
    pub(crate) numbered: NumberedPlan,
}

impl Model for OwnedPlan {
    ghost use Rattle.std.specs.Prelude.{List};
    ghost use Rattle.ice_state.specs.Lines.{OwnedLine, lines_of, IsPlanned};

    ghost Value = { List OwnedLine };

    ghost view = { λ p. lines_of p.entries p.numbered };

    ghost invariant = { λ p. IsPlanned p.entries p.numbered };
}

impl OwnedPlan {
    /// Its lines.
    pub fn lines(&self) -> Lines<'_>
        ensures { result ≡ self.now }
    {
        self.numbered.lines(&self.entries)
    }
}
