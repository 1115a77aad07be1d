//! The files of a table that are handed in, one after the other, by who reads them.

ghost use Rattle.std.specs.Prelude.{◌≡◌, IfOk, option_map};
ghost use Rattle.icescan_c_requests.specs.Handed.{begins, next_of, none_of, took};

use contract_words::{Items, Text};
use ice_catalog_versions::World;
use std::alloc::{AllocError, Global};

/// The files of a table that are wanted, and those that were handed in.
#[derive(Drop)]
pub struct HandedFiles {
    /// The paths of the files that are wanted, in the order in which they are handed in.
    pub wanted: Items<Text>,
    /// How many were handed in.
    handed: usize,
    /// Those that were.
    pub kept: World,
}

impl HandedFiles {
    /// These files, of which none was handed in.
    pub fn new(alloc: Global, wanted: Items<Text>) -> HandedFiles
        ensures { result ≡ none_of wanted }
    {
        HandedFiles {
            wanted,
            handed: 0,
            kept: World::new(alloc),
        }
    }

    /// The path of the file that is to be handed in next; none where each was.
    pub fn next(&self) -> Option<&Text>
        ensures { option_map (λ path. path.now) result ≡ next_of self.now }
    {
        self.wanted.as_slice().get(self.handed)
    }

    /// Takes the next file, which has these bytes, and says whether it is the first. Nothing changes where each was
    /// handed in.
    pub fn take(&mut self, alloc: Global, bytes: &[u8]) -> Result<bool, AllocError>
        ensures { IfOk result (λ first. (first ≡ begins self.old) × (self.new ≡ took self.old bytes.now)) }
    {
        let Some(path) = self.wanted.as_slice().get(self.handed) else {
            return Ok(false);
        };
        let file = Vec::from_slice(alloc, bytes)?;
        self.kept.put(path.as_str(), file)?;
        self.handed += 1;
        Ok(self.handed == 1)
    }

    /// Those that were handed in.
    pub fn into_kept(self) -> World
        ensures { result ≡ self.kept }
    {
        let HandedFiles {
            wanted,
            handed: _,
            kept,
        } = self;
        drop(wanted);
        kept
    }
}
