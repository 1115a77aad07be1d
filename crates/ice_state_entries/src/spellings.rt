//! Numbers that are found by how something is spelled.

use crate::spelling::Spell;
use path_arena::Arena;
use std::alloc::{AllocError, Global};

/// The most bytes of a string in an arena. Longer spellings are cut.
const MOST_BYTES: usize = 65_535;

/// A number for each spelling. What they are the numbers of stands elsewhere, and has to be compared.
#[derive(Drop)]
pub(crate) struct Spellings {
    arena: Arena,
    /// The number of each spelling in the arena.
    numbers: Vec<u32>,
    /// The spelling that was looked for last.
    spelling: Vec<u8>,
}

impl Spellings {
    /// None yet.
    pub(crate) fn new(alloc: Global) -> Spellings {
        Spellings {
            arena: Arena::new(alloc),
            numbers: Vec::new(alloc),
            spelling: Vec::new(alloc),
        }
    }

    /// The number of its spelling, in the time that it takes to spell it, however many there are.
    pub(crate) fn find<S: Spell>(&mut self, wanted: &S) -> Result<Option<u32>, AllocError> {
        self.spelling.clear();
        wanted.spell(&mut self.spelling)?;
        self.spelling.truncate(MOST_BYTES);
        Ok(self.found())
    }

    /// The number of the spelling that was looked for last.
    fn found(&self) -> Option<u32> {
        let id = self.arena.find(self.spelling.as_slice())?;
        self.numbers.get(id.place() as usize).copied()
    }

    /// Gives a number to the spelling that was looked for last. Where it has another, that one stays.
    pub(crate) fn put(&mut self, number: u32) -> Result<(), AllocError> {
        self.numbers.reserve(1)?;
        let Ok(id) = self.arena.intern(self.spelling.as_slice()) else {
            return Err(AllocError);
        };
        if id.place() as usize == self.numbers.len() {
            self.numbers.push_reserved(number);
        }
        Ok(())
    }

    /// The same numbers of the same spellings.
    pub(crate) fn copy(&self, alloc: Global) -> Result<Spellings, AllocError> {
        Ok(Spellings {
            arena: self.arena.copy(alloc)?,
            numbers: self.numbers.as_slice().to_vec(alloc)?,
            spelling: Vec::new(alloc),
        })
    }
}
