//! Paths, each once, by its number.

ghost use Rattle.std.specs.Prelude.{◌≡◌, ◌≢◌, ◌<◌, ◌≤◌, ◌^◌, ◌++◌, ◌∷◌, [], length, IfOk, OnErr};
ghost use Rattle.path_arena.specs.Arena.{string, Distinct, KeepsNumbers};

use path_arena::{Arena, PathId};
use std::alloc::{AllocError, Global};
use std::marker::Model;

/// Distinct paths of at most 65,535 bytes, in the order in which they came.
#[derive(Drop)]
pub(crate) struct Paths {
    arena: Arena,
}

impl Model for Paths {
    ghost use Rattle.std.specs.Prelude.{List, ℕ};
    ghost use Rattle.ice_state_entries.specs.Short.{AreShort};

    ghost Value = { List (List ℕ) };

    ghost view = { λ p. p.arena.strings };

    ghost invariant = { λ p. AreShort p.arena.strings };
}

impl Paths {
    /// None yet.
    pub(crate) fn new(alloc: Global) -> Paths
        ensures { result ≡ [] }
    {
        Paths {
            arena: Arena::new(alloc),
        }
    }

    /// How many there are.
    pub(crate) fn len(&self) -> usize
        ensures few { result < 2 ^ 32 }
        ensures count { result ≡ length self.now }
        ensures distinct { Distinct self.now }
    {
        self.arena.len()
    }

    /// The path with a number.
    pub(crate) fn get(&self, id: PathId) -> &[u8]
        requires { id < length self.now }
        ensures same { result.now ≡ string self.now id }
        ensures short { length result.now ≤ 65535 }
    {
        self.arena.get(id)
    }

    /// Makes room for so many more paths of so many bytes in all.
    pub(crate) fn reserve(&mut self, paths: usize, bytes: usize) -> Result<(), AllocError>
        ensures { self.new ≡ self.old }
    {
        self.arena.reserve(paths, bytes).map_err(|_| AllocError)
    }

    /// The number of a path, which is put last if it is new. There being as many as can be numbered counts as want of
    /// memory.
    pub(crate) fn intern(&mut self, path: &[u8]) -> Result<PathId, AllocError>
        requires { length path.now ≤ 65535 }
        ensures id { IfOk result (λ id. (id < length self.new) × (string self.new id ≡ path.now)) }
        ensures new { IfOk result (λ id. id ≡ length self.old → self.new ≡ self.old ++ path.now ∷ []) }
        ensures known { IfOk result (λ id. id ≢ length self.old → self.new ≡ self.old) }
        ensures keeps { KeepsNumbers self.old self.new }
        ensures err { OnErr result (self.new ≡ self.old) }
    {
        let Ok(id) = self.arena.intern(path) else {
            return Err(AllocError);
        };
        Ok(id)
    }

    /// The same by the same numbers.
    pub(crate) fn copy(&self, alloc: Global) -> Result<Paths, AllocError>
        ensures { IfOk result (λ copied. copied ≡ self.now) }
    {
        Ok(Paths {
            arena: self.arena.copy(alloc)?,
        })
    }
}
