//! Files in memory, by their paths.

ghost use Rattle.std.specs.Prelude.{◌≡◌, ◌↔◌, IfOk, IsTrue, OnOk, OnErr};
ghost use Rattle.std.specs.FinMap as map;
ghost use Rattle.std.specs.Option.{option_map};

use contract_words::Items;
use ice_desk::{Files, ReadFault};
use std::alloc::{AllocError, Global};
use std::collections::BTreeMap;
use std::marker::Model;
use std::sync::Arc;

/// Files by their paths. Contracts see a finite map from the bytes of a path to the bytes of its file.
#[derive(Drop)]
pub struct World {
    files: BTreeMap<String, Arc<Items<u8>>>,
    alloc: Global,
}

impl Model for World {
    ghost use Rattle.std.specs.Prelude.{List, ℕ, T};
    ghost use Rattle.std.specs.Coded.{coded_list, coded_ℕ};
    ghost use Rattle.std.specs.Cmp.Lexicographic.{slice_cmp};
    ghost use Rattle.std.specs.Ordering.{nat_cmp};
    ghost use Rattle.std.specs.FinMap as map;
    ghost use Rattle.std.specs.Arc.{arc_value};
    ghost use Rattle.ice_catalog_versions.specs.Pairs.{pairs};

    ghost Value = { map.FinMap (slice_cmp nat_cmp) (List ℕ) };

    ghost coded = { map.code (coded_list coded_ℕ) (coded_list coded_ℕ) };

    ghost view = { λ w. map.from_sorted (pairs (λ a. arc_value a) w.files.entries) };

    ghost invariant = { λ w. T (map.is_sorted (slice_cmp nat_cmp) (pairs (λ a. arc_value a) w.files.entries)) };
}

/// The files can be read, and a read fails when out of memory alone.
impl Files for World {
    ghost use Rattle.std.specs.Prelude.{◌≡◌, Some};
    ghost use Rattle.std.specs.FinMap as map;

    ghost world = { λ w. Some (λ path. map.get w path) };

    ghost gives = { λ w path found. map.get w path ≡ found };

    ghost may_fail = { λ w path. ⊥ };

    fn read(&self, alloc: Global, path: &str) -> Result<Vec<u8>, ReadFault> {
        match self.get(path) {
            Some(bytes) => bytes.to_vec(alloc).map_err(|_| ReadFault::Memory),
            None => Err(ReadFault::Absent),
        }
    }
}

impl World {
    /// No files.
    pub fn new(alloc: Global) -> Self
        ensures { result ≡ map.empty }
    {
        World {
            files: BTreeMap::new(alloc),
            alloc,
        }
    }

    /// Gives a path these bytes, whatever it had before. A refusal, out of memory, leaves the files as they were.
    pub fn put(&mut self, path: &str, bytes: Vec<u8>) -> Result<(), AllocError>
        ensures ok { OnOk result (self.new ≡ map.insert self.old path.now bytes.items) }
        ensures err { OnErr result (self.new ≡ self.old) }
    {
        let key = String::from_str(self.alloc, path)?;
        let value = Arc::new(self.alloc, Items::from_vec(bytes))?;
        self.files.insert(key, value)?;
        Ok(())
    }

    /// The bytes at a path.
    pub fn get(&self, path: &str) -> Option<&[u8]>
        ensures { option_map (λ bytes. bytes.now) result ≡ map.get self.now path.now }
    {
        match self.files.get(path) {
            Some(bytes) => Some(bytes.as_slice()),
            None => None,
        }
    }

    /// The same files. No file's bytes are copied.
    pub fn copy(&self) -> Result<Self, AllocError>
        ensures { IfOk result (λ copied. copied ≡ self.now) }
    {
        Ok(World {
            files: self.files.clone()?,
            alloc: self.alloc,
        })
    }

    /// Whether both have the same bytes at the same paths.
    pub fn is_same(&self, other: &World) -> bool
        ensures { IsTrue result ↔ (self.now ≡ other.now) }
    {
        self.files == other.files
    }
}
