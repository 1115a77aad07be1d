//! What a shelf takes in of another one.

ghost use Rattle.std.specs.Prelude.{◌≡◌, ◌==◌, ◌<◌, ◌≤◌, ◌+◌, [], length, map, All, IfOk, IfSome, vec_len};
ghost use Rattle.std.specs.Prelude.{vec_capacity};
ghost use Rattle.std.specs.List.{list_any};
ghost use Rattle.std.specs.List.Sorted.{IsSorted};
ghost use Rattle.std.specs.Ordering.{nat_cmp};
ghost use Rattle.ice_deletes.specs.Keys.{entry_of};
ghost use Rattle.ice_deletes.specs.Unions.{renumbered, unheld};
ghost use Rattle.ice_deletes.specs.Shelves.{fresh_in, HasRoom};
ghost use Rattle.ice_deletes.specs.declared.delete.Delete.{Delete};

use crate::delete::Delete;
use crate::shelf::Shelf;
use std::alloc::{AllocError, Global};

/// The delete files that a shelf takes in, and room for all that it has then.
#[derive(Debug, Drop)]
pub struct Growth {
    /// Those that it doesn't have, sorted.
    pub fresh: Vec<Delete>,
    /// No delete files, with room for all.
    pub deletes: Vec<Delete>,
    /// No numbers, with room for all.
    pub numbers: Vec<usize>,
}

/// Whether the number is among those that are held.
fn is_held(held: &[usize], number: usize) -> bool
    requires { IsSorted nat_cmp held.now }
    ensures { result ≡ list_any (λ n. n == number) held.now }
{
    held.binary_search(&number).is_ok()
}

/// Copies of the files under their numbers here, but for those whose numbers are held.
fn fresh(
    alloc: Global,
    files: &[Delete],
    held: &[usize],
    to: &[u32],
) -> Result<Vec<Delete>, AllocError>
    requires sorted { IsSorted nat_cmp held.now }
    requires below { All (λ (d : Delete). d.number < length to.now) files.now }
    ensures { IfOk result (λ fresh. map entry_of fresh.items
        ≡ unheld held.now (renumbered to.now (map entry_of files.now))) }
{
    let mut fresh = Vec::new(alloc);
    'files: for file in files {
        let number = to[file.number] as usize;
        if !is_held(held, number) {
            fresh.push(file.renumbered(alloc, number)?)?;
        }
    }
    Ok(fresh)
}

impl Growth {
    /// What the shelf takes in of the other one, whose files get these numbers, if the numbers that are held stay out;
    /// none, where no file is left.
    pub fn new(
        alloc: Global,
        shelf: &Shelf,
        other: &Shelf,
        held: &[usize],
        to: &[u32],
    ) -> Result<Option<Growth>, AllocError>
        requires sorted { IsSorted nat_cmp held.now }
        requires below { All (λ (d : Delete). d.number < length to.now) other.now.deletes.items }
        ensures fresh { IfOk result (λ growth. map entry_of (fresh_in growth)
            ≡ unheld held.now (renumbered to.now (map entry_of other.now.deletes.items))) }
        ensures room { IfOk result (λ growth. IfSome growth (HasRoom shelf.now)) }
    {
        let fresh = fresh(alloc, &other.deletes, held, to)?;
        if fresh.is_empty() {
            return Ok(None);
        }
        let count = shelf.deletes.len() + fresh.len();
        Ok(Some(Growth {
            fresh,
            deletes: Vec::with_capacity(alloc, count)?,
            numbers: Vec::with_capacity(alloc, count)?,
        }))
    }
}
