//! Data files that are looked up one after the other.

ghost use Rattle.std.specs.Prelude.{◌≡◌, ◌==◌, ◌≤◌, ◌&&◌, ◌↔◌, List, ℕ, IsTrue, IfSome, Contains, count_by};
ghost use Rattle.std.specs.List.Sorted.{IsPermutation};
ghost use Rattle.ice_value.specs.Applying.{applies};
ghost use Rattle.ice_deletes.specs.Found.{data_key, numbers_where, lent, AppliesAt};
ghost use Rattle.ice_deletes.specs.Groups.{is_in};
ghost use Rattle.ice_deletes.specs.Neighbours.{AreHits};
ghost use Rattle.ice_deletes.specs.declared.group.Group.TheVariants.{Positions, Referenced, Equalities, Everywhere};

use crate::index::{DeleteIndex, Hits};
use ice_value::{Cell, SequenceNumber};
use std::marker::Model;

/// The data file that was looked up last, and what was found for it.
#[derive(Clone, Copy, Debug)]
struct Last<'i, 'x> {
    spec_id: i32,
    tuple: &'x [Cell],
    sequence_number: SequenceNumber,
    hits: Hits<'i>,
}

/// Looks data files up in an index, one after the other. For one of the spec, the tuple and the sequence number of the
/// one before it, only the delete files that name it are looked for.
#[derive(Debug, Drop)]
pub struct Finder<'i, 'x> {
    index: &'i DeleteIndex,
    last: Option<Last<'i, 'x>>,
}

impl<'i, 'x> Model for Finder<'i, 'x> {
    ghost use Rattle.std.specs.Prelude.{List, ℕ, IfSome};
    ghost use Rattle.ice_value.specs.Applying.{DeleteKey};
    ghost use Rattle.ice_deletes.specs.Neighbours.{WereFound};

    ghost Value = { List (ℕ × DeleteKey) };

    ghost view = { λ f. f.index.now };

    ghost invariant = { λ f. IfSome f.last (WereFound f.index.now) };
}

impl<'i, 'x> Last<'i, 'x> {
    /// Whether a data file of this spec and tuple, with this sequence number, is a neighbour.
    fn is_beside(&self, spec_id: i32, tuple: &[Cell], sequence_number: SequenceNumber) -> bool
        ensures spec { IsTrue result → self.now.spec_id ≡ spec_id }
        ensures tuple { IsTrue result → self.now.tuple.now ≡ tuple.now }
        ensures number { IsTrue result → self.now.sequence_number ≡ sequence_number }
    {
        self.spec_id == spec_id && self.sequence_number == sequence_number && self.tuple == tuple
    }
}

impl<'i, 'x> Finder<'i, 'x> {
    /// A finder in this index.
    pub fn new(index: &'i DeleteIndex) -> Finder<'i, 'x>
        ensures { result ≡ index.now }
    {
        Finder { index, last: None }
    }

    /// What was found for the data file before, where that one is a neighbour.
    fn found_beside(
        &self,
        spec_id: i32,
        tuple: &[Cell],
        sequence_number: SequenceNumber,
    ) -> Option<Hits<'i>>
        ensures { IfSome result (λ hits.
            (path : List ℕ) × AreHits (data_key spec_id tuple.now sequence_number path) self.now hits) }
    {
        let Some(last) = &self.last else {
            return None;
        };
        if !last.is_beside(spec_id, tuple, sequence_number) {
            return None;
        }
        Some(last.hits)
    }

    /// What is found for a data file.
    fn found(
        &self,
        spec_id: i32,
        tuple: &[Cell],
        sequence_number: SequenceNumber,
        path: &[u8],
    ) -> Hits<'i>
        ensures hits { AreHits (data_key spec_id tuple.now sequence_number path.now) self.now result }
        ensures once { (n : ℕ) → count_by (λ m. m == n) (lent result) ≤ 1 }
    {
        match self.found_beside(spec_id, tuple, sequence_number) {
            Some(hits) => Hits {
                referenced: self.index.naming(spec_id, tuple, sequence_number, path),
                ..hits
            },
            None => self.index.for_data(spec_id, tuple, sequence_number, path),
        }
    }

    /// The delete files that apply to the data file of this spec and tuple, with this sequence number, at this path.
    pub fn for_data(
        &mut self,
        spec_id: i32,
        tuple: &'x [Cell],
        sequence_number: SequenceNumber,
        path: &[u8],
    ) -> Hits<'i>
        ensures positions { let x = data_key spec_id tuple.now sequence_number path.now in
            IsPermutation (numbers_where (λ d. is_in Positions d && applies x d) self.old) result.positions.now }
        ensures referenced { let x = data_key spec_id tuple.now sequence_number path.now in
            IsPermutation (numbers_where (λ d. is_in Referenced d && applies x d) self.old) result.referenced.now }
        ensures equalities { let x = data_key spec_id tuple.now sequence_number path.now in
            IsPermutation (numbers_where (λ d. is_in Equalities d && applies x d) self.old) result.equalities.now }
        ensures everywhere { let x = data_key spec_id tuple.now sequence_number path.now in
            IsPermutation (numbers_where (λ d. is_in Everywhere d && applies x d) self.old) result.everywhere.now }

        // Exactly the numbers of the files that apply, each in one slice, once.
        ensures exact { let x = data_key spec_id tuple.now sequence_number path.now in
            (n : ℕ) → Contains (lent result) n ↔ AppliesAt self.old x n }
        ensures once { (n : ℕ) → count_by (λ m. m == n) (lent result) ≤ 1 }
        ensures same { self.new ≡ self.old }
    {
        let hits = self.found(spec_id, tuple, sequence_number, path);
        self.last = Some(Last {
            spec_id,
            tuple,
            sequence_number,
            hits,
        });
        hits
    }
}
