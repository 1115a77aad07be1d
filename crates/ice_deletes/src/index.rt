//! The index of delete files.

ghost use Rattle.std.specs.Prelude.{◌≡◌, ◌≢◌, ◌↔◌, ◌&&◌, ◌==◌, ◌≤◌, ℕ, map, length, IfOk, IsOk, OnOk};
ghost use Rattle.std.specs.Prelude.{OnErr, AllPairs, Contains, IsTrue, [], count_by, filter, nat_le};
ghost use Rattle.std.specs.List.{list_any};
ghost use Rattle.std.specs.List.Sorted.{IsPermutation, IsSorted};
ghost use Rattle.std.specs.Ordering.{nat_cmp};
ghost use Rattle.ice_value.specs.Applying.{applies};
ghost use Rattle.ice_deletes.specs.Keys.{key_of};
ghost use Rattle.ice_deletes.specs.Groups.{is_in};
ghost use Rattle.ice_deletes.specs.Found.{data_key, numbered_deletes, numbers_where, lent, AppliesAt};
ghost use Rattle.ice_deletes.specs.Indexes.{AreDistinct};
ghost use Rattle.ice_deletes.specs.Unions.{renumbered, AreBelow, Agree, IsUnion};
ghost use Rattle.ice_deletes.specs.declared.group.Group.TheVariants.{Positions, Referenced, Equalities, Everywhere};

use crate::group::Group;
use crate::growth::Growth;
use crate::numbers::{least_of, push_from};
use crate::record::Record;
use crate::search_key::SearchKey;
use crate::shelf::Shelf;
use ice_value::{Cell, SequenceNumber};
use std::alloc::{AllocError, Global};
use std::marker::Model;

/// The numbers of the delete files that apply to a data file, lent by the index. Each stands in one slice, once.
#[derive(Clone, Copy, Debug)]
pub struct Hits<'i> {
    /// Position delete files of the data file's partition that name no data file.
    pub positions: &'i [usize],
    /// Position delete files of the data file's partition that name it.
    pub referenced: &'i [usize],
    /// Equality delete files of the data file's partition.
    pub equalities: &'i [usize],
    /// Equality delete files of unpartitioned specs, the data file's own among them.
    pub everywhere: &'i [usize],
}

/// The delete files among some records, sorted so that those that apply to a data file are found by binary search.
/// Contracts see it as the list of its delete files with their numbers, of which no two are the same.
#[derive(Debug, Drop)]
pub struct DeleteIndex {
    positions: Shelf,
    referenced: Shelf,
    equalities: Shelf,
    everywhere: Shelf,
}

impl Model for DeleteIndex {
    ghost use Rattle.std.specs.Prelude.{List, ℕ};
    ghost use Rattle.ice_value.specs.Applying.{DeleteKey};

    ghost Value = { List (ℕ × DeleteKey) };

    ghost use Rattle.ice_deletes.specs.Indexes.{IsIndex, entries_in};

    ghost view = { entries_in };

    ghost invariant = { IsIndex };
}

impl DeleteIndex {
    /// The index of the delete files among the records. A delete file's number is its place among the records.
    pub fn build(alloc: Global, records: &[Record]) -> Result<DeleteIndex, AllocError>
        ensures { IfOk result (λ index. IsPermutation (numbered_deletes (map key_of records.now)) index) }
    {
        Ok(DeleteIndex {
            positions: Shelf::build(alloc, records, Group::Positions)?,
            referenced: Shelf::build(alloc, records, Group::Referenced)?,
            equalities: Shelf::build(alloc, records, Group::Equalities)?,
            everywhere: Shelf::build(alloc, records, Group::Everywhere)?,
        })
    }

    /// Whether one of its delete files names a data file.
    pub fn names_files(&self) -> bool
        ensures { result ≡ list_any (λ e. is_in Referenced e.1) self.now }
    {
        !self.referenced.deletes.is_empty()
    }

    /// Whether it has no delete files.
    #[tactic(auto, using(crate::proofs::Emptied::each_none))]
    fn is_empty(&self) -> bool
        ensures is { IsTrue result → self.now ≡ [] }
        ensures none { self.now ≡ [] → IsTrue result }
    {
        self.positions.deletes.is_empty()
            && self.referenced.deletes.is_empty()
            && self.equalities.deletes.is_empty()
            && self.everywhere.deletes.is_empty()
    }

    /// The numbers of its delete files that are not below the least one, in order.
    fn numbers_from(&self, least: usize) -> Result<Vec<usize>, AllocError>
        ensures sorted { IfOk result (λ numbers. IsSorted nat_cmp numbers.items) }
        ensures same { IfOk result (λ numbers.
            IsPermutation (filter (nat_le least) (map (λ e. e.0) self.now)) numbers.items) }
    {
        let mut numbers = Vec::new(*self.positions.numbers.allocator());
        push_from(&mut numbers, &self.positions.numbers, least)?;
        push_from(&mut numbers, &self.referenced.numbers, least)?;
        push_from(&mut numbers, &self.equalities.numbers, least)?;
        push_from(&mut numbers, &self.everywhere.numbers, least)?;
        numbers.sort_unstable();
        Ok(numbers)
    }

    /// Takes in the delete files of another index: `to[k]` is the number here of the one that is k there. Those that
    /// both have stay as they are. A refusal, for want of memory alone, leaves the index as it was.
    pub fn merge(&mut self, other: &DeleteIndex, to: &[u32]) -> Result<(), AllocError>
        requires below { AreBelow (length to.now) other.now }
        requires once { AllPairs (λ n m. n ≢ m) to.now }
        requires agree { Agree self.old (renumbered to.now other.now) }
        ensures ok { OnOk result (IsUnion self.old (renumbered to.now other.now) self.new) }
        ensures err { OnErr result (self.new ≡ self.old) }
        // An index without delete files takes no memory.
        ensures none { other.now ≡ [] → IsOk result }
    {
        let alloc = *self.positions.numbers.allocator();
        if other.is_empty() {
            return Ok(());
        }
        // Numbers below all those of the other's files meet none of them.
        let held = self.numbers_from(least_of(to) as usize)?;
        let positions = Growth::new(alloc, &self.positions, &other.positions, &held, to)?;
        let referenced = Growth::new(alloc, &self.referenced, &other.referenced, &held, to)?;
        let equalities = Growth::new(alloc, &self.equalities, &other.equalities, &held, to)?;
        let everywhere = Growth::new(alloc, &self.everywhere, &other.everywhere, &held, to)?;
        self.positions.grow(positions);
        self.referenced.grow(referenced);
        self.equalities.grow(equalities);
        self.everywhere.grow(everywhere);
        Ok(())
    }

    /// Those of them that name the data file.
    pub(crate) fn naming(
        &self,
        spec_id: i32,
        tuple: &[Cell],
        sequence_number: SequenceNumber,
        path: &[u8],
    ) -> &[usize]
        ensures named { let x = data_key spec_id tuple.now sequence_number path.now in
            IsPermutation (numbers_where (λ d. is_in Referenced d && applies x d) self.now) result.now }
        ensures distinct { AreDistinct self.now }
    {
        self.referenced.suffix(&SearchKey {
            path: Some(path),
            spec_id,
            tuple,
            sequence_number: sequence_number.get(),
        })
    }

    /// The delete files that apply to the data file of this spec and tuple, with this sequence number, at this path.
    pub fn for_data(
        &self,
        spec_id: i32,
        tuple: &[Cell],
        sequence_number: SequenceNumber,
        path: &[u8],
    ) -> Hits<'_>
        ensures positions { let x = data_key spec_id tuple.now sequence_number path.now in
            IsPermutation (numbers_where (λ d. is_in Positions d && applies x d) self.now) result.positions.now }
        ensures referenced { let x = data_key spec_id tuple.now sequence_number path.now in
            IsPermutation (numbers_where (λ d. is_in Referenced d && applies x d) self.now) result.referenced.now }
        ensures equalities { let x = data_key spec_id tuple.now sequence_number path.now in
            IsPermutation (numbers_where (λ d. is_in Equalities d && applies x d) self.now) result.equalities.now }
        ensures everywhere { let x = data_key spec_id tuple.now sequence_number path.now in
            IsPermutation (numbers_where (λ d. is_in Everywhere d && applies x d) self.now) result.everywhere.now }

        // Exactly the numbers of the files that apply, each in one slice, once.
        ensures exact { let x = data_key spec_id tuple.now sequence_number path.now in
            (n : ℕ) → Contains (lent result) n ↔ AppliesAt self.now x n }
        ensures once { (n : ℕ) → count_by (λ m. m == n) (lent result) ≤ 1 }
    {
        let number = sequence_number.get();
        let from_same = SearchKey {
            path: Some(path),
            spec_id,
            tuple,
            sequence_number: number,
        };
        let from_next = SearchKey {
            sequence_number: number + 1,
            ..from_same
        };
        Hits {
            positions: self.positions.suffix(&from_same),
            referenced: self.referenced.suffix(&from_same),
            equalities: self.equalities.suffix(&from_next),
            everywhere: self.everywhere.suffix(&from_next),
        }
    }
}
