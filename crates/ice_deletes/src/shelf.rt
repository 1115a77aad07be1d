//! The delete files of a group, sorted.

ghost use Rattle.std.specs.Prelude.{◌≡◌, ◌<◌, ◌≤◌, ◌-◌, ◌++◌, map, filter, IfOk, IfSome, OnOk, length, take, drop, not};
ghost use Rattle.std.specs.Prelude.{true, slice_index_or};
ghost use Rattle.std.specs.List.{enumerate_from};
ghost use Rattle.std.specs.List.Sorted.{IsSortedBy, IsPermutation};
ghost use Rattle.ice_deletes.specs.Keys.{key_of, key_in, entry_of, sought};
ghost use Rattle.ice_deletes.specs.Groups.{is_in, is_older, is_up_to, is_within};
ghost use Rattle.ice_deletes.specs.Shelves.{earlier, fresh_in, IsShelf, HasRoom};
ghost use Rattle.ice_deletes.specs.declared.delete.Delete.{Delete};

use crate::delete::Delete;
use crate::group::Group;
use crate::growth::Growth;
use crate::keyed::deletes_of;
use crate::merging::{merge, put_numbers};
use crate::record::Record;
use crate::search_key::SearchKey;
use std::alloc::{AllocError, Global};

/// The delete files of a group by place, those of one place by sequence number.
#[derive(Debug, Drop)]
pub struct Shelf {
    pub group: Group,
    pub deletes: Vec<Delete>,
    /// Their numbers, in the same order.
    pub numbers: Vec<usize>,
}

/// Puts the earlier ones first.
fn sort(deletes: &mut Vec<Delete>, group: Group) -> Result<(), AllocError>
    ensures rising { OnOk result (IsSortedBy (earlier group) deletes.new.items) }
    ensures same { IsPermutation deletes.old.items deletes.new.items }
{
    deletes.sort_by(|a, b| a.order(group, b))?;
    Ok(())
}

/// The numbers of delete files.
fn numbers_of(alloc: Global, deletes: &[Delete]) -> Result<Vec<usize>, AllocError>
    ensures { IfOk result (λ numbers. numbers.items ≡ map (λ (d : Delete). d.number) deletes.now) }
{
    let mut numbers = Vec::with_capacity(alloc, deletes.len())?;
    'deletes: for delete in deletes {
        numbers.push(delete.number)?;
    }
    Ok(numbers)
}

impl Shelf {
    /// The shelf of the records of a group.
    pub fn build(alloc: Global, records: &[Record], group: Group) -> Result<Shelf, AllocError>
        ensures kept { IfOk result (λ shelf. IsShelf group shelf) }
        ensures filed { IfOk result (λ shelf. IsPermutation
            (filter (λ e. is_in group e.1) (enumerate_from 0 (map key_of records.now)))
            (map entry_of shelf.deletes.items)) }
    {
        let mut deletes = deletes_of(alloc, records, group)?;
        sort(&mut deletes, group)?;
        let numbers = numbers_of(alloc, &deletes)?;
        Ok(Shelf {
            group,
            deletes,
            numbers,
        })
    }

    /// Takes delete files in, without taking memory.
    fn take_in(&mut self, growth: Growth)
        requires sorted { IsSortedBy (earlier self.old.group) self.old.deletes.items }
        requires fresh { IsSortedBy (earlier self.old.group) growth.fresh.items }
        requires room { HasRoom self.old growth }
        ensures group { self.new.group ≡ self.old.group }
        ensures rising { IsSortedBy (earlier self.old.group) self.new.deletes.items }
        ensures all { IsPermutation (self.old.deletes.items ++ growth.fresh.items) self.new.deletes.items }
        ensures numbered { self.new.numbers.items ≡ map (λ (d : Delete). d.number) self.new.deletes.items }
    {
        let Growth {
            mut fresh,
            mut deletes,
            mut numbers,
        } = growth;
        merge(&mut self.deletes, &mut fresh, &mut deletes, self.group);
        put_numbers(&mut numbers, &deletes);
        self.deletes = deletes;
        self.numbers = numbers;
    }

    /// Takes delete files in, if there are any, without taking memory.
    pub fn grow(&mut self, growth: Option<Growth>)
        requires sorted { IsSortedBy (earlier self.old.group) self.old.deletes.items }
        requires numbered { self.old.numbers.items ≡ map (λ (d : Delete). d.number) self.old.deletes.items }
        requires fresh { IsSortedBy (earlier self.old.group) (fresh_in growth) }
        requires room { IfSome growth (HasRoom self.old) }
        ensures group { self.new.group ≡ self.old.group }
        ensures rising { IsSortedBy (earlier self.old.group) self.new.deletes.items }
        ensures all { IsPermutation (self.old.deletes.items ++ fresh_in growth) self.new.deletes.items }
        ensures numbered { self.new.numbers.items ≡ map (λ (d : Delete). d.number) self.new.deletes.items }
    {
        if let Some(growth) = growth {
            self.take_in(growth);
        }
    }

    /// How many of the delete files stand at the place that is sought or before.
    fn end(&self, key: &SearchKey) -> usize
        requires { IsSortedBy (earlier self.now.group) self.now.deletes.items }
        ensures within { result ≤ length self.now.deletes.items }
        ensures front { take result self.now.deletes.items
            ≡ filter (λ d. is_up_to self.now.group (sought key.now) (key_in d)) self.now.deletes.items }
    {
        let group = self.group;
        self.deletes
            .as_slice()
            .partition_point(|delete| delete.is_up_to(group, key))
    }

    /// A number of first ones of which the last, and so each, stands before that place, or at it with a smaller
    /// sequence number. It is looked for from the end in steps that double, since of many at a place mostly few apply.
    fn near_start(&self, end: usize, key: &SearchKey) -> usize
        requires { end ≤ length self.now.deletes.items }
        ensures within { result ≤ end }
        ensures older { (d : Delete) → 0 < result → is_older self.now.group (sought key.now)
            (key_in (slice_index_or self.now.deletes.items (result - 1) d)) ≡ true }
    {
        let mut first = end;
        let mut step: usize = 1;
        'first: while first > 0 && !self.deletes[first - 1].is_older(self.group, key) {
            first = first.saturating_sub(step);
            step = step.saturating_mul(2);
        }
        first
    }

    /// How many of the first ones stand before that place, or at it with a smaller sequence number.
    fn start(&self, end: usize, key: &SearchKey) -> usize
        requires sorted { IsSortedBy (earlier self.now.group) self.now.deletes.items }
        requires within { end ≤ length self.now.deletes.items }
        ensures within { result ≤ end }
        ensures back { drop result (take end self.now.deletes.items)
            ≡ filter (λ d. not (is_older self.now.group (sought key.now) (key_in d)))
            (take end self.now.deletes.items) }
    {
        let group = self.group;
        let first = self.near_start(end, key);
        let near = &self.deletes[first..end];
        first + near.partition_point(|delete| delete.is_older(group, key))
    }

    /// The numbers of the delete files at the place that is sought, from the sequence number that is sought on.
    pub fn suffix(&self, key: &SearchKey) -> &[usize]
        requires sorted { IsSortedBy (earlier self.now.group) self.now.deletes.items }
        requires numbered { self.now.numbers.items ≡ map (λ (d : Delete). d.number) self.now.deletes.items }
        ensures { result.now ≡ map (λ (d : Delete). d.number)
            (filter (λ d. is_within self.now.group (sought key.now) (key_in d)) self.now.deletes.items) }
    {
        let end = self.end(key);
        let start = self.start(end, key);
        &self.numbers[start..end]
    }
}
