//! What delete files are sorted by, and sought by.

ghost use Rattle.std.specs.Prelude.{◌≡◌};
ghost use Rattle.ice_deletes.specs.Keys.{sought};
ghost use Rattle.ice_deletes.specs.Groups.{partition_cmp, place_cmp, key_cmp};

use crate::group::Group;
use ice_value::Cell;
use std::cmp::Ordering;

/// What a shelf is sorted by. A search on any shelf asks for one of these.
#[derive(Clone, Copy, Debug)]
pub struct SearchKey<'a> {
    /// The data file that the delete files name, if they name one.
    pub path: Option<&'a [u8]>,
    pub spec_id: i32,
    pub tuple: &'a [Cell],
    pub sequence_number: u64,
}

impl<'a> SearchKey<'a> {
    /// The order of their partitions.
    fn partition_order(&self, other: &SearchKey) -> Ordering
        ensures { result ≡ partition_cmp (sought self.now) (sought other.now) }
    {
        self.spec_id
            .cmp(&other.spec_id)
            .then(self.tuple.cmp(other.tuple))
    }

    /// The order of their places in a group. Delete files of one place reach the same data files, but for the sequence
    /// numbers, and what reaches every partition has one place.
    pub fn place_order(&self, group: Group, other: &SearchKey) -> Ordering
        ensures { result ≡ place_cmp group (sought self.now) (sought other.now) }
    {
        let by_partition = self.partition_order(other);
        match group {
            Group::Positions | Group::Equalities => by_partition,
            Group::Referenced => self.path.cmp(&other.path).then(by_partition),
            Group::Everywhere => Ordering::Equal,
        }
    }

    /// The order of a group: by place, then by sequence number.
    pub fn order(&self, group: Group, other: &SearchKey) -> Ordering
        ensures { result ≡ key_cmp group (sought self.now) (sought other.now) }
    {
        self.place_order(group, other)
            .then(self.sequence_number.cmp(&other.sequence_number))
    }
}
