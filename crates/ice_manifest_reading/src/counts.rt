//! How many files and rows a manifest has.

ghost use Rattle.std.specs.Prelude.{◌≡◌, true, IfOk};
ghost use Rattle.ice_manifest_reading.specs.Gathering.{no_counts, counts_kept};
ghost use Rattle.ice_manifest_reading.specs.Lists.{same_counts};

use std::alloc::{AllocError, Global};

/// How many files and rows a manifest list counts in a manifest, by the status of their entries. None where the writer
/// left a number out; any number otherwise.
#[derive(Clone, Copy, Debug, PartialEq)]
pub struct Counts {
    pub added_files: Option<i32>,
    pub existing_files: Option<i32>,
    pub deleted_files: Option<i32>,
    pub added_rows: Option<i64>,
    pub existing_rows: Option<i64>,
    pub deleted_rows: Option<i64>,
}

impl Counts {
    /// None of them.
    pub fn none() -> Counts
        ensures { result ≡ no_counts }
    {
        Counts {
            added_files: None,
            existing_files: None,
            deleted_files: None,
            added_rows: None,
            existing_rows: None,
            deleted_rows: None,
        }
    }

    /// Whether the writer left all numbers out.
    fn are_none(&self) -> bool
        ensures { result ≡ true → self.now ≡ no_counts }
    {
        *self == Counts::none()
    }

    /// The counts in memory of their own, which they take only where the writer said one of them.
    pub(crate) fn kept(self, alloc: Global) -> Result<Option<Box<Counts>>, AllocError>
        ensures { IfOk result (λ kept. counts_kept kept ≡ self) }
    {
        if self.are_none() {
            Ok(None)
        } else {
            Ok(Some(Box::new(alloc, self)?))
        }
    }

    /// The counts that were kept.
    pub(crate) fn unkept(kept: Option<Box<Counts>>) -> Counts
        ensures { result ≡ counts_kept kept }
    {
        match kept {
            Some(counts) => Box::into_inner(counts),
            None => Counts::none(),
        }
    }

    /// Whether the kept counts are the same.
    pub(crate) fn are_same(a: &Option<Box<Counts>>, b: &Option<Box<Counts>>) -> bool
        ensures { result ≡ same_counts (counts_kept a.now) (counts_kept b.now) }
    {
        match (a, b) {
            (None, None) => true,
            (Some(a), Some(b)) => **a == **b,
            (Some(counts), None) | (None, Some(counts)) => **counts == Counts::none(),
        }
    }
}
