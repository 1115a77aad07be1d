//! Copying a plan out of its state.

ghost use Rattle.std.specs.Prelude.{◌≡◌, IfOk};

use crate::kept::segments::FileNumber;
use crate::plan::{NumberedPlan, OwnedPlan, Plan};
use std::alloc::{AllocError, Global};

impl<'a> Plan<'a> {
    /// The same plan, copied out of the state: each file once.
    pub fn keep(&self, alloc: Global) -> Result<OwnedPlan, AllocError>
        ensures { IfOk result (λ plan. plan ≡ self.now) }
    {
        Ok(OwnedPlan {
            entries: self.entries.copy(alloc)?,
            numbered: self.numbered.copy(alloc)?,
        })
    }
}

impl NumberedPlan {
    /// The same plan.
    fn copy(&self, alloc: Global) -> Result<NumberedPlan, AllocError>
        ensures files { IfOk result (λ plan. plan.files.items ≡ self.now.files.items) }
        ensures deletes { IfOk result (λ plan. plan.deletes.items ≡ self.now.deletes.items) }
        ensures places { IfOk result (λ plan. plan.places ≡ self.now.places) }
    {
        Ok(NumberedPlan {
            files: copied_entries(alloc, &self.files)?,
            deletes: copied_entries(alloc, &self.deletes)?,
            places: self.places.copy(alloc)?,
        })
    }
}

fn copied_entries(alloc: Global, numbers: &[FileNumber]) -> Result<Vec<FileNumber>, AllocError>
    ensures { IfOk result (λ copied. copied.items ≡ numbers.now) }
{
    numbers.to_vec(alloc)
}
