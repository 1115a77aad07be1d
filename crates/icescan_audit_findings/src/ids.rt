//! Ids of columns that rise, and what pairs of an id and a value say of them.

ghost use Rattle.std.specs.Prelude.{◌≡◌, ◌<◌, ℕ, true, IfNone, IfOk, IfSome, None, get_or, length, pos};
ghost use Rattle.icescan_audit_findings.specs.Ids.{Rises};
ghost use Rattle.ice_value.specs.Pairs.{last_of};

use crate::basis::TypedColumn;
use std::alloc::{AllocError, Global};

/// Whether each id is above the one before.
fn is_rising(ids: &[i32]) -> bool
    ensures { result ≡ true → Rises ids.now }
{
    'ids: for i in 1..ids.len() {
        if ids[i - 1] >= ids[i] {
            return false;
        }
    }
    true
}

/// The place of an id among ids that rise; quicker where it is this one.
pub fn place_near(ids: &[i32], near: usize, id: i32) -> Option<usize>
    requires { Rises ids.now }
    ensures there { IfSome result (λ k. (k < length ids.now) × (get_or ids.now k (pos 0) ≡ id)) }
    ensures absent { IfNone result ((k : ℕ) → k < length ids.now → get_or ids.now k (pos 0) ≡ id → ⊥) }
{
    if near < ids.len() && ids[near] == id {
        Some(near)
    } else {
        ids.binary_search(&id).ok()
    }
}

/// The ids of columns, if no two have the same, as they rise; else none.
pub fn rising_ids(alloc: Global, columns: &[TypedColumn]) -> Result<Vec<i32>, AllocError>
    ensures { IfOk result (λ ids. Rises ids.items) }
{
    let mut ids = Vec::with_capacity(alloc, columns.len())?;
    'columns: for column in columns {
        ids.push(column.id)?;
    }
    ids.sort()?;
    if is_rising(&ids) {
        Ok(ids)
    } else {
        Ok(Vec::new(alloc))
    }
}

/// What pairs say of each of these ids, which rise; of several that have an id the last counts.
pub fn last_said<T: Copy>(
    alloc: Global,
    ids: &[i32],
    pairs: &[(i32, T)],
) -> Result<Vec<Option<T>>, AllocError>
    requires { Rises ids.now }
    ensures { IfOk result (λ said. (length said.items ≡ length ids.now) × ((k : ℕ) → k < length ids.now →
        get_or said.items k None ≡ last_of (get_or ids.now k (pos 0)) pairs.now)) }
{
    let mut said = vec![in alloc; None; ids.len()]?;
    let mut near = 0;
    'pairs: for pair in pairs {
        match place_near(ids, near, pair.0) {
            Some(place) => {
                said[place] = Some(pair.1);
                near = place + 1;
            }
            None => {}
        }
    }
    Ok(said)
}
