//! The union of sections.

ghost use Rattle.std.specs.Prelude.{◌≡◌, ◌≢◌, ◌∷◌, ◌+◌, ◌<◌, ◌≤◌, length, drop, IfOk, map};
ghost use Rattle.ice_state_envelopes.specs.Envelopes.{shown, Rise};
ghost use Rattle.ice_state_envelopes.specs.Joins.{union};

use crate::section::Section;
use std::alloc::{AllocError, Global};

/// The next section of a union behind so many of the first and so many of the second, and where it goes on.
fn next_of<'a>(
    rows: u64,
    ones: &[Section<'a>],
    i: usize,
    others: &[Section<'a>],
    j: usize,
) -> (Section<'a>, usize, usize)
    requires inside { (i ≤ length ones.now) × (j ≤ length others.now) }
    requires left { i + j < length ones.now + length others.now }
    requires ones { Rise 0 rows (map shown ones.now) }
    requires others { Rise 0 rows (map shown others.now) }
    ensures inside { (result.1 ≤ length ones.now) × (result.2 ≤ length others.now) }
    ensures less { i + j < result.1 + result.2 }
    ensures next { union (map shown (drop i ones.now)) (map shown (drop j others.now)) ≡
        shown result.0 ∷ union (map shown (drop result.1 ones.now)) (map shown (drop result.2 others.now)) }
{
    if j == others.len() {
        return (ones[i], i + 1, j);
    }
    if i == ones.len() || others[j].row < ones[i].row {
        return (others[j], i, j + 1);
    }
    if ones[i].row < others[j].row {
        return (ones[i], i + 1, j);
    }
    (ones[i], i + 1, j + 1)
}

/// The sections of both, those of the first where both have a row.
pub(crate) fn union_of<'a>(
    alloc: Global,
    rows: u64,
    ones: &[Section<'a>],
    others: &[Section<'a>],
) -> Result<Vec<Section<'a>>, AllocError>
    requires ones { Rise 0 rows (map shown ones.now) }
    requires others { Rise 0 rows (map shown others.now) }
    ensures { IfOk result (λ v. map shown v.items ≡ union (map shown ones.now) (map shown others.now)) }
{
    let mut all = Vec::new(alloc);
    let mut i = 0;
    let mut j = 0;
    'sections: while i < ones.len() || j < others.len() {
        let (section, after, behind) = next_of(rows, ones, i, others, j);
        all.push(section)?;
        i = after;
        j = behind;
    }
    Ok(all)
}
