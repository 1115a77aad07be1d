//! Copies of filters.

ghost use Rattle.std.specs.Prelude.{◌≡◌, IfOk};

use contract_words::{Duplicate, Items};
use ice_filter::{Bound, BoundPredicate, Part, Parts};
use ice_project::FieldTest;
use std::alloc::{AllocError, Global};

/// The same predicate.
pub fn copied_predicate(
    alloc: Global,
    predicate: &BoundPredicate,
) -> Result<BoundPredicate, AllocError>
    ensures { IfOk result (λ copied. copied ≡ predicate.now) }
{
    Ok(BoundPredicate {
        column: predicate.column,
        column_type: predicate.column_type,
        test: predicate.test.copy(alloc)?,
    })
}

/// The same test, which is not copied.
pub fn copied_field_test(test: &FieldTest) -> Result<FieldTest, AllocError>
    ensures { IfOk result (λ copied. copied ≡ test.now) }
{
    Ok(FieldTest {
        position: test.position,
        value_type: test.value_type,
        test: test.test.share()?,
    })
}

/// The same part.
fn copied_part(
    alloc: Global,
    part: &Part<BoundPredicate>,
) -> Result<Part<BoundPredicate>, AllocError>
    ensures { IfOk result (λ copied. copied ≡ part.now) }
{
    match part {
        Part::True => Ok(Part::True),
        Part::False => Ok(Part::False),
        Part::Predicate(predicate) => Ok(Part::Predicate(copied_predicate(alloc, predicate)?)),
        Part::And => Ok(Part::And),
        Part::Or => Ok(Part::Or),
    }
}

/// The same parts.
fn copied_parts(
    alloc: Global,
    parts: &[Part<BoundPredicate>],
) -> Result<Items<Part<BoundPredicate>>, AllocError>
    ensures { IfOk result (λ copied. copied ≡ parts.now) }
{
    let mut copied = Items::new(alloc);
    'parts: for part in parts {
        copied.push(copied_part(alloc, part)?)?;
    }
    Ok(copied)
}

/// The same filter.
pub fn copied_filter(alloc: Global, filter: &Bound) -> Result<Bound, AllocError>
    ensures { IfOk result (λ copied. copied ≡ filter.now) }
{
    let parts = copied_parts(alloc, filter.parts.as_slice())?;
    Ok(Bound {
        parts: Parts::from_items(parts),
    })
}
