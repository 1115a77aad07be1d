//! Values that have numbers of their own.

ghost use Rattle.std.specs.Prelude.{◌≡◌, ℤ, map, IfOk};
ghost use Rattle.std.specs.List.{list_any, IsDistinct};
ghost use Rattle.std.specs.Option.{option_copied};
ghost use Rattle.std.specs.Ordering.{int_eq};
ghost use Rattle.contract_words.specs.Outcome.{Gives};
ghost use Rattle.ice_meta.specs.Reading.{again, is_among, once, with_id};

use crate::fault::MetaFault;
use contract_words::Items;
use std::alloc::{AllocError, Global};

/// What has an id.
pub trait Numbered {
    /// The id.
    ghost id_of: { Self → ℤ };

    /// The id as a long.
    fn number(&self) -> i64
        ensures { result ≡ id_of self.now };
}

/// The ids of the items.
fn ids_of<T: Numbered>(alloc: Global, items: &[T]) -> Result<Vec<i64>, AllocError>
    ensures { IfOk result (λ ids. ids.items ≡ map T.id_of items.now) }
{
    let mut ids = Vec::new(alloc);
    'items: for item in items {
        ids.push(item.number())?;
    }
    Ok(ids)
}

/// Whether one of the items has the id.
pub fn is_among<T: Numbered>(items: &[T], id: i32) -> bool
    ensures { result ≡ is_among T.id_of id items.now }
{
    items.iter().any(|item| item.number() == id as i64)
}

/// The first item that has the id.
pub fn with_id<T: Numbered>(items: &[T], id: i64) -> Option<&T>
    ensures { option_copied result ≡ with_id T.id_of id items.now }
{
    items.iter().find(|item| item.number() == id)
}

/// Whether the id is among these.
fn has_id(ids: &[i64], id: i64) -> bool
    ensures { result ≡ list_any (int_eq id) ids.now }
{
    ids.iter().any(|other| id == *other)
}

/// The first id that comes again.
fn again(ids: &[i64]) -> Option<i64>
    ensures { result ≡ again ids.now }
{
    let mut rest = ids;
    'ids: while let Some((id, others)) = rest.split_first() {
        if has_id(others, *id) {
            return Some(*id);
        }
        rest = others;
    }
    None
}

/// The items, where no two have one id.
#[tactic(auto, using(crate::proofs::Different::distinct))]
pub fn once<T: Numbered + Drop>(alloc: Global, items: Items<T>) -> Result<Items<T>, MetaFault>
    ensures read { Gives MetaFault.Memory (λ items. items) result (once T.id_of items) }
    ensures different { IfOk result (λ items. IsDistinct int_eq (map T.id_of items)) }
{
    match again(&ids_of(alloc, items.as_slice())?) {
        Some(id) => Err(MetaFault::IdTwice(id)),
        None => Ok(items),
    }
}
