//! A filter without the predicates that its columns can't be asked.

ghost use Rattle.std.specs.Prelude.{◌≡◌, ◌∷◌, [], ◌++◌, IfOk, OnOk};
ghost use Rattle.ice_filter.specs.Binding.{bound_parts};
ghost use Rattle.ice_filter_relaxed.specs.Relaxing.{is_not_comparable, is_unasked, relaxed, relaxed_part, unasked};
ghost use Rattle.ice_filter_relaxed.specs.Relaxing.{unasked_in};

use crate::copies::copied_predicate;
use contract_words::{Items, Text};
use ice_filter::{Filter, FilterFault, Part, Predicate, bind};
use ice_meta::Schema;
use std::alloc::{AllocError, Global};

/// A filter that asks less.
#[derive(Drop)]
pub struct Relaxed {
    /// The filter: `true` stands in the place of each predicate that is not asked.
    pub filter: Filter,
    /// The texts of those predicates, in the order of the filter.
    pub unasked: Items<Text>,
}

/// The filter of a predicate alone.
fn alone(alloc: Global, predicate: &Predicate) -> Result<Filter, AllocError>
    ensures { IfOk result (λ filter. filter ≡ Part.Predicate predicate.now ∷ []) }
{
    let mut parts = Items::new(alloc);
    parts.push(Part::Predicate(copied_predicate(alloc, predicate)?))?;
    Filter::from_items(alloc, parts)
}

/// Whether a filter is refused since a column can't be compared so.
fn is_refused(alloc: Global, filter: &Filter, schema: &Schema) -> Result<bool, AllocError>
    ensures { IfOk result (λ refused. refused ≡ is_not_comparable (bound_parts schema.now filter.now)) }
{
    match bind(alloc, filter, schema) {
        Ok(_) => Ok(false),
        Err(FilterFault::NotComparable) => Ok(true),
        Err(FilterFault::Memory) => Err(AllocError),
        Err(
            FilterFault::Syntax(_)
            | FilterFault::NoSuchColumn
            | FilterFault::WrongLiteral
            | FilterFault::TooBig,
        ) => Ok(false),
    }
}

/// A predicate as a part of the relaxed filter. Where it is not asked, its text is put last in `unasked`.
fn relax_predicate(
    alloc: Global,
    predicate: &Predicate,
    schema: &Schema,
    unasked: &mut Items<Text>,
) -> Result<Part<Predicate>, AllocError>
    ensures part { IfOk result (λ part. part ≡ relaxed_part schema.now (Part.Predicate predicate.now)) }
    ensures texts { OnOk result
        (unasked.new ≡ unasked.old ++ unasked_in schema.now (Part.Predicate predicate.now)) }
{
    let filter = alone(alloc, predicate)?;
    if is_refused(alloc, &filter, schema)? {
        let text = String::from_str(alloc, filter.as_str())?;
        unasked.push(Text::from_string(text))?;
        Ok(Part::True)
    } else {
        Ok(Part::Predicate(copied_predicate(alloc, predicate)?))
    }
}

/// A part of the relaxed filter, in the same way.
fn relax_part(
    alloc: Global,
    part: &Part<Predicate>,
    schema: &Schema,
    unasked: &mut Items<Text>,
) -> Result<Part<Predicate>, AllocError>
    ensures part { IfOk result (λ relaxed. relaxed ≡ relaxed_part schema.now part.now) }
    ensures texts { OnOk result (unasked.new ≡ unasked.old ++ unasked_in schema.now part.now) }
{
    match part {
        Part::Predicate(predicate) => relax_predicate(alloc, predicate, schema, unasked),
        Part::True => Ok(Part::True),
        Part::False => Ok(Part::False),
        Part::And => Ok(Part::And),
        Part::Or => Ok(Part::Or),
    }
}

/// The filter with `true` in the place of each predicate whose column the schema has, and which can't be asked of it:
/// of a float, a double, a decimal, a struct, a list or a map; an order of a uuid; `starts with` of anything but a
/// string. What else is at fault with the filter stays in it, and `bind` refuses it. It is refused for want of memory
/// alone.
pub fn relax(alloc: Global, filter: &Filter, schema: &Schema) -> Result<Relaxed, AllocError>
    ensures filter { IfOk result (λ made. made.filter ≡ relaxed schema.now filter.now) }
    ensures unasked { IfOk result (λ made. made.unasked ≡ unasked schema.now filter.now) }
{
    let of_filter = filter.parts().as_slice();
    let mut parts = Items::new(alloc);
    let mut unasked = Items::new(alloc);
    'parts: for part in of_filter {
        parts.push(relax_part(alloc, part, schema, &mut unasked)?)?;
    }
    Ok(Relaxed {
        filter: Filter::from_items(alloc, parts)?,
        unasked,
    })
}
