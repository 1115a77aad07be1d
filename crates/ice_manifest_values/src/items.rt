//! The items of a list, one after the other where they lie in the file.

ghost use Rattle.std.specs.Prelude.{◌≡◌, ◌≤◌, ◌<◌, ℤ, List, length, Option, Some, IfSome};
ghost use Rattle.avro_schema.specs.declared.schema.ArrayKind.{ArrayKind};
ghost use Rattle.avro_schema.specs.Tree.{array};
ghost use Rattle.avro_schema.specs.View.{tree};
ghost use Rattle.avro_file.specs.Value.{Value, items, values_of};
ghost use Rattle.avro_file.specs.Alike.{EndAlike};
ghost use Rattle.avro_file.specs.Blocks.{StandsAt};
ghost use Rattle.avro_file.specs.Picking.{Picked};
ghost use Rattle.avro_file_picked.specs.Finding.{IsMet};
ghost use Rattle.ice_manifest_fields.specs.Fields.{there};
ghost use Rattle.ice_manifest_values.specs.InPlace.{ListAhead, AreAhead, AtItem, NextItem, still};

use crate::standing::{MAX_ITEMS, Standing};
use avro_file::end_of;
use avro_file_parts::{Place, count_of};
use avro_file_picked::Found;
use avro_schema::Schema;

/// The items of a list that are still to come. It lends the file's bytes and owns nothing.
#[derive(Clone, Copy, Debug)]
pub struct ItemsAhead<'s, 'a> {
    pub(crate) schema: &'s Schema,
    /// How many items of the block that is being read are to come.
    in_block: u64,
    place: Place<'a>,
}

/// The items of a list that was found; none where anything else was.
pub fn items_of<'s, 'a>(found: Option<Found<'s, 'a>>) -> Option<ItemsAhead<'s, 'a>>
    ensures { (met : Picked) → IsMet found.entry met → ListAhead result (there met) }
{
    let found = found?;
    match found.schema() {
        Schema::Array(items, _, _) => Some(ItemsAhead::new(items, found.bytes())),
        _ => None,
    }
}

impl<'s, 'a> ItemsAhead<'s, 'a> {
    /// The items, which have this type, of a list at the front of the bytes.
    fn new(schema: &'s Schema, bytes: &'a [u8]) -> ItemsAhead<'s, 'a>
        ensures schema { result.schema.now ≡ schema.now }
        ensures items { (id : Option ℤ) (kind : ArrayKind) (v : Value) →
            StandsAt (array (tree schema.now) id kind) bytes.now v →
            (vs : List Value) × (v ≡ items (values_of vs)) × AreAhead result vs }
    {
        ItemsAhead {
            schema,
            in_block: 0,
            place: Place {
                bytes,
                left: MAX_ITEMS,
            },
        }
    }

    /// The type of the items.
    pub fn schema(&self) -> &'s Schema
        ensures { result.now ≡ self.now.schema.now }
    {
        self.schema
    }

    /// The same at the next item; none behind the last one.
    pub fn at_item(&self) -> Option<ItemsAhead<'s, 'a>>
        ensures block { IfSome result (λ at. 0 < at.in_block) }
        ensures no_more { IfSome result (λ at. still at ≤ still self.now) }
        ensures items { (vs : List Value) → AreAhead self.now vs → AtItem self.now vs result }
    {
        if self.in_block > 0 {
            return Some(*self);
        }
        match count_of(self.place) {
            Ok((count, place)) if count > 0 => Some(ItemsAhead {
                schema: self.schema,
                in_block: count,
                place,
            }),
            // It was checked, so that reading does not fail.
            _ => None,
        }
    }

    /// For how many items room may be made before they are read: for all of a list in one block. A list in several
    /// blocks may have more, and one of items without a byte too.
    pub fn room(&self) -> usize
        ensures { result ≤ length self.now.place.bytes.now }
    {
        match self.at_item() {
            Some(at) => self.place.bytes.len().min(at.in_block as usize),
            None => 0,
        }
    }

    /// The next item, which is passed by a schema; none behind the last one. Nothing is said of it but where values of
    /// that schema end where the items do.
    pub(crate) fn next_passed(&mut self, passing: &Schema) -> Option<Standing<'s, 'a>>
        ensures fewer { IfSome result (λ _. still self.new < still self.old) }
        ensures items { EndAlike (tree passing.now) (tree self.old.schema.now) → (vs : List Value)
            → AreAhead self.old vs → NextItem self.old vs result self.new }
        ensures schema { self.new.schema.now ≡ self.old.schema.now }
        ensures item { IfSome result (λ item. item.schema.now ≡ self.old.schema.now) }
    {
        let here = self.at_item()?;
        let Ok(after) = end_of(passing, here.place) else {
            return None;
        };
        self.in_block = here.in_block - 1;
        self.place = after;
        Some(Standing {
            schema: self.schema,
            bytes: here.place.bytes,
        })
    }

    /// The next item, which is passed by a schema whose values end where the items do; none behind the last one.
    pub fn next_by(&mut self, passing: &Schema) -> Option<Standing<'s, 'a>>
        requires { EndAlike (tree passing.now) (tree self.old.schema.now) }
        ensures fewer { IfSome result (λ _. still self.new < still self.old) }
        ensures items { (vs : List Value) → AreAhead self.old vs → NextItem self.old vs result self.new }
        ensures schema { self.new.schema.now ≡ self.old.schema.now }
        ensures item { IfSome result (λ item. item.schema.now ≡ self.old.schema.now) }
    {
        // It was checked, so that reading does not fail.
        self.next_passed(passing)
    }

    /// The next item; none behind the last one.
    pub fn next(&mut self) -> Option<Standing<'s, 'a>>
        ensures fewer { IfSome result (λ _. still self.new < still self.old) }
        ensures items { (vs : List Value) → AreAhead self.old vs → NextItem self.old vs result self.new }
    {
        let schema = self.schema;
        self.next_by(schema)
    }
}
