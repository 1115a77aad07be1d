//! The pairs of a map of columns, one after the other where they lie in the file.

ghost use Rattle.std.specs.Prelude.{◌≡◌, ◌++◌, ℤ, List, [], ◌∷◌, IfOk, IfSome};
ghost use Rattle.contract_words.specs.Outcome.{Gives};
ghost use Rattle.avro_schema.specs.Tree.{Tree};
ghost use Rattle.avro_schema.specs.View.{tree};
ghost use Rattle.avro_file.specs.Value.{Value, values_of};
ghost use Rattle.avro_file.specs.Blocks.{StandsAt};
ghost use Rattle.avro_file.specs.Picking.{Picked};
ghost use Rattle.avro_file_picked.specs.Finding.{IsMet};
ghost use Rattle.avro_file_picked.specs.Guides.{ids_in, IsGuideOf, IsGuideFor, AreAsked, MayGuide};
ghost use Rattle.ice_value.specs.Pairs.{count_said, counts_said, bound_said, bounds_said};
ghost use Rattle.ice_manifest_fields.specs.Each.{each};
ghost use Rattle.ice_manifest_fields.specs.Fields.{there, items_as, long_at, int_at};
ghost use Rattle.ice_manifest_fields.specs.Maps.{count_of as count_of_item, bound_of as bound_of_item};
ghost use Rattle.ice_manifest_fields.specs.Naming.{in_manifest, told};
ghost use Rattle.ice_manifest_fields.specs.Seen.{result_map};
ghost use Rattle.ice_manifest_values.specs.InPlace.{Stands, AreAhead};
ghost use Rattle.ice_manifest_values.specs.Met.{pair_ids, pair_field_paths, counts_in, bounds_in, LeadsToMap};

use crate::field::{int_asked, long_asked};
use crate::items::{ItemsAhead, items_of};
use crate::leaf::binary;
use crate::standing::Standing;
use avro_file_picked::{Found, Guide, GuidedObject};
use avro_schema::Schema;
use ice_manifest_fields::{ColumnMap, FieldFault, ManifestFault};
use std::alloc::{AllocError, Global};

/// The field id of an entry's file.
const DATA_FILE: i32 = 2;

/// Puts the field path behind the field paths.
pub fn push_field_path(
    alloc: Global,
    ids: &[i32],
    field_paths: &mut Vec<Vec<i32>>,
) -> Result<(), AllocError>
    ensures { IfOk result (λ _. ids_in field_paths.new.items ≡ ids_in field_paths.old.items ++ ids.now ∷ []) }
{
    field_paths.push(Vec::from_slice(alloc, ids)?)?;
    Ok(())
}

/// The field paths to the key of a pair and to what it says.
fn field_paths_of(alloc: Global, map: ColumnMap) -> Result<Vec<Vec<i32>>, AllocError>
    ensures { IfOk result (λ field_paths. ids_in field_paths.items ≡ pair_field_paths map) }
{
    let mut field_paths = Vec::new(alloc);
    push_field_path(alloc, &[map.key], &mut field_paths)?;
    push_field_path(alloc, &[map.said], &mut field_paths)?;
    Ok(field_paths)
}

/// The guide of a pair's type, for its key and for what it says.
fn pair_guide<'s>(
    alloc: Global,
    schema: &'s Schema,
    map: ColumnMap,
) -> Result<Guide<'s>, AllocError>
    ensures { IfOk result (IsGuideFor (pair_ids map) (tree schema.now)) }
{
    let field_paths = field_paths_of(alloc, map)?;
    Guide::new(alloc, schema, &field_paths)
}

/// The guide of the pairs of a map, taken from that of the entry in which the map stands.
fn guide_of_pairs<'e, 's>(
    guided: &Option<GuidedObject<'e, 's, '_>>,
    map: ColumnMap,
) -> Option<&'e Guide<'s>>
    ensures { (met : Picked) → LeadsToMap map guided.now met → MayGuide (pair_ids map) result met }
{
    match guided {
        Some(guided) => guided.items_guide(&[DATA_FILE, map.id]),
        None => None,
    }
}

/// A whole number of 64 bits at a field of an item.
fn long_in(guide: &Guide, bytes: &[u8], id: i32) -> Result<i64, FieldFault>
    ensures { (field_paths : List (List ℤ)) (t : Tree) (v : Value) → IsGuideOf field_paths t guide.now → AreAsked field_paths (id ∷ [])
        → StandsAt t bytes.now v → result ≡ long_at id (t, v) }
{
    long_asked(guide.found(&[id], bytes), id)
}

/// A whole number of 32 bits at a field of an item.
fn int_in(guide: &Guide, bytes: &[u8], id: i32) -> Result<i32, FieldFault>
    ensures { (field_paths : List (List ℤ)) (t : Tree) (v : Value) → IsGuideOf field_paths t guide.now → AreAsked field_paths (id ∷ [])
        → StandsAt t bytes.now v → result ≡ int_at id (t, v) }
{
    int_asked(guide.found(&[id], bytes), id)
}

/// The count that an item of a map says.
fn count_of(guide: &Guide, item: &Standing, map: ColumnMap) -> Result<(i32, i64), FieldFault>
    ensures { (v : Value) → IsGuideFor (pair_ids map) (tree item.now.schema.now) guide.now → Stands item.now v →
        result_map count_said result ≡ count_of_item map (tree item.now.schema.now, v) }
{
    Ok((
        int_in(guide, item.bytes, map.key)?,
        long_in(guide, item.bytes, map.said)?,
    ))
}

fn each_count(
    alloc: Global,
    mut items: ItemsAhead,
    guide: &Guide,
    map: ColumnMap,
) -> Result<Vec<(i32, i64)>, ManifestFault>
    ensures { (vs : List Value) → IsGuideFor (pair_ids map) (tree items.entry.schema.now) guide.now
        → AreAhead items.entry vs → Gives ManifestFault.Memory (λ counts. counts_said counts.items) result
        (told in_manifest (each (count_of_item map) (items_as (tree items.entry.schema.now) (values_of vs)))) }
{
    let mut counts = Vec::new(alloc);
    'items: while let Some(item) = items.next_passed(guide.passing()) {
        counts.push(count_of(guide, &item, map)?)?;
    }
    Ok(counts)
}

/// The counts that the items to come say, by a guide of their own. None is made for no items.
fn counts_unguided(
    alloc: Global,
    items: ItemsAhead,
    map: ColumnMap,
) -> Result<Vec<(i32, i64)>, ManifestFault>
    ensures { (vs : List Value) → AreAhead items.entry vs →
        Gives ManifestFault.Memory (λ counts. counts_said counts.items) result
        (told in_manifest (each (count_of_item map) (items_as (tree items.entry.schema.now) (values_of vs)))) }
{
    match items.at_item() {
        Some(_) => {
            let guide = pair_guide(alloc, items.schema, map)?;
            each_count(alloc, items, &guide, map)
        }
        None => Ok(Vec::new(alloc)),
    }
}

/// The counts that the items to come say.
fn counts_ahead(
    alloc: Global,
    items: ItemsAhead,
    guide: Option<&Guide>,
    map: ColumnMap,
) -> Result<Vec<(i32, i64)>, ManifestFault>
    ensures { (vs : List Value)
        → IfSome guide.entry (λ guide. IsGuideFor (pair_ids map) (tree items.entry.schema.now) guide.now)
        → AreAhead items.entry vs → Gives ManifestFault.Memory (λ counts. counts_said counts.items) result
        (told in_manifest (each (count_of_item map) (items_as (tree items.entry.schema.now) (values_of vs)))) }
{
    match guide {
        Some(guide) => each_count(alloc, items, guide, map),
        None => counts_unguided(alloc, items, map),
    }
}

/// The counts that a map says; none where no map was found.
pub(crate) fn counts_in_place(
    alloc: Global,
    found: Option<Found>,
    guided: &Option<GuidedObject>,
    map: ColumnMap,
) -> Result<Vec<(i32, i64)>, ManifestFault>
    ensures { (met : Picked) → IsMet found.entry met → LeadsToMap map guided.now met →
        Gives ManifestFault.Memory (λ counts. counts_said counts.items) result
        (told in_manifest (counts_in map (there met))) }
{
    match items_of(found) {
        Some(items) => counts_ahead(alloc, items, guide_of_pairs(guided, map), map),
        None => Ok(Vec::new(alloc)),
    }
}

/// The bound that an item of a map says.
fn bound_of<'d>(
    guide: &Guide,
    item: &Standing<'_, 'd>,
    map: ColumnMap,
) -> Result<(i32, &'d [u8]), FieldFault>
    ensures { (v : Value) → IsGuideFor (pair_ids map) (tree item.now.schema.now) guide.now → Stands item.now v →
        result_map bound_said result ≡ bound_of_item map (tree item.now.schema.now, v) }
{
    let column = int_in(guide, item.bytes, map.key)?;
    match binary(guide.found(&[map.said], item.bytes)) {
        Some(bound) => Ok((column, bound)),
        None => Err(FieldFault::Missing(map.said)),
    }
}

fn each_bound<'d>(
    alloc: Global,
    mut items: ItemsAhead<'_, 'd>,
    guide: &Guide,
    map: ColumnMap,
) -> Result<Vec<(i32, &'d [u8])>, ManifestFault>
    ensures { (vs : List Value) → IsGuideFor (pair_ids map) (tree items.entry.schema.now) guide.now
        → AreAhead items.entry vs → Gives ManifestFault.Memory (λ bounds. bounds_said bounds.items) result
        (told in_manifest (each (bound_of_item map) (items_as (tree items.entry.schema.now) (values_of vs)))) }
{
    let mut bounds = Vec::new(alloc);
    'items: while let Some(item) = items.next_passed(guide.passing()) {
        bounds.push(bound_of(guide, &item, map)?)?;
    }
    Ok(bounds)
}

/// The bounds that the items to come say, by a guide of their own. None is made for no items.
fn bounds_unguided<'d>(
    alloc: Global,
    items: ItemsAhead<'_, 'd>,
    map: ColumnMap,
) -> Result<Vec<(i32, &'d [u8])>, ManifestFault>
    ensures { (vs : List Value) → AreAhead items.entry vs →
        Gives ManifestFault.Memory (λ bounds. bounds_said bounds.items) result
        (told in_manifest (each (bound_of_item map) (items_as (tree items.entry.schema.now) (values_of vs)))) }
{
    match items.at_item() {
        Some(_) => {
            let guide = pair_guide(alloc, items.schema, map)?;
            each_bound(alloc, items, &guide, map)
        }
        None => Ok(Vec::new(alloc)),
    }
}

/// The bounds that the items to come say.
fn bounds_ahead<'d>(
    alloc: Global,
    items: ItemsAhead<'_, 'd>,
    guide: Option<&Guide>,
    map: ColumnMap,
) -> Result<Vec<(i32, &'d [u8])>, ManifestFault>
    ensures { (vs : List Value)
        → IfSome guide.entry (λ guide. IsGuideFor (pair_ids map) (tree items.entry.schema.now) guide.now)
        → AreAhead items.entry vs → Gives ManifestFault.Memory (λ bounds. bounds_said bounds.items) result
        (told in_manifest (each (bound_of_item map) (items_as (tree items.entry.schema.now) (values_of vs)))) }
{
    match guide {
        Some(guide) => each_bound(alloc, items, guide, map),
        None => bounds_unguided(alloc, items, map),
    }
}

/// The bounds that a map says; none where no map was found.
pub(crate) fn bounds_in_place<'d>(
    alloc: Global,
    found: Option<Found<'_, 'd>>,
    guided: &Option<GuidedObject>,
    map: ColumnMap,
) -> Result<Vec<(i32, &'d [u8])>, ManifestFault>
    ensures { (met : Picked) → IsMet found.entry met → LeadsToMap map guided.now met →
        Gives ManifestFault.Memory (λ bounds. bounds_said bounds.items) result
        (told in_manifest (bounds_in map (there met))) }
{
    match items_of(found) {
        Some(items) => bounds_ahead(alloc, items, guide_of_pairs(guided, map), map),
        None => Ok(Vec::new(alloc)),
    }
}
