//! The items of a found list.

ghost use Rattle.std.specs.Prelude.{◌≡◌, List};
ghost use Rattle.contract_words.specs.Outcome.{Gives};
ghost use Rattle.avro_schema.specs.View.{tree};
ghost use Rattle.avro_file.specs.Value.{Value, values_of};
ghost use Rattle.avro_file.specs.Picking.{Picked};
ghost use Rattle.avro_file_picked.specs.Finding.{IsMet};
ghost use Rattle.ice_manifest_fields.specs.Each.{each};
ghost use Rattle.ice_manifest_fields.specs.Fields.{items_as, int_item as int_of_item};
ghost use Rattle.ice_manifest_fields.specs.Naming.{in_manifest, told};
ghost use Rattle.ice_manifest_values.specs.InPlace.{Stands, AreAhead};
ghost use Rattle.ice_manifest_values.specs.Met.{ints_met};

use crate::items::{ItemsAhead, items_of};
use crate::leaf::whole_there;
use crate::standing::Standing;
use avro_file_picked::Found;
use contract_words::Items;
use ice_manifest_fields::{FieldFault, ManifestFault, within_32};
use std::alloc::Global;

/// A whole number of 32 bits that is an item of a list.
#[tactic(auto, unfolding(ice_manifest_fields::specs::Fields::int_item))]
fn int_item(item: &Standing, id: i32) -> Result<i32, FieldFault>
    ensures { (v : Value) → Stands item.now v → result ≡ int_of_item id (tree item.now.schema.now, v) }
{
    match whole_there(item.itself()) {
        Some(number) => within_32(number, id),
        None => Err(FieldFault::Missing(id)),
    }
}

/// The whole numbers of 32 bits that the items to come are, which have this id.
fn each_int(alloc: Global, mut items: ItemsAhead, id: i32) -> Result<Items<i32>, ManifestFault>
    ensures { (vs : List Value) → AreAhead items.entry vs → Gives ManifestFault.Memory (λ ids. ids) result
        (told in_manifest (each (int_of_item id) (items_as (tree items.entry.schema.now) (values_of vs)))) }
{
    let mut ids = Items::new(alloc);
    'items: while let Some(item) = items.next() {
        ids.push(int_item(&item, id)?)?;
    }
    Ok(ids)
}

/// The whole numbers of a list, whose items have this id; none where no list was found.
pub fn ints(
    alloc: Global,
    found: Option<Found<'_, '_>>,
    item: i32,
) -> Result<Items<i32>, ManifestFault>
    ensures { (met : Picked) → IsMet found.entry met →
        Gives ManifestFault.Memory (λ ids. ids) result (told in_manifest (ints_met item met)) }
{
    match items_of(found) {
        Some(items) => each_int(alloc, items, item),
        None => Ok(Items::new(alloc)),
    }
}
