//! The summaries that a manifest list's row says, read where they lie in the file.

ghost use Rattle.std.specs.Prelude.{◌≡◌, ℤ, List, [], ◌∷◌, Some, IfOk, IfSome};
ghost use Rattle.std.specs.Option.{option_copied};
ghost use Rattle.contract_words.specs.Outcome.{Gives};
ghost use Rattle.avro_schema.specs.Tree.{Tree};
ghost use Rattle.avro_schema.specs.View.{tree};
ghost use Rattle.avro_file.specs.Value.{Value, values_of};
ghost use Rattle.avro_file.specs.Blocks.{StandsAt};
ghost use Rattle.avro_file.specs.Picking.{Picked};
ghost use Rattle.avro_file_picked.specs.Finding.{IsMet};
ghost use Rattle.avro_file_picked.specs.Guides.{ids_in, IsGuideOf, IsGuideFor, AreAsked, MayGuide};
ghost use Rattle.ice_manifest_fields.specs.Each.{each};
ghost use Rattle.ice_manifest_fields.specs.Fields.{there, items_as, items_of as items_said};
ghost use Rattle.ice_manifest_fields.specs.Fields.{truth_at as truth_must_be, optional_truth as truth_if_there};
ghost use Rattle.ice_manifest_fields.specs.Fields.{optional_binary as binary_if_there};
ghost use Rattle.ice_manifest_fields.specs.Naming.{in_list, told};
ghost use Rattle.ice_manifest_values.specs.InPlace.{Stands, AreAhead};
ghost use Rattle.ice_manifest_layouts.specs.RowsFound.{summary_ids};
ghost use Rattle.ice_manifest_reading.specs.Lists.{summary_in as summary_said, summary_of as summary_of_item};
ghost use Rattle.ice_manifest_reading.specs.SummaryFieldPaths.{summary_field_paths};

use avro_file_picked::{Found, Guide};
use avro_schema::Schema;
use contract_words::Items;
use ice_manifest_fields::{FieldFault, ListFault};
use ice_manifest_values::{ItemsAhead, Standing, binary, items_of, push_field_path, truth};
use ice_value::Summary;
use std::alloc::{AllocError, Global};

/// The field paths to what a summary says.
fn field_paths(alloc: Global) -> Result<Vec<Vec<i32>>, AllocError>
    ensures { IfOk result (λ field_paths. ids_in field_paths.items ≡ summary_field_paths) }
{
    let mut field_paths = Vec::new(alloc);
    push_field_path(alloc, &[509], &mut field_paths)?;
    push_field_path(alloc, &[518], &mut field_paths)?;
    push_field_path(alloc, &[510], &mut field_paths)?;
    push_field_path(alloc, &[511], &mut field_paths)?;
    Ok(field_paths)
}

/// The guide of a summary's type, for what it says.
fn summary_guide<'s>(alloc: Global, schema: &'s Schema) -> Result<Guide<'s>, AllocError>
    ensures { IfOk result (IsGuideFor summary_ids (tree schema.now)) }
{
    let field_paths = field_paths(alloc)?;
    Guide::new(alloc, schema, &field_paths)
}

/// A truth value at a field of an item; none where it is absent or null.
fn truth_in(guide: &Guide, bytes: &[u8], id: i32) -> Option<bool>
    ensures { (field_paths : List (List ℤ)) (t : Tree) (v : Value) → IsGuideOf field_paths t guide.now → AreAsked field_paths (id ∷ [])
        → StandsAt t bytes.now v → result ≡ truth_if_there id (t, v) }
{
    truth(guide.found(&[id], bytes))
}

/// A truth value at a field of an item.
fn truth_asked(guide: &Guide, bytes: &[u8], id: i32) -> Result<bool, FieldFault>
    ensures { (field_paths : List (List ℤ)) (t : Tree) (v : Value) → IsGuideOf field_paths t guide.now → AreAsked field_paths (id ∷ [])
        → StandsAt t bytes.now v → result ≡ truth_must_be id (t, v) }
{
    match truth_in(guide, bytes, id) {
        Some(holds) => Ok(holds),
        None => Err(FieldFault::Missing(id)),
    }
}

/// The bytes at a field of an item; none where they are absent or null.
fn binary_in<'a>(guide: &Guide, bytes: &'a [u8], id: i32) -> Option<&'a [u8]>
    ensures { (field_paths : List (List ℤ)) (t : Tree) (v : Value) → IsGuideOf field_paths t guide.now → AreAsked field_paths (id ∷ [])
        → StandsAt t bytes.now v → option_copied result ≡ binary_if_there id (t, v) }
{
    binary(guide.found(&[id], bytes))
}

/// The summary that an item's fields say.
fn summary_in(alloc: Global, guide: &Guide, bytes: &[u8]) -> Result<Summary, ListFault>
    ensures { (t : Tree) (v : Value) → IsGuideFor summary_ids t guide.now → StandsAt t bytes.now v
        → Gives ListFault.Memory (λ x. x) result (told in_list (summary_said (t, v))) }
{
    let contains_null = truth_asked(guide, bytes, 509)?;
    let contains_nan = truth_in(guide, bytes, 518);
    let lower = binary_in(guide, bytes, 510);
    let upper = binary_in(guide, bytes, 511);
    Ok(Summary::new(alloc, contains_null, contains_nan, lower, upper)?)
}

/// The summary that an item of a list says.
fn summary_of(alloc: Global, guide: &Guide, item: &Standing) -> Result<Summary, ListFault>
    requires { IsGuideFor summary_ids (tree item.now.schema.now) guide.now }
    ensures { (v : Value) → Stands item.now v → Gives ListFault.Memory (λ x. x) result
        (told in_list (summary_of_item (tree item.now.schema.now, v))) }
{
    match item.record() {
        Some(_) => summary_in(alloc, guide, item.bytes),
        None => Err(ListFault::MissingField(508)),
    }
}

fn each_summary(
    alloc: Global,
    mut items: ItemsAhead,
    guide: &Guide,
) -> Result<Items<Summary>, ListFault>
    requires { IsGuideFor summary_ids (tree items.schema.now) guide.now }
    ensures { (vs : List Value) → AreAhead items.entry vs → Gives ListFault.Memory (λ x. x) result
        (told in_list (each summary_of_item (items_as (tree items.entry.schema.now) (values_of vs)))) }
{
    let mut summaries = Items::with_capacity(alloc, items.room())?;
    'items: while let Some(item) = items.next_by(guide.passing()) {
        summaries.push(summary_of(alloc, guide, &item)?)?;
    }
    Ok(summaries)
}

/// The summaries that the items to come say, by a guide of their own. None is made for no items.
fn summaries_unguided(alloc: Global, items: ItemsAhead) -> Result<Items<Summary>, ListFault>
    ensures { (vs : List Value) → AreAhead items.entry vs → Gives ListFault.Memory (λ x. x) result
        (told in_list (each summary_of_item (items_as (tree items.entry.schema.now) (values_of vs)))) }
{
    match items.at_item() {
        Some(_) => {
            let guide = summary_guide(alloc, items.schema())?;
            each_summary(alloc, items, &guide)
        }
        None => Ok(Items::new(alloc)),
    }
}

/// The summaries that the items to come say.
fn summaries_of(
    alloc: Global,
    items: ItemsAhead,
    guide: Option<&Guide>,
) -> Result<Items<Summary>, ListFault>
    requires { IfSome guide (λ guide. IsGuideFor summary_ids (tree items.schema.now) guide.now) }
    ensures { (vs : List Value) → AreAhead items.entry vs → Gives ListFault.Memory (λ x. x) result
        (told in_list (each summary_of_item (items_as (tree items.entry.schema.now) (values_of vs)))) }
{
    match guide {
        Some(guide) => each_summary(alloc, items, guide),
        None => summaries_unguided(alloc, items),
    }
}

/// The summaries that a list says, by the guide of its items, if there is one. Any other value says none.
pub fn summaries_in_list(
    alloc: Global,
    found: Found,
    guide: Option<&Guide>,
) -> Result<Items<Summary>, ListFault>
    requires { (met : Picked) × IsMet (Some found) met × MayGuide summary_ids guide met }
    ensures { (met : Picked) → IsMet (Some found.entry) met → Gives ListFault.Memory (λ x. x) result
        (told in_list (each summary_of_item (items_said (there met)))) }
{
    match items_of(Some(found)) {
        Some(items) => summaries_of(alloc, items, guide),
        None => Ok(Items::new(alloc)),
    }
}
