//! Which values of an object are wanted.

ghost use Rattle.std.specs.Prelude.{◌≡◌, ◌≤◌, map, length, drop, IfOk, IfSome};
ghost use Rattle.avro_file.specs.Value.{Value};
ghost use Rattle.avro_file.specs.Blocks.{StandsAt};
ghost use Rattle.avro_file.specs.Picking.{pick};
ghost use Rattle.avro_file_picked.specs.Finding.{IsMet};
ghost use Rattle.avro_file_picked.specs.Guides.{ids_in, IsGuideOf};
ghost use Rattle.avro_schema.specs.View.{tree};

use crate::found::{Found, branches_of, fields_of, found_here, found_on_field_path, items_of};
use crate::guide::{Guide, GuidedObject, found_by, guide_of};
use crate::places::Places;
use crate::row::{Lead, Step, lead_of, row_end, steps_of};
use avro_file::{AvroFault, Datum, Object, Objects, lean_schema};
use avro_schema::Schema;
use std::alloc::{AllocError, Global};

/// Field paths from the objects of a type to the values that are wanted of each.
#[derive(Debug, Drop)]
pub struct Layout<'s> {
    schema: &'s Schema,
    /// Its values end where those of the type do.
    passing: Schema,
    field_paths: Vec<Vec<i32>>,
    /// The row of the type.
    steps: Vec<Step>,
    /// Where each field path leads in it.
    leads: Vec<Option<Lead<'s>>>,
    /// What field paths are walked by that go on behind a union, and the items of lists; none where none of them needs it.
    guide: Option<Guide<'s>>,
}

/// Whether the type has no types within it.
fn is_simple(schema: &Schema) -> bool {
    !matches!(
        schema,
        Schema::Record(_) | Schema::Union(_) | Schema::Array(_, _, _) | Schema::Map(_)
    )
}

/// Whether values of the type are walked in few steps without a guide: simple ones, and pairs of simple ones.
fn is_short(schema: &Schema) -> bool {
    match fields_of(schema) {
        [first, second] => is_simple(&first.schema) && is_simple(&second.schema),
        _ => is_simple(schema),
    }
}

/// Whether the type is a list whose items are walked by a guide.
fn has_long_items(schema: &Schema) -> bool {
    match items_of(schema) {
        Some(items) => !is_short(items),
        None => false,
    }
}

/// Whether values of the type may be a list whose items are walked by a guide.
fn may_have_long_items(schema: &Schema) -> bool {
    match branches_of(schema) {
        Some(branches) => branches.iter().any(has_long_items),
        None => has_long_items(schema),
    }
}

/// Whether a field path goes on behind the value to which it leads in the row, or leads to a list whose items are walked by a
/// guide. It tells nothing but how field paths are walked.
fn any_is_guided(field_paths: &[Vec<i32>], leads: &[Option<Lead>]) -> bool {
    'field_paths: for (field_path, lead) in field_paths.iter().zip(leads) {
        match lead {
            Some(lead) if lead.passed < field_path.len() || may_have_long_items(lead.schema) =>
                return true,
            _ => {}
        }
    }
    false
}

/// The guide of a type for these field paths; none where none of them needs one.
fn guide_behind<'s>(
    alloc: Global,
    schema: &'s Schema,
    field_paths: &[Vec<i32>],
    leads: &[Option<Lead<'s>>],
) -> Result<Option<Guide<'s>>, AllocError>
    ensures { IfOk result (λ some. IfSome some (λ guide. IsGuideOf (ids_in field_paths.now) (tree schema.now) guide)) }
{
    if !any_is_guided(field_paths, leads) {
        return Ok(None);
    }
    Ok(Some(guide_of(alloc, None, schema, field_paths)?))
}

impl<'s> Layout<'s> {
    ghost use Rattle.std.specs.Result.{IfErr};
    ghost use Rattle.avro_file.specs.Files.{ahead, type_of, Shows};
    ghost use Rattle.std.specs.Prelude.{◌<◌};
    ghost use Rattle.avro_file.specs.Files.{Next};
    ghost use Rattle.avro_file_picked.specs.Finding.{layout_tree, field_paths_of, ArePicked, NextPicked};
    ghost use Rattle.avro_file_picked.specs.Placing.{field_path_of, IsLayout, FitsLayout, ArePlaced};
    ghost use Rattle.avro_file_picked.specs.Guides.{IsGuided};

    /// The layout of a type for field paths, which each begin at the object and go through records and through
    /// the branches that unions choose; `[]` is the object itself. `Memory` is its only refusal.
    pub fn new(
        alloc: Global,
        schema: &'s Schema,
        field_paths: &[Vec<i32>],
    ) -> Result<Layout<'s>, AvroFault>
        ensures schema { IfOk result (λ layout. layout_tree layout ≡ tree schema.now) }
        ensures field_paths { IfOk result (λ layout. field_paths_of layout ≡ map (λ field_path. field_path.items) field_paths.now) }
        ensures leads { IfOk result IsLayout }
        ensures memory { IfErr result (λ e. e ≡ AvroFault.Memory) }
    {
        let steps = steps_of(alloc, schema)?;
        let mut kept = Vec::with_capacity(alloc, field_paths.len())?;
        let mut leads = Vec::with_capacity(alloc, field_paths.len())?;
        'field_paths: for field_path in field_paths {
            leads.push(lead_of(schema, field_path))?;
            kept.push(Vec::from_slice(alloc, field_path)?)?;
        }
        let passing = lean_schema(alloc, schema)?;
        let guide = guide_behind(alloc, schema, field_paths, &leads)?;
        Ok(Layout {
            schema,
            passing,
            field_paths: kept,
            steps,
            leads,
            guide,
        })
    }

    /// What stands where each field path leads from the object.
    fn picked<'a>(
        &self,
        alloc: Global,
        object: Object<'_, 'a>,
    ) -> Result<Vec<Option<Datum<'a>>>, AllocError>
        requires { layout_tree self.now ≡ tree object.schema.now }
        ensures { (v : Value) → Shows object.entry v →
            IfOk result (λ found. ArePicked (layout_tree self.now) (field_paths_of self.now) found v) }
    {
        let mut found = Vec::with_capacity(alloc, self.field_paths.len())?;
        'field_paths: for field_path in &self.field_paths {
            found.push(Found::datum_on_field_path(alloc, object, field_path)?)?;
        }
        Ok(found)
    }

    /// What the next object has where each field path leads: the values, none where a field on the field path is absent or a null is
    /// met; or none at all at the end of the file. No other value is built.
    ///
    /// Faults and what follows are those of `Objects::next`. Where memory lacks, nothing is passed, and a further call
    /// tries the same object.
    pub fn next_with<'a>(
        &self,
        alloc: Global,
        objects: &mut Objects<'_, 'a>,
    ) -> Result<Option<Vec<Option<Datum<'a>>>>, AvroFault>
        requires { layout_tree self.now ≡ type_of objects.old }
        ensures next { NextPicked (layout_tree self.now) (field_paths_of self.now) (ahead objects.old) result
            (ahead objects.new) }
        ensures schema { type_of objects.new ≡ type_of objects.old }
    {
        let mut after = objects.fork();
        let next = match after.next() {
            Ok(Some(object)) => Ok(Some(self.picked(alloc, object)?)),
            Ok(None) => Ok(None),
            Err(fault) => Err(fault),
        };
        *objects = after;
        next
    }

    /// A list for the places of the values, to be used again for each object.
    pub fn places(&self, alloc: Global) -> Result<Places, AllocError>
        requires { IsLayout self.now }
        ensures { IfOk result (λ places. FitsLayout self.now places) }
    {
        let starts = vec![in alloc; 0; self.steps.len()]?;
        Ok(Places { starts, end: None })
    }

    /// The next object as `Objects::next` gives it, with the places of its values: one look finds its end and all
    /// places, where nothing about it is odd. Nothing is built or allocated.
    pub fn next_placed<'o, 'a>(
        &self,
        objects: &mut Objects<'o, 'a>,
        places: &mut Places,
    ) -> Result<Option<Object<'o, 'a>>, AvroFault>
        requires schema { layout_tree self.now ≡ type_of objects.old }
        requires fits { FitsLayout self.now places.old }
        ensures next { Next Shows (ahead objects.old) result (ahead objects.new) }
        ensures schema { type_of objects.new ≡ type_of objects.old }
        ensures placed { IfOk result (λ next. IfSome next (λ object. ArePlaced self.now object places.new)) }
        ensures fits { FitsLayout self.now places.new }
    {
        let Some(bytes) = objects.front()? else {
            return Ok(None);
        };
        let end = row_end(&self.steps, bytes, &mut places.starts);
        places.end = end;
        match end {
            Some(end) => Ok(Some(objects.pass(end))),
            None => objects.next_alike(&self.passing),
        }
    }

    /// An object and the guide of its type for the layout's field paths; none where no guide was made, since all of them are
    /// walked in few steps without.
    pub fn guided<'a>(&self, object: Object<'s, 'a>) -> Option<GuidedObject<'_, 's, 'a>>
        requires layout { IsLayout self.now }
        requires schema { tree object.schema.now ≡ layout_tree self.now }
        ensures { (v : Value) → Shows object.entry v →
            IfSome result (λ guided. IsGuided (field_paths_of self.now) (layout_tree self.now) v guided) }
    {
        match &self.guide {
            Some(guide) => Some(GuidedObject {
                guide,
                bytes: object.bytes(),
            }),
            None => None,
        }
    }

    /// What stands where the field path of this number leads from an object whose values were placed; none where a field on
    /// it is absent, or a null is met. It has the type of the branch that a union chose.
    pub fn found<'a>(
        &self,
        object: Object<'s, 'a>,
        places: &Places,
        field_path: usize,
    ) -> Option<Found<'s, 'a>>
        requires field_path { field_path < length (field_paths_of self.now) }
        requires placed { ArePlaced self.now object places.now }
        ensures { (v : Value) → Shows object.entry v →
            IsMet result (pick (field_path_of self.now field_path) (layout_tree self.now, v)) }
    {
        let Some(end) = places.end else {
            return Found::on_field_path(object, &self.field_paths[field_path]);
        };
        let Some(lead) = self.leads[field_path] else {
            return None;
        };
        let field_path = &self.field_paths[field_path];
        match &self.guide {
            Some(guide) if lead.passed < field_path.len() => found_by(
                guide,
                field_path,
                object.bytes(),
            ),
            _ => {
                let start = places.start_of(lead.step, end);
                found_at(lead, field_path, object.bytes(), start)
            }
        }
    }
}

/// What stands where the field path leads on from a lead, whose value begins at the start. Most field paths end at their leads.
#[inline(always)]
fn found_at<'s, 'a>(
    lead: Lead<'s>,
    field_path: &[i32],
    bytes: &'a [u8],
    start: usize,
) -> Option<Found<'s, 'a>>
    requires passed { lead.passed ≤ length field_path.now }
    requires start { start ≤ length bytes.now }
    ensures { (v : Value) → StandsAt (tree lead.entry.schema.now) (drop start bytes.now) v →
        IsMet result (pick (drop lead.entry.passed field_path.now) (tree lead.entry.schema.now, v)) }
{
    if lead.passed == field_path.len() {
        return found_here(lead.schema, &bytes[start..]);
    }
    found_on_field_path(lead.schema, &field_path[lead.passed..], &bytes[start..])
}
