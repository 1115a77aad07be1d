//! What a filter leaves out of a table.

ghost use Rattle.std.specs.Prelude.{◌≡◌, ◌<◌, IfOk, OnOk, Option, None, Some, List, length, map, option_map};
ghost use Rattle.std.specs.Prelude.{int_lt, replicate, slice_get};
ghost use Rattle.std.specs.Option.{option_copied};
ghost use Rattle.std.specs.Ordering.{int_eq};
ghost use Rattle.ice_project.specs.Projection.{projection};
ghost use Rattle.ice_state.specs.Parts.{AreById, AreProjected, if_of, filtered_by, pruner_by};
ghost use Rattle.ice_state.specs.Pruning.{pruner_of, keeps, summaries_allow};
ghost use Rattle.ice_state.specs.Specs.{spec_of, by_id};

use crate::scan::room::{MOST_HELD, bytes_of};
use ice_filter::Bound;
use ice_manifest_reading::{EntryView, Keep, Live, Row};
use ice_meta::Spec;
use ice_project::{PartFilter, bounds_may, project, summary_may};
use ice_value::FileContent;
use shared_value::Shared;
use std::alloc::{AllocError, Global};
use std::marker::Model;

/// A filter through one partition spec: what the manifests of that spec are read by.
#[derive(Debug, Drop)]
pub(crate) struct SpecFilter<'a> {
    spec: &'a Spec,
    part: Shared<PartFilter>,
    filter: &'a Bound,
}

impl<'a> Model for SpecFilter<'a> {
    ghost use Rattle.std.specs.Prelude.{◌≡◌};
    ghost use Rattle.ice_project.specs.Projection.{projection};
    ghost use Rattle.ice_state.specs.Parts.{OfSpec};

    ghost Value = { OfSpec };

    ghost view = { λ f. record { spec = f.spec.now; filter = f.filter.now.parts } };

    ghost invariant = { λ f. f.part ≡ projection f.filter.now.parts f.spec.now };
}

impl<'a> SpecFilter<'a> {
    /// The spec.
    pub(crate) fn spec(&self) -> &'a Spec
        ensures { result.now ≡ self.now.spec }
    {
        self.spec
    }

    /// Whether the manifest of a row of the spec may have a kept entry.
    fn wants(&self, row: &Row) -> bool
        ensures { result ≡ summaries_allow (projection self.now.filter self.now.spec) row.now.partitions }
    {
        match &row.partitions {
            Some(summaries) => summary_may(self.part.get(), summaries.as_slice()),
            None => true,
        }
    }
}

impl<'a> Keep for SpecFilter<'a> {
    ghost kept = { λ f. keeps (pruner_by f) };

    fn keeps(&self, live: &Live<'_, '_>) -> bool {
        self.part.get().meets(live.entry.tuple())
            && (live.entry.content() != FileContent::Data || bounds_may(self.filter, &live.bounds))
    }

    fn without_columns(&self, entry: &EntryView<'_>) -> Option<bool> {
        if !self.part.get().meets(entry.tuple()) {
            Some(false)
        } else if entry.content() != FileContent::Data || self.filter.parts.as_slice().is_empty() {
            Some(true)
        } else {
            None
        }
    }
}

/// The partition specs of a table, sorted by their ids, and a filter. Its projections through the specs of the rows
/// that were looked at are held, as far as there is room for them: a filter's literals through all fields of all specs
/// may be many times as large as filter and specs. One that is not held is made where a manifest of its spec is read.
#[derive(Debug, Drop)]
pub(crate) struct Pruning {
    specs: Vec<Spec>,
    /// Those that are held, each at the place of its spec.
    parts: Vec<Option<Shared<PartFilter>>>,
    filter: Bound,
    /// How many bytes a projection takes for each field of the spec, about.
    bytes: usize,
    /// How many bytes more may be held, about.
    room: usize,
}

impl Model for Pruning {
    ghost use Rattle.ice_state.specs.Parts.{Filtered, AreById, AreProjected};

    ghost Value = { Filtered };

    ghost view = { λ p. record { specs = p.specs.items; filter = p.filter.parts } };

    ghost invariant = { λ p. record {
      by_id : AreById p.specs.items;
      held : AreProjected p.filter.parts p.specs.items p.parts.items;
    } };
}

impl Pruning {
    /// By these specs, in whatever order they come. No projection is held yet.
    pub(crate) fn new(
        alloc: Global,
        mut specs: Vec<Spec>,
        filter: Bound,
    ) -> Result<Pruning, AllocError>
        ensures specs { IfOk result (λ pruning. pruning.specs ≡ by_id specs.items) }
        ensures filter { IfOk result (λ pruning. pruning.filter ≡ filter.parts) }
    {
        sort_by_id(&mut specs)?;
        let parts = none_held(alloc, specs.len())?;
        let bytes = bytes_of(&filter);
        Ok(Pruning {
            specs,
            parts,
            filter,
            bytes,
            room: MOST_HELD,
        })
    }

    /// The specs.
    pub(crate) fn specs(&self) -> &[Spec]
        ensures { result.now ≡ self.now.specs }
    {
        &self.specs
    }

    /// The spec whose id the row has, where there is one: the first of those that share the id.
    pub(crate) fn spec_of_row(&self, row: &Row) -> Option<&Spec>
        ensures { option_copied result ≡ spec_of self.now.specs row.now.spec_id }
    {
        match self.specs.get(place_of(&self.specs, row)) {
            Some(spec) if spec.id == row.spec_id => Some(spec),
            _ => None,
        }
    }

    /// The filter through the spec at a place.
    fn through<'a>(
        &'a self,
        alloc: Global,
        at: usize,
        spec: &'a Spec,
    ) -> Result<SpecFilter<'a>, AllocError>
        requires { slice_get self.now.specs at ≡ Some spec.now }
        ensures { IfOk result (λ found. found ≡ filtered_by self.now.filter spec.now) }
    {
        let part = match self.parts.get(at) {
            Some(Some(part)) => part.share()?,
            _ => Shared::new(alloc, project(alloc, &self.filter, spec)?)?,
        };
        Ok(SpecFilter {
            spec,
            part,
            filter: &self.filter,
        })
    }

    /// The filter through the spec whose id the row has, where there is one: the first of those that share the id.
    pub(crate) fn of_row(
        &self,
        alloc: Global,
        row: &Row,
    ) -> Result<Option<SpecFilter<'_>>, AllocError>
        ensures { IfOk result (λ found. found
            ≡ option_map (filtered_by self.now.filter) (spec_of self.now.specs row.now.spec_id)) }
    {
        let at = place_of(&self.specs, row);
        match self.specs.get(at) {
            Some(spec) if spec.id == row.spec_id => Ok(Some(self.through(alloc, at, spec)?)),
            _ => Ok(None),
        }
    }

    /// Holds the projection through the row's spec, where there is room for it.
    fn hold(&mut self, alloc: Global, row: &Row) -> Result<(), AllocError>
        ensures { self.new ≡ self.old }
    {
        let at = place_of(&self.specs, row);
        if at >= self.specs.len() || at >= self.parts.len() || self.parts[at].is_some() {
            return Ok(());
        }
        let bytes = self.specs[at]
            .fields
            .as_slice()
            .len()
            .saturating_mul(self.bytes);
        if bytes > self.room {
            return Ok(());
        }
        let part = project(alloc, &self.filter, &self.specs[at])?;
        self.parts[at] = Some(Shared::new(alloc, part)?);
        self.room -= bytes;
        Ok(())
    }

    /// How many bytes the projection takes that is made where the row's manifest is read, about: none where it is held.
    pub(crate) fn bytes_made(&self, row: &Row) -> usize {
        let at = place_of(&self.specs, row);
        if let Some(Some(_)) = self.parts.get(at) {
            return 0;
        }
        match self.specs.get(at) {
            Some(spec) => spec.fields.as_slice().len().saturating_mul(self.bytes),
            None => 0,
        }
    }

    /// Whether the row's manifest has to be read.
    pub(crate) fn wants(&mut self, alloc: Global, row: &Row) -> Result<bool, AllocError>
        ensures wanted { IfOk result (λ wanted. wanted ≡ (pruner_of self.old.filter self.old.specs).wants row.now) }
        ensures same { self.new ≡ self.old }
    {
        self.hold(alloc, row)?;
        if row.partitions.is_none() {
            return Ok(self.spec_of_row(row).is_some());
        }
        let found = self.of_row(alloc, row)?;
        match found {
            Some(filter) => Ok(filter.wants(row)),
            None => Ok(false),
        }
    }
}

/// So many places at which nothing is held.
fn none_held(alloc: Global, many: usize) -> Result<Vec<Option<Shared<PartFilter>>>, AllocError>
    ensures { IfOk result (λ parts. parts.items ≡ replicate many None) }
{
    let mut parts = Vec::with_capacity(alloc, many)?;
    for _ in 0..many {
        parts.push(None)?;
    }
    Ok(parts)
}

/// Puts specs in the order of their ids.
fn sort_by_id(specs: &mut Vec<Spec>) -> Result<(), AllocError>
    ensures { OnOk result (specs.new.items ≡ by_id specs.old.items) }
{
    specs.sort_by(|a, b| a.id.cmp(&b.id))?;
    Ok(())
}

/// The place of the first spec whose id isn't below the row's: where any has the row's id, this one has.
fn place_of(specs: &[Spec], row: &Row) -> usize
    requires { AreById specs.now }
    ensures { spec_of specs.now row.now.spec_id ≡ if_of row.now.spec_id (slice_get specs.now result) }
{
    specs.partition_point(
        |spec: &Spec| -> bool
            ensures { result ≡ int_lt spec.now.id row.entry.now.spec_id }
        { spec.id < row.spec_id },
    )
}
