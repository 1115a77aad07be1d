//! Public calls once more, each under the one clause that its wrong implementations turn, so that the gate can try these
//! cheaply.

ghost use Rattle.std.specs.Prelude.{◌≡◌, IfOk, Some};
ghost use Rattle.contract_words.specs.Outcome.{Gives};
ghost use Rattle.ice_filter.specs.Binding.{bound_parts};
ghost use Rattle.ice_filter.specs.Parsing.{filter_of};
ghost use Rattle.ice_filter.specs.Trees.{tree_of};
ghost use Rattle.ice_meta.specs.Partitioning.{is_unpartitioned};
ghost use Rattle.ice_meta.specs.Targets.{described, metadata_of, resolved, schema_for};
ghost use Rattle.ice_meta_json.specs.Upgraded.{filled};
ghost use Rattle.ice_project.specs.Projection.{projection};
ghost use Rattle.ice_project.specs.Summaries.{summaries_may};
ghost use Rattle.ice_project.specs.Tuples.{part_meets};
ghost use Rattle.serde_json.specs.View.{view};

use ice_filter::{Bound, Filter, FilterFault};
use ice_meta::{MetaFault, Metadata, Schema, Spec, Target};
use ice_project::PartFilter;
use ice_value::{Cell, Summary};
use serde_json::Value;
use std::alloc::{AllocError, Global};

/// The document with the sequence number of each snapshot, also where it is left out.
pub fn filled(alloc: Global, json: Value) -> Result<Value, AllocError>
    ensures { IfOk result (λ full. view full ≡ filled (view json)) }
{
    ice_meta_json::filled(alloc, json)
}

/// Reads metadata, or answers its first fault.
pub fn read(alloc: Global, bytes: &[u8]) -> Result<Metadata, MetaFault>
    ensures { Gives MetaFault.Memory (λ metadata. described metadata.json metadata.table) result
        (metadata_of bytes.now) }
{
    Metadata::read(alloc, bytes)
}

/// The id of the snapshot that is asked for.
pub fn resolve(metadata: &Metadata, target: &Target) -> Result<i64, MetaFault>
    ensures { result ≡ resolved target.now metadata.now.table }
{
    metadata.resolve(target)
}

/// The schema that filters of the target are bound to.
pub fn schema_for<'a>(metadata: &'a Metadata, target: &Target) -> &'a Schema
    ensures { Some result.now ≡ schema_for target.now metadata.now.table }
{
    metadata.schema_for(target)
}

/// Whether the spec has no field but void ones.
pub fn is_unpartitioned(spec: &Spec) -> bool
    ensures { result ≡ is_unpartitioned spec.now }
{
    spec.is_unpartitioned()
}

/// The filter of a text.
pub fn parse(alloc: Global, text: &str) -> Result<Filter, FilterFault>
    ensures { Gives FilterFault.Memory (λ f. tree_of f) result (filter_of text.now) }
{
    ice_filter::parse(alloc, text)
}

/// The filter over the columns of a schema.
pub fn bind(alloc: Global, filter: &Filter, schema: &Schema) -> Result<Bound, FilterFault>
    ensures { Gives FilterFault.Memory (λ b. b.parts) result (bound_parts schema.now filter.now) }
{
    ice_filter::bind(alloc, filter, schema)
}

/// The filter on partition values that every file with a matching row meets.
pub fn project(alloc: Global, filter: &Bound, spec: &Spec) -> Result<PartFilter, AllocError>
    ensures { IfOk result (λ part. part ≡ projection filter.now.parts spec.now) }
{
    ice_project::project(alloc, filter, spec)
}

/// Whether a manifest with these summaries may have a file whose partition values meet the filter.
pub fn summary_may(part: &PartFilter, summaries: &[Summary]) -> bool
    ensures { result ≡ summaries_may part.now summaries.now }
{
    ice_project::summary_may(part, summaries)
}

/// Whether these partition values meet the filter.
pub fn meets(part: &PartFilter, tuple: &[Cell]) -> bool
    ensures { result ≡ part_meets part.now tuple.now }
{
    part.meets(tuple)
}
