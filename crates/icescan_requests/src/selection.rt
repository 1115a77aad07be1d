//! What a request selects of a table.

ghost use Rattle.std.specs.Prelude.{IfErr};
ghost use Rattle.contract_words.specs.Outcome.{Gives};
ghost use Rattle.ice_meta.specs.Targets.{described, metadata_of};
ghost use Rattle.icescan_text.specs.Faults.{of_filter, of_meta};
ghost use Rattle.icescan_text.specs.Reads.{as_run};
ghost use Rattle.icescan_requests.specs.Selections.{IsOfRequest, bound_in, parts_in, selected, selected_by};

use contract_words::{Items, Text};
use ice_filter::{Bound, Filter, FilterFault, bind, parse};
use ice_meta::{Metadata, Schema, Spec, Target};
use icescan_text::{Request, RunFault};
use std::alloc::Global;

/// What a request selects of a table.
#[derive(Debug, Drop)]
pub struct Selection {
    /// The path of the snapshot's manifest list.
    pub list: Text,
    /// The table's partition specs, with the types of their source columns.
    pub specs: Items<Spec>,
    /// The filter over the ids of columns.
    pub filter: Bound,
}

/// The metadata that a file has.
fn read_metadata(alloc: Global, bytes: &[u8]) -> Result<Metadata, RunFault>
    ensures gives { Gives RunFault.Memory (λ metadata. described metadata.json metadata.table) result
        (as_run of_meta (metadata_of bytes.now)) }
    ensures causes { IfErr result IsOfRequest }
{
    Ok(Metadata::read(alloc, bytes)?)
}

/// The filter of a text, where there is one.
fn parse_some(alloc: Global, text: &Option<Text>) -> Result<Option<Filter>, FilterFault>
    ensures { Gives FilterFault.Memory (λ filter. filter) result (parts_in text.now) }
{
    match text {
        Some(text) => Ok(Some(parse(alloc, text.as_str())?)),
        None => Ok(None),
    }
}

/// The filter over the columns of a schema.
fn bind_some(alloc: Global, filter: &Option<Filter>, schema: &Schema) -> Result<Bound, FilterFault>
    ensures { Gives FilterFault.Memory (λ bound. bound.parts) result (bound_in schema.now filter.now) }
{
    match filter {
        Some(filter) => bind(alloc, filter, schema),
        None => Ok(Bound::always(alloc)),
    }
}

/// What a snapshot of a table and a filter select. The refusal is `Metadata` where there is no such snapshot, else
/// `Filter` where the filter can't be asked of the schema; or `Memory`.
#[tactic(auto, unfolding(crate::specs::Selections::selected_by))]
fn select_by(
    alloc: Global,
    metadata: &Metadata,
    target: &Target,
    filter: &Option<Filter>,
) -> Result<Selection, RunFault>
    ensures gives { Gives RunFault.Memory (λ selection. selection) result
        (selected_by metadata.now.table target.now filter.now) }
    ensures causes { IfErr result IsOfRequest }
{
    let list = metadata.manifest_list(target)?;
    let schema = metadata.schema_for(target);
    let filter = bind_some(alloc, filter, schema)?;
    Ok(Selection {
        list: list.copy(alloc)?,
        specs: metadata.specs(alloc, schema)?,
        filter,
    })
}

/// What a request selects of the table whose metadata these are the bytes of. The refusal is the first of: the
/// metadata's (`Metadata`), that of the filter's text (`Filter`), that there is no such snapshot (`Metadata`), and that
/// the filter can't be asked of the schema (`Filter`); or `Memory`.
#[tactic(auto, unfolding(crate::specs::Selections::selected))]
pub fn select(alloc: Global, metadata: &[u8], request: &Request) -> Result<Selection, RunFault>
    ensures gives { Gives RunFault.Memory (λ selection. selection) result (selected metadata.now request.now) }
    ensures causes { IfErr result IsOfRequest }
{
    let metadata = read_metadata(alloc, metadata)?;
    let filter = parse_some(alloc, &request.filter)?;
    select_by(alloc, &metadata, &request.target, &filter)
}
