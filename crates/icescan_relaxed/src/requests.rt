//! Requests whose filters are relaxed.

ghost use Rattle.std.specs.Prelude.{◌≡◌, ℕ, List, Some, None, Ok, IfOk, IfErr, IsErrOf};
ghost use Rattle.contract_words.specs.Outcome.{Gives};
ghost use Rattle.ice_desk.specs.Worlds.{HasAt};
ghost use Rattle.ice_filter.specs.Texts.{shown};
ghost use Rattle.ice_filter.specs.Trees.{tree_of};
ghost use Rattle.ice_meta.specs.Targets.{described, metadata_of};
ghost use Rattle.icescan_relaxed.specs.Requests.{IsOfFilter, Relaxes};
ghost use Rattle.icescan_relaxed.specs.Requests.{relaxed_filter, relaxed_request, relaxed_text};
ghost use Rattle.icescan_text.specs.Faults.{of_meta};
ghost use Rattle.icescan_text.specs.Reads.{as_run};

use contract_words::{Items, Text};
use ice_desk::Files;
use ice_filter::{Filter, parse};
use ice_filter_relaxed::{Relaxed, relax};
use ice_meta::{Metadata, Target};
use icescan_text::{Request, RunFault, read_file};
use std::alloc::{AllocError, Global};

/// A request that asks less.
#[derive(Debug, Drop)]
pub struct RelaxedRequest {
    /// The request: in its filter `true` stands in the place of each predicate that is not asked.
    pub request: Request,
    /// The texts of those predicates, in the order of the filter.
    pub unasked: Items<Text>,
}

/// The metadata that a file has.
fn read_metadata(alloc: Global, bytes: &[u8]) -> Result<Metadata, RunFault>
    ensures gives { Gives RunFault.Memory (λ metadata. described metadata.json metadata.table) result
        (as_run of_meta (metadata_of bytes.now)) }
    ensures causes { IfErr result IsOfFilter }
{
    Ok(Metadata::read(alloc, bytes)?)
}

/// The same snapshot.
fn copied_target(alloc: Global, target: &Target) -> Result<Target, AllocError>
    ensures { IfOk result (λ copied. copied ≡ target.now) }
{
    match target {
        Target::Main => Ok(Target::Main),
        Target::Ref(name) => Ok(Target::Ref(name.copy(alloc)?)),
        Target::Snapshot(id) => Ok(Target::Snapshot(*id)),
    }
}

/// The text that a filter is shown as.
fn text_of(alloc: Global, filter: &Filter) -> Result<Text, AllocError>
    ensures { IfOk result (λ text. text ≡ shown (tree_of filter.now)) }
{
    Ok(Text::from_string(String::from_str(alloc, filter.as_str())?))
}

/// The request for a relaxed filter.
fn request_of(
    alloc: Global,
    target: &Target,
    relaxed: Relaxed,
) -> Result<RelaxedRequest, AllocError>
    ensures { IfOk result (λ made. made ≡ record {
      request = record { target = target.now; filter = Some (shown (tree_of relaxed.filter)) };
      unasked = relaxed.unasked;
    }) }
{
    let Relaxed { filter, unasked } = relaxed;
    let text = text_of(alloc, &filter)?;
    let target = copied_target(alloc, target)?;
    Ok(RelaxedRequest {
        request: Request {
            target,
            filter: Some(text),
        },
        unasked,
    })
}

/// The request that is made of a filter's text.
#[tactic(auto, unfolding(crate::specs::Requests::relaxed_text))]
fn relax_text(
    alloc: Global,
    metadata: &[u8],
    target: &Target,
    text: &str,
) -> Result<RelaxedRequest, RunFault>
    ensures gives { Gives RunFault.Memory (λ made. made) result (relaxed_text metadata.now target.now text.now) }
    ensures causes { IfErr result IsOfFilter }
{
    let metadata = read_metadata(alloc, metadata)?;
    let filter = parse(alloc, text)?;
    let relaxed = relax(alloc, &filter, metadata.schema_for(target))?;
    Ok(request_of(alloc, target, relaxed)?)
}

/// The request that asks of a filter what can be asked, if there is one.
fn relax_filter(
    alloc: Global,
    metadata: &[u8],
    target: &Target,
    filter: &Option<Text>,
) -> Result<RelaxedRequest, RunFault>
    ensures gives { Gives RunFault.Memory (λ made. made) result (relaxed_filter metadata.now target.now filter.now) }
    ensures causes { IfErr result IsOfFilter }
{
    match filter {
        Some(text) => relax_text(alloc, metadata, target, text.as_str()),
        None => Ok(RelaxedRequest {
            request: Request {
                target: copied_target(alloc, target)?,
                filter: None,
            },
            unasked: Items::new(alloc),
        }),
    }
}

/// The request that asks less, of the table whose metadata these are the bytes of: a predicate that can't be asked of
/// its column for the column's type (which alone `plan_table` would refuse as `F4`) is not asked, and `true` stands in
/// its place. It is a request as any other, for `plan_table` and for `run_explain`.
///
/// No row that meets the filter is lost, whatever an engine makes of the predicates that are not asked: the crate
/// `icescan_answer_laws` says so. Rows that are read have to be tested with the whole filter.
///
/// The refusal is `Metadata` with the first fault of the bytes, `Filter` where the filter's text is none, or `Memory`.
/// What else is at fault is left to the call that plans.
#[tactic(auto, unfolding(crate::specs::Requests::relaxed_request))]
pub fn relax_request(
    alloc: Global,
    metadata: &[u8],
    request: &Request,
) -> Result<RelaxedRequest, RunFault>
    ensures gives { Gives RunFault.Memory (λ made. made) result (relaxed_request metadata.now request.now) }
    ensures causes { IfErr result IsOfFilter }
{
    relax_filter(alloc, metadata, &request.target, &request.filter)
}

/// The same of the table whose metadata is in the file at a path. The refusal is `Absent` where there is no such file,
/// `Device` where reading it failed, else as `relax_request`'s.
#[tactic(auto, unfolding(crate::specs::Requests::relaxed_request_at))]
pub fn relax_request_at<F: Files>(
    alloc: Global,
    files: &F,
    path: &str,
    request: &Request,
) -> Result<RelaxedRequest, RunFault>
    ensures answer { Relaxes (F.world files.now) (F.may_fail files.now) path.now request.now result }
    // Over all files, also those that tell no world.
    ensures absent { (path : List ℕ) → IsErrOf result (RunFault.Absent path) → HasAt (F.world files.now) path None }
    ensures device { (path : List ℕ) → IsErrOf result (RunFault.Device path) → F.may_fail files.now path }
    // A read gave the metadata by which it is relaxed.
    ensures given { IfOk result (λ made. (metadata : List ℕ) × F.gives files.now path.now (Some metadata)
        × (relaxed_request metadata request.now ≡ Ok made)) }
{
    let metadata = read_file(alloc, files, path)?;
    relax_request(alloc, &metadata, request)
}
