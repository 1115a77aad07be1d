//! The plan of states as JSON.

ghost use Rattle.std.specs.Prelude.{◌≡◌, ◌≢◌, IfErr, IfOk, OnOk};
ghost use Rattle.icescan_json.specs.Finished.{IsTypedOfStates, WroteJsonOfStates};

use crate::typed::{TypedPlan, write_json};
use contract_words::Text;
use ice_desk::Files;
use icescan_print::Sink;
use icescan_requests::{Selection, TablePlan, select};
use icescan_shares::finish_table;
use icescan_text::{Request, RunFault, Workers, read_file};
use std::alloc::Global;

/// The plan of the states in the files at these paths, the types of the partition values of the table's specs, and the
/// filter.
fn typed_of_states<F: Files, K: Files>(
    alloc: Global,
    files: &F,
    metadata: &[u8],
    request: &Request,
    kept: &K,
    paths: &[Text],
) -> Result<TypedPlan, RunFault>
    ensures given { IfOk result (IsTypedOfStates (F.gives files.now) (K.gives kept.now) metadata.now request.now
        paths.now) }
{
    let plan = finish_table(alloc, files, metadata, request, kept, paths)?;
    let Selection { specs, .. } = select(alloc, metadata, request)?;
    let planned = TablePlan { specs, plan };
    Ok(TypedPlan::of(alloc, planned, metadata, request)?)
}

/// Writes the plan of the states in the files at these paths, which `kept` has, as JSON, as `plan_file_json` writes the
/// plan of the table whose metadata is in the file at a path. The JSON is written by one.
///
/// The refusals and their order are those of `icescan_shares::finish_file`: `Workers` comes before all others, and then
/// nothing is read. After any refusal but `Write` nothing was written.
pub fn finish_file_json<F: Files, K: Files, W: Sink>(
    alloc: Global,
    files: &F,
    path: &str,
    request: &Request,
    kept: &K,
    paths: &[Text],
    workers: usize,
    output: &mut W,
) -> Result<(), RunFault>
    // Over all files: what is written is the plan of states that reads gave.
    ensures given { OnOk result (WroteJsonOfStates (F.gives files.now) (K.gives kept.now) path.now request.now
        paths.now (W.taken output.old) (W.taken output.new)) }
    ensures nothing { IfErr result (λ fault. fault ≢ RunFault.Write → W.taken output.new ≡ W.taken output.old) }
{
    let _ = Workers::of(workers)?;
    let metadata = read_file(alloc, files, path)?;
    let typed = typed_of_states(alloc, files, &metadata, request, kept, paths)?;
    write_json(alloc, &typed, output)
}
