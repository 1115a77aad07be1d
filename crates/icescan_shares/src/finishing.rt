//! The plan of states.

ghost use Rattle.std.specs.Prelude.{◌≡◌, ◌≢◌, IfErr, IfOk, OnOk};
ghost use Rattle.ice_state.specs.Contents.{IsOf};
ghost use Rattle.ice_state_bytes.specs.States.{nothing};
ghost use Rattle.icescan_shares.specs.Given.{AreStatesGiven, IsPlanOfStates, IsStateGiven, WrotePlanOfStates};

use crate::selecting::{NamedScan, select_scan};
use crate::states::refusal_of;
use contract_words::Text;
use ice_desk::Files;
use ice_state::{OwnedPlan, Partial, Scan};
use ice_state_bytes::state_of_bytes;
use icescan_print::Sink;
use icescan_text::{Request, RunFault, Workers, read_file, write_plan_by_workers};
use std::alloc::Global;
use std::thread::Threads;

/// The state in the file at a path.
fn read_state<K: Files>(
    alloc: Global,
    kept: &K,
    scan: &Scan,
    name: &[u8; 32],
    path: &str,
) -> Result<Partial, RunFault>
    ensures of_scan { IfOk result (λ state. IsOf scan.now state) }
    ensures given { IfOk result (λ state. IsStateGiven (K.gives kept.now) scan.now name.now path.now state) }
{
    let bytes = read_file(alloc, kept, path)?;
    match state_of_bytes(alloc, scan, name, &bytes) {
        Ok(state) => Ok(state),
        Err(fault) => Err(refusal_of(alloc, path, fault)),
    }
}

/// Takes over what the states in the files at these paths took, one after the other.
fn read_states<K: Files>(
    alloc: Global,
    kept: &K,
    scan: &Scan,
    name: &[u8; 32],
    paths: &[Text],
) -> Result<Partial, RunFault>
    ensures of_scan { IfOk result (λ state. IsOf scan.now state) }
    ensures given { IfOk result (λ state. AreStatesGiven (K.gives kept.now) scan.now name.now paths.now
        (nothing scan.now) state) }
{
    let mut state = Partial::empty(alloc, scan)?;
    'paths: for path in paths {
        let other = read_state(alloc, kept, scan, name, path.as_str())?;
        state.absorb(other)?;
    }
    Ok(state)
}

/// The plan of the states in the files at these paths, which `kept` has, of the scan that a request asks for of the table
/// whose metadata these are the bytes of. No manifest is read.
///
/// The refusals come in the order: those of a plan, up to where it reads the first manifest; for each state in turn
/// `Absent` and `Device` where it can't be read, and `State` where it is none of this scan; `Finish` where there is no
/// plan, `Missing` where no state has the manifest at a path; or `Memory`.
pub fn finish_table<F: Files, K: Files>(
    alloc: Global,
    files: &F,
    metadata: &[u8],
    request: &Request,
    kept: &K,
    paths: &[Text],
) -> Result<OwnedPlan, RunFault>
    // Over all files: the plan of states that reads gave.
    ensures given { IfOk result (IsPlanOfStates (F.gives files.now) (K.gives kept.now) metadata.now request.now
        paths.now) }
{
    let NamedScan { name, scan } = select_scan(alloc, files, metadata, request)?;
    let state = read_states(alloc, kept, &scan, &name, paths)?;
    Ok(state.into_plan(&scan)?)
}

/// Writes the plan of the states in the files at these paths, which `kept` has, of the scan that a request asks for of
/// the table whose metadata is in the file at a path. So many workers make its text.
///
/// The refusal is `Workers` where there are to be none, or more than 64, and then nothing is read. Then it is `Absent`
/// where there is no such file, `Device` where reading it failed, else as `finish_table`'s. After any refusal but
/// `Write` nothing was written.
pub fn finish_file<R: Threads + Sync, F: Files, K: Files, W: Sink>(
    rt: &R,
    alloc: Global,
    files: &F,
    path: &str,
    request: &Request,
    kept: &K,
    paths: &[Text],
    workers: usize,
    output: &mut W,
) -> Result<(), RunFault>
    // Over all files: what is written is the plan of states that reads gave.
    ensures given { OnOk result (WrotePlanOfStates (F.gives files.now) (K.gives kept.now) path.now request.now
        paths.now (W.taken output.old) (W.taken output.new)) }
    ensures nothing { IfErr result (λ fault. fault ≢ RunFault.Write → W.taken output.new ≡ W.taken output.old) }
{
    let workers = Workers::of(workers)?;
    let metadata = read_file(alloc, files, path)?;
    let plan = finish_table(alloc, files, &metadata, request, kept, paths)?;
    write_plan_by_workers(rt, alloc, &plan.lines(), workers, output)
}
