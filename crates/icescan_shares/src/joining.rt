//! States as one.

ghost use Rattle.std.specs.Prelude.{◌≡◌, ◌≢◌, ◌<◌, IfErr, IfOk, Ok, OnOk, length};
ghost use Rattle.ice_state_envelopes.specs.Envelopes.{AreParts, parts_at};
ghost use Rattle.ice_state_envelopes.specs.Joins.{joined};
ghost use Rattle.icescan_shares.specs.Given.{IsJoinOfGiven, WroteJoin};
ghost use Rattle.icescan_shares.specs.Together.{HasAlsoGiven};

use crate::states::refusal_of;
use contract_words::Text;
use ice_desk::Files;
use ice_state_bytes::StateFault;
use ice_state_envelopes::Envelope;
use icescan_print::{Sink, write_all};
use icescan_text::{RunFault, read_file};
use std::alloc::Global;

/// What the bytes of the state in the file at a path hold.
fn opened<'a>(alloc: Global, path: &str, bytes: &'a [u8]) -> Result<Envelope<'a>, RunFault>
    ensures { IfOk result (λ envelope. parts_at bytes.now ≡ Ok envelope) }
{
    match Envelope::open(alloc, bytes) {
        Ok(envelope) => Ok(envelope),
        Err(fault) => Err(refusal_of(alloc, path, StateFault::from(fault))),
    }
}

/// What was joined so far and the state in the file at a path.
fn both<'a>(
    alloc: Global,
    before: &Envelope<'a>,
    path: &str,
    next: &Envelope<'a>,
) -> Result<Envelope<'a>, RunFault>
    ensures { IfOk result (λ both. joined before.now next.now ≡ Ok both) }
{
    match before.join(alloc, next) {
        Ok(both) => Ok(both),
        Err(fault) => Err(refusal_of(alloc, path, StateFault::from(fault))),
    }
}

/// The bytes of what was joined so far and of the states in the files at these paths.
fn join_rest<K: Files>(
    alloc: Global,
    kept: &K,
    before: &Envelope<'_>,
    paths: &[Text],
) -> Result<Vec<u8>, RunFault>
    requires { AreParts before.now }
    ensures { IfOk result (λ bytes. HasAlsoGiven (K.gives kept.now) before.now paths.now bytes.items) }
{
    if paths.is_empty() {
        return Ok(before.to_bytes(alloc)?);
    }
    let path = paths[0].as_str();
    let bytes = read_file(alloc, kept, path)?;
    let next = opened(alloc, path, &bytes)?;
    let both = both(alloc, before, path, &next)?;
    join_rest(alloc, kept, &both, &paths[1..])
}

/// The bytes of the states in the files at these paths together.
fn join_paths<K: Files>(alloc: Global, kept: &K, paths: &[Text]) -> Result<Vec<u8>, RunFault>
    requires { 0 < length paths.now }
    ensures { IfOk result (λ bytes. IsJoinOfGiven (K.gives kept.now) paths.now bytes.items) }
{
    let path = paths[0].as_str();
    let bytes = read_file(alloc, kept, path)?;
    let first = opened(alloc, path, &bytes)?;
    join_rest(alloc, kept, &first, &paths[1..])
}

/// Writes the states in the files at these paths, of which there is at least one, as one: what each has, once.
///
/// For a file the refusal is `Absent` where it is not there, `Device` where reading it failed, and `State` where it is no
/// state that can be read, or of another scan than one before it; or `Memory`. After any refusal but `Write`
/// nothing was written.
pub fn join_files<K: Files, W: Sink>(
    alloc: Global,
    kept: &K,
    paths: &[Text],
    output: &mut W,
) -> Result<(), RunFault>
    requires { 0 < length paths.now }
    // Over all files: what is written is made of states that reads gave.
    ensures given { OnOk result (WroteJoin (K.gives kept.now) paths.now (W.taken output.old) (W.taken output.new)) }
    ensures nothing { IfErr result (λ fault. fault ≢ RunFault.Write → W.taken output.new ≡ W.taken output.old) }
{
    let bytes = join_paths(alloc, kept, paths)?;
    write_all(output, &bytes)?;
    Ok(())
}
