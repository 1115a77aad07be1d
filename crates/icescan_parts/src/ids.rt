//! Ids of snapshots in a text, with commas between them.

ghost use Rattle.std.specs.Prelude.{◌≡◌, ◌≢◌, ◌++◌, IfOk, IsErrOf, IsTrue, codes};
ghost use Rattle.icescan_parts.specs.Ids.{listed};
ghost use Rattle.icescan_text.specs.declared.fault.RunFault.{RunFault};

use contract_words::Text;
use icescan_forms::push_long;
use icescan_text::RunFault;
use std::alloc::{AllocError, Global};

/// Why a text is refused that lists no ids.
fn unlisted(alloc: Global) -> RunFault
    ensures { result ≢ RunFault.Write }
{
    match String::from_str(
        alloc,
        "error: --only and --without take ids of snapshots, with commas between them\n",
    ) {
        Ok(text) => RunFault::Words(Text::from_string(text)),
        Err(_) => RunFault::Memory,
    }
}

/// The numbers between the commas of a text.
fn numbers_in(alloc: Global, text: &str) -> Result<Vec<i64>, RunFault>
    ensures { IsErrOf result RunFault.Write → ⊥ }
{
    let mut ids = Vec::new(alloc);
    for word in text.split(',') {
        match word.parse::<i64>() {
            Ok(id) => ids.push(id)?,
            Err(_) => return Err(unlisted(alloc)),
        }
    }
    Ok(ids)
}

/// Ids, each behind a comma.
fn listed(alloc: Global, ids: &[i64]) -> Result<Vec<u8>, AllocError>
    ensures { IfOk result (λ text. text.items ≡ listed ids.now) }
{
    let mut text = Vec::new(alloc);
    'ids: for id in ids {
        push_long(&mut text, b",", *id)?;
    }
    Ok(text)
}

/// A text behind a comma.
fn behind_comma(alloc: Global, text: &str) -> Result<Vec<u8>, AllocError>
    ensures { IfOk result (λ bytes. bytes.items ≡ codes "," ++ text.now) }
{
    let mut bytes = Vec::new(alloc);
    bytes.extend_from_slice(b",")?;
    bytes.extend_from_slice(text.as_bytes())?;
    Ok(bytes)
}

/// Whether texts are the same.
fn is_same(text: &[u8], other: &[u8]) -> bool
    ensures { IsTrue result → text.now ≡ other.now }
{
    text == other
}

/// The ids that a text lists, in decimal and with commas between them.
pub fn ids_in(alloc: Global, text: &str) -> Result<Vec<i64>, RunFault>
    ensures write { IsErrOf result RunFault.Write → ⊥ }
    ensures listed { IfOk result (λ ids. listed ids.items ≡ codes "," ++ text.now) }
{
    let ids = numbers_in(alloc, text)?;
    let written = listed(alloc, &ids)?;
    let wanted = behind_comma(alloc, text)?;
    if is_same(&written, &wanted) {
        Ok(ids)
    } else {
        Err(unlisted(alloc))
    }
}
