//! What no clause says: calls succeed with ample memory, and bytes that were changed are refused.

use crate::envelope::Envelope;
use crate::fault::EnvelopeFault;
use std::alloc::Global;

/// A state of a scan of 300 rows, with two sections.
fn two_sections(alloc: Global) -> Option<Vec<u8>> {
    let mut envelope = Envelope::new(alloc, [7; 32], 300);
    envelope.push(2, b"two").ok()?;
    envelope.push(200, b"").ok()?;
    envelope.to_bytes(alloc).ok()
}

/// How many sections the bytes have, or their fault.
fn opened(alloc: Global, bytes: &[u8]) -> Result<usize, EnvelopeFault> {
    let envelope = Envelope::open(alloc, bytes)?;
    Ok(envelope.sections().len())
}

/// Whether the state opens, and doesn't where its last byte is cut, or one byte is another.
fn is_kept(alloc: Global) -> Option<bool> {
    let mut bytes = two_sections(alloc)?;
    let len = bytes.len();
    if len < 61 {
        return None;
    }
    let all = opened(alloc, &bytes) == Ok(2);
    let cut = opened(alloc, &bytes[..len - 1]) == Err(EnvelopeFault::Damaged);
    bytes[60] = 255 - bytes[60];
    let twisted = opened(alloc, &bytes) == Err(EnvelopeFault::Damaged);
    Some(all && cut && twisted)
}

#[test]
fn states(rt: HostRuntime) {
    assert!(rt; is_kept(rt.alloc()) == Some(true));
}
