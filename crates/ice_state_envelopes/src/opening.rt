//! What a state's bytes are read as.

ghost use Rattle.std.specs.Prelude.{◌≡◌, map};
ghost use Rattle.sha2.specs.Sha256.{sha256};
ghost use Rattle.contract_words.specs.Outcome.{Gives};
ghost use Rattle.avro_file_parts.specs.Exact.{IsRead};
ghost use Rattle.avro_file_parts.specs.Parts.{run_at};
ghost use Rattle.ice_state_envelopes.specs.declared.fault.EnvelopeFault.TheVariants.{Memory};
ghost use Rattle.ice_state_envelopes.specs.Envelopes.{shown, sealed_at, section_at, sections_at, rises, whole, begins};

use crate::fault::EnvelopeFault;
use crate::section::Section;
use crate::written::counted_run_of;
use avro_file_parts::{Refusal, run_of_len, unsigned_of};
use sha2::{Digest, Sha256};
use std::alloc::Global;

/// What begins the states of any version.
pub(crate) const ANY_VERSION: &[u8] = b"icescan state ";

/// What begins the states of this version.
pub(crate) const THIS_VERSION: &[u8] = b"icescan state 1\n";

/// A row, and its body behind its length.
#[tactic(auto, unfolding(crate::specs::Envelopes::section_at))]
fn section_of(bytes: &[u8]) -> Result<(Section<'_>, &[u8]), Refusal>
    ensures { IsRead (λ x. (shown x.0, x.1.now)) result (section_at bytes.now) }
{
    let (row, rest) = unsigned_of(bytes)?;
    let (body, rest) = counted_run_of(rest)?;
    Ok((Section { row, body }, rest))
}

/// So many sections.
pub(crate) fn sections_of<'a>(
    alloc: Global,
    count: u64,
    bytes: &'a [u8],
) -> Result<(Vec<Section<'a>>, &'a [u8]), EnvelopeFault>
    ensures { Gives Memory (λ x. (map shown x.0.items, x.1.now)) result (whole (sections_at count bytes.now)) }
{
    let mut sections = Vec::new(alloc);
    let mut rest = bytes;
    'sections: for _ in 0..count {
        let (section, after) = section_of(rest)?;
        sections.push(section)?;
        rest = after;
    }
    Ok((sections, rest))
}

/// Whether the rows rise, each below the end.
pub(crate) fn are_rising(end: u64, sections: &[Section<'_>]) -> bool
    ensures { result ≡ rises 0 end (map shown sections.now) }
{
    let mut least: u64 = 0;
    'sections: for section in sections {
        if section.row < least || section.row >= end {
            return false;
        }
        least = section.row + 1;
    }
    true
}

/// The SHA-256 of bytes.
pub(crate) fn digest_of(bytes: &[u8]) -> [u8; 32]
    ensures { result ≡ sha256 bytes.now }
{
    Sha256::digest(bytes)
}

/// All but the last 32 bytes, where these are its digest.
#[tactic(auto, unfolding(crate::specs::Envelopes::sealed_at))]
pub(crate) fn sealed_of(bytes: &[u8]) -> Result<&[u8], EnvelopeFault>
    ensures { Gives Memory (λ x. x.now) result (sealed_at bytes.now) }
{
    let (front, digest) = bytes.split_at(bytes.len().saturating_sub(32));
    if digest_of(front).as_slice() != digest {
        return Err(EnvelopeFault::Damaged);
    }
    Ok(front)
}

/// The 32 bytes that name a scan.
pub(crate) fn scan_of(bytes: &[u8]) -> Result<([u8; 32], &[u8]), Refusal>
    ensures { IsRead (λ x. (x.0, x.1.now)) result (run_at 32 bytes.now) }
{
    let (found, rest) = run_of_len(32, bytes)?;
    let mut scan = [0; 32];
    scan.copy_from_slice(found);
    Ok((scan, rest))
}

/// Whether the bytes begin so.
pub(crate) fn has_front(front: &[u8], bytes: &[u8]) -> bool
    ensures { result ≡ begins front.now bytes.now }
{
    bytes.starts_with(front)
}
