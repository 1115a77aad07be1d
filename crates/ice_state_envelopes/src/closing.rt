//! The bytes of a state.

ghost use Rattle.std.specs.Prelude.{◌≡◌, ◌++◌, List, ℕ, Ok, IfOk, length, map};
ghost use Rattle.sha2.specs.Sha256.{sha256};
ghost use Rattle.ice_state_envelopes.specs.Envelopes.{shown, Rise, section_at, sections_at, contents_at};
ghost use Rattle.ice_state_envelopes.specs.Written.{Puts};

use crate::opening::digest_of;
use crate::section::Section;
use crate::written::{push_bytes, push_number, push_run};
use std::alloc::AllocError;

/// Puts a section last.
fn push_section(bytes: Vec<u8>, section: &Section<'_>) -> Result<Vec<u8>, AllocError>
    ensures { IfOk result (λ all. Puts section_at (shown section.now) bytes.items all.items) }
{
    let bytes = push_number(bytes, section.row)?;
    push_run(bytes, section.body)
}

/// Puts sections last, one after the other.
fn push_sections(bytes: Vec<u8>, sections: &[Section<'_>]) -> Result<Vec<u8>, AllocError>
    ensures { IfOk result (λ all.
        Puts (sections_at (length sections.now)) (map shown sections.now) bytes.items all.items) }
{
    let mut bytes = bytes;
    'sections: for section in sections {
        bytes = push_section(bytes, section)?;
    }
    Ok(bytes)
}

/// Puts last what stands between the first line and the digest.
pub(crate) fn push_contents(
    bytes: Vec<u8>,
    scan: &[u8; 32],
    rows: u64,
    sections: &[Section<'_>],
) -> Result<Vec<u8>, AllocError>
    requires { Rise 0 rows (map shown sections.now) }
    ensures { IfOk result (λ all. (s : List ℕ) × (all.items ≡ bytes.items ++ s) ×
        (contents_at s ≡ Ok (record { scan = scan.now; rows = rows; sections = map shown sections.now }))) }
{
    let bytes = push_bytes(bytes, scan)?;
    let bytes = push_number(bytes, rows)?;
    let bytes = push_number(bytes, sections.len() as u64)?;
    push_sections(bytes, sections)
}

/// The bytes, and their digest behind them.
pub(crate) fn with_digest(bytes: Vec<u8>) -> Result<Vec<u8>, AllocError>
    ensures { IfOk result (λ all. all.items ≡ bytes.items ++ sha256 bytes.items) }
{
    let digest = digest_of(&bytes);
    push_bytes(bytes, &digest)
}
