//! The parts of a section, put last.

ghost use Rattle.std.specs.Prelude.{IfOk};
ghost use Rattle.ice_state_sections.specs.Parts.{number, long, run, int, truth, text};
ghost use Rattle.ice_state_sections.specs.Written.{Adds};

use contract_words::Text;
use ice_state_envelopes::{push_long, push_number, push_run};
use std::alloc::AllocError;

/// Puts a number last.
pub(crate) fn add_number(bytes: Vec<u8>, value: u64) -> Result<Vec<u8>, AllocError>
    ensures { IfOk result (λ all. Adds number value bytes.items all.items) }
{
    Ok(push_number(bytes, value)?)
}

/// Puts a number with a sign last.
pub(crate) fn add_long(bytes: Vec<u8>, value: i64) -> Result<Vec<u8>, AllocError>
    ensures { IfOk result (λ all. Adds long value bytes.items all.items) }
{
    Ok(push_long(bytes, value)?)
}

/// Puts bytes last, and before them how many there are.
pub(crate) fn add_run(bytes: Vec<u8>, value: &[u8]) -> Result<Vec<u8>, AllocError>
    ensures { IfOk result (λ all. Adds run value.now bytes.items all.items) }
{
    Ok(push_run(bytes, value)?)
}

/// Puts a number of 32 bits last.
pub(crate) fn add_int(bytes: Vec<u8>, value: i32) -> Result<Vec<u8>, AllocError>
    ensures { IfOk result (λ all. Adds int value bytes.items all.items) }
{
    Ok(add_long(bytes, i64::from(value))?)
}

/// Puts a truth last.
pub(crate) fn add_truth(bytes: Vec<u8>, value: bool) -> Result<Vec<u8>, AllocError>
    ensures { IfOk result (λ all. Adds truth value bytes.items all.items) }
{
    if value {
        Ok(add_number(bytes, 1)?)
    } else {
        Ok(add_number(bytes, 0)?)
    }
}

/// Puts a text last.
pub(crate) fn add_text(bytes: Vec<u8>, value: &Text) -> Result<Vec<u8>, AllocError>
    ensures { IfOk result (λ all. Adds text value.now bytes.items all.items) }
{
    let value = value.as_str();
    Ok(add_run(bytes, value.as_bytes())?)
}
