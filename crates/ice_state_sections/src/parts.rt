//! The parts of a section, as they are read.

ghost use Rattle.std.specs.Prelude.{◌≡◌};
ghost use Rattle.contract_words.specs.Outcome.{Gives};
ghost use Rattle.avro_file_parts.specs.Exact.{IsRead};
ghost use Rattle.ice_state_sections.specs.Parts.{number, long, run, int, truth, text};

use crate::section_fault::SectionFault;
use avro_file_parts::{long_of as avro_long_of, unsigned_of};
use contract_words::Text;
use ice_state_envelopes::counted_run_of;
use std::alloc::Global;

/// A number of 64 bits.
#[tactic(auto, unfolding(crate::specs::Parts::number))]
pub(crate) fn number_of(bytes: &[u8]) -> Result<(u64, &[u8]), SectionFault>
    ensures { IsRead (λ x. (x.0, x.1.now)) result (number bytes.now) }
{
    let (number, rest) = unsigned_of(bytes)?;
    Ok((number, rest))
}

/// A number with a sign, of 64 bits.
#[tactic(auto, unfolding(crate::specs::Parts::long))]
pub(crate) fn long_of(bytes: &[u8]) -> Result<(i64, &[u8]), SectionFault>
    ensures { IsRead (λ x. (x.0, x.1.now)) result (long bytes.now) }
{
    let (number, rest) = avro_long_of(bytes)?;
    Ok((number, rest))
}

/// How many bytes, and these.
#[tactic(auto, unfolding(crate::specs::Parts::run))]
pub(crate) fn run_of(bytes: &[u8]) -> Result<(&[u8], &[u8]), SectionFault>
    ensures { IsRead (λ x. (x.0.now, x.1.now)) result (run bytes.now) }
{
    let (run, rest) = counted_run_of(bytes)?;
    Ok((run, rest))
}

/// A number with a sign, of 32 bits.
#[tactic(auto, unfolding(crate::specs::Parts::int))]
pub(crate) fn int_of(bytes: &[u8]) -> Result<(i32, &[u8]), SectionFault>
    ensures { IsRead (λ x. (x.0, x.1.now)) result (int bytes.now) }
{
    let (number, rest) = long_of(bytes)?;
    if number < -0x8000_0000 || number >= 0x8000_0000 {
        return Err(SectionFault::NoSection);
    }
    Ok((number as i32, rest))
}

/// A truth: 0 or 1.
#[tactic(auto, unfolding(crate::specs::Parts::truth))]
pub(crate) fn truth_of(bytes: &[u8]) -> Result<(bool, &[u8]), SectionFault>
    ensures { IsRead (λ x. (x.0, x.1.now)) result (truth bytes.now) }
{
    let (number, rest) = number_of(bytes)?;
    match number {
        0 => Ok((false, rest)),
        1 => Ok((true, rest)),
        _ => Err(SectionFault::NoSection),
    }
}

/// A run that is UTF-8.
#[tactic(auto, unfolding(crate::specs::Parts::text))]
pub(crate) fn text_of(alloc: Global, bytes: &[u8]) -> Result<(Text, &[u8]), SectionFault>
    ensures { Gives SectionFault.Memory (λ x. (x.0, x.1.now)) result (text bytes.now) }
{
    let (run, rest) = run_of(bytes)?;
    let Ok(text) = str::from_utf8(run) else {
        return Err(SectionFault::NoSection);
    };
    let text = Text::from_string(String::from_str(alloc, text)?);
    Ok((text, rest))
}
