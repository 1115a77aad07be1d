//! Heads of blocks.

ghost use Rattle.avro_file_parts.specs.Exact.{IsRead};
ghost use Rattle.avro_file_parts.specs.Heads.{head_at, head_of_block};

use crate::leaf::run_of_len;
use crate::number::long_of;
use crate::refusal::Refusal;

/// A block's count, its content, and what follows its marker.
#[derive(Clone, Copy, Debug)]
pub struct Head<'a> {
    pub count: u64,
    pub content: &'a [u8],
    pub rest: &'a [u8],
}

/// The head of a block, its marker among it.
#[tactic(auto, unfolding(crate::specs::Heads::head_at))]
pub fn head_of<'a>(sync: &[u8], bytes: &'a [u8]) -> Result<Head<'a>, Refusal>
    ensures { IsRead head_of_block result (head_at sync.now bytes.now) }
{
    let (count, rest) = long_of(bytes)?;
    if count < 0 {
        return Err(Refusal::BlockSize);
    }
    let (size, rest) = long_of(rest)?;
    if size < 0 {
        return Err(Refusal::BlockSize);
    }
    let (content, rest) = run_of_len(size as u64, rest)?;
    let (marker, rest) = run_of_len(16, rest)?;
    if marker != sync {
        return Err(Refusal::BadSync);
    }
    Ok(Head {
        count: count as u64,
        content,
        rest,
    })
}
