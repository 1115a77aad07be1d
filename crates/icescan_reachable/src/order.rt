//! Lines in their order, each once.

ghost use Rattle.std.specs.Prelude.{◌≡◌, IfOk, OnOk};
ghost use Rattle.icescan_reachable.specs.Lines.{lines_text, once_in_order};

use contract_words::Items;
use std::alloc::{AllocError, Global};

/// Puts lines in the order of their bytes, equal ones once.
pub fn put_in_order(lines: &mut Vec<Items<u8>>) -> Result<(), AllocError>
    ensures { OnOk result (lines.new.items ≡ once_in_order lines.old.items) }
{
    lines.sort_by(|a, b| a.as_slice().cmp(b.as_slice()))?;
    lines.dedup();
    Ok(())
}

/// The text of lines.
pub fn text_of(alloc: Global, lines: &[Items<u8>]) -> Result<Vec<u8>, AllocError>
    ensures { IfOk result (λ text. text.items ≡ lines_text lines.now) }
{
    let mut text = Vec::new(alloc);
    'lines: for line in lines {
        text.extend_from_slice(line.as_slice())?;
    }
    Ok(text)
}
