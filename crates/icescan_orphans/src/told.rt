//! The paths that lines tell.

ghost use Rattle.std.specs.Prelude.{◌≡◌, IfOk, map};
ghost use Rattle.icescan_parts.specs.Told.{path_told};

use contract_words::Items;
use icescan_parts::path_told;
use std::alloc::{AllocError, Global};

/// The paths that lines tell.
pub fn paths_told(alloc: Global, lines: &[Items<u8>]) -> Result<Vec<Items<u8>>, AllocError>
    ensures { IfOk result (λ paths. paths.items ≡ map path_told lines.now) }
{
    let mut paths = Vec::new(alloc);
    'lines: for line in lines {
        paths.push(path_told(alloc, line.as_slice())?)?;
    }
    Ok(paths)
}
