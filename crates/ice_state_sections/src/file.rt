//! Data files, as they are read.

ghost use Rattle.contract_words.specs.Outcome.{Gives};
ghost use Rattle.ice_state_sections.specs.Files.{file};

use crate::parts::long_of;
use crate::section_fault::SectionFault;
use crate::values::{cells_of, content_of, format_of, ids_of, path_of, referenced_of};
use ice_manifest_reading::DataFile;
use std::alloc::Global;

/// A file with so many partition values, by a path that is known.
#[tactic(auto, unfolding(crate::specs::Files::file))]
pub(crate) fn file_of<'a>(
    alloc: Global,
    values: usize,
    known: &[u8],
    bytes: &'a [u8],
) -> Result<(DataFile, &'a [u8]), SectionFault>
    ensures { Gives SectionFault.Memory (λ x. (x.0, x.1.now)) result (file values known.now bytes.now) }
{
    let (content, rest) = content_of(bytes)?;
    let (format, rest) = format_of(rest)?;
    let (path, rest) = path_of(alloc, known, rest)?;
    let (tuple, rest) = cells_of(alloc, values, rest)?;
    let (record_count, rest) = long_of(rest)?;
    let (file_size, rest) = long_of(rest)?;
    let (equality_ids, rest) = ids_of(alloc, rest)?;
    let (referenced, rest) = referenced_of(alloc, path.as_slice(), rest)?;
    Ok((
        DataFile {
            content,
            format,
            path,
            tuple,
            record_count,
            file_size,
            equality_ids,
            referenced,
        },
        rest,
    ))
}
