//! Opening manifests, one after the other.

ghost use Rattle.contract_words.specs.Outcome.{Gives};
ghost use Rattle.avro_file.specs.Files.{opened, opened_at};

use avro_file::{AvroFault, Container, KnownSchema};
use std::alloc::Global;

/// A manifest's file. Where its schema has the text of the last one, it is not read again; else it is the last one from
/// then on, if there is memory to keep it.
pub fn open_after<'d>(
    alloc: Global,
    last: &mut Option<KnownSchema>,
    bytes: &'d [u8],
) -> Result<Container<'d>, AvroFault>
    ensures exact { Gives AvroFault.Memory opened result (opened_at bytes.now) }
{
    if let Some(known) = last {
        let container = Container::open_with(alloc, known, bytes)?;
        if !container.has_schema(known) {
            *last = container.keep_schema(alloc).ok();
        }
        return Ok(container);
    }
    let container = Container::open(alloc, bytes)?;
    *last = container.keep_schema(alloc).ok();
    Ok(container)
}
