//! What a manifest gave.

ghost use Rattle.std.specs.Prelude.{◌≡◌, IfOk};
ghost use Rattle.ice_manifest_fields.specs.Seen.{result_map};
ghost use Rattle.ice_manifest_reading.specs.Manifests.{live_of};
ghost use Rattle.ice_manifest_reading.specs.Telling.{told_of};
ghost use Rattle.ice_state.specs.Parts.{reading_by};
ghost use Rattle.ice_state.specs.Refusals.{RanOut};
ghost use Rattle.ice_state.specs.Segments.{Keeps};
ghost use Rattle.ice_state.specs.Slots.{given, HasNumbers};

use crate::kept::gathering::Gathering;
use crate::kept::ordered::Ordered;
use crate::kept::segments::Segments;
use crate::scan::pruning::SpecFilter;
use avro_file::KnownSchema;
use ice_manifest_reading::{Asked, ManifestFault, Row, Tell, read_after};
use std::alloc::{AllocError, Global};

/// Few entries take fewer bytes in a manifest: so there is room for most before they are read.
const ENTRY_BYTES: usize = 32;

/// How many live entries a row counts, and no more than its manifest has bytes for.
fn expected(row: &Row, bytes: &[u8]) -> usize {
    let added = row.counts.added_files.unwrap_or(0).max(0) as usize;
    let existing = row.counts.existing_files.unwrap_or(0).max(0) as usize;
    added
        .saturating_add(existing)
        .min(bytes.len() / ENTRY_BYTES)
}

/// What a manifest gave: its kept entries, or why it can't be read.
#[derive(Debug, Drop)]
pub enum Taken {
    Good(Ordered),
    Bad(ManifestFault),
}

/// What a manifest gave, and what is told of its live entries, kept or not; or why it can't be read.
#[derive(Drop)]
pub struct TakenTold<T> {
    pub taken: Taken,
    pub told: Result<Vec<T>, ManifestFault>,
}

/// What a row's manifest with these bytes gives, read by the filter through its spec, and what is told of its live
/// entries. Its kept entries are put to the last segment once all are read. `last` is the schema of the manifest that
/// was taken before.
pub fn take_manifest<T: Tell>(
    alloc: Global,
    entries: &mut Segments,
    row: &Row,
    filter: &SpecFilter<'_>,
    tell: &T,
    bytes: &[u8],
    last: &mut Option<KnownSchema>,
) -> Result<TakenTold<T::Told>, AllocError>
    ensures keeps { Keeps entries.old entries.new }
    ensures numbers { IfOk result (λ both. HasNumbers entries.new both.taken) }
    ensures given { IfOk result (λ both. given entries.new both.taken ≡ reading_by filter.now row.now bytes.now) }
    ensures told { IfOk result (λ both. result_map (λ told. told.items) both.told
        ≡ told_of (T.told tell.now) (live_of row.now filter.now.spec bytes.now)) }
    ensures memory { IfOk result (λ both. RanOut both.told → ⊥) }
{
    let mut gathering = Gathering::with_capacity(alloc, expected(row, bytes))?;
    let asked = Asked { keep: filter, tell };
    let told = read_after(
        alloc,
        row,
        filter.spec(),
        &asked,
        bytes,
        &mut gathering,
        last,
    );
    match told {
        Ok(told) => {
            let segment = entries.begin(alloc, bytes.len() / ENTRY_BYTES)?;
            let ordered = Ordered::of_views(alloc, entries, segment, gathering.views())?;
            Ok(TakenTold {
                taken: Taken::Good(ordered),
                told: Ok(told),
            })
        }
        Err(ManifestFault::Memory) => Err(AllocError),
        Err(fault) => Ok(TakenTold {
            taken: Taken::Bad(fault.copy(alloc)?),
            told: Err(fault),
        }),
    }
}
