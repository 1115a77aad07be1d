//! What a scan that is pinned to a version reads.

ghost use Rattle.std.specs.Prelude.{◌≡◌};
ghost use Rattle.contract_words.specs.Outcome.{Gives};
ghost use Rattle.ice_catalog.specs.Pins.{rows_in, scan_in};
ghost use Rattle.ice_catalog.specs.declared.pinning.PinFault.TheVariants.{Memory};
ghost use Rattle.ice_meta.specs.Targets.{described};

use ice_catalog_versions::World;
use ice_filter::{Filter, FilterFault, bind};
use ice_manifest_reading::{ListFault, Row, read_list};
use ice_meta::{MetaFault, Metadata, Target};
use ice_state::{Scan, ScanFault};
use std::alloc::{AllocError, Global};

/// Why a version is not scanned.
#[derive(Clone, Copy, Debug, PartialEq, Eq)]
pub enum PinFault {
    /// There is nothing that can be scanned.
    Refused,
    /// A growth was refused.
    Memory,
}

impl From<AllocError> for PinFault {
    ghost from_gives = { λ _ e. e ≡ Memory };

    fn from(_e: AllocError) -> PinFault {
        PinFault::Memory
    }
}

impl From<MetaFault> for PinFault {
    ghost use Rattle.ice_catalog.specs.Pins.{of_meta};

    ghost from_gives = { λ fault e. e ≡ of_meta fault };

    fn from(fault: MetaFault) -> PinFault {
        match fault {
            MetaFault::Memory => PinFault::Memory,
            _ => PinFault::Refused,
        }
    }
}

impl From<ListFault> for PinFault {
    ghost use Rattle.ice_catalog.specs.Pins.{of_list};

    ghost from_gives = { λ fault e. e ≡ of_list fault };

    fn from(fault: ListFault) -> PinFault {
        match fault {
            ListFault::Memory => PinFault::Memory,
            _ => PinFault::Refused,
        }
    }
}

impl From<FilterFault> for PinFault {
    ghost use Rattle.ice_catalog.specs.Pins.{of_filter};

    ghost from_gives = { λ fault e. e ≡ of_filter fault };

    fn from(fault: FilterFault) -> PinFault {
        match fault {
            FilterFault::Memory => PinFault::Memory,
            _ => PinFault::Refused,
        }
    }
}

impl From<ScanFault> for PinFault {
    ghost use Rattle.ice_catalog.specs.Pins.{of_scan};

    ghost from_gives = { λ fault e. e ≡ of_scan fault };

    fn from(fault: ScanFault) -> PinFault {
        match fault {
            ScanFault::Memory => PinFault::Memory,
            _ => PinFault::Refused,
        }
    }
}

/// The rows of the current snapshot.
#[tactic(auto, unfolding(crate::specs::Pins::rows_in))]
fn read_rows(alloc: Global, metadata: &Metadata, world: &World) -> Result<Vec<Row>, PinFault>
    ensures { Gives PinFault.Memory (λ rows. rows.items) result
        (rows_in (record { metadata = described metadata.now.json metadata.now.table; world = world.now })) }
{
    let list = metadata.manifest_list(&Target::Main)?;
    let Some(bytes) = world.get(list.as_str()) else {
        return Err(PinFault::Refused);
    };
    Ok(read_list(alloc, bytes)?)
}

/// The scan of the current snapshot under a filter of the current schema's columns.
#[tactic(auto, unfolding(crate::specs::Pins::scan_in))]
pub fn scan_of(
    alloc: Global,
    metadata: &Metadata,
    world: &World,
    filter: &Filter,
) -> Result<Scan, PinFault>
    ensures { Gives PinFault.Memory (λ scan. scan) result
        (scan_in (record { metadata = described metadata.now.json metadata.now.table; world = world.now }) filter.now) }
{
    let rows = read_rows(alloc, metadata, world)?;
    let schema = metadata.schema_for(&Target::Main);
    let bound = bind(alloc, filter, schema)?;
    let specs = metadata.specs(alloc, schema)?;
    Ok(Scan::new(alloc, rows, specs.into_vec(), bound)?)
}
