//! Why the program ends without an answer.

ghost use Rattle.std.specs.Prelude.{◌≡◌};
ghost use Rattle.icescan_text.specs.Faults.{of_list, of_scan, of_finish, of_wanted, of_plan, of_meta, of_filter};
ghost use Rattle.icescan_text.specs.Faults.{of_change};
ghost use Rattle.icescan_text.specs.Faults.{newest_status, of_newest, of_prepare};
ghost use Rattle.icescan_text.specs.Faults.{filter_status, change_status, refused_status, status_of};
ghost use Rattle.icescan_text.specs.Faults.{meta_wants_memory, schema_wants_memory, avro_wants_memory};
ghost use Rattle.icescan_text.specs.Faults.{list_wants_memory};
ghost use Rattle.icescan_text.specs.Faults.{manifest_wants_memory, scan_wants_memory, finish_wants_memory};
ghost use Rattle.icescan_text.specs.Faults.{prepare_wants_memory};
ghost use Rattle.icescan_text.specs.declared.fault.RunFault.TheVariants as run;

use crate::change::ChangeFault;
use crate::drill_fault::DrillFault;
use crate::lineage_fault::LineageFault;
use crate::state_flaw::StateFlaw;
use avro_file::AvroFault;
use avro_schema::SchemaFault;
use contract_words::Text;
use ice_catalog_changes::PrepareFault;
use ice_desk::{PlanFault, WantedFault};
use ice_filter::FilterFault;
use ice_manifest_reading::{ListFault, ManifestFault};
use ice_meta::MetaFault;
use ice_meta_files::NewestFault;
use ice_state::{FinishFault, ScanFault};
use icescan_print::SinkFault;
use std::alloc::{AllocError, AllocFailed};
use thiserror::Error;

/// The first fault of a run.
#[derive(Debug, Drop, Error)]
pub enum RunFault {
    /// The words on the command line are none of the program's, for the reason that this text tells.
    #[error("the words on the command line are not understood: {}", .0.as_str())]
    Words(Text),
    /// Standard input can't be read.
    #[error("standard input can't be read")]
    Input,
    /// This line of the bundle, counted from 1, is no path and bytes, or has a path that an earlier line has.
    #[error("line {0} of the bundle is no path with bytes in hexadecimal, or has a path that an earlier line has")]
    Bundle(u64),
    /// There is no file at this path.
    #[error("there is no file at {}", .0.as_str())]
    Absent(Text),
    /// The file at this path can't be read.
    #[error("the file at {} can't be read", .0.as_str())]
    Device(Text),
    /// The manifest list is refused.
    #[error("the manifest list is refused: {0:?}")]
    List(ListFault),
    /// There is no scan of the list's rows.
    #[error("there is no scan of the list's rows: {0:?}")]
    Scan(ScanFault),
    /// There is no plan.
    #[error("there is no plan: {0:?}")]
    Finish(FinishFault),
    /// The table's metadata is refused.
    #[error("the table's metadata is refused: {0:?}")]
    Metadata(MetaFault),
    /// The filter is refused.
    #[error("the filter is refused: {0:?}")]
    Filter(FilterFault),
    /// A folder has no newest metadata that can be read.
    #[error("the folder has no newest metadata that can be read: {0:?}")]
    Locate(NewestFault),
    /// The drill is refused.
    #[error("the drill is refused: {0:?}")]
    Drill(DrillFault),
    /// A snapshot does not follow another by appends alone.
    #[error("the snapshot does not follow the other by appends alone: {0:?}")]
    Lineage(LineageFault),
    /// The state in the file at this path is refused.
    #[error("the state in {} is refused: {:?}", .0.as_str(), .1)]
    State(Text, StateFlaw),
    /// The change file is refused.
    #[error("the change file is refused: {0:?}")]
    Change(ChangeFault),
    /// The change can't be committed.
    #[error("the change can't be committed: {0:?}")]
    Prepare(PrepareFault),
    /// There is a file already at this path, where a commit's metadata was to be.
    #[error("there is a file at {} already", .0.as_str())]
    Conflict(Text),
    /// There are to be from 1 to 64 workers.
    #[error("there have to be from 1 to 64 workers")]
    Workers,
    /// What is asked for can't be written.
    #[error("what is asked for can't be written")]
    Write,
    /// A growth was refused.
    #[error("memory ran out")]
    Memory,
}

impl From<AllocError> for RunFault {
    ghost from_gives = { λ _ e. e ≡ run.Memory };

    fn from(_e: AllocError) -> RunFault {
        RunFault::Memory
    }
}

impl<T: Drop> From<AllocFailed<T>> for RunFault {
    ghost from_gives = { λ _ e. e ≡ run.Memory };

    fn from(_e: AllocFailed<T>) -> RunFault {
        RunFault::Memory
    }
}

impl From<SinkFault> for RunFault {
    ghost from_gives = { λ _ e. e ≡ run.Write };

    fn from(_e: SinkFault) -> RunFault {
        RunFault::Write
    }
}

impl From<ListFault> for RunFault {
    ghost from_gives = { λ fault e. e ≡ of_list fault };

    fn from(fault: ListFault) -> RunFault {
        match fault {
            ListFault::Memory => RunFault::Memory,
            fault => RunFault::List(fault),
        }
    }
}

impl From<ScanFault> for RunFault {
    ghost from_gives = { λ fault e. e ≡ of_scan fault };

    fn from(fault: ScanFault) -> RunFault {
        match fault {
            ScanFault::Memory => RunFault::Memory,
            fault => RunFault::Scan(fault),
        }
    }
}

impl From<FinishFault> for RunFault {
    ghost from_gives = { λ fault e. e ≡ of_finish fault };

    fn from(fault: FinishFault) -> RunFault {
        match fault {
            FinishFault::Memory => RunFault::Memory,
            fault => RunFault::Finish(fault),
        }
    }
}

impl From<MetaFault> for RunFault {
    ghost from_gives = { λ fault e. e ≡ of_meta fault };

    fn from(fault: MetaFault) -> RunFault {
        match fault {
            MetaFault::Memory => RunFault::Memory,
            fault => RunFault::Metadata(fault),
        }
    }
}

impl From<FilterFault> for RunFault {
    ghost from_gives = { λ fault e. e ≡ of_filter fault };

    fn from(fault: FilterFault) -> RunFault {
        match fault {
            FilterFault::Memory => RunFault::Memory,
            fault => RunFault::Filter(fault),
        }
    }
}

impl From<NewestFault> for RunFault {
    ghost from_gives = { λ fault e. e ≡ of_newest fault };

    fn from(fault: NewestFault) -> RunFault {
        match fault {
            NewestFault::Memory => RunFault::Memory,
            fault => RunFault::Locate(fault),
        }
    }
}

impl From<ChangeFault> for RunFault {
    ghost from_gives = { λ fault e. e ≡ of_change fault };

    fn from(fault: ChangeFault) -> RunFault {
        match fault {
            ChangeFault::Memory => RunFault::Memory,
            fault => RunFault::Change(fault),
        }
    }
}

impl From<PrepareFault> for RunFault {
    ghost from_gives = { λ fault e. e ≡ of_prepare fault };

    fn from(fault: PrepareFault) -> RunFault {
        match fault {
            PrepareFault::Memory => RunFault::Memory,
            fault => RunFault::Prepare(fault),
        }
    }
}

impl From<WantedFault> for RunFault {
    ghost from_gives = { λ fault e. e ≡ of_wanted fault };

    #[tactic(auto, using(crate::proofs::Wanted::by_plan))]
    fn from(fault: WantedFault) -> RunFault {
        PlanFault::from(fault).into()
    }
}

impl From<PlanFault> for RunFault {
    ghost from_gives = { λ fault e. e ≡ of_plan fault };

    fn from(fault: PlanFault) -> RunFault {
        match fault {
            PlanFault::Finish(fault) => fault.into(),
            PlanFault::Absent(path) => RunFault::Absent(path),
            PlanFault::Device(path) => RunFault::Device(path),
            PlanFault::Memory => RunFault::Memory,
            PlanFault::Workers => RunFault::Workers,
        }
    }
}

impl RunFault {
    /// The status that the program ends with: 1 where the table or a commit to it is refused, a snapshot does not follow
    /// another by appends alone, or a file of a drill is lost; 2 for the words, the number of workers, the bundle, the
    /// filter, the change file or a state; 3 where a read or a write failed, or a folder has no newest metadata that can
    /// be read; 4 where the place of a commit's metadata is taken, or a drill's commit met others too often; 5 where
    /// memory ran out.
    pub fn status(&self) -> u8
        ensures { result ≡ status_of self.now }
    {
        match self {
            RunFault::Words(_) | RunFault::Bundle(_) | RunFault::Workers => 2,
            RunFault::State(_, _) => 2,
            RunFault::Input | RunFault::Absent(_) | RunFault::Device(_) | RunFault::Write => 3,
            RunFault::List(fault) => refused_status(list_wants_memory(fault)),
            RunFault::Scan(fault) => refused_status(scan_wants_memory(*fault)),
            RunFault::Finish(fault) => refused_status(finish_wants_memory(fault)),
            RunFault::Metadata(fault) => refused_status(meta_wants_memory(fault)),
            RunFault::Filter(fault) => filter_status(*fault),
            RunFault::Drill(fault) => fault.status(),
            RunFault::Locate(fault) => newest_status(fault),
            RunFault::Change(fault) => change_status(*fault),
            RunFault::Prepare(fault) => refused_status(prepare_wants_memory(fault)),
            RunFault::Lineage(_) => 1,
            RunFault::Conflict(_) => 4,
            RunFault::Memory => 5,
        }
    }
}

fn refused_status(wants_memory: bool) -> u8
    ensures { result ≡ refused_status wants_memory }
{
    if wants_memory { 5 } else { 1 }
}

fn filter_status(fault: FilterFault) -> u8
    ensures { result ≡ filter_status fault }
{
    match fault {
        FilterFault::Memory => 5,
        _ => 2,
    }
}

fn newest_status(fault: &NewestFault) -> u8
    ensures { result ≡ newest_status fault.now }
{
    match fault {
        NewestFault::Memory => 5,
        _ => 3,
    }
}

fn change_status(fault: ChangeFault) -> u8
    ensures { result ≡ change_status fault }
{
    match fault {
        ChangeFault::Memory => 5,
        _ => 2,
    }
}

fn schema_wants_memory(fault: SchemaFault) -> bool
    ensures { result ≡ schema_wants_memory fault }
{
    match fault {
        SchemaFault::Memory => true,
        _ => false,
    }
}

fn avro_wants_memory(fault: &AvroFault) -> bool
    ensures { result ≡ avro_wants_memory fault.now }
{
    match fault {
        AvroFault::Memory => true,
        AvroFault::Schema(fault) => schema_wants_memory(*fault),
        _ => false,
    }
}

fn list_wants_memory(fault: &ListFault) -> bool
    ensures { result ≡ list_wants_memory fault.now }
{
    match fault {
        ListFault::Memory => true,
        ListFault::Avro(fault) => avro_wants_memory(fault),
        _ => false,
    }
}

fn manifest_wants_memory(fault: &ManifestFault) -> bool
    ensures { result ≡ manifest_wants_memory fault.now }
{
    match fault {
        ManifestFault::Memory => true,
        ManifestFault::Avro(fault) => avro_wants_memory(fault),
        _ => false,
    }
}

fn scan_wants_memory(fault: ScanFault) -> bool
    ensures { result ≡ scan_wants_memory fault }
{
    match fault {
        ScanFault::Memory => true,
        ScanFault::NoSuchSpec(_) => false,
    }
}

fn finish_wants_memory(fault: &FinishFault) -> bool
    ensures { result ≡ finish_wants_memory fault.now }
{
    match fault {
        FinishFault::Memory => true,
        FinishFault::Bad(_, fault) => manifest_wants_memory(fault),
        _ => false,
    }
}

/// Whether memory ran out.
fn meta_wants_memory(fault: &MetaFault) -> bool
    ensures { result ≡ meta_wants_memory fault.now }
{
    match fault {
        MetaFault::Memory => true,
        _ => false,
    }
}

fn prepare_wants_memory(fault: &PrepareFault) -> bool
    ensures { result ≡ prepare_wants_memory fault.now }
{
    match fault {
        PrepareFault::Memory => true,
        _ => false,
    }
}
