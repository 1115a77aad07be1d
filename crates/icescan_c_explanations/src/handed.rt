//! Explanations of tables whose files are handed in, one after the other, by who reads them.

ghost use Rattle.std.specs.Prelude.{◌≡◌, ◌≢◌, ◌++◌, IfOk, OnOk};
ghost use Rattle.std.specs.FinMap.{get};
ghost use Rattle.contract_words.specs.Outcome.{Gives};
ghost use Rattle.icescan_c_explanations.specs.Handed.{asked, manifests_for, told_in, took};
ghost use Rattle.icescan_requests.specs.Plans.{manifests, selected_rows};

use contract_words::{Items, Text};
use ice_catalog_versions::World;
use ice_state::ScanFault;
use icescan_c_requests::{HandedFiles, as_memory, copy_request};
use icescan_explain::run_explain;
use icescan_forms::Format;
use icescan_requests::{SelectedRows, select, select_rows};
use icescan_text::{Request, RunFault};
use std::alloc::{AllocError, Global};

/// An explanation that is asked for, and what is handed in of the table: the manifest list of the snapshot, and then
/// the manifests that the scan of it wants.
#[derive(Drop)]
pub struct HandedExplanation {
    metadata: Items<u8>,
    request: Request,
    /// What is handed in of the table.
    pub files: HandedFiles,
}

/// Puts the paths of the manifests last that the scan of these rows wants; none where there is no scan of them.
#[tactic(auto, unfolding(icescan_requests::specs::Plans::manifests))]
fn push_wanted(
    alloc: Global,
    paths: &mut Items<Text>,
    selected: SelectedRows,
) -> Result<(), AllocError>
    ensures { OnOk result
        (paths.new ≡ paths.old ++ manifests selected.specs selected.filter.parts selected.rows) }
{
    let scan = match selected.into_scan(alloc) {
        Ok(scan) => scan,
        Err(ScanFault::Memory) => return Err(AllocError),
        Err(_) => return Ok(()),
    };
    'rows: for row in scan.wanted() {
        paths.push(row.path.copy(alloc)?)?;
    }
    Ok(())
}

/// Refuses where memory ran out, and not for another reason.
fn pass_memory(fault: RunFault) -> Result<(), AllocError>
    ensures { OnOk result (fault ≢ RunFault.Memory) }
{
    match fault {
        RunFault::Memory => Err(AllocError),
        fault => {
            drop(fault);
            Ok(())
        }
    }
}

/// Puts the paths of the manifests last that are wanted of the snapshot that a request asks for, by its manifest list
/// among these files; none where it can't be read.
fn push_manifests(
    alloc: Global,
    paths: &mut Items<Text>,
    files: &World,
    metadata: &[u8],
    request: &Request,
) -> Result<(), AllocError>
    ensures { OnOk result (paths.new
        ≡ paths.old ++ manifests_for (selected_rows (λ path. get files.now path) metadata.now request.now)) }
{
    match select_rows(alloc, files, metadata, request) {
        Ok(selected) => push_wanted(alloc, paths, selected),
        Err(fault) => pass_memory(fault),
    }
}

impl HandedExplanation {
    /// An explanation of the plan that a request asks for, of the table whose metadata these are the bytes of. The
    /// refusals are those of `select`.
    #[tactic(auto, unfolding(crate::specs::Handed::asked))]
    pub fn new(
        alloc: Global,
        metadata: &[u8],
        request: &Request,
    ) -> Result<HandedExplanation, RunFault>
        ensures { Gives RunFault.Memory (λ explanation. explanation) result (asked metadata.now request.now) }
    {
        let selection = select(alloc, metadata, request)?;
        let mut wanted = Items::new(alloc);
        wanted.push(selection.list)?;
        Ok(HandedExplanation {
            metadata: Items::from_vec(Vec::from_slice(alloc, metadata)?),
            request: copy_request(alloc, request)?,
            files: HandedFiles::new(alloc, wanted),
        })
    }

    /// The explanation with the next file, which has these bytes; itself where each was handed in.
    #[tactic(auto, unfolding(crate::specs::Handed::took))]
    pub fn take(self, alloc: Global, bytes: &[u8]) -> Result<HandedExplanation, AllocError>
        ensures { IfOk result (λ explanation. explanation ≡ took self bytes.now) }
    {
        let HandedExplanation {
            metadata,
            request,
            mut files,
        } = self;
        if files.take(alloc, bytes)? {
            push_manifests(
                alloc,
                &mut files.wanted,
                &files.kept,
                metadata.as_slice(),
                &request,
            )?;
        }
        Ok(HandedExplanation {
            metadata,
            request,
            files,
        })
    }

    /// What became of the manifests and the live files, as lines of JSON, on what was handed in. A file that was not is
    /// taken for one that is not there. The refusals are those of `run_explain`; a write can fail for want of memory
    /// alone, and is `Memory` then.
    #[tactic(auto, unfolding(crate::specs::Handed::told_in))]
    pub fn into_json(self, alloc: Global) -> Result<Items<u8>, RunFault>
        ensures { Gives RunFault.Memory (λ text. text) result (told_in self) }
    {
        let HandedExplanation {
            metadata,
            request,
            files,
        } = self;
        let mut text = Vec::new(alloc);
        match run_explain(
            alloc,
            &files.kept,
            metadata.as_slice(),
            &request,
            Format::Json,
            &mut text,
        ) {
            Ok(()) => Ok(Items::from_vec(text)),
            Err(fault) => Err(as_memory(fault)),
        }
    }
}
