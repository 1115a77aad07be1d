//! Calls about requests, commits, explanations, changes and filters as JSON.

ghost use Rattle.std.specs.Prelude.{◌≡◌, ℕ, List, Some, IfOk, OnOk};
ghost use Rattle.icescan_changes.specs.Changes.{file_changes};
ghost use Rattle.icescan_changes.specs.Files.{same_file};
ghost use Rattle.icescan_commits.specs.Commits.{Commitment, Made};
ghost use Rattle.icescan_commits.specs.GivenCommits.{IsCommitmentOfGiven};
ghost use Rattle.icescan_requests.specs.Shows.{WroteText, show_of};
ghost use Rattle.icescan_explain.specs.Fates.{file_verdict};
ghost use Rattle.ice_filter.specs.Trees.{tree_of};
ghost use Rattle.icescan_json.specs.Expressions.{expression_json};
ghost use Rattle.serde_json.specs.Written.{compact_text};

use contract_words::Items;
use ice_filter::Filter;
use ice_manifest_reading::Live;
use ice_meta::Schema;
use ice_state::{Line, PlanFile};
use icescan_changes::FileChange;
use icescan_explain::{Fate, FilterTests, SpecTests};
use icescan_files::{Below, Folders, Store};
use icescan_json::Expression;
use icescan_print::Sink;
use icescan_text::{CommitRequest, RunFault};
use std::alloc::{AllocError, Global};

/// Writes the text of the metadata at a path below a folder, by bytes that a read below that folder gave.
pub fn show_below<D: Folders, W: Sink>(
    alloc: Global,
    folders: &D,
    folder: &str,
    prefix: &str,
    path: &str,
    output: &mut W,
) -> Result<(), RunFault>
    ensures { OnOk result ((metadata : List ℕ) × D.gives folders.now folder.now prefix.now path.now (Some metadata)
        × WroteText (show_of metadata) (W.taken output.old) (W.taken output.new)) }
{
    let files = Below::new(folders, folder, prefix);
    icescan_requests::show_file(alloc, &files, path, output)
}

/// Makes a commit of bytes that reads below a folder gave: its files are put.
pub fn commit_below<D: Folders, S: Store, W: Sink>(
    alloc: Global,
    folders: &D,
    folder: &str,
    prefix: &str,
    request: &CommitRequest,
    store: &mut S,
    output: &mut W,
) -> Result<(), RunFault>
    ensures { OnOk result ((c : Commitment)
        × IsCommitmentOfGiven (D.gives folders.now folder.now prefix.now) request.now c
        × Made c request.now (S.files store.old) (S.files store.new) (W.taken output.old) (W.taken output.new)) }
{
    let below = Below::new(folders, folder, prefix);
    icescan_commits::commit_to(alloc, &below, request, store, output)
}

/// Whether the file of a live entry is kept, or why it is not.
pub fn file_fate(
    alloc: Global,
    tests: &FilterTests,
    of_spec: &SpecTests,
    live: &Live<'_, '_>,
) -> Result<Fate, AllocError>
    ensures { IfOk result (λ fate. fate ≡ (file_verdict tests.now of_spec.now live.now).fate) }
{
    Ok(icescan_explain::file_verdict(alloc, tests, of_spec, live)?.fate)
}

/// Whether the plans that two files are of tell the same of both.
pub fn is_unchanged(before: &PlanFile<'_>, after: &PlanFile<'_>) -> bool
    ensures { result ≡ same_file before.now after.now }
{
    icescan_changes::is_same_file(before, after)
}

/// What became of the equality delete files of a data file.
pub fn equality_changes<'a>(
    alloc: Global,
    before: Line<'a>,
    after: Line<'a>,
) -> Result<Items<FileChange<'a>>, AllocError>
    ensures { IfOk result (λ changes. changes ≡ file_changes before.entry.equalities after.entry.equalities) }
{
    icescan_changes::file_changes(alloc, &before.equalities(), &after.equalities())
}

/// The expression of a filter, as a plan's JSON has it.
pub fn filter_expression(
    alloc: Global,
    schema: &Schema,
    filter: &Filter,
) -> Result<Expression, AllocError>
    ensures { IfOk result (λ made. made ≡ compact_text (expression_json schema.now (tree_of filter.now))) }
{
    Expression::of_filter(alloc, schema, filter)
}
