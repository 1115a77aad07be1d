//! What becomes of a live file.

ghost use Rattle.std.specs.Prelude.{◌≡◌, IfOk, IfSome};
ghost use Rattle.contract_words.specs.Outcome.{Gives};
ghost use Rattle.icescan_explain.specs.Fates.{file_fate, file_verdict, is_out_of_bounds, verdict_on};
ghost use Rattle.ice_manifest_reading.specs.Keeping.{live_with};
ghost use Rattle.ice_manifest_reading.specs.Manifests.{live_of};
ghost use Rattle.ice_manifest_reading.specs.Telling.{told_of};
ghost use Rattle.ice_value.specs.declared.file_bounds.FileBounds.{FileBounds};

use crate::blame::{blamed_by_bounds, blamed_by_tuple};
use crate::tests::{FilterTests, SpecTests};
use crate::verdict::{Fate, Subject, Verdict};
use contract_words::Items;
use ice_manifest_reading::{EntryView, Live, ManifestFault, Row, Tell, read_told};
use ice_project::bounds_may;
use ice_value::FileContent;
use std::alloc::{AllocError, Global};

/// Whether it is a data file whose counts and bounds say no to the filter.
fn is_out_of_bounds(tests: &FilterTests, live: &Live<'_, '_>) -> bool
    ensures { result ≡ is_out_of_bounds tests.now live.now }
{
    live.entry.content() == FileContent::Data && !bounds_may(&tests.filter, &live.bounds)
}

fn file_fate(
    tests: &FilterTests,
    of_spec: &SpecTests,
    live: &Live<'_, '_>,
) -> Result<Fate, AllocError>
    ensures { IfOk result (λ fate. fate ≡ file_fate tests.now of_spec.now live.now) }
{
    let tuple = live.entry.tuple();
    if !of_spec.part.meets(tuple) {
        let field = blamed_by_tuple(of_spec.lone.as_slice(), tuple)?;
        return Ok(Fate::ByPartition(field));
    }
    if is_out_of_bounds(tests, live) {
        let column = blamed_by_bounds(tests.predicates.as_slice(), &live.bounds)?;
        return Ok(Fate::ByBounds(column));
    }
    Ok(Fate::Kept)
}

/// What becomes of the file of an entry, where its counts and bounds do not matter; none where they may.
fn fate_without_columns(
    tests: &FilterTests,
    of_spec: &SpecTests,
    entry: &EntryView<'_>,
) -> Result<Option<Fate>, AllocError>
    ensures { IfOk result (λ answer. IfSome answer (λ fate. (columns : FileBounds) →
        file_fate tests.now of_spec.now (live_with entry.now columns) ≡ fate)) }
{
    let tuple = entry.tuple();
    if !of_spec.part.meets(tuple) {
        let field = blamed_by_tuple(of_spec.lone.as_slice(), tuple)?;
        return Ok(Some(Fate::ByPartition(field)));
    }
    if entry.content() != FileContent::Data || tests.filter.parts.as_slice().is_empty() {
        return Ok(Some(Fate::Kept));
    }
    Ok(None)
}

/// The verdict on an entry's file of which this becomes.
fn verdict_on(alloc: Global, entry: &EntryView<'_>, fate: Fate) -> Result<Verdict, AllocError>
    ensures { IfOk result (λ verdict. verdict ≡ verdict_on entry.now fate) }
{
    let entry = entry.lent();
    Ok(Verdict {
        path: Items::from_vec(entry.path.to_vec(alloc)?),
        bytes: entry.file_size,
        subject: Subject::of(entry.content),
        fate,
    })
}

/// What becomes of the file of a live entry of a manifest of the spec.
pub fn file_verdict(
    alloc: Global,
    tests: &FilterTests,
    of_spec: &SpecTests,
    live: &Live<'_, '_>,
) -> Result<Verdict, AllocError>
    ensures { IfOk result (λ verdict. verdict ≡ file_verdict tests.now of_spec.now live.now) }
{
    let fate = file_fate(tests, of_spec, live)?;
    verdict_on(alloc, &live.entry, fate)
}

/// Tells what becomes of the live files of manifests of a spec.
#[derive(Drop)]
pub struct FileTests<'a> {
    /// The filter, and what is asked for it.
    pub tests: &'a FilterTests,
    /// The filter through the spec.
    pub of_spec: &'a SpecTests,
}

impl<'a> Tell for FileTests<'a> {
    type Told = Verdict;

    ghost told = { λ by. file_verdict by.tests.now by.of_spec.now };

    fn tell(&self, alloc: Global, live: &Live<'_, '_>) -> Result<Verdict, AllocError> {
        file_verdict(alloc, self.tests, self.of_spec, live)
    }

    fn without_columns(
        &self,
        alloc: Global,
        entry: &EntryView<'_>,
    ) -> Result<Option<Verdict>, AllocError> {
        match fate_without_columns(self.tests, self.of_spec, entry)? {
            Some(fate) => Ok(Some(verdict_on(alloc, entry, fate)?)),
            None => Ok(None),
        }
    }
}

/// What becomes of the live files of a row's manifest of the spec, in the order of their positions. The fault is that
/// of `read_kept`.
pub fn file_verdicts(
    alloc: Global,
    tests: &FilterTests,
    of_spec: &SpecTests,
    row: &Row,
    bytes: &[u8],
) -> Result<Vec<Verdict>, ManifestFault>
    ensures { Gives ManifestFault.Memory (λ verdicts. verdicts.items) result
        (told_of (file_verdict tests.now of_spec.now) (live_of row.now of_spec.now.spec bytes.now)) }
{
    let by = FileTests { tests, of_spec };
    read_told(alloc, row, &of_spec.spec, &by, bytes)
}
