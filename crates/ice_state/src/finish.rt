//! The plan of a content, or its first fault.

ghost use Rattle.std.specs.Prelude.{◌≡◌, ◌<◌, ◌≤◌, [], ◌++◌, length, map, IfOk, OnOk, MatchResult, filter};
ghost use Rattle.std.specs.Prelude.{option_map, IfSome, IsTrue, List, ℕ, take, false};
ghost use Rattle.std.specs.List.{enumerate_from, list_any};
ghost use Rattle.std.specs.List.Sorted.{IsPermutation};
ghost use Rattle.std.specs.Option.{option_copied};
ghost use Rattle.contract_words.specs.Outcome.{Gives};
ghost use Rattle.ice_deletes.specs.Unions.{renumbered, AreBelow};
ghost use Rattle.ice_manifest_reading.specs.declared.entry.Entry.{Entry};
ghost use Rattle.ice_deletes.specs.Groups.{is_in};
ghost use Rattle.ice_deletes.specs.declared.group.Group.TheVariants.{Referenced};
ghost use Rattle.ice_state.specs.Applying.{data_key_of, delete_key_of};
ghost use Rattle.ice_state.specs.KeptDeletes.{AreDeletesOf, IsIndexed, IsIndexOf, IsState};
ghost use Rattle.ice_state.specs.Lines.{lines_of, IsPlanned};
ghost use Rattle.ice_state.specs.ByKind.{AreInOrder, AreKeptByKind, entries_by_kind, HasFilesOf, IsInOrder};
ghost use Rattle.ice_state.specs.Orders.{IsOrder};
ghost use Rattle.ice_state.specs.Outcomes.{missing, bad, twice, by_path, kept_in, plan_over, outcome_of};
ghost use Rattle.ice_state.specs.Outcomes.{entries_in as entries_given};
ghost use Rattle.ice_state.specs.Parts.{fault_of, Stops, holds_deletes, places_of};
ghost use Rattle.ice_state.specs.Rising.{HaveRisingPaths};
ghost use Rattle.ice_state.specs.Segments.{AreKept, entries_at, segment_at, Segmented};
ghost use Rattle.ice_state.specs.Stretches.{IsStretch};
ghost use Rattle.ice_state.specs.Shares.{count_at};
ghost use Rattle.ice_state.specs.Slots.{contents, given, HasNumbers, HaveNumbers, IsIn};

pub mod apart;
pub mod by_kind;
pub mod deletes;
pub mod file_places;
pub mod helpers;
pub mod in_order;
pub mod ranks;
pub mod recent;

use crate::fault::FinishFault;
use crate::finish::by_kind::{FilesByKind, gathered};
use crate::finish::deletes::push_places;
use crate::finish::file_places::places_among;
use crate::finish::helpers::Helpers;
use crate::finish::in_order::{sort_by_path, sorted_by_path};
use crate::finish::ranks::ranks;
use crate::finish::recent::Recent;
use crate::kept::deletes::KeptDeletes;
use crate::kept::indexed::IndexedDeletes;
use crate::kept::ordered::{order_of_files, rows_by_first_path};
use crate::kept::row_runs::{data_files_rise, rows_rise};
use crate::kept::segments::{FileNumber, Segments};
use crate::kept::taken::Taken;
use crate::plan::NumberedPlan;
use crate::plan::shared_places::SharedPlaces;
use contract_words::Items;
use ice_deletes::{DeleteIndex, Finder};
use ice_manifest_reading::{ManifestFault, Row};
use std::alloc::{AllocError, Global};

/// Stops at the first row that wasn't taken.
fn check_taken(alloc: Global, rows: &[Row], slots: &[Option<Taken>]) -> Result<(), FinishFault>
    requires { length rows.now ≡ length slots.now }
    ensures { (kept : Segmented) → MatchResult result (λ _. missing rows.now (contents kept slots.now) ≡ [])
        (λ f. Stops f (missing rows.now (contents kept slots.now))) }
{
    for i in 0..rows.len() {
        if slots[i].is_none() {
            return Err(FinishFault::Missing(rows[i].path.copy(alloc)?));
        }
    }
    Ok(())
}

/// The fault of a bad manifest.
fn fault_in(slot: &Option<Taken>) -> Option<&ManifestFault>
    ensures { (kept : Segmented) → option_copied result ≡ fault_of (option_map (given kept) slot.now) }
{
    match slot {
        Some(Taken::Bad(fault)) => Some(fault),
        _ => None,
    }
}

/// Stops at the first bad row.
fn check_good(alloc: Global, rows: &[Row], slots: &[Option<Taken>]) -> Result<(), FinishFault>
    requires { length rows.now ≡ length slots.now }
    ensures { (kept : Segmented) → MatchResult result (λ _. bad rows.now (contents kept slots.now) ≡ [])
        (λ f. Stops f (bad rows.now (contents kept slots.now))) }
{
    for i in 0..rows.len() {
        if let Some(fault) = fault_in(&slots[i]) {
            return Err(FinishFault::Bad(rows[i].path.copy(alloc)?, fault.copy(alloc)?));
        }
    }
    Ok(())
}

/// Stops at the first path that two neighbours share.
fn check_neighbours(
    alloc: Global,
    entries: &Segments,
    files: &[FileNumber],
) -> Result<(), FinishFault>
    requires { AreKept entries.now files.now }
    ensures { MatchResult result (λ _. twice (entries_at entries.now files.now) ≡ [])
        (λ f. Stops f (twice (entries_at entries.now files.now))) }
{
    for i in 1..files.len() {
        let path = entries.path(files[i - 1]);
        if path == entries.path(files[i]) {
            return Err(FinishFault::PathTwice(Items::from_vec(path.to_vec(alloc)?)));
        }
    }
    Ok(())
}

/// Stops at the first path that two of the files share.
fn check_once(alloc: Global, entries: &Segments, files: &FilesByKind) -> Result<(), FinishFault>
    requires { AreKeptByKind entries.now files.now }
    ensures { (xs : List Entry) → IsPermutation xs (entries_by_kind entries.now files.now) →
        MatchResult result (λ _. twice (by_path xs) ≡ []) (λ f. Stops f (twice (by_path xs))) }
{
    let mut all = files.data_files.as_slice().to_vec(alloc)?;
    all.extend_from_slice(&files.delete_files)?;
    let sorted = sorted_by_path(alloc, entries, &all)?;
    check_neighbours(alloc, entries, &sorted)
}

/// Puts files in the order of their paths, of which the data files' may be known to rise. Stops at the first path that
/// two of them share.
fn put_in_order<H: Helpers>(
    helpers: &H,
    alloc: Global,
    entries: &Segments,
    files: &mut FilesByKind,
    rise: bool,
) -> Result<(), FinishFault>
    requires ready { H.ready helpers.now }
    requires kept { AreKeptByKind entries.now files.old }
    requires rise { IsTrue rise → HaveRisingPaths (entries_at entries.now files.old.data_files.items) }
    ensures sorted { (xs : List Entry) → HasFilesOf entries.now xs files.old →
        OnOk result (HasFilesOf entries.now (by_path xs) files.new) }
    ensures once { (xs : List Entry) → HasFilesOf entries.now xs files.old →
        MatchResult result (λ _. twice (by_path xs) ≡ []) (λ f. Stops f (twice (by_path xs))) }
{
    let rise = sort_by_path(helpers, alloc, entries, &mut files.data_files, rise)?;
    let deletes_rise = sort_by_path(helpers, alloc, entries, &mut files.delete_files, false)?;
    if rise && deletes_rise && helpers.are_apart(entries, &files.data_files, &files.delete_files) {
        return Ok(());
    }
    // As far as that tells, two share a path. All of them, sorted together, say which.
    check_once(alloc, entries, files)
}

/// The order of files: read off the same ones by path where they are found among them, else they are sorted.
fn order_among(
    alloc: Global,
    entries: &Segments,
    files: &[FileNumber],
    sorted: &[FileNumber],
) -> Result<Items<u32>, AllocError>
    requires files { AreKept entries.now files.now }
    requires sorted { entries_at entries.now sorted.now ≡ by_path (entries_at entries.now files.now) }
    requires once { (path : List ℕ) → count_at (entries_at entries.now files.now) path ≤ 1 }
    ensures { IfOk result (IsOrder (entries_at entries.now files.now)) }
{
    match places_among(alloc, files, sorted)? {
        Some(order) => Ok(order),
        None => order_of_files(alloc, entries, files),
    }
}

/// The places of the delete files that apply, for each of the data files: where they stand in the order. Without delete
/// files none is looked up.
fn lines(
    alloc: Global,
    entries: &Segments,
    files: &FilesByKind,
    deletes: &IndexedDeletes,
    order: &[u32],
) -> Result<SharedPlaces, AllocError>
    requires files { AreKept entries.now files.now.data_files.items }
    requires index { IsIndexed entries.now deletes.now }
    requires order { IsOrder (entries_at entries.now deletes.now.files.items) order.now }
    ensures { IfOk result (λ places. places ≡ map (λ x. places_of (enumerate_from 0
        (map delete_key_of (by_path (entries_at entries.now deletes.now.files.items)))) (data_key_of x))
        (entries_at entries.now files.now.data_files.items)) }
{
    if deletes.files.is_empty() {
        return SharedPlaces::without_places(alloc, files.data_files.len());
    }
    let ranks = ranks(alloc, order)?;
    looked_up(alloc, entries, files, &deletes.index, &ranks)
}

/// The places that the ranks have at the numbers of the delete files that apply, for each of the data files. Where none
/// names a data file, the same apply to those that are alike.
fn looked_up(
    alloc: Global,
    entries: &Segments,
    files: &FilesByKind,
    index: &DeleteIndex,
    ranks: &[u32],
) -> Result<SharedPlaces, AllocError>
    requires files { AreKept entries.now files.now.data_files.items }
    requires ranks { AreBelow (length ranks.now) index.now }
    ensures { IfOk result (λ places. places ≡ map (λ x. places_of (renumbered ranks.now index.now) (data_key_of x))
        (entries_at entries.now files.now.data_files.items)) }
{
    if index.names_files() {
        return each_looked_up(alloc, entries, &files.data_files, index, ranks);
    }
    stretches_looked_up(alloc, entries, &files.data_files, index, ranks)
}

/// The same, file by file.
fn each_looked_up(
    alloc: Global,
    entries: &Segments,
    files: &[FileNumber],
    index: &DeleteIndex,
    ranks: &[u32],
) -> Result<SharedPlaces, AllocError>
    requires files { AreKept entries.now files.now }
    requires ranks { AreBelow (length ranks.now) index.now }
    ensures { IfOk result (λ places. places
        ≡ map (λ x. places_of (renumbered ranks.now index.now) (data_key_of x)) (entries_at entries.now files.now)) }
{
    let mut places = SharedPlaces::with_capacity(alloc, files.len())?;
    let mut finder = Finder::new(index);
    'files: for file in files {
        push_places(&mut places, &mut finder, ranks, &entries.entry(*file))?;
    }
    Ok(places)
}

/// Where the files end that follow one and are like it.
fn end_of_stretch(entries: &Segments, files: &[FileNumber], first: usize) -> usize
    requires files { AreKept entries.now files.now }
    requires place { first < length files.now }
    ensures { IsStretch entries.now files.now first result }
{
    let one = files[first];
    let mut end = first + 1;
    'files: while end < files.len() && entries.are_alike(one, files[end]) {
        end += 1;
    }
    end
}

/// The same, a stretch of files that are alike after the other. One that is like a file before it, where that is
/// remembered, is not looked up.
fn stretches_looked_up(
    alloc: Global,
    entries: &Segments,
    files: &[FileNumber],
    index: &DeleteIndex,
    ranks: &[u32],
) -> Result<SharedPlaces, AllocError>
    requires files { AreKept entries.now files.now }
    requires ranks { AreBelow (length ranks.now) index.now }
    requires unnamed { list_any (λ e. is_in Referenced e.1) index.now ≡ false }
    ensures { IfOk result (λ places. places
        ≡ map (λ x. places_of (renumbered ranks.now index.now) (data_key_of x)) (entries_at entries.now files.now)) }
{
    let mut places = SharedPlaces::with_capacity(alloc, files.len())?;
    let mut finder = Finder::new(index);
    let mut recent = Recent::new(alloc)?;
    let mut first = 0;
    'stretches: while first < files.len() {
        let end = end_of_stretch(entries, files, first);
        if let Some(place) = recent.like(entries, files, first) {
            places.push_again(place, end - first)?;
        } else {
            let entry = entries.entry(files[first]);
            push_places(&mut places, &mut finder, ranks, &entry)?;
            places.push_again(first, end - first - 1)?;
        }
        first = end;
    }
    Ok(places)
}

/// A line for each data file, with the delete files that apply by their index.
fn planned_by(
    alloc: Global,
    entries: &Segments,
    deletes: &IndexedDeletes,
    files: FilesByKind,
) -> Result<NumberedPlan, AllocError>
    requires { (xs : List Entry) × IsInOrder entries.now xs files × IsIndexOf entries.now xs deletes.now }
    ensures planned { IfOk result (IsPlanned entries.now) }
    ensures lines { (xs : List Entry) → HasFilesOf entries.now xs files →
        IfOk result (λ plan. lines_of entries.now plan ≡ plan_over xs xs) }
{
    let order = order_among(alloc, entries, &deletes.files, &files.delete_files)?;
    let places = lines(alloc, entries, &files, deletes, order.as_slice())?;
    Ok(NumberedPlan {
        files: files.data_files,
        deletes: files.delete_files,
        places,
    })
}

/// The delete files, indexed.
fn indexed_anew(
    alloc: Global,
    entries: &Segments,
    delete_files: &[FileNumber],
) -> Result<IndexedDeletes, AllocError>
    requires { AreKept entries.now delete_files.now }
    ensures { (xs : List Entry) → entries_at entries.now delete_files.now ≡ filter holds_deletes xs →
        IfOk result (IsIndexOf entries.now xs) }
{
    IndexedDeletes::build(alloc, entries, delete_files.to_vec(alloc)?)
}

/// A line for each data file. Where some delete files wait to be indexed, the index of all is made of theirs and of the
/// one that is kept; where they were dropped, it is built anew.
fn planned(
    alloc: Global,
    entries: &Segments,
    deletes: &Option<KeptDeletes>,
    files: FilesByKind,
) -> Result<NumberedPlan, AllocError>
    requires { (xs : List Entry) × IsInOrder entries.now xs files × IfSome deletes.now (AreDeletesOf entries.now xs) }
    ensures planned { IfOk result (IsPlanned entries.now) }
    ensures lines { (xs : List Entry) → HasFilesOf entries.now xs files →
        IfOk result (λ plan. lines_of entries.now plan ≡ plan_over xs xs) }
{
    match deletes {
        Some(deletes) if deletes.waiting.is_empty() => {
            planned_by(alloc, entries, &deletes.indexed, files)
        }
        Some(deletes) => {
            let deletes = deletes.index_of_all(alloc, entries)?;
            planned_by(alloc, entries, &deletes, files)
        }
        None => {
            let deletes = indexed_anew(alloc, entries, &files.delete_files)?;
            planned_by(alloc, entries, &deletes, files)
        }
    }
}

/// The files of all kept entries in the order of their paths. Stops at the first path that two of them share. Where the
/// rows' files rise one row behind the other, no path is looked at; where those that gave data files rise so, the data
/// files are not sorted.
fn files_by_path<H: Helpers>(
    helpers: &H,
    alloc: Global,
    entries: &Segments,
    slots: &[Option<Taken>],
    deletes: &Option<KeptDeletes>,
) -> Result<FilesByKind, FinishFault>
    requires ready { H.ready helpers.now }
    requires state { IsState entries.now slots.now deletes.now }
    ensures { (xs : List Entry) × IsPermutation (kept_in (contents entries.now slots.now)) xs
        × MatchResult result (AreInOrder entries.now xs) (λ f. Stops f (twice (by_path xs))) }
{
    let rows = rows_by_first_path(alloc, entries, slots)?;
    let mut files = gathered(alloc, entries, slots, deletes, rows.as_slice())?;
    if !rows_rise(entries, slots, rows.as_slice()) {
        let rise = data_files_rise(alloc, entries, slots, rows.as_slice(), &files)?;
        put_in_order(helpers, alloc, entries, &mut files, rise)?;
    }
    Ok(files)
}

/// The plan of slots, or their first fault.
pub fn plan_or_fault<H: Helpers>(
    helpers: &H,
    alloc: Global,
    rows: &[Row],
    entries: &Segments,
    slots: &[Option<Taken>],
    deletes: &Option<KeptDeletes>,
) -> Result<NumberedPlan, FinishFault>
    requires ready { H.ready helpers.now }
    requires each { length rows.now ≡ length slots.now }
    requires kept { IsState entries.now slots.now deletes.now }
    ensures planned { IfOk result (IsPlanned entries.now) }
    ensures outcome { Gives FinishFault.Memory (lines_of entries.now) result
        (outcome_of rows.now (contents entries.now slots.now)) }
{
    check_taken(alloc, rows, slots)?;
    check_good(alloc, rows, slots)?;
    let files = files_by_path(helpers, alloc, entries, slots, deletes)?;
    Ok(planned(alloc, entries, deletes, files)?)
}
