//! Which delete files apply to one of the live data files, found by looking these up.

ghost use Rattle.std.specs.Prelude.{◌≡◌, ◌<◌, ◌≤◌, ◌==◌, ◌||◌, ◌++◌, ◌∷◌, [], ℕ, List, false, true, None, Some, IfOk, IfNone, OnOk};
ghost use Rattle.std.specs.Prelude.{IfSome, Contains, length, get_or, option_map, ◌↔◌};
ghost use Rattle.std.specs.List.{list_any};
ghost use Rattle.std.specs.Thread.{IsSync};
ghost use Rattle.ice_deletes.specs.Found.{AppliesAt, lent};
ghost use Rattle.ice_deletes.specs.Unions.{AreBelow};
ghost use Rattle.icescan_audit_findings.specs.Dangling.{data_files, data_of};
ghost use Rattle.ice_deletes.specs.Groups.{is_in};
ghost use Rattle.ice_deletes.specs.declared.group.Group.TheVariants.{Referenced};
ghost use Rattle.ice_value.specs.Applying.{DataKey};
ghost use Rattle.icescan_audit_findings.specs.Lookups.{AreMarks, AreSeen, Covers, data_lent, is_hit};
ghost use Rattle.icescan_audit_findings.specs.declared.reaching.DataFile.{DataFile};

use crate::file_key::FileKey;
use crate::repeats::LiveFile;
use ice_deletes::{DeleteIndex, Finder, Hits};
use ice_value::{Cell, FileContent};
use std::alloc::{AllocError, Global};
use std::hash::{FoldHasher, Hasher};
use std::thread::{Threads, join};

/// How many data files that were looked up are remembered, each in a slot that its partition has.
const SLOTS: usize = 4096;

/// A live data file.
#[derive(Clone, Copy)]
pub struct DataFile<'a> {
    pub path: &'a [u8],
    pub key: &'a FileKey,
}

pub fn data_of(file: &LiveFile) -> Option<DataFile<'_>>
    ensures { option_map data_lent result ≡ data_of file.now }
{
    let key = file.key.as_ref()?;
    match key.content {
        FileContent::Data => Some(DataFile {
            path: file.path.as_slice(),
            key,
        }),
        _ => None,
    }
}

/// Marks the places of these numbers.
fn mark(marks: &mut [bool], numbers: &[usize])
    requires { (n : ℕ) → Contains numbers.now n → n < length marks.old }
    ensures many { length marks.new ≡ length marks.old }
    ensures marked { (k : ℕ) → k < length marks.old →
        get_or marks.new k false ≡ (get_or marks.old k false || list_any (λ n. n == k) numbers.now) }
{
    'numbers: for number in numbers {
        marks[*number] = true;
    }
}

/// Marks the places of the delete files that were found.
fn mark_hits(marks: &mut [bool], hits: &Hits<'_>)
    requires { (n : ℕ) → Contains (lent hits.now) n → n < length marks.old }
    ensures many { length marks.new ≡ length marks.old }
    ensures marked { (k : ℕ) → k < length marks.old →
        get_or marks.new k false ≡ (get_or marks.old k false || list_any (λ n. n == k) (lent hits.now)) }
{
    mark(marks, hits.positions);
    mark(marks, hits.referenced);
    mark(marks, hits.equalities);
    mark(marks, hits.everywhere);
}

/// The delete files that apply to a data file.
fn hits_for<'i, 'x>(finder: &mut Finder<'i, 'x>, found: &DataFile<'x>) -> Hits<'i>
    ensures exact { (n : ℕ) → Contains (lent result) n ↔ AppliesAt finder.old (data_lent found.now) n }
    ensures same { finder.new ≡ finder.old }
{
    let key = found.key;
    finder.for_data(
        key.spec_id,
        key.tuple.as_slice(),
        key.sequence_number,
        found.path,
    )
}

/// Feeds a hasher a partition value.
fn feed(hasher: &mut FoldHasher, cell: &Cell) {
    match cell {
        Cell::Null => hasher.write_u8(0),
        Cell::Bool(truth) => hasher.write_u8(*truth as u8),
        Cell::Whole(number) => hasher.write_i64(*number),
        Cell::Text(text) => hasher.write(text.as_str().as_bytes()),
        Cell::Bytes(bytes) => hasher.write(bytes.as_slice()),
    }
}

/// The slot of a partition. Which one it is counts for speed alone.
fn slot_of(key: &FileKey) -> usize
    ensures { result < 4096 }
{
    let mut hasher = FoldHasher::default();
    hasher.write_i32(key.spec_id);
    'cells: for cell in key.tuple.as_slice() {
        feed(&mut hasher, cell);
    }
    (hasher.finish() % SLOTS as u64) as usize
}

/// Whether a data file is of the partition of another and no newer.
fn covers(one: &DataFile<'_>, other: &DataFile<'_>) -> bool
    ensures spec { result ≡ true → one.now.key.now.spec_id ≡ other.now.key.now.spec_id }
    ensures tuple { result ≡ true → one.now.key.now.tuple ≡ other.now.key.now.tuple }
    ensures number { result ≡ true → one.now.key.now.sequence_number ≤ other.now.key.now.sequence_number }
{
    let (one, other) = (one.key, other.key);
    one.spec_id == other.spec_id
        && one.sequence_number <= other.sequence_number
        && one.tuple == other.tuple
}

/// The data file that a live file is, unless the one in its slot covers it; then it takes the slot.
fn uncovered<'x>(seen: &mut [Option<DataFile<'x>>], file: &'x LiveFile) -> Option<DataFile<'x>>
    requires { length seen.old ≡ 4096 }
    ensures len { length seen.new ≡ length seen.old }
    ensures found { IfSome result (λ found. data_of file.now ≡ Some (data_lent found)) }
    ensures seen { IfSome result (λ found. (xs : List DataKey) → AreSeen xs seen.old →
        AreSeen (xs ++ data_lent found ∷ []) seen.new) }
    ensures same { IfNone result (seen.new ≡ seen.old) }
    ensures covered { IfNone result ((x : DataKey) → data_of file.now ≡ Some x →
        (y : DataFile) × Contains seen.old (Some y) × Covers (data_lent y) x) }
{
    let found = data_of(file)?;
    let slot = slot_of(found.key);
    match &seen[slot] {
        Some(before) if covers(before, &found) => None,
        _ => {
            seen[slot] = Some(found);
            Some(found)
        }
    }
}

/// Marks the places of the delete files that apply to one of the data files, each of which is looked up.
fn mark_reaching(marks: &mut [bool], index: &DeleteIndex, files: &[LiveFile])
    requires { AreBelow (length marks.old) index.now }
    ensures many { length marks.new ≡ length marks.old }
    ensures marked { (k : ℕ) → k < length marks.old → get_or marks.new k false
        ≡ (get_or marks.old k false || list_any (λ x. is_hit index.now x k) (data_files files.now)) }
{
    let mut finder = Finder::new(index);
    'files: for file in files {
        match data_of(file) {
            Some(found) => mark_hits(marks, &hits_for(&mut finder, &found)),
            None => {}
        }
    }
}

/// The same where no delete file names a data file: those that one in its slot covers are passed over.
fn mark_by_partitions<'x>(
    marks: &mut [bool],
    index: &DeleteIndex,
    files: &'x [LiveFile],
    seen: &mut [Option<DataFile<'x>>],
)
    requires below { AreBelow (length marks.old) index.now }
    requires unnamed { list_any (λ e. is_in Referenced e.1) index.now ≡ false }
    requires slots { length seen.old ≡ 4096 }
    requires seen { AreSeen [] seen.old }
    ensures many { length marks.new ≡ length marks.old }
    ensures marked { (k : ℕ) → k < length marks.old → get_or marks.new k false
        ≡ (get_or marks.old k false || list_any (λ x. is_hit index.now x k) (data_files files.now)) }
{
    let mut finder = Finder::new(index);
    'files: for file in files {
        match uncovered(seen, file) {
            Some(found) => mark_hits(marks, &hits_for(&mut finder, &found)),
            None => {}
        }
    }
}

/// Slots in which no data file is.
fn empty_slots<'x>(alloc: Global) -> Result<Vec<Option<DataFile<'x>>>, AllocError>
    ensures len { IfOk result (λ slots. length slots.items ≡ 4096) }
    ensures empty { IfOk result (λ slots. AreSeen [] slots.items) }
{
    let mut slots = Vec::with_capacity(alloc, SLOTS)?;
    'slots: for _ in 0..SLOTS {
        slots.push(None)?;
    }
    Ok(slots)
}

/// Marks the places of the delete files that apply to one of the data files.
fn mark_all(
    alloc: Global,
    marks: &mut [bool],
    index: &DeleteIndex,
    files: &[LiveFile],
) -> Result<(), AllocError>
    requires { AreBelow (length marks.old) index.now }
    ensures many { length marks.new ≡ length marks.old }
    ensures marked { OnOk result ((k : ℕ) → k < length marks.old → get_or marks.new k false
        ≡ (get_or marks.old k false || list_any (λ x. is_hit index.now x k) (data_files files.now))) }
{
    if index.names_files() {
        mark_reaching(marks, index, files);
    } else {
        let mut seen = empty_slots(alloc)?;
        mark_by_partitions(marks, index, files, &mut seen);
    }
    Ok(())
}

/// Of each delete file of an index, whose numbers are below this one, whether it applies to one of the data files.
pub fn marks_of(
    alloc: Global,
    index: &DeleteIndex,
    deletes: usize,
    files: &[LiveFile],
) -> Result<Vec<bool>, AllocError>
    requires { AreBelow deletes index.now }
    ensures { IfOk result (λ marks. AreMarks deletes index.now (data_files files.now) marks.items) }
{
    let mut marks = vec![in alloc; false; deletes]?;
    mark_all(alloc, &mut marks, index, files)?;
    Ok(marks)
}

/// Marks what others mark too.
fn mark_too(marks: &mut [bool], others: &[bool])
    requires { length others.now ≡ length marks.old }
    ensures many { length marks.new ≡ length marks.old }
    ensures marked { (k : ℕ) → k < length marks.old →
        get_or marks.new k false ≡ (get_or marks.old k false || get_or others.now k false) }
{
    'marks: for i in 0..marks.len() {
        marks[i] = marks[i] || others[i];
    }
}

/// Of each delete file of an index whether it applies to one of the data files, by so many workers, each with a range of
/// the files.
pub fn marks_by_workers<R: Threads + Sync>(
    rt: &R,
    alloc: Global,
    index: &DeleteIndex,
    deletes: usize,
    files: &[LiveFile],
    workers: usize,
) -> Result<Vec<bool>, AllocError>
    requires { AreBelow deletes index.now }
    ensures { IfOk result (λ marks. AreMarks deletes index.now (data_files files.now) marks.items) }
{
    if workers < 2 {
        return marks_of(alloc, index, deletes, files);
    }
    let half = workers / 2;
    let other_half = workers - half;
    let (front, back) = files.split_at(files.len() / 2);
    let (first, others) = join(
        rt,
        || -> Result<Vec<bool>, AllocError>
            requires { IsSync R.row × AreBelow deletes index.now }
            ensures { IfOk result (λ marks.
                AreMarks deletes index.entry.now (data_files front.entry.now) marks.items) }
        { marks_by_workers(rt, alloc, index, deletes, front, half) },
        || -> Result<Vec<bool>, AllocError>
            requires { IsSync R.row × AreBelow deletes index.now }
            ensures { IfOk result (λ marks.
                AreMarks deletes index.entry.now (data_files back.entry.now) marks.items) }
        { marks_by_workers(rt, alloc, index, deletes, back, other_half) },
    );
    let mut marks = first?;
    let others = others?;
    mark_too(&mut marks, &others);
    Ok(marks)
}
