//! Telling of the rows of a manifest list, by one worker or by many at once.

ghost use Rattle.std.specs.Prelude.{◌≡◌, ◌+◌, ◌++◌, ◌<◌, ◌≤◌, ◌^◌, IfOk, filter, length, take};
ghost use Rattle.std.specs.Thread.{IsSync};
ghost use Rattle.ice_state.specs.Joins.{join as both};
ghost use Rattle.icescan_explain.specs.RowsTold.{IsScanFor, is_wanted};
ghost use Rattle.icescan_explain.specs.ToldRanges.{AreWantedFrom, TellsRows};

use crate::blame::row_allows;
use crate::manifests::tell_rows;
use crate::tests::FilterTests;
use crate::verdict::Verdict;
use contract_words::Items;
use ice_desk::Files;
use ice_manifest_reading::Row;
use ice_state::{Partial, Scan};
use icescan_text::RunFault;
use std::alloc::{AllocError, Global};
use std::thread::{Threads, join};

/// What was told of rows, and the state in which the manifests of those that are wanted are taken.
#[derive(Debug, Drop)]
pub struct ToldRows {
    /// The state.
    pub state: Partial,
    /// What became of each manifest; behind one that was read stand its live files, by position.
    pub verdicts: Items<Verdict>,
}

impl ToldRows {
    /// What was told of these rows and then of others of the same scan.
    fn joined(self, others: ToldRows) -> Result<ToldRows, AllocError>
        requires { length self.state ≡ length others.state }
        ensures state { IfOk result (λ told. told.state ≡ both self.state others.state) }
        ensures verdicts { IfOk result (λ told. told.verdicts ≡ self.verdicts ++ others.verdicts) }
    {
        let ToldRows {
            mut state,
            verdicts,
        } = self;
        state.absorb(others.state)?;
        let mut verdicts = verdicts.into_vec();
        let mut more = others.verdicts.into_vec();
        verdicts.append(&mut more)?;
        Ok(ToldRows {
            state,
            verdicts: Items::from_vec(verdicts),
        })
    }
}

fn is_wanted(tests: &FilterTests, row: &Row) -> bool
    ensures { result ≡ is_wanted tests.now row.now }
{
    match tests.of_row(row) {
        Some(of_spec) => row_allows(&of_spec.part, row),
        None => false,
    }
}

/// How many of the rows are wanted.
fn count_wanted(tests: &FilterTests, rows: &[Row]) -> usize
    ensures { result ≡ length (filter (is_wanted tests.now) rows.now) }
{
    let mut count = 0;
    'rows: for row in rows {
        count += is_wanted(tests, row) as usize;
    }
    count
}

/// How many rows there are before so many that are wanted are among them, or in all, and how many of these are wanted.
fn front_with(tests: &FilterTests, rows: &[Row], wanted: usize) -> (usize, usize)
    ensures within { result.0 ≤ length rows.now }
    ensures counted { result.1 ≡ length (filter (is_wanted tests.now) (take result.0 rows.now)) }
{
    let mut count = 0;
    'rows: for i in 0..rows.len() {
        if count == wanted {
            return (i, count);
        }
        count += is_wanted(tests, &rows[i]) as usize;
    }
    (rows.len(), count)
}

/// The same as `tell_by_workers` where so many of the rows are wanted: they are counted once.
fn tell_halves<R: Threads + Sync, F: Files + Sync>(
    rt: &R,
    alloc: Global,
    files: &F,
    tests: &FilterTests,
    scan: &Scan,
    first: usize,
    rows: &[Row],
    wanted: usize,
    workers: usize,
) -> Result<ToldRows, RunFault>
    requires by { IsScanFor tests.now scan.now }
    requires rows { AreWantedFrom tests.now scan.now first rows.now }
    requires wanted { wanted ≡ length (filter (is_wanted tests.now) rows.now) }
    requires few { first + length rows.now < 2 ^ 64 }
    ensures { TellsRows (F.world files.now) (F.may_fail files.now) (F.gives files.now) tests.now scan.now first rows.now
        result }
{
    if workers < 2 || rows.len() < 2 {
        return tell_rows(alloc, files, tests, scan, first, rows);
    }
    let half = workers / 2;
    let other_half = workers - half;
    let each = wanted.div_ceil(workers);
    let (place, in_front) = front_with(tests, rows, each.saturating_mul(half));
    let (front, back) = rows.split_at(place);
    let next = first + in_front;
    let behind = wanted - in_front;
    let (told, others) = join(
        rt,
        || -> Result<ToldRows, RunFault>
            requires { IsSync R.row × IsSync F.row × IsScanFor tests.now scan.now
                × AreWantedFrom tests.now scan.now first front.now × (first + length front.now < 2 ^ 64)
                × (in_front ≡ length (filter (is_wanted tests.now) front.now)) }
            ensures { TellsRows (F.world files.entry.now) (F.may_fail files.entry.now) (F.gives files.entry.now)
                tests.entry.now scan.entry.now first front.entry.now result }
        { tell_halves(rt, alloc, files, tests, scan, first, front, in_front, half) },
        || -> Result<ToldRows, RunFault>
            requires { IsSync R.row × IsSync F.row × IsScanFor tests.now scan.now
                × AreWantedFrom tests.now scan.now next back.now × (next + length back.now < 2 ^ 64)
                × (behind ≡ length (filter (is_wanted tests.now) back.now)) }
            ensures { TellsRows (F.world files.entry.now) (F.may_fail files.entry.now) (F.gives files.entry.now)
                tests.entry.now scan.entry.now next back.entry.now result }
        {
            tell_halves(
                rt, alloc, files, tests, scan, next, back, behind, other_half,
            )
        },
    );
    Ok(told?.joined(others?)?)
}

/// The same as `tell_rows` by so many workers, no more than there are rows: by halves of the workers, each half with
/// its share of the wanted rows, which are neighbours, in a thread of its own where one can be started. What the first
/// half tells comes first, and so does its refusal.
pub fn tell_by_workers<R: Threads + Sync, F: Files + Sync>(
    rt: &R,
    alloc: Global,
    files: &F,
    tests: &FilterTests,
    scan: &Scan,
    first: usize,
    rows: &[Row],
    workers: usize,
) -> Result<ToldRows, RunFault>
    requires by { IsScanFor tests.now scan.now }
    requires rows { AreWantedFrom tests.now scan.now first rows.now }
    requires few { first + length rows.now < 2 ^ 64 }
    ensures { TellsRows (F.world files.now) (F.may_fail files.now) (F.gives files.now) tests.now scan.now first rows.now
        result }
{
    let wanted = count_wanted(tests, rows);
    tell_halves(rt, alloc, files, tests, scan, first, rows, wanted, workers)
}
