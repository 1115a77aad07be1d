//! Texts of things that are listed, made by many threads at once and handed on in order.

ghost use Rattle.std.specs.Prelude.{◌≡◌, ◌<◌, ◌≤◌, ◌*◌, ◌+◌, ◌^◌, ℕ, List, Some, IfOk, OnOk, IfSome, length, sum_by};
ghost use Rattle.std.specs.Prelude.{vec_len};
ghost use Rattle.std.specs.List.{concat};
ghost use Rattle.std.specs.Thread.{IsSync};
ghost use Rattle.icescan_print.specs.PlanTexts.{deletes_of, plan_text};
ghost use Rattle.icescan_print.specs.Ranges.{AreTexts, IsDraftOf, range_text};
ghost use Rattle.icescan_print.specs.Written.{Sent};

use crate::page::Page;
use crate::plan_text::put_totals;
use crate::sink::{Nowhere, Sink, SinkFault};
use crate::text_list::TextList;
use ice_state::Lines;
use std::alloc::{AllocError, Global};
use std::thread::{Threads, join_mut};

/// How many bytes of a text are made ahead at most, by each thread. All have to be there to be taken; of them Linux
/// gives only those that are written to.
const MOST_AHEAD: usize = 8_388_608;

/// Where a thread makes the texts of ranges, one after the other, in memory that is taken once.
#[derive(Debug, Drop)]
struct Draft {
    page: Page,
    /// Whether the whole text of its range is on the page.
    whole: bool,
}

impl Draft {
    /// Room for the texts of ranges.
    fn new(alloc: Global) -> Result<Draft, AllocError> {
        Ok(Draft {
            page: Page::with_room(alloc, MOST_AHEAD)?,
            whole: false,
        })
    }

    /// With the text of so many things of a list from a place on in the place of the one before. It is not whole where
    /// it is too long to be made ahead.
    fn with_text<T: TextList>(mut self, list: &T, first: usize, count: usize) -> Draft
        ensures { IsDraftOf (Some result) (range_text (T.texts list.now) first count) }
    {
        self.page.clear();
        let put = list.put_range(&mut self.page, &mut Nowhere, first, count);
        self.whole = put.is_ok();
        self
    }
}

/// Makes the text of so many things of a list from a place on in a draft. It is taken out for as long: drafts lie side
/// by side in memory, and threads that write to them there would slow one another.
fn make_text<T: TextList>(draft: &mut Option<Draft>, list: &T, first: usize, count: usize)
    ensures { IsDraftOf draft.new (range_text (T.texts list.now) first count) }
{
    if let Some(taken) = draft.take() {
        *draft = Some(taken.with_text(list, first, count));
    }
}

/// The text that a draft has, where it is whole.
fn whole_text(draft: &Option<Draft>) -> Option<&[u8]>
    ensures { (text : List ℕ) → IsDraftOf draft.now text → IfSome result (λ found. found.now ≡ text) }
{
    match draft {
        Some(draft) if draft.whole => Some(draft.page.bytes()),
        _ => None,
    }
}

/// Room for the texts of so many ranges.
fn drafts_of(alloc: Global, ranges: usize) -> Result<Vec<Option<Draft>>, AllocError>
    ensures { IfOk result (λ drafts. vec_len drafts ≡ ranges) }
{
    let mut drafts = Vec::with_capacity(alloc, ranges)?;
    for _ in 0..ranges {
        drafts.push(Some(Draft::new(alloc)?))?;
    }
    Ok(drafts)
}

/// Makes the texts of ranges of a list from a place on, each of so many things and in a thread of its own. This one only
/// starts them and waits: a thread that was started often has to wait for the one that started it, while this works.
#[cycle(texts)]
fn make_texts<R: Threads + Sync, T: TextList + Sync>(
    rt: &R,
    list: &T,
    first: usize,
    each: usize,
    drafts: &mut [Option<Draft>],
)
    requires { first + length drafts.old * each < 2 ^ 64 }
    ensures { AreTexts (T.texts list.now) first each drafts.new }
{
    if drafts.is_empty() {
        return;
    }
    let (one, others) = drafts.split_at_mut(1);
    make_beside(rt, list, first, each, one, others);
}

/// The text of the first range, in a thread of its own, beside those of the others.
#[cycle(texts)]
fn make_beside<R: Threads + Sync, T: TextList + Sync>(
    rt: &R,
    list: &T,
    first: usize,
    each: usize,
    one: &mut [Option<Draft>],
    others: &mut [Option<Draft>],
)
    requires one { length one.old ≡ 1 }
    requires room { first + each + length others.old * each < 2 ^ 64 }
    ensures one { AreTexts (T.texts list.now) first each one.new }
    ensures others { AreTexts (T.texts list.now) (first + each) each others.new }
{
    let mut front = ||
        requires { length one.now ≡ 1 }
        ensures { AreTexts (T.texts list.entry.now) first each one.exit.now }
    { make_text(&mut one[0], list, first, each) };
    let mut back = ||
        requires { IsSync R.row × IsSync T.row × (first + each + length others.now * each < 2 ^ 64) }
        ensures { AreTexts (T.texts list.entry.now) (first + each) each others.exit.now }
    { make_texts(rt, list, first + each, each, others) };
    join_mut(rt, &mut front, &mut back);
}

/// Sends texts that were made of ranges of a list, and the text of a range of which none was made.
fn put_texts<T: TextList, S: Sink>(
    page: &mut Page,
    sink: &mut S,
    list: &T,
    first: usize,
    each: usize,
    drafts: &[Option<Draft>],
) -> Result<(), SinkFault>
    requires room { first + length drafts.now * each < 2 ^ 64 }
    requires texts { AreTexts (T.texts list.now) first each drafts.now }
    ensures { Sent S.taken S.may_fail sink.old page.old result sink.new page.new
        (range_text (T.texts list.now) first (length drafts.now * each)) }
{
    for (i, draft) in drafts.iter().enumerate() {
        match whole_text(draft) {
            Some(text) => page.put(sink, text)?,
            None => list.put_range(page, sink, first + i * each, each)?,
        }
    }
    Ok(())
}

/// Sends the text of ranges of a list from a place on, made by threads.
fn put_ranges<R: Threads + Sync, T: TextList + Sync, S: Sink>(
    rt: &R,
    page: &mut Page,
    sink: &mut S,
    list: &T,
    first: usize,
    each: usize,
    drafts: &mut [Option<Draft>],
) -> Result<(), SinkFault>
    requires some { 0 < length drafts.old }
    requires room { first + length drafts.old * each < 2 ^ 64 }
    ensures sent { Sent S.taken S.may_fail sink.old page.old result sink.new page.new
        (range_text (T.texts list.now) first (length drafts.old * each)) }
    ensures len { length drafts.new ≡ length drafts.old }
{
    make_texts(rt, list, first, each, drafts);
    put_texts(page, sink, list, first, each, drafts)
}

/// Sends the texts of a list, made by a thread for each draft, each of so many things at a time.
fn put_windows<R: Threads + Sync, T: TextList + Sync, S: Sink>(
    rt: &R,
    page: &mut Page,
    sink: &mut S,
    list: &T,
    each: usize,
    drafts: &mut [Option<Draft>],
) -> Result<(), SinkFault>
    requires drafts { (0 < length drafts.old) × (length drafts.old ≤ 64) }
    requires each { (0 < each) × (each ≤ 65536) }
    ensures { Sent S.taken S.may_fail sink.old page.old result sink.new page.new (concat (T.texts list.now)) }
{
    let window = drafts.len() * each;
    for i in 0..list.count().div_ceil(window) {
        put_ranges(rt, page, sink, list, i * window, each, drafts)?;
    }
    Ok(())
}

/// Sends the texts of a list, one behind the other, made by so many threads at once, from 1 to 64, each of so many things
/// at a time, from 1 to 65,536, where there are things for more than one. At most 8 MB a thread are made before they are
/// sent, for which room is taken at the start; a longer text is sent as it is made, and so are all where there is no
/// such room.
pub fn put_list_by_workers<R: Threads + Sync, T: TextList + Sync, S: Sink>(
    rt: &R,
    alloc: Global,
    page: &mut Page,
    sink: &mut S,
    list: &T,
    workers: usize,
    each: usize,
) -> Result<(), SinkFault>
    requires workers { (0 < workers) × (workers ≤ 64) }
    requires each { (0 < each) × (each ≤ 65536) }
    ensures { Sent S.taken S.may_fail sink.old page.old result sink.new page.new (concat (T.texts list.now)) }
{
    let count = list.count();
    if 1 < workers && each < count {
        let ranges = count.div_ceil(each);
        if let Ok(mut drafts) = drafts_of(alloc, workers.min(ranges)) {
            return put_windows(rt, page, sink, list, each, &mut drafts);
        }
    }
    list.put_range(page, sink, 0, count)
}

/// The same as `put_plan`, the text of the lines made by so many threads at once, each of so many lines at a time, as
/// `put_list_by_workers` does it.
#[tactic(auto, unfolding(crate::specs::PlanTexts::plan_text))]
pub fn put_plan_by_workers<R: Threads + Sync, S: Sink>(
    rt: &R,
    alloc: Global,
    page: &mut Page,
    sink: &mut S,
    lines: &Lines<'_>,
    deletes: u128,
    workers: usize,
    each: usize,
) -> Result<(), SinkFault>
    requires deletes { deletes ≡ sum_by deletes_of lines.now }
    requires workers { (0 < workers) × (workers ≤ 64) }
    requires each { (0 < each) × (each ≤ 65536) }
    ensures { Sent S.taken S.may_fail sink.old page.old result sink.new page.new (plan_text lines.now) }
{
    put_list_by_workers(rt, alloc, page, sink, lines, workers, each)?;
    put_totals(page, sink, lines, deletes)
}
