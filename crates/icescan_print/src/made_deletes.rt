//! Texts of delete files that are kept as they were made, since the same delete files apply to many data files.

ghost use Rattle.std.specs.Prelude.{◌≡◌, ◌<◌, List, Some, length, slice_get, IfSome, IfOk, IsTrue};
ghost use Rattle.std.specs.List.{AllByRecursion};
ghost use Rattle.ice_state.specs.Lines.{LacksDeletes, OwnedLine};
ghost use Rattle.icescan_print.specs.MadeDeletes.{AreMade, IsMade};
ghost use Rattle.icescan_print.specs.PlanTexts.{deletes_text};
ghost use Rattle.icescan_print.specs.Written.{Sent};

use crate::page::Page;
use crate::plan_text::put_deletes;
use crate::sink::{Nowhere, Sink, SinkFault};
use ice_state::{Line, Lines};
use std::alloc::{AllocError, Global};
use std::marker::Model;

/// How many texts are kept at most, and how many bytes they all have at most.
const TEXTS: usize = 1024;

const BYTES: usize = 16_777_216;

/// How many bytes of room are taken for each delete file of a text. A text that is longer in all is not kept.
const LINE: usize = 192;

/// The text of the delete files of a plan's line.
#[derive(Debug, Drop)]
struct Made {
    line: usize,
    text: Page,
}

/// A plan's lines, with texts of their delete files. Each stands in a place that its delete files tell.
#[derive(Debug, Drop)]
pub(crate) struct MadeDeletes<'l, 'a> {
    lines: &'l Lines<'a>,
    alloc: Global,
    /// How many bytes there is still room for.
    left: usize,
    places: Vec<Option<Made>>,
}

impl<'l, 'a> Model for MadeDeletes<'l, 'a> {
    ghost use Rattle.std.specs.Prelude.{List};
    ghost use Rattle.ice_state.specs.Lines.{OwnedLine};
    ghost use Rattle.icescan_print.specs.MadeDeletes.{AreMade};

    ghost Value = { List OwnedLine };

    ghost view = { λ m. m.lines.now };

    ghost invariant = { λ m. AreMade m.lines.now m.places.items };
}

impl<'l, 'a> MadeDeletes<'l, 'a> {
    /// A plan's lines, and no text yet. Where memory lacks none is ever kept, nor where there are no delete files.
    pub(crate) fn new(alloc: Global, lines: &'l Lines<'a>) -> MadeDeletes<'l, 'a>
        ensures { result ≡ lines.now }
    {
        let many = if lines.lacks_deletes() { 0 } else { TEXTS };
        let places = match no_texts(alloc, many) {
            Ok(places) => places,
            Err(_) => Vec::new(alloc),
        };
        MadeDeletes {
            lines,
            alloc,
            left: BYTES,
            places,
        }
    }

    /// The line at a place.
    pub(crate) fn line(&self, i: usize) -> Line<'a>
        requires { i < length self.now }
        ensures { slice_get self.now i ≡ Some result }
    {
        self.lines.line(i)
    }

    /// Whether there are no delete files.
    fn lack_deletes(&self) -> bool
        ensures { IsTrue result → AllByRecursion LacksDeletes self.now }
    {
        self.lines.lacks_deletes()
    }

    /// The text of a line's delete files, where it is kept.
    fn text(&self, i: usize) -> Option<&[u8]>
        requires { i < length self.now }
        ensures { (line : OwnedLine) → slice_get self.now i ≡ Some line →
            IfSome result (λ text. text.now ≡ deletes_text line) }
    {
        let place = self.lines.deletes_hint(i) % TEXTS;
        let made = self.places.get(place)?.as_ref()?;
        if self.lines.have_same_deletes(i, made.line) {
            return Some(made.text.bytes());
        }
        None
    }

    /// Keeps the text of a line's delete files, where there is room for it.
    fn keep(&mut self, i: usize)
        requires { i < length self.old }
        ensures { self.new ≡ self.old }
    {
        let place = self.lines.deletes_hint(i) % TEXTS;
        let Some(None) = self.places.get(place) else {
            return;
        };
        let Some(room) = room_for(&self.line(i)) else {
            return;
        };
        if let Some(left) = self.left.checked_sub(room) {
            self.left = left;
            self.places[place] = made_text(self.alloc, self.lines, i, room);
        }
    }
}

/// The room for the text of a line's delete files.
fn room_for(line: &Line<'_>) -> Option<usize> {
    let many = line.positions().len().checked_add(line.equalities().len())?;
    many.checked_mul(LINE)
}

/// The text of a line's delete files; none where it needs more room, or memory lacks.
fn made_text(alloc: Global, lines: &Lines<'_>, i: usize, room: usize) -> Option<Made>
    requires { i < length lines.now }
    ensures { IsMade lines.now result }
{
    let mut text = Page::with_room(alloc, room).ok()?;
    put_deletes(&mut text, &mut Nowhere, &lines.line(i)).ok()?;
    Some(Made { line: i, text })
}

/// So many places, without texts.
fn no_texts(alloc: Global, many: usize) -> Result<Vec<Option<Made>>, AllocError>
    ensures { (lines : List OwnedLine) → IfOk result (λ places. AreMade lines places.items) }
{
    let mut places = Vec::with_capacity(alloc, many)?;
    'places: for _ in 0..many {
        places.push(None)?;
    }
    Ok(places)
}

/// Sends the lines of the delete files of one of a plan's lines. What is kept of them is not made again.
pub(crate) fn put_made_deletes<S: Sink>(
    page: &mut Page,
    sink: &mut S,
    lines: &mut MadeDeletes<'_, '_>,
    i: usize,
) -> Result<(), SinkFault>
    requires { i < length lines.old }
    ensures same { lines.new ≡ lines.old }
    ensures sent { (line : OwnedLine) → slice_get lines.old i ≡ Some line →
        Sent S.taken S.may_fail sink.old page.old result sink.new page.new (deletes_text line) }
{
    if lines.lack_deletes() {
        return Ok(());
    }
    if let Some(text) = lines.text(i) {
        return page.put(sink, text);
    }
    lines.keep(i);
    match lines.text(i) {
        Some(text) => page.put(sink, text),
        None => put_deletes(page, sink, &lines.line(i)),
    }
}
