//! The tasks of a plan.

ghost use Rattle.std.specs.Prelude.{◌≡◌, ◌<◌, ◌^◌, ◌++◌, All, length, List, map, slice_get, Some, ℕ};
ghost use Rattle.std.specs.Fmt.{decimal};
ghost use Rattle.icescan_print.specs.Written.{Sent};
ghost use Rattle.ice_state.specs.PlacedFiles.{ArePlaced};
ghost use Rattle.icescan_forms.specs.Pieces.{each_from};
ghost use Rattle.icescan_json.specs.Named.{moved, narrowed, rank};
ghost use Rattle.icescan_json.specs.Texts.{references_text, listed_tasks, task_texts};

use crate::files::put_data_file;
use crate::named::NamedDeletes;
use crate::types::SpecTypes;
use ice_state::PlacedFiles;
use icescan_forms::comma_before;
use icescan_print::{Page, Sink, SinkFault, TextList};
use std::marker::Model;

/// Sends the places in the list of the delete files at these places of the plan, with commas between them, the first as
/// one that has this place among the references of its task.
fn put_places<S: Sink>(
    page: &mut Page,
    sink: &mut S,
    named: &NamedDeletes,
    first: usize,
    places: &[u32],
) -> Result<(), SinkFault>
    requires few { first < 2 ^ 63 }
    requires within { All (λ n. n < length named.now) places.now }
    ensures { Sent S.taken S.may_fail sink.old page.old result sink.new page.new
        (each_from (λ _ n. decimal (rank named.now n)) first places.now) }
{
    for i in 0..places.len() {
        let place = named.place(places[i] as usize);
        page.put_named_number(sink, comma_before(first + i), place)?;
    }
    Ok(())
}

/// Sends the references of a task to its delete files, where there are any.
fn put_references<S: Sink>(
    page: &mut Page,
    sink: &mut S,
    named: &NamedDeletes,
    positions: &[u32],
    equalities: &[u32],
) -> Result<(), SinkFault>
    requires positions { All (λ n. n < length named.now) positions.now }
    requires equalities { All (λ n. n < length named.now) equalities.now }
    ensures { Sent S.taken S.may_fail sink.old page.old result sink.new page.new
        (references_text (map (rank named.now) positions.now ++ map (rank named.now) equalities.now)) }
{
    if positions.len() + equalities.len() == 0 {
        return Ok(());
    }
    page.put(sink, b",\"delete-file-references\":[")?;
    put_places(page, sink, named, 0, positions)?;
    put_places(page, sink, named, positions.len(), equalities)?;
    page.put(sink, b"]")
}

/// Sends the task of a data file.
fn put_task<S: Sink>(
    page: &mut Page,
    sink: &mut S,
    types: &[SpecTypes],
    residual: &[u8],
    plan: &PlacedFiles<'_>,
    named: &NamedDeletes,
    i: usize,
) -> Result<(), SinkFault>
    requires there { i < length plan.now.files }
    requires placed { ArePlaced plan.now }
    requires marked { length named.now ≡ length plan.now.deletes }
    ensures { (text : List ℕ) →
        slice_get (task_texts types.now residual.now plan.now.files (map (moved named.now) plan.now.places)) i
        ≡ Some text → Sent S.taken S.may_fail sink.old page.old result sink.new page.new text }
{
    let file = plan.file(i);
    let positions = plan.positions(i);
    let equalities = plan.equalities(i);
    page.put(sink, b"{\"data-file\":")?;
    put_data_file(page, sink, types, &file)?;
    put_references(page, sink, named, positions, equalities)?;
    page.put(sink, b",\"residual-filter\":")?;
    page.put(sink, residual)?;
    page.put(sink, b"}")
}

/// The tasks of a plan, each but the first with a comma before it.
#[derive(Debug, Drop)]
pub(crate) struct Tasks<'t, 'a> {
    types: &'t [SpecTypes],
    /// The text of the filter.
    residual: &'t [u8],
    plan: &'t PlacedFiles<'a>,
    named: &'t NamedDeletes,
}

impl<'t, 'a> Model for Tasks<'t, 'a> {
    ghost use Rattle.std.specs.Prelude.{◌≡◌, length, List, ℕ};
    ghost use Rattle.ice_state.specs.PlacedFiles.{ArePlaced};
    ghost use Rattle.icescan_json.specs.Named.{narrowed};
    ghost use Rattle.icescan_json.specs.Texts.{listed_tasks};

    ghost Value = { List (List ℕ) };

    ghost view = { λ t. listed_tasks t.types.now t.residual.now (narrowed t.named.now t.plan.now) };

    ghost invariant = { λ t. record {
      placed : ArePlaced t.plan.now;
      marked : length t.named.now ≡ length t.plan.now.deletes;
    } };
}

impl<'t, 'a> Tasks<'t, 'a> {
    /// The tasks of a plan of whose delete files these are named, each with the filter of this text.
    pub(crate) fn new(
        types: &'t [SpecTypes],
        residual: &'t [u8],
        plan: &'t PlacedFiles<'a>,
        named: &'t NamedDeletes,
    ) -> Tasks<'t, 'a>
        requires placed { ArePlaced plan.now }
        requires marked { length named.now ≡ length plan.now.deletes }
        ensures { result ≡ listed_tasks types.now residual.now (narrowed named.now plan.now) }
    {
        Tasks {
            types,
            residual,
            plan,
            named,
        }
    }

    /// Sends a task, after a comma where it isn't the first.
    fn put_listed<S: Sink>(&self, page: &mut Page, sink: &mut S, i: usize) -> Result<(), SinkFault>
        requires { i < length self.now }
        ensures { (text : List ℕ) → slice_get self.now i ≡ Some text →
            Sent S.taken S.may_fail sink.old page.old result sink.new page.new text }
    {
        let plan = self.plan;
        page.put(sink, comma_before(i))?;
        put_task(page, sink, self.types, self.residual, plan, self.named, i)
    }
}

impl<'t, 'a> TextList for Tasks<'t, 'a> {
    ghost texts = { λ tasks. tasks };

    fn count(&self) -> usize {
        self.plan.count_files()
    }

    fn put_range<S: Sink>(
        &self,
        page: &mut Page,
        sink: &mut S,
        first: usize,
        count: usize,
    ) -> Result<(), SinkFault> {
        let end = self.count().min(first.saturating_add(count));
        for i in first..end {
            self.put_listed(page, sink, i)?;
        }
        Ok(())
    }
}
