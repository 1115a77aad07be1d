//! The lines of what a table has many of: its schemas, specs, snapshots and refs.

ghost use Rattle.std.specs.Prelude.{◌≡◌, ◌++◌, ℕ, List, codes};
ghost use Rattle.std.specs.Cmp.{IsTotalOrder};
ghost use Rattle.std.specs.declared.cmp.Ordering.{Ordering};
ghost use Rattle.icescan_print.specs.TableTexts.{counted_line, named_id, named_text, change_text, origin_text};
ghost use Rattle.icescan_print.specs.TableTexts.{kind_name};
ghost use Rattle.icescan_print.specs.Written.{Sent};

use crate::page::Page;
use crate::sink::{Sink, SinkFault};
use contract_words::Text;
use ice_meta::{Ref, RefKind, Schema, Snapshot, Spec};
use std::cmp::Ordering;

/// What has a line of its own in the text of a table.
pub trait TableLine {
    /// The line.
    ghost line: { Self → List ℕ };

    /// The order of the lines.
    ghost order: { Self → Self → Ordering };

    /// Sends the line.
    fn put_line<S: Sink>(&self, page: &mut Page, sink: &mut S) -> Result<(), SinkFault>
        ensures { Sent S.taken S.may_fail sink.old page.old result sink.new page.new (line self.now) };

    /// The order of its line and another.
    fn order(&self, other: &Self) -> Ordering
        ensures { result ≡ order self.now other.now };

    ghost total: { IsTotalOrder order };
}

/// Sends a name and `-`.
fn put_dash<S: Sink>(page: &mut Page, sink: &mut S, name: &[u8]) -> Result<(), SinkFault>
    ensures { Sent S.taken S.may_fail sink.old page.old result sink.new page.new (name.now ++ codes "-") }
{
    page.put(sink, name)?;
    page.put(sink, b"-")
}

/// Sends a name and an id, or `-` where there is none.
pub fn put_named_id<S: Sink>(
    page: &mut Page,
    sink: &mut S,
    name: &[u8],
    id: Option<i64>,
) -> Result<(), SinkFault>
    ensures { Sent S.taken S.may_fail sink.old page.old result sink.new page.new (named_id name.now id) }
{
    match id {
        Some(id) => page.put_named_long(sink, name, id),
        None => put_dash(page, sink, name),
    }
}

/// Sends a name and a text, escaped, or `-` where there is none.
fn put_named_text<S: Sink>(
    page: &mut Page,
    sink: &mut S,
    name: &[u8],
    text: &Option<Text>,
) -> Result<(), SinkFault>
    ensures { Sent S.taken S.may_fail sink.old page.old result sink.new page.new (named_text name.now text.now) }
{
    match text {
        Some(text) => page.put_named_path(sink, name, text.as_bytes()),
        None => put_dash(page, sink, name),
    }
}

/// Sends the line of a thing by its id, with how many things are in it.
fn put_counted<S: Sink>(
    page: &mut Page,
    sink: &mut S,
    name: &[u8],
    id: i32,
    inside: &[u8],
    count: usize,
) -> Result<(), SinkFault>
    ensures { Sent S.taken S.may_fail sink.old page.old result sink.new page.new
        (counted_line name.now id inside.now count) }
{
    page.put_named_int(sink, name, id)?;
    page.put_named_number(sink, inside, count)?;
    page.put(sink, b"\n")
}

impl TableLine for Schema {
    ghost use Rattle.std.specs.Cmp.{on_total, int_cmp_total};
    ghost use Rattle.ice_meta.specs.declared.schema.Schema.{Schema};
    ghost use Rattle.icescan_print.specs.TableTexts.{schema_line, schema_order};

    ghost line = { schema_line };

    ghost order = { schema_order };

    ghost total = { on_total (λ (a : Schema). a.id) int_cmp_total };

    #[tactic(auto, unfolding(crate::specs::TableTexts::schema_line))]
    fn put_line<S: Sink>(&self, page: &mut Page, sink: &mut S) -> Result<(), SinkFault> {
        let columns = self.columns.as_slice().len();
        put_counted(page, sink, b"schema ", self.id, b" columns ", columns)
    }

    fn order(&self, other: &Self) -> Ordering {
        self.id.cmp(&other.id)
    }
}

impl TableLine for Spec {
    ghost use Rattle.std.specs.Cmp.{on_total, int_cmp_total};
    ghost use Rattle.ice_meta.specs.declared.spec.Spec.{Spec};
    ghost use Rattle.icescan_print.specs.TableTexts.{spec_line, spec_order};

    ghost line = { spec_line };

    ghost order = { spec_order };

    ghost total = { on_total (λ (a : Spec). a.id) int_cmp_total };

    #[tactic(auto, unfolding(crate::specs::TableTexts::spec_line))]
    fn put_line<S: Sink>(&self, page: &mut Page, sink: &mut S) -> Result<(), SinkFault> {
        let fields = self.fields.as_slice().len();
        put_counted(page, sink, b"spec ", self.id, b" fields ", fields)
    }

    fn order(&self, other: &Self) -> Ordering {
        self.id.cmp(&other.id)
    }
}

/// Sends a snapshot's numbers.
#[tactic(auto, unfolding(crate::specs::TableTexts::change_text))]
fn put_change<S: Sink>(page: &mut Page, sink: &mut S, snapshot: &Snapshot) -> Result<(), SinkFault>
    ensures { Sent S.taken S.may_fail sink.old page.old result sink.new page.new (change_text snapshot.now) }
{
    page.put_named_long(sink, b"snapshot ", snapshot.id)?;
    page.put_named_number(sink, b" seq ", snapshot.sequence_number.get())?;
    page.put_named_long(sink, b" at ", snapshot.timestamp_ms)
}

/// Sends what a snapshot may lack.
#[tactic(auto, unfolding(crate::specs::TableTexts::origin_text))]
fn put_origin<S: Sink>(page: &mut Page, sink: &mut S, snapshot: &Snapshot) -> Result<(), SinkFault>
    ensures { Sent S.taken S.may_fail sink.old page.old result sink.new page.new (origin_text snapshot.now) }
{
    put_named_id(page, sink, b" parent ", snapshot.parent_id)?;
    put_named_text(page, sink, b" operation ", &snapshot.operation)?;
    put_named_text(page, sink, b" list ", &snapshot.manifest_list)
}

impl TableLine for Snapshot {
    ghost use Rattle.std.specs.Cmp.{on_total, then_total, int_cmp_total, nat_cmp_total};
    ghost use Rattle.ice_meta.specs.declared.snapshot.Snapshot.{Snapshot};
    ghost use Rattle.icescan_print.specs.TableTexts.{snapshot_line, snapshot_order};

    ghost line = { snapshot_line };

    ghost order = { snapshot_order };

    ghost total = { then_total (on_total (λ (a : Snapshot). a.sequence_number) nat_cmp_total)
        (on_total (λ (a : Snapshot). a.id) int_cmp_total) };

    #[tactic(auto, unfolding(crate::specs::TableTexts::snapshot_line))]
    fn put_line<S: Sink>(&self, page: &mut Page, sink: &mut S) -> Result<(), SinkFault> {
        put_change(page, sink, self)?;
        put_origin(page, sink, self)?;
        page.put(sink, b"\n")
    }

    fn order(&self, other: &Self) -> Ordering {
        self.sequence_number
            .cmp(&other.sequence_number)
            .then(self.id.cmp(&other.id))
    }
}

fn kind_name(kind: RefKind) -> &'static [u8]
    ensures { result.now ≡ kind_name kind }
{
    match kind {
        RefKind::Branch => b" branch ",
        RefKind::Tag => b" tag ",
    }
}

impl TableLine for Ref {
    ghost use Rattle.std.specs.Cmp.{on_total};
    ghost use Rattle.std.specs.Cmp.Lexicographic.{nat_list_cmp_total};
    ghost use Rattle.ice_meta.specs.declared.snapshot.Ref.{Ref};
    ghost use Rattle.icescan_print.specs.TableTexts.{ref_line, ref_order};

    ghost line = { ref_line };

    ghost order = { ref_order };

    ghost total = { on_total (λ (a : Ref). a.name) nat_list_cmp_total };

    #[tactic(auto, unfolding(crate::specs::TableTexts::ref_line))]
    fn put_line<S: Sink>(&self, page: &mut Page, sink: &mut S) -> Result<(), SinkFault> {
        page.put_named_path(sink, b"ref ", self.name.as_bytes())?;
        page.put_named_long(sink, kind_name(self.kind), self.snapshot_id)?;
        page.put(sink, b"\n")
    }

    fn order(&self, other: &Self) -> Ordering {
        self.name.as_bytes().cmp(other.name.as_bytes())
    }
}
