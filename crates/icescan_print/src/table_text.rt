//! The text of a table's metadata, sent to a sink piece by piece.

ghost use Rattle.std.specs.Prelude.{◌≡◌, ◌++◌, List, map, filter, option_map, option_to_list, IfOk, OnOk};
ghost use Rattle.std.specs.List.{flat_map};
ghost use Rattle.std.specs.Ordering.{is_lt};
ghost use Rattle.contract_words.specs.Sorting.{sorted};
ghost use Rattle.icescan_print.specs.Shown.{IsShown};
ghost use Rattle.icescan_print.specs.TableTexts.{head_text, is_other, main_ref, ref_order, table_text, uuid_text};
ghost use Rattle.icescan_print.specs.Written.{Sent};

use crate::page::Page;
use crate::sink::{Sink, SinkFault};
use crate::table_lines::{TableLine, put_named_id};
use contract_words::Text;
use ice_meta::{Ref, RefKind, Schema, Snapshot, Spec, Table};
use std::alloc::{AllocError, Global};
use uuid::Uuid;

/// What a table has many of, in the order of its lines.
#[derive(Drop)]
pub struct Shown<'a> {
    schemas: Vec<&'a Schema>,
    specs: Vec<&'a Spec>,
    snapshots: Vec<&'a Snapshot>,
    refs: Vec<&'a Ref>,
}

impl<'a> Shown<'a> {
    /// What the table has, with this branch `main`.
    pub fn of(alloc: Global, table: &'a Table, main: &'a Option<Ref>) -> Result<Self, AllocError>
        requires { main.now ≡ option_map main_ref table.now.current_snapshot_id }
        ensures { IfOk result (IsShown table.now) }
    {
        Ok(Shown {
            schemas: in_order(alloc, table.schemas.as_slice())?,
            specs: in_order(alloc, table.specs.as_slice())?,
            snapshots: in_order(alloc, table.snapshots.as_slice())?,
            refs: refs_of(alloc, table.refs.as_slice(), main)?,
        })
    }
}

/// The branch `main`, where the table has a current snapshot.
pub fn main_of(alloc: Global, current: Option<i64>) -> Result<Option<Ref>, AllocError>
    ensures { IfOk result (λ main. main ≡ option_map main_ref current) }
{
    match current {
        Some(snapshot_id) => Ok(Some(Ref {
            name: Text::from_string(String::from_str(alloc, "main")?),
            snapshot_id,
            kind: RefKind::Branch,
        })),
        None => Ok(None),
    }
}

/// Whether it is not named `main`.
fn is_other(found: &Ref) -> bool
    ensures { result ≡ is_other found.now }
{
    found.name.as_str() != "main"
}

/// The refs but for those named `main`.
fn others_of<'a>(alloc: Global, refs: &'a [Ref]) -> Result<Vec<&'a Ref>, AllocError>
    ensures { IfOk result (λ found. map (λ x. x.now) found.items ≡ filter is_other refs.now) }
{
    let mut found = Vec::new(alloc);
    'refs: for x in refs {
        if is_other(x) {
            found.push(x)?;
        }
    }
    Ok(found)
}

/// The refs that are shown, by name.
fn refs_of<'a>(
    alloc: Global,
    refs: &'a [Ref],
    main: &'a Option<Ref>,
) -> Result<Vec<&'a Ref>, AllocError>
    ensures { IfOk result (λ found. map (λ x. x.now) found.items ≡
        sorted (λ a b. is_lt (ref_order a b)) (filter is_other refs.now ++ option_to_list main.now)) }
{
    let mut shown = others_of(alloc, refs)?;
    if let Some(main) = main {
        shown.push(main)?;
    }
    sort_lines(&mut shown)?;
    Ok(shown)
}

/// The items.
fn lent<'a, T>(alloc: Global, items: &'a [T]) -> Result<Vec<&'a T>, AllocError>
    ensures { IfOk result (λ found. map (λ x. x.now) found.items ≡ items.now) }
{
    let mut found = Vec::new(alloc);
    'items: for item in items {
        found.push(item)?;
    }
    Ok(found)
}

/// Puts items in the order of their lines.
fn sort_lines<T: TableLine>(items: &mut Vec<&T>) -> Result<(), AllocError>
    ensures { OnOk result (map (λ x. x.now) items.new.items ≡
        sorted (λ a b. is_lt (T.order a b)) (map (λ x. x.now) items.old.items)) }
{
    items.sort_by(|a, b| a.order(*b))?;
    Ok(())
}

/// The items in the order of their lines.
fn in_order<'a, T: TableLine>(alloc: Global, items: &'a [T]) -> Result<Vec<&'a T>, AllocError>
    ensures { IfOk result (λ found. map (λ x. x.now) found.items ≡ sorted (λ a b. is_lt (T.order a b)) items.now) }
{
    let mut found = lent(alloc, items)?;
    sort_lines(&mut found)?;
    Ok(found)
}

/// Sends a line for each item.
fn put_lines<T: TableLine, S: Sink>(
    page: &mut Page,
    sink: &mut S,
    items: &[&T],
) -> Result<(), SinkFault>
    ensures { Sent S.taken S.may_fail sink.old page.old result sink.new page.new
        (flat_map T.line (map (λ x. x.now) items.now)) }
{
    for item in items {
        item.put_line(page, sink)?;
    }
    Ok(())
}

/// Sends a table's own id.
fn put_uuid<S: Sink>(page: &mut Page, sink: &mut S, uuid: Uuid) -> Result<(), SinkFault>
    ensures { Sent S.taken S.may_fail sink.old page.old result sink.new page.new (uuid_text uuid) }
{
    let mut digits = Uuid::encode_buffer();
    page.put(sink, b"table-uuid ")?;
    page.put(sink, uuid.hyphenated().encode_lower(&mut digits).as_bytes())
}

/// Sends the lines of what a table has one of.
#[tactic(auto, unfolding(crate::specs::TableTexts::head_text))]
fn put_head<S: Sink>(page: &mut Page, sink: &mut S, table: &Table) -> Result<(), SinkFault>
    ensures { Sent S.taken S.may_fail sink.old page.old result sink.new page.new (head_text table.now) }
{
    put_uuid(page, sink, table.uuid)?;
    page.put_named_path(sink, b"\nlocation ", table.location.as_bytes())?;
    page.put_named_number(
        sink,
        b"\nlast-sequence-number ",
        table.last_sequence_number.get(),
    )?;
    put_named_id(
        page,
        sink,
        b"\ncurrent-snapshot ",
        table.current_snapshot_id,
    )?;
    page.put(sink, b"\n")
}

/// Sends the text of a table.
#[tactic(auto, unfolding(crate::specs::TableTexts::table_text))]
pub fn put_table<S: Sink>(
    page: &mut Page,
    sink: &mut S,
    table: &Table,
    shown: &Shown<'_>,
) -> Result<(), SinkFault>
    requires { IsShown table.now shown.now }
    ensures { Sent S.taken S.may_fail sink.old page.old result sink.new page.new (table_text table.now) }
{
    put_head(page, sink, table)?;
    put_lines(page, sink, &shown.schemas)?;
    put_lines(page, sink, &shown.specs)?;
    put_lines(page, sink, &shown.snapshots)?;
    put_lines(page, sink, &shown.refs)
}
