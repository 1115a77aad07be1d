//! What became of a plan, as lines of JSON.

ghost use Rattle.std.specs.Prelude.{◌≡◌, ◌++◌, IfOk, OnOk};
ghost use Rattle.std.specs.List.{flat_map};
ghost use Rattle.serde_json.specs.Written.{compact_text};
ghost use Rattle.icescan_changes.specs.JsonLines.{change_objects, data_object, delete_change};
ghost use Rattle.icescan_changes.specs.JsonLines.{delete_object, ids_json, objects_of, totals_members, totals_object};
ghost use Rattle.icescan_changes.specs.JsonPieces.{data_front, data_head, data_numbers, delete_front, delete_rest};
ghost use Rattle.icescan_changes.specs.JsonPieces.{kind_front};
ghost use Rattle.icescan_forms.specs.Objects.{object_line};

use crate::changes::{Change, FileChange, Kind};
use crate::lines::{count_kind, push_ids};
use ice_state::{Line, PlanFile, PlanFiles};
use icescan_forms::{ObjectLines, Value};
use std::alloc::{AllocError, Global};

/// The kinds of delete files.
#[derive(Clone, Copy, Debug, PartialEq, Eq)]
pub enum DeleteKind {
    Position,
    Equality,
}

// ---- data files

/// Puts the members of a data file last that are numbers, and the end of its line.
fn put_data_numbers(lines: &mut ObjectLines, file: &PlanFile<'_>) -> Result<(), AllocError>
    ensures { OnOk result (lines.new ≡ lines.old ++ data_numbers file.now) }
{
    lines.put_number(b",\"seq\":", file.sequence_number().get())?;
    lines.put_int(b",\"spec\":", file.spec_id())?;
    lines.put_long(b",\"rows\":", file.record_count())?;
    lines.put_long(b",\"size\":", file.file_size())?;
    lines.put(b"}\n")
}

/// The first members of the line of a data file.
#[tactic(auto, unfolding(crate::specs::JsonPieces::data_head))]
fn data_head() -> &'static [u8]
    ensures { result.now ≡ data_head }
{
    b"{\"kind\":\"data\",\"change\":"
}

/// Puts the front of the line of a data file last, of which this became.
fn put_data_front(
    lines: &mut ObjectLines,
    became: &[u8],
    file: &PlanFile<'_>,
) -> Result<(), AllocError>
    ensures { OnOk result (lines.new ≡ lines.old ++ data_front became.now file.now) }
{
    lines.put(data_head())?;
    lines.put_text(became)?;
    lines.put(b",\"path\":")?;
    lines.put_text(file.path())
}

/// Puts a data file last, of which this became.
fn push_data(lines: &mut ObjectLines, became: &[u8], file: &PlanFile<'_>) -> Result<(), AllocError>
    ensures { OnOk result (lines.new ≡ lines.old ++ data_object became.now file.now) }
{
    put_data_front(lines, became, file)?;
    put_data_numbers(lines, file)
}

// ---- delete files

/// The front of the line of a delete file of a kind.
fn kind_front(kind: DeleteKind) -> &'static [u8]
    ensures { result.now ≡ kind_front kind }
{
    match kind {
        DeleteKind::Position => b"{\"kind\":\"pos\",\"change\":",
        DeleteKind::Equality => b"{\"kind\":\"eq\",\"change\":",
    }
}

/// Puts the columns last by which a delete file of a kind deletes.
fn put_ids(
    lines: &mut ObjectLines,
    alloc: Global,
    kind: DeleteKind,
    ids: &[i32],
) -> Result<(), AllocError>
    ensures { OnOk result (lines.new ≡ lines.old ++ compact_text (ids_json kind ids.now)) }
{
    match kind {
        DeleteKind::Position => lines.put(b"null"),
        DeleteKind::Equality => {
            if ids.is_empty() {
                return lines.put(b"null");
            }
            let mut text = Vec::new(alloc);
            push_ids(&mut text, ids)?;
            lines.put_text(&text)
        }
    }
}

/// Puts the members of a delete file of a kind last that say what is known of it, of which this became.
fn put_delete_file(
    lines: &mut ObjectLines,
    kind: DeleteKind,
    became: &[u8],
    file: &PlanFile<'_>,
) -> Result<(), AllocError>
    ensures { OnOk result (lines.new ≡ lines.old ++ delete_front kind became.now file.now) }
{
    lines.put(kind_front(kind))?;
    lines.put_text(became)?;
    lines.put(b",\"path\":")?;
    lines.put_text(file.path())?;
    lines.put_number(b",\"seq\":", file.sequence_number().get())
}

/// Puts the columns of a delete file of a kind last, and the data file that it is told of.
fn put_delete_rest(
    lines: &mut ObjectLines,
    alloc: Global,
    kind: DeleteKind,
    owner: &[u8],
    ids: &[i32],
) -> Result<(), AllocError>
    ensures { OnOk result (lines.new ≡ lines.old ++ delete_rest kind owner.now ids.now) }
{
    lines.put(b",\"ids\":")?;
    put_ids(lines, alloc, kind, ids)?;
    lines.put(b",\"data\":")?;
    lines.put_text(owner)?;
    lines.put(b"}\n")
}

/// Puts a delete file of a kind last, of which this became for a data file.
fn push_delete(
    lines: &mut ObjectLines,
    alloc: Global,
    kind: DeleteKind,
    became: &[u8],
    owner: &[u8],
    file: &PlanFile<'_>,
) -> Result<(), AllocError>
    ensures { OnOk result (lines.new ≡ lines.old ++ delete_object kind became.now owner.now file.now) }
{
    put_delete_file(lines, kind, became, file)?;
    put_delete_rest(lines, alloc, kind, owner, file.equality_ids())
}

/// Puts the delete files of a kind last that apply to a data file now.
fn push_deletes(
    lines: &mut ObjectLines,
    alloc: Global,
    kind: DeleteKind,
    became: &[u8],
    owner: &[u8],
    files: &PlanFiles<'_>,
) -> Result<(), AllocError>
    ensures { OnOk result (lines.new ≡ lines.old ++ flat_map (delete_object kind became.now owner.now) files.now) }
{
    for i in 0..files.len() {
        push_delete(lines, alloc, kind, became, owner, &files.file(i))?;
    }
    Ok(())
}

/// Puts last what became of a delete file of a kind for a data file.
fn push_delete_change(
    lines: &mut ObjectLines,
    alloc: Global,
    kind: DeleteKind,
    owner: &[u8],
    change: &FileChange<'_>,
) -> Result<(), AllocError>
    ensures { OnOk result (lines.new ≡ lines.old ++ delete_change kind owner.now change.now) }
{
    match change {
        FileChange::Removed(file) => push_delete(lines, alloc, kind, b"removed", owner, file),
        FileChange::Added(file) => push_delete(lines, alloc, kind, b"added", owner, file),
    }
}

/// Puts last what became of the delete files of a kind for a data file.
fn push_delete_changes(
    lines: &mut ObjectLines,
    alloc: Global,
    kind: DeleteKind,
    owner: &[u8],
    changes: &[FileChange<'_>],
) -> Result<(), AllocError>
    ensures { OnOk result (lines.new ≡ lines.old ++ flat_map (delete_change kind owner.now) changes.now) }
{
    'changes: for change in changes {
        push_delete_change(lines, alloc, kind, owner, change)?;
    }
    Ok(())
}

// ---- changes

/// Puts a data file last that only the later plan has.
fn push_added(lines: &mut ObjectLines, alloc: Global, line: &Line<'_>) -> Result<(), AllocError>
    ensures { OnOk result (lines.new ≡ lines.old ++ change_objects (Change.Added line.now)) }
{
    let file = line.file();
    push_data(lines, b"added", &file)?;
    push_deletes(
        lines,
        alloc,
        DeleteKind::Position,
        b"added",
        file.path(),
        &line.positions(),
    )?;
    push_deletes(
        lines,
        alloc,
        DeleteKind::Equality,
        b"added",
        file.path(),
        &line.equalities(),
    )
}

/// Puts a data file last to which other delete files apply.
fn push_altered(
    lines: &mut ObjectLines,
    alloc: Global,
    line: &Line<'_>,
    positions: &[FileChange<'_>],
    equalities: &[FileChange<'_>],
) -> Result<(), AllocError>
    ensures { OnOk result (lines.new ≡ lines.old
        ++ change_objects (Change.Altered line.now positions.now equalities.now)) }
{
    let file = line.file();
    push_data(lines, b"altered", &file)?;
    push_delete_changes(lines, alloc, DeleteKind::Position, file.path(), positions)?;
    push_delete_changes(lines, alloc, DeleteKind::Equality, file.path(), equalities)
}

/// Puts last what became of a data file.
fn push_change(
    lines: &mut ObjectLines,
    alloc: Global,
    change: &Change<'_>,
) -> Result<(), AllocError>
    ensures { OnOk result (lines.new ≡ lines.old ++ change_objects change.now) }
{
    match change {
        Change::Removed(line) => push_data(lines, b"removed", &line.file()),
        Change::Added(line) => push_added(lines, alloc, line),
        Change::Altered(line, positions, equalities) => {
            push_altered(
                lines,
                alloc,
                line,
                positions.as_slice(),
                equalities.as_slice(),
            )
        }
    }
}

/// Puts changes last.
fn push_changes(
    lines: &mut ObjectLines,
    alloc: Global,
    changes: &[Change<'_>],
) -> Result<(), AllocError>
    ensures { OnOk result (lines.new ≡ lines.old ++ flat_map change_objects changes.now) }
{
    'changes: for change in changes {
        push_change(lines, alloc, change)?;
    }
    Ok(())
}

/// Puts these numbers of data files last.
fn push_counts(
    lines: &mut ObjectLines,
    added: usize,
    removed: usize,
    altered: usize,
) -> Result<(), AllocError>
    ensures { OnOk result (lines.new ≡ lines.old ++ object_line (totals_members added removed altered)) }
{
    lines.push(&[
        ("kind", Value::Text(b"totals")),
        ("added", Value::Count(added as u128)),
        ("removed", Value::Count(removed as u128)),
        ("altered", Value::Count(altered as u128)),
    ])
}

/// Puts last how many data files were added, removed and altered.
#[tactic(auto, unfolding(crate::specs::JsonLines::totals_object))]
fn push_totals(lines: &mut ObjectLines, changes: &[Change<'_>]) -> Result<(), AllocError>
    ensures { OnOk result (lines.new ≡ lines.old ++ totals_object changes.now) }
{
    push_counts(
        lines,
        count_kind(changes, Kind::Added),
        count_kind(changes, Kind::Removed),
        count_kind(changes, Kind::Altered),
    )
}

/// Changes as lines of JSON, an object each, and then their numbers.
#[tactic(auto, unfolding(crate::specs::JsonLines::objects_of))]
pub(crate) fn objects_of(alloc: Global, changes: &[Change<'_>]) -> Result<Vec<u8>, AllocError>
    ensures { IfOk result (λ text. text.items ≡ objects_of changes.now) }
{
    let mut lines = ObjectLines::new(alloc)?;
    push_changes(&mut lines, alloc, changes)?;
    push_totals(&mut lines, changes)?;
    lines.into_text()
}
