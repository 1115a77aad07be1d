//! Telling what a handle holds.

ghost use Rattle.std.specs.Prelude.{◌≡◌, Err, IfErr, IfOk, Ok, slice_get};
ghost use Rattle.icescan_c.specs.Readings.{IsCount, IsDeleteOf, IsFileOfLine, IsReason, IsTyped, OfPlaced, Tells};
ghost use Rattle.icescan_c.specs.Readings.{TellsCountOfDeletes, TellsDelete, TellsDeleteValue, at_place, count_of};
ghost use Rattle.icescan_c.specs.Readings.{equalities_of, fault_in, filter_of, hint_in, lines_in, list_in, or_past};
ghost use Rattle.icescan_c.specs.Readings.{path_of, plan_in, positions_of, relaxed_in, text_in, unasked_of, value_at};
ghost use Rattle.icescan_c.specs.Readings.{value_of, wanted_in};
ghost use Rattle.icescan_c_files.specs.Lent.{AreLent};
ghost use Rattle.icescan_c_requests.specs.Statuses.{status_of};
ghost use Rattle.icescan_json.specs.Values.{type_at};

use crate::held::Held;
use crate::states::ScanPlan;
use ice_manifest_reading::Row;
use ice_state::{OwnedPlan, PlacedFiles, PlanFile, PlanFiles};
use ice_value::ColumnType;
use icescan_c_files::{File, Value};
use icescan_c_lent::Bytes;
use icescan_c_requests::{Reason, Refusal};
use icescan_json::{SpecTypes, types_of};
use icescan_relaxed::RelaxedRequest;

impl Held {
    /// The rows that a scan or an audit wants.
    fn wanted(&self) -> Result<&[Row], Refusal>
        ensures rows { IfOk result (λ rows. wanted_in self.now ≡ Ok rows.now) }
        ensures none { IfErr result (λ refused. wanted_in self.now ≡ Err refused) }
    {
        match self {
            Held::Scan(scan) => Ok(scan.scan().wanted()),
            Held::Audit(audit) => Ok(audit.rows()),
            _ => Err(Refusal::Kind),
        }
    }

    /// The plan that it holds, beside its scan.
    fn scan_plan(&self) -> Result<&ScanPlan, Refusal>
        ensures plan { IfOk result (λ plan. plan_in self.now ≡ Ok plan.now) }
        ensures none { IfErr result (λ refused. plan_in self.now ≡ Err refused) }
    {
        match self {
            Held::Plan(plan) => Ok(plan),
            _ => Err(Refusal::Kind),
        }
    }

    /// The plan that it holds.
    fn plan(&self) -> Result<&OwnedPlan, Refusal>
        ensures plan { IfOk result (λ plan. lines_in self.now ≡ Ok plan.now) }
        ensures none { IfErr result (λ refused. lines_in self.now ≡ Err refused) }
    {
        match self {
            Held::Plan(plan) => Ok(&plan.plan),
            _ => Err(Refusal::Kind),
        }
    }

    /// Lends the line of a fault.
    pub fn lend_fault(&self, line: &mut Bytes) -> Result<(), Refusal>
        ensures { Tells AreLent (fault_in self.now) line.old (status_of result) line.new }
    {
        match self {
            Held::Fault(texts) => {
                *line = Bytes::of(texts.line.as_slice());
                Ok(())
            }
            _ => Err(Refusal::Kind),
        }
    }

    /// Tells the number of the refusal whose line it holds.
    pub fn tell_reason(&self, reason: &mut Reason) -> Result<(), Refusal>
        ensures { Tells IsReason (fault_in self.now) reason.old (status_of result) reason.new }
    {
        match self {
            Held::Fault(texts) => {
                *reason = Reason::of_line(texts.line.as_slice());
                Ok(())
            }
            _ => Err(Refusal::Kind),
        }
    }

    /// Lends the lines of a fault's hint.
    pub fn lend_hint(&self, lines: &mut Bytes) -> Result<(), Refusal>
        ensures { Tells AreLent (hint_in self.now) lines.old (status_of result) lines.new }
    {
        match self {
            Held::Fault(texts) => {
                *lines = Bytes::of(texts.hint.as_slice());
                Ok(())
            }
            _ => Err(Refusal::Kind),
        }
    }

    /// Lends the lines of JSON that it holds.
    pub fn lend_text(&self, text: &mut Bytes) -> Result<(), Refusal>
        ensures { Tells AreLent (text_in self.now) text.old (status_of result) text.new }
    {
        match self {
            Held::Text(lines) => {
                *text = Bytes::of(lines.as_slice());
                Ok(())
            }
            _ => Err(Refusal::Kind),
        }
    }

    /// The relaxed request that it holds.
    fn relaxed(&self) -> Result<&RelaxedRequest, Refusal>
        ensures made { IfOk result (λ made. relaxed_in self.now ≡ Ok made.now) }
        ensures none { IfErr result (λ refused. relaxed_in self.now ≡ Err refused) }
    {
        match self {
            Held::Relaxed(made) => Ok(made),
            _ => Err(Refusal::Kind),
        }
    }

    /// Lends the text of a relaxed filter.
    pub fn lend_filter(&self, text: &mut Bytes) -> Result<(), Refusal>
        ensures { Tells AreLent (filter_of (relaxed_in self.now)) text.old (status_of result) text.new }
    {
        match &self.relaxed()?.request.filter {
            Some(filter) => *text = Bytes::of(filter.as_bytes()),
            None => *text = Bytes::of(b""),
        }
        Ok(())
    }

    /// Tells how many predicates a relaxed filter does not ask.
    pub fn count_unasked(&self, count: &mut usize) -> Result<(), Refusal>
        ensures { Tells IsCount (count_of (unasked_of (relaxed_in self.now))) count.old (status_of result) count.new }
    {
        *count = self.relaxed()?.unasked.as_slice().len();
        Ok(())
    }

    /// Lends the text of a predicate that a relaxed filter does not ask.
    pub fn lend_unasked(&self, i: usize, text: &mut Bytes) -> Result<(), Refusal>
        ensures { Tells AreLent (at_place (unasked_of (relaxed_in self.now)) i) text.old (status_of result) text.new }
    {
        match self.relaxed()?.unasked.as_slice().get(i) {
            Some(predicate) => {
                *text = Bytes::of(predicate.as_bytes());
                Ok(())
            }
            None => Err(Refusal::PastEnd),
        }
    }

    /// Lends the path of the manifest list of what was selected, or is to be audited.
    pub fn lend_list(&self, path: &mut Bytes) -> Result<(), Refusal>
        ensures { Tells AreLent (list_in self.now) path.old (status_of result) path.new }
    {
        match self {
            Held::Selection(answer) => {
                *path = Bytes::of(answer.list());
                Ok(())
            }
            Held::Subject(subject) => {
                *path = Bytes::of(subject.list.as_bytes());
                Ok(())
            }
            _ => Err(Refusal::Kind),
        }
    }

    /// Tells how many manifests a scan or an audit wants.
    pub fn count_wanted(&self, count: &mut usize) -> Result<(), Refusal>
        ensures { Tells IsCount (count_of (wanted_in self.now)) count.old (status_of result) count.new }
    {
        *count = self.wanted()?.len();
        Ok(())
    }

    /// Lends the path of a manifest that a scan or an audit wants.
    pub fn lend_wanted(&self, i: usize, path: &mut Bytes) -> Result<(), Refusal>
        ensures { Tells AreLent (path_of (at_place (wanted_in self.now) i)) path.old (status_of result)
            path.new }
    {
        match self.wanted()?.get(i) {
            Some(row) => {
                *path = Bytes::of(row.path.as_bytes());
                Ok(())
            }
            None => Err(Refusal::PastEnd),
        }
    }

    /// Tells how many data files a plan has.
    pub fn count_files(&self, count: &mut usize) -> Result<(), Refusal>
        ensures { Tells IsCount (count_of (lines_in self.now)) count.old (status_of result) count.new }
    {
        *count = self.plan()?.lines().len();
        Ok(())
    }

    /// Lends a data file of a plan.
    pub fn lend_file(&self, i: usize, file: &mut File) -> Result<(), Refusal>
        ensures { Tells (IsFileOfLine i) (at_place (lines_in self.now) i) file.old (status_of result) file.new }
    {
        let lines = self.plan()?.lines();
        if lines.len() <= i {
            return Err(Refusal::PastEnd);
        }
        let line = lines.line(i);
        let positions = line.positions().len();
        let equalities = line.equalities().len();
        *file = File::of(&line.file(), i, positions, equalities);
        Ok(())
    }

    /// Lends a position delete file of a data file of a plan.
    pub fn lend_position(&self, i: usize, j: usize, file: &mut File) -> Result<(), Refusal>
        ensures { Tells IsDeleteOf (at_place (positions_of (at_place (lines_in self.now) i)) j) file.old
            (status_of result) file.new }
    {
        let lines = self.plan()?.lines();
        if lines.len() <= i {
            return Err(Refusal::PastEnd);
        }
        let number = position_number(&lines.placed_files(), i, j);
        lend_delete(&lines.line(i).positions(), j, number, file)
    }

    /// Lends an equality delete file of a data file of a plan.
    pub fn lend_equality(&self, i: usize, j: usize, file: &mut File) -> Result<(), Refusal>
        ensures { Tells IsDeleteOf (at_place (equalities_of (at_place (lines_in self.now) i)) j) file.old
            (status_of result) file.new }
    {
        let lines = self.plan()?.lines();
        if lines.len() <= i {
            return Err(Refusal::PastEnd);
        }
        let number = equality_number(&lines.placed_files(), i, j);
        lend_delete(&lines.line(i).equalities(), j, number, file)
    }

    /// Lends a partition value of a data file of a plan.
    pub fn lend_value(&self, i: usize, k: usize, value: &mut Value) -> Result<(), Refusal>
        ensures { Tells IsTyped (value_at (plan_in self.now) i k) value.old (status_of result) value.new }
    {
        let plan = self.scan_plan()?;
        let lines = plan.plan.lines();
        if lines.len() <= i {
            return Err(Refusal::PastEnd);
        }
        lend_cell(plan.types.as_slice(), &lines.line(i).file(), k, value)
    }

    /// Tells how many delete files a plan has.
    pub fn count_deletes(&self, count: &mut usize) -> Result<(), Refusal>
        ensures { OfPlaced TellsCountOfDeletes self.now count.old (status_of result) count.new }
    {
        *count = self.plan()?.lines().placed_files().count_deletes();
        Ok(())
    }

    /// Lends a delete file of a plan.
    pub fn lend_placed(&self, n: usize, file: &mut File) -> Result<(), Refusal>
        ensures { OfPlaced (TellsDelete n) self.now file.old (status_of result) file.new }
    {
        let placed = self.plan()?.lines().placed_files();
        if placed.count_deletes() <= n {
            return Err(Refusal::PastEnd);
        }
        *file = File::of(&placed.delete(n), n, 0, 0);
        Ok(())
    }

    /// Lends a partition value of a delete file of a plan.
    pub fn lend_placed_value(&self, n: usize, k: usize, value: &mut Value) -> Result<(), Refusal>
        ensures { OfPlaced (TellsDeleteValue n k) self.now value.old (status_of result) value.new }
    {
        let plan = self.scan_plan()?;
        let placed = plan.plan.lines().placed_files();
        if placed.count_deletes() <= n {
            return Err(Refusal::PastEnd);
        }
        lend_cell(plan.types.as_slice(), &placed.delete(n), k, value)
    }
}

/// The number at a place; 0 where there is none.
fn number_at(numbers: &[u32], j: usize) -> usize {
    match numbers.get(j) {
        Some(number) => *number as usize,
        None => 0,
    }
}

/// The number of a position delete file of a data file: its place among the delete files of the plan.
fn position_number(placed: &PlacedFiles<'_>, i: usize, j: usize) -> usize {
    if placed.count_files() <= i {
        return 0;
    }
    number_at(placed.positions(i), j)
}

/// The same of an equality delete file.
fn equality_number(placed: &PlacedFiles<'_>, i: usize, j: usize) -> usize {
    if placed.count_files() <= i {
        return 0;
    }
    number_at(placed.equalities(i), j)
}

/// Lends a delete file of a data file of a plan.
fn lend_delete(
    files: &PlanFiles<'_>,
    j: usize,
    number: usize,
    file: &mut File,
) -> Result<(), Refusal>
    ensures { Tells IsDeleteOf (or_past (slice_get files.now j)) file.old (status_of result) file.new }
{
    if files.len() <= j {
        return Err(Refusal::PastEnd);
    }
    *file = File::of(&files.file(j), number, 0, 0);
    Ok(())
}

/// The type at a place; none where it is not known.
fn type_at(types: &[Option<ColumnType>], k: usize) -> Option<ColumnType>
    ensures { result ≡ type_at types.now k }
{
    match types.get(k) {
        Some(known) => *known,
        None => None,
    }
}

/// Lends a partition value of a file, of which the types of the specs tell the type.
fn lend_cell(
    types: &[SpecTypes],
    file: &PlanFile<'_>,
    k: usize,
    value: &mut Value,
) -> Result<(), Refusal>
    ensures { Tells IsTyped (value_of types.now file.now k) value.old (status_of result) value.new }
{
    match file.tuple().get(k) {
        Some(cell) => {
            *value = Value::of(cell, type_at(types_of(types, file.spec_id()), k));
            Ok(())
        }
        None => Err(Refusal::PastEnd),
    }
}
