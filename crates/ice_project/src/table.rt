//! The projection of tests, line by line.

ghost use Rattle.std.specs.Prelude.{◌≡◌, [], ◌∷◌, IfOk, if◌then◌else◌};
ghost use Rattle.std.specs.Option.{option_map, option_and_then, option_copied};
ghost use Rattle.ice_transform.specs.Values.{value_of};
ghost use Rattle.ice_value.specs.declared.cell.Cell.{Cell};
ghost use Rattle.ice_filter.specs.declared.bound.Test.{Test};
ghost use Rattle.ice_project.specs.Projection.{before, behind, fit, cut, cut_start, is_cut, projected_test, scattered};
ghost use Rattle.ice_project.specs.Projection.{stepped, values};

use contract_words::{Duplicate, Items, Text};
use ice_filter::Test;
use ice_transform::{Parameter, Transform, has_points};
use ice_value::{Cell, ColumnType};
use std::alloc::{AllocError, Global};

/// The number, where it is a value of the type.
fn fitting(source: &ColumnType, number: i64) -> Option<Cell>
    ensures { result ≡ option_map Cell.Whole (fit source.now number) }
{
    match source {
        ColumnType::Int | ColumnType::Date => {
            if number >= -0x8000_0000 && number < 0x8000_0000 {
                Some(Cell::Whole(number))
            } else {
                None
            }
        }
        ColumnType::Long | ColumnType::Timestamp | ColumnType::Timestamptz => {
            Some(Cell::Whole(number))
        }
        _ => None,
    }
}

/// The value before this one in the type.
fn before(source: &ColumnType, literal: &Cell) -> Option<Cell>
    ensures { result ≡ before source.now literal.now }
{
    match literal {
        Cell::Whole(number) => match number.checked_sub(1) {
            Some(less) => fitting(source, less),
            None => None,
        },
        _ => None,
    }
}

/// The value behind this one in the type.
fn behind(source: &ColumnType, literal: &Cell) -> Option<Cell>
    ensures { result ≡ behind source.now literal.now }
{
    match literal {
        Cell::Whole(number) => match number.checked_add(1) {
            Some(more) => fitting(source, more),
            None => None,
        },
        _ => None,
    }
}

fn single(alloc: Global, cell: Cell) -> Result<Items<Cell>, AllocError>
    ensures { IfOk result (λ cells. cells ≡ cell ∷ []) }
{
    let mut cells = Items::with_capacity(alloc, 1)?;
    cells.push(cell)?;
    Ok(cells)
}

fn is_cut(source: &ColumnType) -> bool
    ensures { result ≡ is_cut source.now }
{
    matches!(source, ColumnType::String | ColumnType::Binary)
}

/// A transform of the values of a column of this type.
#[derive(Clone, Copy)]
struct Projection<'a> {
    alloc: Global,
    transform: &'a Transform,
    source: &'a ColumnType,
}

impl Projection<'_> {
    /// The transform's value of a cell, where there is one.
    fn value_of(&self, cell: Option<&Cell>) -> Result<Option<Cell>, AllocError>
        ensures { IfOk result (λ value. value
            ≡ option_and_then (value_of self.now.transform.now self.now.source.now) (option_copied cell.entry)) }
    {
        match cell {
            Some(cell) => self.transform.apply(self.alloc, self.source, cell),
            None => Ok(None),
        }
    }

    /// The transform's values of all literals, where each has one.
    fn values(&self, literals: &[Cell]) -> Result<Option<Items<Cell>>, AllocError>
        ensures { IfOk result (λ found. found
            ≡ values (value_of self.now.transform.now self.now.source.now) literals.now) }
    {
        let mut found = Items::with_capacity(self.alloc, literals.len())?;
        'literals: for literal in literals {
            match self.transform.apply(self.alloc, self.source, literal)? {
                Some(value) => found.push(value)?,
                None => return Ok(None),
            }
        }
        Ok(Some(found))
    }

    /// Equal to the transform's value of one of the literals.
    fn among(&self, literals: &[Cell]) -> Result<Option<Test>, AllocError>
        ensures { IfOk result (λ test. test
            ≡ option_map Test.Among (values (value_of self.now.transform.now self.now.source.now) literals.now)) }
    {
        Ok(self.values(literals)?.map(|found| Test::Among(found)))
    }

    /// No greater than the transform's value of the cell.
    fn at_most(&self, cell: Option<&Cell>) -> Result<Option<Test>, AllocError>
        ensures { IfOk result (λ test. test ≡ option_map Test.AtMost
            (option_and_then (value_of self.now.transform.now self.now.source.now) (option_copied cell.entry))) }
    {
        Ok(self.value_of(cell)?.map(|value| Test::AtMost(value)))
    }

    /// No less than the transform's value of the cell.
    fn at_least(&self, cell: Option<&Cell>) -> Result<Option<Test>, AllocError>
        ensures { IfOk result (λ test. test ≡ option_map Test.AtLeast
            (option_and_then (value_of self.now.transform.now self.now.source.now) (option_copied cell.entry))) }
    {
        Ok(self.value_of(cell)?.map(|value| Test::AtLeast(value)))
    }

    /// The projection through bucket.
    fn scattered(&self, test: &Test) -> Result<Option<Test>, AllocError>
        ensures { IfOk result (λ projected. projected
            ≡ scattered (value_of self.now.transform.now self.now.source.now) test.now) }
    {
        match test {
            Test::Among(literals) => self.among(literals.as_slice()),
            Test::IsNull => Ok(Some(Test::IsNull)),
            Test::IsPresent => Ok(Some(Test::IsPresent)),
            _ => Ok(None),
        }
    }

    /// The projection through truncate of whole numbers, year, month, day or hour.
    fn stepped(&self, test: &Test) -> Result<Option<Test>, AllocError>
        ensures { IfOk result (λ projected. projected
            ≡ stepped (value_of self.now.transform.now self.now.source.now) self.now.source.now test.now) }
    {
        match test {
            Test::Less(literal) => self.at_most(before(self.source, literal).as_ref()),
            Test::AtMost(literal) => self.at_most(Some(literal)),
            Test::More(literal) => self.at_least(behind(self.source, literal).as_ref()),
            Test::AtLeast(literal) => self.at_least(Some(literal)),
            Test::Among(literals) => self.among(literals.as_slice()),
            Test::IsNull => Ok(Some(Test::IsNull)),
            Test::IsPresent => Ok(Some(Test::IsPresent)),
            Test::NotAmong(_) | Test::StartsWith(_) => Ok(None),
        }
    }

    /// The values of cut texts that start with this one.
    fn cut_start(&self, width: Parameter, start: &Text) -> Result<Option<Test>, AllocError>
        ensures { IfOk result (λ projected. projected
            ≡ cut_start (value_of self.now.transform.now self.now.source.now) width.number start.now) }
    {
        let start = start.copy(self.alloc)?;
        if has_points(start.as_str(), width.get() as usize) {
            self.equal_cut(start)
        } else {
            Ok(Some(Test::StartsWith(start)))
        }
    }

    /// Equal to the transform's value of the text.
    fn equal_cut(&self, text: Text) -> Result<Option<Test>, AllocError>
        ensures { IfOk result (λ test. test ≡ option_map (λ p. Test.Among (p ∷ []))
            (value_of self.now.transform.now self.now.source.now (Cell.Text text))) }
    {
        match self
            .transform
            .apply(self.alloc, self.source, &Cell::Text(text))?
        {
            Some(value) => Ok(Some(Test::Among(single(self.alloc, value)?))),
            None => Ok(None),
        }
    }

    /// The projection through truncate of texts or byte strings.
    fn cut(&self, width: Parameter, test: &Test) -> Result<Option<Test>, AllocError>
        ensures { IfOk result (λ projected. projected
            ≡ cut (value_of self.now.transform.now self.now.source.now) width.number test.now) }
    {
        match test {
            Test::Less(literal) | Test::AtMost(literal) => self.at_most(Some(literal)),
            Test::More(literal) | Test::AtLeast(literal) => self.at_least(Some(literal)),
            Test::Among(literals) => self.among(literals.as_slice()),
            Test::IsNull => Ok(Some(Test::IsNull)),
            Test::IsPresent => Ok(Some(Test::IsPresent)),
            Test::StartsWith(start) => self.cut_start(width, start),
            Test::NotAmong(_) => Ok(None),
        }
    }

    /// The projection through truncate.
    fn truncated(&self, width: Parameter, test: &Test) -> Result<Option<Test>, AllocError>
        ensures { IfOk result (λ projected. projected ≡ (if is_cut self.now.source.now
            then cut (value_of self.now.transform.now self.now.source.now) width.number test.now
            else stepped (value_of self.now.transform.now self.now.source.now) self.now.source.now test.now)) }
    {
        if is_cut(self.source) {
            self.cut(width, test)
        } else {
            self.stepped(test)
        }
    }
}

/// The projection of a test through a transform. None where every partition value meets it.
pub fn project_test(
    alloc: Global,
    transform: &Transform,
    source: &ColumnType,
    test: &Test,
) -> Result<Option<Test>, AllocError>
    ensures { IfOk result (λ projected. projected ≡ projected_test transform.now source.now test.now) }
{
    let through = Projection {
        alloc,
        transform,
        source,
    };
    match transform {
        Transform::Identity => Ok(Some(test.copy(alloc)?)),
        Transform::Bucket(_) => through.scattered(test),
        Transform::Truncate(width) => through.truncated(*width, test),
        Transform::Year => through.stepped(test),
        Transform::Month => through.stepped(test),
        Transform::Day => through.stepped(test),
        Transform::Hour => through.stepped(test),
        Transform::Void | Transform::Unknown(_) => Ok(None),
    }
}
