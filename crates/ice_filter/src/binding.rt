//! From the names of columns to their ids.

ghost use Rattle.std.specs.Prelude.{◌≡◌, ◌∷◌, [], Ok, length, IfOk};
ghost use Rattle.std.specs.Option.{option_map};
ghost use Rattle.uuid.specs.Text.{parsed as uuid_in};
ghost use Rattle.contract_words.specs.Outcome.{Gives};
ghost use Rattle.ice_value.specs.Bounds.{fits_int};
ghost use Rattle.ice_value.specs.declared.cell.Cell.{Cell};
ghost use Rattle.ice_value.specs.declared.column_type.ColumnType.{ColumnType};
ghost use Rattle.ice_filter.specs.Binding.{cell_of, cells_of, is_order, is_comparable, may_ask};
ghost use Rattle.ice_filter.specs.Binding.{compared_to, among, starts, test_of, type_for, asked, bound_predicate};
ghost use Rattle.ice_filter.specs.Binding.{bound_part, bound_parts, predicate_meets};
ghost use Rattle.ice_filter.specs.Rows.{Row, row_meets};
ghost use Rattle.ice_filter.specs.Trees.{tree_of, meaning};

use crate::bound::{Bound, BoundPredicate, Test};
use crate::fault::FilterFault;
use crate::filter::Filter;
use crate::parts::{Part, Parts};
use crate::predicate::{Choices, Column, Literal, Predicate, Question};
use crate::token::Comparison;
use contract_words::{Duplicate, Items, Text};
use ice_meta::Schema;
use ice_value::{Cell, ColumnType};
use std::alloc::{AllocError, Global};
use uuid::Uuid;

/// What a column makes of a constant; none where it does not take it.
type Taken<T> = Result<Option<T>, AllocError>;

/// Whether the number fits 32 bits.
fn fits_int(number: i64) -> bool
    ensures { result ≡ fits_int number }
{
    number >= -0x8000_0000 && number < 0x8000_0000
}

/// The 16 bytes of a uuid.
fn uuid_cell(alloc: Global, text: &Text) -> Taken<Cell>
    ensures { IfOk result (λ cell. cell ≡ option_map Cell.Bytes (uuid_in text.now)) }
{
    match Uuid::parse_str(text.as_str()) {
        Ok(uuid) => Ok(Some(Cell::Bytes(Items::from_vec(uuid.as_bytes().to_vec(alloc)?)))),
        Err(_) => Ok(None),
    }
}

/// The value of a number, where the column takes numbers.
fn number_cell(column_type: ColumnType, number: i64) -> Option<Cell>
    ensures { result ≡ cell_of column_type (Literal.Number number) }
{
    match column_type {
        ColumnType::Int | ColumnType::Date => {
            if fits_int(number) {
                Some(Cell::Whole(number))
            } else {
                None
            }
        }
        ColumnType::Long | ColumnType::Time | ColumnType::Timestamp | ColumnType::Timestamptz =>
            Some(Cell::Whole(number)),
        _ => None,
    }
}

/// The value of a text, where the column takes it.
fn text_cell(alloc: Global, column_type: ColumnType, text: &Text) -> Taken<Cell>
    ensures { IfOk result (λ cell. cell ≡ cell_of column_type (Literal.Text text.now)) }
{
    match column_type {
        ColumnType::String => Ok(Some(Cell::Text(text.copy(alloc)?))),
        ColumnType::Uuid => uuid_cell(alloc, text),
        _ => Ok(None),
    }
}

/// The value of bytes, where the column takes them.
fn bytes_cell(alloc: Global, column_type: ColumnType, bytes: &Items<u8>) -> Taken<Cell>
    ensures { IfOk result (λ cell. cell ≡ cell_of column_type (Literal.Bytes bytes.now)) }
{
    match column_type {
        ColumnType::Fixed(size) => {
            if bytes.as_slice().len() == size as usize {
                Ok(Some(Cell::Bytes(bytes.copy(alloc)?)))
            } else {
                Ok(None)
            }
        }
        ColumnType::Binary => Ok(Some(Cell::Bytes(bytes.copy(alloc)?))),
        _ => Ok(None),
    }
}

/// The value of a literal, where the column takes it.
fn cell_of(alloc: Global, column_type: ColumnType, literal: &Literal) -> Taken<Cell>
    ensures { IfOk result (λ cell. cell ≡ cell_of column_type literal.now) }
{
    match literal {
        Literal::Truth(truth) => match column_type {
            ColumnType::Boolean => Ok(Some(Cell::Bool(*truth))),
            _ => Ok(None),
        },
        Literal::Number(number) => Ok(number_cell(column_type, *number)),
        Literal::Text(text) => text_cell(alloc, column_type, text),
        Literal::Bytes(bytes) => bytes_cell(alloc, column_type, bytes),
    }
}

/// The values of literals, where the column takes each.
fn cells_of(
    alloc: Global,
    column_type: ColumnType,
    first: &Literal,
    more: &[Literal],
) -> Taken<Items<Cell>>
    ensures { IfOk result (λ cells. cells ≡ cells_of column_type (first.now ∷ more.now)) }
{
    let mut cells = Items::new(alloc);
    match cell_of(alloc, column_type, first)? {
        Some(cell) => cells.push(cell)?,
        None => return Ok(None),
    }
    'literals: for literal in more {
        match cell_of(alloc, column_type, literal)? {
            Some(cell) => cells.push(cell)?,
            None => return Ok(None),
        }
    }
    Ok(Some(cells))
}

fn is_order(sign: Comparison) -> bool
    ensures { result ≡ is_order sign }
{
    !matches!(sign, Comparison::Equal | Comparison::NotEqual)
}

fn is_comparable(column_type: ColumnType) -> bool
    ensures { result ≡ is_comparable column_type }
{
    !matches!(
        column_type,
        ColumnType::Float | ColumnType::Double | ColumnType::Decimal { .. }
    )
}

/// Whether a column of the type may be asked so.
fn may_ask(column_type: ColumnType, question: &Question) -> bool
    ensures { result ≡ may_ask column_type question.now }
{
    match question {
        Question::Compare(sign, _) => is_comparable(column_type)
            && !(matches!(column_type, ColumnType::Uuid) && is_order(*sign)),
        Question::Begins(_) => matches!(column_type, ColumnType::String),
        _ => is_comparable(column_type),
    }
}

fn compared_to(alloc: Global, sign: Comparison, value: Cell) -> Result<Test, AllocError>
    ensures { IfOk result (λ test. test ≡ compared_to sign value) }
{
    match sign {
        Comparison::Less => Ok(Test::Less(value)),
        Comparison::AtMost => Ok(Test::AtMost(value)),
        Comparison::Greater => Ok(Test::More(value)),
        Comparison::AtLeast => Ok(Test::AtLeast(value)),
        Comparison::Equal => Ok(Test::Among(only(alloc, value)?)),
        Comparison::NotEqual => Ok(Test::NotAmong(only(alloc, value)?)),
    }
}

/// A list of one cell.
fn only(alloc: Global, value: Cell) -> Result<Items<Cell>, AllocError>
    ensures { IfOk result (λ cells. cells ≡ value ∷ []) }
{
    let mut cells = Items::new(alloc);
    cells.push(value)?;
    Ok(cells)
}

fn among(negated: bool, values: Items<Cell>) -> Test
    ensures { result ≡ among negated values }
{
    if negated {
        Test::NotAmong(values)
    } else {
        Test::Among(values)
    }
}

/// The literal as a text.
fn starts(alloc: Global, literal: &Literal) -> Taken<Test>
    ensures { IfOk result (λ test. test ≡ starts literal.now) }
{
    match literal {
        Literal::Text(text) => Ok(Some(Test::StartsWith(text.copy(alloc)?))),
        _ => Ok(None),
    }
}

fn comparison_test(
    alloc: Global,
    column_type: ColumnType,
    sign: Comparison,
    literal: &Literal,
) -> Taken<Test>
    ensures { IfOk result (λ test. test ≡ option_map (compared_to sign) (cell_of column_type literal.now)) }
{
    match cell_of(alloc, column_type, literal)? {
        Some(value) => Ok(Some(compared_to(alloc, sign, value)?)),
        None => Ok(None),
    }
}

fn list_test(
    alloc: Global,
    column_type: ColumnType,
    negated: bool,
    choices: &Choices,
) -> Taken<Test>
    ensures { IfOk result (λ test. test ≡
        option_map (among negated) (cells_of column_type (choices.now.first ∷ choices.now.more))) }
{
    match cells_of(alloc, column_type, &choices.first, choices.more.as_slice())? {
        Some(values) => Ok(Some(among(negated, values))),
        None => Ok(None),
    }
}

/// What is asked, over the values of its literals.
fn test_of(alloc: Global, column_type: ColumnType, question: &Question) -> Taken<Test>
    ensures { IfOk result (λ test. test ≡ test_of column_type question.now) }
{
    match question {
        Question::Compare(sign, literal) => comparison_test(alloc, column_type, *sign, literal),
        Question::Among(negated, choices) => list_test(alloc, column_type, *negated, choices),
        Question::Missing => Ok(Some(Test::IsNull)),
        Question::Present => Ok(Some(Test::IsPresent)),
        Question::Begins(literal) => starts(alloc, literal),
    }
}

/// The type of a column that may be asked so.
fn type_for(question: &Question, column_type: Option<ColumnType>) -> Option<ColumnType>
    ensures { result ≡ type_for question.now column_type }
{
    match column_type {
        Some(column_type) => {
            if may_ask(column_type, question) {
                Some(column_type)
            } else {
                None
            }
        }
        None => None,
    }
}

/// The test of a column of this id and type.
#[tactic(auto, unfolding(crate::specs::Binding::asked))]
fn ask(
    alloc: Global,
    column: i32,
    column_type: Option<ColumnType>,
    question: &Question,
) -> Result<BoundPredicate, FilterFault>
    ensures { Gives FilterFault.Memory (λ predicate. predicate) result (asked column column_type question.now) }
{
    match type_for(question, column_type) {
        Some(column_type) => match test_of(alloc, column_type, question)? {
            Some(test) => Ok(BoundPredicate {
                column,
                column_type,
                test,
            }),
            None => Err(FilterFault::WrongLiteral),
        },
        None => Err(FilterFault::NotComparable),
    }
}

/// The predicate over its column's id.
#[tactic(auto, unfolding(crate::specs::Binding::bound_predicate))]
fn bind_predicate(
    alloc: Global,
    predicate: &Predicate,
    schema: &Schema,
) -> Result<BoundPredicate, FilterFault>
    ensures { Gives FilterFault.Memory (λ predicate. predicate) result (bound_predicate schema.now predicate.now) }
{
    let names = predicate.column.path(alloc)?;
    match schema.column(names.as_slice()) {
        Some(column) => ask(alloc, column.id, column.column_type, &predicate.question),
        None => Err(FilterFault::NoSuchColumn),
    }
}

/// A part over the ids of columns.
#[tactic(auto, unfolding(crate::specs::Binding::bound_part))]
fn bind_part(
    alloc: Global,
    part: &Part<Predicate>,
    schema: &Schema,
) -> Result<Part<BoundPredicate>, FilterFault>
    ensures { Gives FilterFault.Memory (λ part. part) result (bound_part schema.now part.now) }
{
    match part {
        Part::True => Ok(Part::True),
        Part::False => Ok(Part::False),
        Part::Predicate(predicate) => match bind_predicate(alloc, predicate, schema) {
            Ok(bound) => Ok(Part::Predicate(bound)),
            Err(fault) => Err(fault),
        },
        Part::And => Ok(Part::And),
        Part::Or => Ok(Part::Or),
    }
}

/// The parts over the ids of columns.
fn bind_parts(
    alloc: Global,
    parts: &[Part<Predicate>],
    schema: &Schema,
) -> Result<Items<Part<BoundPredicate>>, FilterFault>
    ensures { Gives FilterFault.Memory (λ parts. parts) result (bound_parts schema.now parts.now) }
{
    let mut bound = Items::new(alloc);
    'parts: for part in parts {
        bound.push(bind_part(alloc, part, schema)?)?;
    }
    Ok(bound)
}

/// The filter over the columns of a schema: each of its names is the name of a column, may be asked what is asked, and
/// takes the literals, or the first predicate for which this is not so is refused.
pub fn bind(alloc: Global, filter: &Filter, schema: &Schema) -> Result<Bound, FilterFault>
    ensures exact { Gives FilterFault.Memory (λ b. b.parts) result (bound_parts schema.now filter.now) }
    ensures meaning { IfOk result (λ b. (row : Row) → row_meets b.parts row ≡
        meaning (predicate_meets schema.now row) (tree_of filter.now)) }
{
    let parts = bind_parts(alloc, filter.parts().as_slice(), schema)?;
    Ok(Bound {
        parts: Parts::from_items(parts),
    })
}
