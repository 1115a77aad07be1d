//! Filters as expressions of the REST catalog.

ghost use Rattle.std.specs.Prelude.{◌≡◌, ◌++◌, ◌∷◌, [], IfOk, OnOk};
ghost use Rattle.serde_json.specs.Data.{Data};
ghost use Rattle.serde_json.specs.Written.{compact_text};
ghost use Rattle.ice_filter.specs.Binding.{path};
ghost use Rattle.ice_filter.specs.Trees.{tree_of};
ghost use Rattle.icescan_json.specs.Expressions.{every_row_text, expression_json, full_name, predicate_json};
ghost use Rattle.icescan_json.specs.Expressions.{type_named};
ghost use Rattle.icescan_json.specs.ExpressionTexts.{asked_name, choices_text, joined_text, put, question_front};
ghost use Rattle.icescan_json.specs.ExpressionTexts.{question_text, rest, top, value_text};

use crate::literals::push_literal;
use contract_words::{Items, Text};
use ice_filter::{Choices, Column, Comparison, Filter, Literal, Part, Predicate, Question};
use ice_meta::Schema;
use ice_value::ColumnType;
use icescan_forms::ObjectLines;
use std::alloc::{AllocError, Global};
use std::marker::Model;

/// What is asked, in a word.
fn asked_name(question: &Question) -> &'static [u8]
    ensures { result.now ≡ asked_name question.now }
{
    match question {
        Question::Compare(Comparison::Less, _) => b"lt",
        Question::Compare(Comparison::AtMost, _) => b"lt-eq",
        Question::Compare(Comparison::Greater, _) => b"gt",
        Question::Compare(Comparison::AtLeast, _) => b"gt-eq",
        Question::Compare(Comparison::Equal, _) => b"eq",
        Question::Compare(Comparison::NotEqual, _) => b"not-eq",
        Question::Among(false, _) => b"in",
        Question::Among(true, _) => b"not-in",
        Question::Missing => b"is-null",
        Question::Present => b"not-null",
        Question::Begins(_) => b"starts-with",
    }
}

/// The names that lead to a column, with points between them.
fn full_name(alloc: Global, column: &Column) -> Result<Vec<u8>, AllocError>
    ensures { IfOk result (λ name. name.items ≡ full_name column.now) }
{
    let mut name = Vec::new(alloc);
    name.extend_from_slice(column.first.as_bytes())?;
    'names: for more in column.more.as_slice() {
        name.extend_from_slice(b".")?;
        name.extend_from_slice(more.as_bytes())?;
    }
    Ok(name)
}

/// The names that lead to a column.
fn path_of(alloc: Global, column: &Column) -> Result<Items<Text>, AllocError>
    ensures { IfOk result (λ names. names ≡ path column.now) }
{
    let mut names = Items::new(alloc);
    names.push(column.first.copy(alloc)?)?;
    'names: for name in column.more.as_slice() {
        names.push(name.copy(alloc)?)?;
    }
    Ok(names)
}

/// The type of a column, where it is there and has one.
fn type_named(
    alloc: Global,
    schema: &Schema,
    column: &Column,
) -> Result<Option<ColumnType>, AllocError>
    ensures { IfOk result (λ found. found ≡ type_named schema.now column.now) }
{
    let names = path_of(alloc, column)?;
    match schema.column(names.as_slice()) {
        Some(column) => Ok(column.column_type),
        None => Ok(None),
    }
}

/// Puts last what is asked of the column of a name.
fn push_asked(text: &mut ObjectLines, asked: &[u8], name: &[u8]) -> Result<(), AllocError>
    ensures { OnOk result (text.new ≡ text.old ++ question_front asked.now name.now) }
{
    text.put(b"{\"type\":\"")?;
    text.put(asked)?;
    text.put(b"\",\"term\":")?;
    text.put_text(name)
}

/// Puts the literal last that a column is compared with, and the end.
fn push_value(
    text: &mut ObjectLines,
    column_type: Option<ColumnType>,
    literal: &Literal,
) -> Result<(), AllocError>
    ensures { OnOk result (text.new ≡ text.old ++ value_text column_type literal.now) }
{
    text.put(b",\"value\":")?;
    push_literal(text, column_type, literal)?;
    text.put(b"}")
}

/// Puts literals last, with commas between them.
fn push_choices(
    text: &mut ObjectLines,
    column_type: Option<ColumnType>,
    choices: &Choices,
) -> Result<(), AllocError>
    ensures { OnOk result (text.new ≡ text.old ++ choices_text column_type choices.now) }
{
    push_literal(text, column_type, &choices.first)?;
    'literals: for literal in choices.more.as_slice() {
        text.put(b",")?;
        push_literal(text, column_type, literal)?;
    }
    Ok(())
}

/// Puts last what is asked of the column of a name and a type.
fn push_question(
    text: &mut ObjectLines,
    name: &[u8],
    column_type: Option<ColumnType>,
    question: &Question,
) -> Result<(), AllocError>
    ensures { OnOk result (text.new ≡ text.old ++ question_text name.now column_type question.now) }
{
    push_asked(text, asked_name(question), name)?;
    match question {
        Question::Compare(_, literal) => push_value(text, column_type, literal),
        Question::Among(_, choices) => {
            text.put(b",\"values\":[")?;
            push_choices(text, column_type, choices)?;
            text.put(b"]}")
        }
        Question::Missing => text.put(b"}"),
        Question::Present => text.put(b"}"),
        Question::Begins(literal) => push_value(text, column_type, literal),
    }
}

/// The expression of a predicate over a schema's columns.
#[tactic(auto, using(crate::proofs::Joined::question_is))]
fn predicate_expression(
    alloc: Global,
    schema: &Schema,
    predicate: &Predicate,
) -> Result<Items<u8>, AllocError>
    ensures { IfOk result (λ text. text ≡ compact_text (predicate_json schema.now predicate.now)) }
{
    let column_type = type_named(alloc, schema, &predicate.column)?;
    let name = full_name(alloc, &predicate.column)?;
    let mut text = ObjectLines::new(alloc)?;
    push_question(&mut text, &name, column_type, &predicate.question)?;
    Ok(Items::from_vec(text.into_text()?))
}

/// A copy of a text.
fn text_of(alloc: Global, text: &[u8]) -> Result<Items<u8>, AllocError>
    ensures { IfOk result (λ copied. copied ≡ text.now) }
{
    Ok(Items::from_vec(text.to_vec(alloc)?))
}

/// The expression of an operator between two others.
fn joined(
    alloc: Global,
    operator: &[u8],
    left: &[u8],
    right: &[u8],
) -> Result<Items<u8>, AllocError>
    ensures { IfOk result (λ text. text ≡ joined_text operator.now left.now right.now) }
{
    let mut text = Vec::new(alloc);
    text.extend_from_slice(b"{\"type\":\"")?;
    text.extend_from_slice(operator)?;
    text.extend_from_slice(b"\",\"left\":")?;
    text.extend_from_slice(left)?;
    text.extend_from_slice(b",\"right\":")?;
    text.extend_from_slice(right)?;
    text.extend_from_slice(b"}")?;
    Ok(Items::from_vec(text))
}

/// The expressions that wait for an operator, the last one first.
#[derive(Drop)]
struct Waiting {
    held: Vec<Items<u8>>,
}

impl Model for Waiting {
    ghost use Rattle.std.specs.Prelude.{List, ℕ, reverse};

    ghost Value = { List (List ℕ) };

    ghost view = { λ s. reverse s.held.items };
}

impl Waiting {
    fn new(alloc: Global) -> Self
        ensures { result ≡ [] }
    {
        Waiting {
            held: Vec::new(alloc),
        }
    }

    #[tactic(auto, using(crate::proofs::Joined::pushed_first))]
    fn push(&mut self, text: Items<u8>) -> Result<(), AllocError>
        ensures { OnOk result (self.new ≡ text ∷ self.old) }
    {
        Ok(self.held.push(text)?)
    }

    /// Takes the last one off; of none at all it is the expression that is always met.
    #[tactic(auto, using(crate::proofs::Joined::pushed_first))]
    fn pop(&mut self, alloc: Global) -> Result<Items<u8>, AllocError>
        ensures value { IfOk result (λ text. text ≡ top self.old) }
        ensures left { OnOk result (self.new ≡ rest self.old) }
    {
        match self.held.pop() {
            Some(text) => Ok(text),
            None => text_of(alloc, b"true"),
        }
    }

    /// Joins the last two by an operator.
    fn join(&mut self, alloc: Global, operator: &[u8]) -> Result<(), AllocError>
        ensures { OnOk result
            (self.new ≡ joined_text operator.now (top (rest self.old)) (top self.old) ∷ rest (rest self.old)) }
    {
        let right = self.pop(alloc)?;
        let left = self.pop(alloc)?;
        self.push(joined(alloc, operator, left.as_slice(), right.as_slice())?)
    }

    /// The expressions after one more part.
    fn read(
        &mut self,
        alloc: Global,
        schema: &Schema,
        part: &Part<Predicate>,
    ) -> Result<(), AllocError>
        ensures { OnOk result (self.new ≡ put schema.now self.old part.now) }
    {
        match part {
            Part::True => self.push(text_of(alloc, b"true")?),
            Part::False => self.push(text_of(alloc, b"false")?),
            Part::Predicate(predicate) => {
                self.push(predicate_expression(alloc, schema, predicate)?)
            }
            Part::And => self.join(alloc, b"and"),
            Part::Or => self.join(alloc, b"or"),
        }
    }
}

/// The text of a filter's expression over a schema's columns.
fn filter_text(alloc: Global, schema: &Schema, filter: &Filter) -> Result<Items<u8>, AllocError>
    ensures { IfOk result (λ text. text ≡ compact_text (expression_json schema.now (tree_of filter.now))) }
{
    let mut waiting = Waiting::new(alloc);
    'parts: for part in filter.parts().as_slice() {
        waiting.read(alloc, schema, part)?;
    }
    waiting.pop(alloc)
}

/// An expression of the REST catalog, as the text of its JSON.
#[derive(Debug, Drop)]
pub struct Expression {
    text: Items<u8>,
}

impl Model for Expression {
    ghost use Rattle.std.specs.Prelude.{◌≡◌, List, ℕ};
    ghost use Rattle.serde_json.specs.Data.{Data};
    ghost use Rattle.serde_json.specs.Written.{compact_text};

    ghost Value = { List ℕ };

    ghost view = { λ e. e.text };

    ghost invariant = { λ e. (d : Data) × (e.text ≡ compact_text d) };
}

impl Expression {
    /// The expression that every row meets.
    pub fn every_row(alloc: Global) -> Result<Expression, AllocError>
        ensures { IfOk result (λ made. made ≡ every_row_text) }
    {
        Ok(Expression {
            text: text_of(alloc, b"true")?,
        })
    }

    /// The expression of a filter over a schema's columns: of each column its full name, and each literal as a value of
    /// the column's type.
    pub fn of_filter(
        alloc: Global,
        schema: &Schema,
        filter: &Filter,
    ) -> Result<Expression, AllocError>
        ensures { IfOk result
            (λ made. made ≡ compact_text (expression_json schema.now (tree_of filter.now))) }
    {
        Ok(Expression {
            text: filter_text(alloc, schema, filter)?,
        })
    }

    /// Its text.
    pub fn as_bytes(&self) -> &[u8]
        ensures text { result.now ≡ self.now }
        ensures json { (d : Data) × (self.now ≡ compact_text d) }
    {
        self.text.as_slice()
    }
}
