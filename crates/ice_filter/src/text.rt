//! Texts of filters.

ghost use Rattle.std.specs.Prelude.{◌≡◌, ◌++◌, ◌∷◌, [], codes, reverse, OnOk, IfOk};
ghost use Rattle.ice_filter.specs.Texts.{literal_text, column_text, choices_text, in_text, question_text};
ghost use Rattle.ice_filter.specs.Texts.{predicate_text, truth_text, enclosed, shown};
ghost use Rattle.ice_filter.specs.Pieces.{both_of, either_of, truth_piece, predicate_piece, top, rest, put};
ghost use Rattle.ice_filter.specs.Trees.{tree_of};

use crate::parts::Part;
use crate::phrase::Phrase;
use crate::predicate::{Choices, Column, Literal, Predicate, Question};
use std::alloc::{AllocError, AllocFailed, Global};
use std::marker::Model;

/// The word of a truth value.
fn truth_text(truth: bool) -> &'static str
    ensures { result.now ≡ truth_text truth }
{
    if truth { "true" } else { "false" }
}

fn in_text(negated: bool) -> &'static str
    ensures { result.now ≡ in_text negated }
{
    if negated { " not in (" } else { " in (" }
}

fn push_literal(phrase: &mut Phrase, alloc: Global, literal: &Literal) -> Result<(), AllocError>
    ensures { OnOk result (phrase.new ≡ phrase.old ++ literal_text literal.now) }
{
    match literal {
        Literal::Truth(truth) => phrase.push_str(truth_text(*truth)),
        Literal::Number(number) => phrase.push_number(alloc, *number),
        Literal::Text(text) => phrase.push_quoted('\'', text.as_str()),
        Literal::Bytes(bytes) => phrase.push_bytes(alloc, bytes.as_slice()),
    }
}

fn push_column(phrase: &mut Phrase, column: &Column) -> Result<(), AllocError>
    ensures { OnOk result (phrase.new ≡ phrase.old ++ column_text column.now) }
{
    phrase.push_name(column.first.as_str())?;
    'names: for name in column.more.as_slice() {
        phrase.push_str(".")?;
        phrase.push_name(name.as_str())?;
    }
    Ok(())
}

fn push_choices(phrase: &mut Phrase, alloc: Global, choices: &Choices) -> Result<(), AllocError>
    ensures { OnOk result (phrase.new ≡ phrase.old ++ choices_text choices.now) }
{
    push_literal(phrase, alloc, &choices.first)?;
    'literals: for literal in choices.more.as_slice() {
        phrase.push_str(", ")?;
        push_literal(phrase, alloc, literal)?;
    }
    Ok(())
}

fn push_list(
    phrase: &mut Phrase,
    alloc: Global,
    negated: bool,
    choices: &Choices,
) -> Result<(), AllocError>
    ensures { OnOk result (phrase.new ≡ phrase.old ++ (in_text negated ++ (choices_text choices.now ++ codes ")"))) }
{
    phrase.push_str(in_text(negated))?;
    push_choices(phrase, alloc, choices)?;
    phrase.push_str(")")
}

fn push_question(phrase: &mut Phrase, alloc: Global, question: &Question) -> Result<(), AllocError>
    ensures { OnOk result (phrase.new ≡ phrase.old ++ question_text question.now) }
{
    match question {
        Question::Compare(sign, literal) => {
            phrase.push_str(sign.text())?;
            push_literal(phrase, alloc, literal)
        }
        Question::Among(negated, choices) => push_list(phrase, alloc, *negated, choices),
        Question::Missing => phrase.push_str(" is null"),
        Question::Present => phrase.push_str(" is not null"),
        Question::Begins(literal) => {
            phrase.push_str(" starts with ")?;
            push_literal(phrase, alloc, literal)
        }
    }
}

/// The text of a filter, and what has to be known of it where it stands in another.
#[derive(Drop)]
pub struct Piece {
    pub text: Phrase,
    /// Its last operator is `or`.
    pub either: bool,
    /// It has an operator.
    pub operator: bool,
}

/// The text of `true` or `false`.
fn truth_piece(alloc: Global, truth: bool) -> Result<Piece, AllocError>
    ensures { IfOk result (λ piece. piece ≡ truth_piece truth) }
{
    let mut text = Phrase::new(alloc);
    text.push_str(truth_text(truth))?;
    Ok(Piece {
        text,
        either: false,
        operator: false,
    })
}

fn predicate_piece(alloc: Global, predicate: &Predicate) -> Result<Piece, AllocError>
    ensures { IfOk result (λ piece. piece ≡ predicate_piece predicate.now) }
{
    let mut text = Phrase::new(alloc);
    push_column(&mut text, &predicate.column)?;
    push_question(&mut text, alloc, &predicate.question)?;
    Ok(Piece {
        text,
        either: false,
        operator: false,
    })
}

/// Puts a text last, in parentheses where it needs them.
fn push_enclosed(phrase: &mut Phrase, needs: bool, text: &str) -> Result<(), AllocError>
    ensures { OnOk result (phrase.new ≡ phrase.old ++ enclosed needs text.now) }
{
    if needs {
        phrase.push_str("(")?;
        phrase.push_str(text)?;
        phrase.push_str(")")
    } else {
        phrase.push_str(text)
    }
}

/// The text, in parentheses where it needs them.
fn enclosed(alloc: Global, needs: bool, text: Phrase) -> Result<Phrase, AllocError>
    ensures { IfOk result (λ phrase. phrase ≡ enclosed needs text) }
{
    if needs {
        let mut phrase = Phrase::new(alloc);
        push_enclosed(&mut phrase, true, text.as_str())?;
        Ok(phrase)
    } else {
        Ok(text)
    }
}

fn both_of(alloc: Global, first: Piece, second: Piece) -> Result<Piece, AllocError>
    ensures { IfOk result (λ piece. piece ≡ both_of first second) }
{
    let mut text = enclosed(alloc, first.either, first.text)?;
    text.push_str(" and ")?;
    push_enclosed(&mut text, second.operator, second.text.as_str())?;
    Ok(Piece {
        text,
        either: false,
        operator: true,
    })
}

fn either_of(first: Piece, second: Piece) -> Result<Piece, AllocError>
    ensures { IfOk result (λ piece. piece ≡ either_of first second) }
{
    let mut text = first.text;
    text.push_str(" or ")?;
    push_enclosed(&mut text, second.either, second.text.as_str())?;
    Ok(Piece {
        text,
        either: true,
        operator: true,
    })
}

/// The texts of the filters that wait for an operator, the last one first.
#[derive(Drop)]
struct Pieces {
    held: Vec<Piece>,
}

impl Model for Pieces {
    ghost use Rattle.std.specs.Prelude.{List, reverse};
    ghost use Rattle.ice_filter.specs.declared.text.Piece.{Piece};

    ghost Value = { List Piece };

    ghost view = { λ s. reverse s.held.items };
}

impl Pieces {
    fn new(alloc: Global) -> Self
        ensures { result ≡ [] }
    {
        Pieces {
            held: Vec::new(alloc),
        }
    }

    #[tactic(auto, using(crate::proofs::Frames::pushed_first))]
    fn push(&mut self, piece: Piece) -> Result<(), AllocFailed<Piece>>
        ensures { OnOk result (self.new ≡ piece ∷ self.old) }
    {
        self.held.push(piece)
    }

    /// Takes the last one off; of none at all it is the text of the filter that is always met.
    #[tactic(auto, using(crate::proofs::Frames::pushed_first))]
    fn pop(&mut self, alloc: Global) -> Result<Piece, AllocError>
        ensures value { IfOk result (λ piece. piece ≡ top self.old) }
        ensures left { OnOk result (self.new ≡ rest self.old) }
    {
        match self.held.pop() {
            Some(piece) => Ok(piece),
            None => truth_piece(alloc, true),
        }
    }

    /// The texts after one more part.
    fn read(&mut self, alloc: Global, part: &Part<Predicate>) -> Result<(), AllocError>
        ensures { OnOk result (self.new ≡ put self.old part.now) }
    {
        let piece = match part {
            Part::True => truth_piece(alloc, true)?,
            Part::False => truth_piece(alloc, false)?,
            Part::Predicate(predicate) => predicate_piece(alloc, predicate)?,
            Part::And => {
                let second = self.pop(alloc)?;
                let first = self.pop(alloc)?;
                both_of(alloc, first, second)?
            }
            Part::Or => {
                let second = self.pop(alloc)?;
                let first = self.pop(alloc)?;
                either_of(first, second)?
            }
        };
        self.push(piece)?;
        Ok(())
    }
}

/// The text of the filter whose parts these are.
pub fn shown(alloc: Global, parts: &[Part<Predicate>]) -> Result<Phrase, AllocError>
    ensures { IfOk result (λ text. text ≡ shown (tree_of parts.now)) }
{
    let mut pieces = Pieces::new(alloc);
    'parts: for part in parts {
        pieces.read(alloc, part)?;
    }
    let piece = pieces.pop(alloc)?;
    Ok(piece.text)
}
