//! Copies of predicates.

ghost use Rattle.std.specs.Prelude.{◌≡◌, IfOk};

use contract_words::Items;
use ice_filter::{Choices, Column, Literal, Predicate, Question};
use std::alloc::{AllocError, Global};

/// The same literal.
fn copied_literal(alloc: Global, literal: &Literal) -> Result<Literal, AllocError>
    ensures { IfOk result (λ copied. copied ≡ literal.now) }
{
    match literal {
        Literal::Truth(truth) => Ok(Literal::Truth(*truth)),
        Literal::Number(number) => Ok(Literal::Number(*number)),
        Literal::Text(text) => Ok(Literal::Text(text.copy(alloc)?)),
        Literal::Bytes(bytes) => Ok(Literal::Bytes(bytes.copy(alloc)?)),
    }
}

/// The same literals.
fn copied_literals(alloc: Global, literals: &[Literal]) -> Result<Items<Literal>, AllocError>
    ensures { IfOk result (λ copied. copied ≡ literals.now) }
{
    let mut copied = Items::with_capacity(alloc, literals.len())?;
    'literals: for literal in literals {
        copied.push(copied_literal(alloc, literal)?)?;
    }
    Ok(copied)
}

/// The same list of literals.
fn copied_choices(alloc: Global, choices: &Choices) -> Result<Choices, AllocError>
    ensures { IfOk result (λ copied. copied ≡ choices.now) }
{
    let more = copied_literals(alloc, choices.more.as_slice())?;
    Ok(Choices {
        first: copied_literal(alloc, &choices.first)?,
        more,
    })
}

/// The same question.
fn copied_question(alloc: Global, question: &Question) -> Result<Question, AllocError>
    ensures { IfOk result (λ copied. copied ≡ question.now) }
{
    match question {
        Question::Compare(sign, literal) => {
            Ok(Question::Compare(*sign, copied_literal(alloc, literal)?))
        }
        Question::Among(negated, choices) => {
            Ok(Question::Among(*negated, copied_choices(alloc, choices)?))
        }
        Question::Missing => Ok(Question::Missing),
        Question::Present => Ok(Question::Present),
        Question::Begins(literal) => Ok(Question::Begins(copied_literal(alloc, literal)?)),
    }
}

/// The same names.
fn copied_column(alloc: Global, column: &Column) -> Result<Column, AllocError>
    ensures { IfOk result (λ copied. copied ≡ column.now) }
{
    Ok(Column {
        first: column.first.copy(alloc)?,
        more: column.more.copy(alloc)?,
    })
}

/// The same predicate.
pub fn copied_predicate(alloc: Global, predicate: &Predicate) -> Result<Predicate, AllocError>
    ensures { IfOk result (λ copied. copied ≡ predicate.now) }
{
    Ok(Predicate {
        column: copied_column(alloc, &predicate.column)?,
        question: copied_question(alloc, &predicate.question)?,
    })
}
