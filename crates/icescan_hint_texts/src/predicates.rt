//! The comparisons of a filter as texts, with dates and times as a user reads them.

use crate::moments::{day_text, moment_text, time_text};
use ice_filter::{Choices, Column, Comparison, Literal, Predicate, Question};
use ice_value::ColumnType;
use std::alloc::{AllocError, Global};

/// A text between quotes, each quote in it twice.
fn push_quoted(text: &mut String, quote: char, inside: &str) -> Result<(), AllocError> {
    text.push(quote)?;
    for c in inside.chars() {
        if c == quote {
            text.push(c)?;
        }
        text.push(c)?;
    }
    text.push(quote)
}

/// A constant as a filter writes it.
pub fn literal_text(alloc: Global, literal: &Literal) -> Result<String, AllocError> {
    let mut text = String::new(alloc);
    match literal {
        Literal::Truth(truth) => text.push_str(if *truth { "true" } else { "false" })?,
        Literal::Number(number) => write!(text, "{number}")?,
        Literal::Text(inside) => push_quoted(&mut text, '\'', inside.as_str())?,
        Literal::Bytes(bytes) => {
            text.push_str("x'")?;
            for byte in bytes.as_slice() {
                write!(text, "{byte:02x}")?;
            }
            text.push('\'')?;
        }
    }
    Ok(text)
}

/// A number as it is read in a column of dates or times.
pub fn read_number(
    alloc: Global,
    column_type: Option<ColumnType>,
    number: i64,
) -> Result<Option<String>, AllocError> {
    match column_type {
        Some(ColumnType::Date) => day_text(alloc, number),
        Some(ColumnType::Time) => time_text(alloc, number),
        Some(ColumnType::Timestamp) => moment_text(alloc, number),
        Some(ColumnType::Timestamptz) => match moment_text(alloc, number)? {
            Some(moment) => Ok(Some(format!(in alloc; "{moment}Z")?)),
            None => Ok(None),
        },
        _ => Ok(None),
    }
}

/// Adds a constant as it is read in a column of this type.
fn push_literal(
    text: &mut String,
    alloc: Global,
    column_type: Option<ColumnType>,
    literal: &Literal,
) -> Result<(), AllocError> {
    if let Literal::Number(number) = literal {
        if let Some(read) = read_number(alloc, column_type, *number)? {
            return text.push_str(read.as_str());
        }
    }
    let written = literal_text(alloc, literal)?;
    text.push_str(written.as_str())
}

/// The names that lead to a column, each as a filter writes it.
pub fn column_text(alloc: Global, column: &Column) -> Result<String, AllocError> {
    let mut text = String::new(alloc);
    push_name(&mut text, column.first.as_str())?;
    for name in column.more.as_slice() {
        text.push('.')?;
        push_name(&mut text, name.as_str())?;
    }
    Ok(text)
}

/// A name, in double quotes where it has another character than letters, digits and `_`.
fn push_name(text: &mut String, name: &str) -> Result<(), AllocError> {
    if name.chars().all(|c| c.is_ascii_alphanumeric() || c == '_') {
        text.push_str(name)
    } else {
        push_quoted(text, '"', name)
    }
}

/// How a comparison is written.
fn sign_text(sign: Comparison) -> &'static str {
    match sign {
        Comparison::Less => " < ",
        Comparison::AtMost => " <= ",
        Comparison::Greater => " > ",
        Comparison::AtLeast => " >= ",
        Comparison::Equal => " = ",
        Comparison::NotEqual => " != ",
    }
}

/// Adds the constants of a list, as they are read.
fn push_choices(
    text: &mut String,
    alloc: Global,
    column_type: Option<ColumnType>,
    choices: &Choices,
) -> Result<(), AllocError> {
    push_literal(text, alloc, column_type, &choices.first)?;
    for literal in choices.more.as_slice() {
        text.push_str(", ")?;
        push_literal(text, alloc, column_type, literal)?;
    }
    text.push(')')
}

/// A comparison as it is read where its column has this type.
pub fn predicate_text(
    alloc: Global,
    column_type: Option<ColumnType>,
    predicate: &Predicate,
) -> Result<String, AllocError> {
    let mut text = column_text(alloc, &predicate.column)?;
    match &predicate.question {
        Question::Compare(sign, literal) => {
            text.push_str(sign_text(*sign))?;
            push_literal(&mut text, alloc, column_type, literal)?;
        }
        Question::Among(negated, choices) => {
            text.push_str(if *negated { " not in (" } else { " in (" })?;
            push_choices(&mut text, alloc, column_type, choices)?;
        }
        Question::Missing => text.push_str(" is null")?,
        Question::Present => text.push_str(" is not null")?,
        Question::Begins(literal) => {
            text.push_str(" starts with ")?;
            push_literal(&mut text, alloc, None, literal)?;
        }
    }
    Ok(text)
}

/// The constants that a comparison has.
pub fn literals_of<'a>(
    alloc: Global,
    predicate: &'a Predicate,
) -> Result<Vec<&'a Literal>, AllocError> {
    let mut literals = Vec::new(alloc);
    match &predicate.question {
        Question::Compare(_, literal) | Question::Begins(literal) => literals.push(literal)?,
        Question::Among(_, choices) => {
            literals.push(&choices.first)?;
            for literal in choices.more.as_slice() {
                literals.push(literal)?;
            }
        }
        Question::Missing | Question::Present => {}
    }
    Ok(literals)
}
