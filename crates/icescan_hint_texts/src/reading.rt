//! A filter as it was read.

use crate::asked::Asked;
use crate::columns::type_in;
use crate::predicates::predicate_text;
use ice_filter::{Part, Predicate};
use ice_meta::Schema;
use std::alloc::{AllocError, Global};

/// The text of a filter, and whether its last operator is `or`.
#[derive(Drop)]
struct Piece {
    text: String,
    either: bool,
}

/// Adds a piece, between parentheses where it stands beside an `and` and is made by `or`.
fn push_piece(text: &mut String, piece: &Piece, either: bool) -> Result<(), AllocError> {
    if either || !piece.either {
        return text.push_str(piece.text.as_str());
    }
    text.push('(')?;
    text.push_str(piece.text.as_str())?;
    text.push(')')
}

/// Two pieces with `and` or `or` between them.
fn joined(alloc: Global, either: bool, first: &Piece, second: &Piece) -> Result<Piece, AllocError> {
    let mut text = String::new(alloc);
    push_piece(&mut text, first, either)?;
    text.push_str(if either { " or " } else { " and " })?;
    push_piece(&mut text, second, either)?;
    Ok(Piece { text, either })
}

/// Puts the last two pieces together.
fn join_last(pieces: &mut Vec<Piece>, alloc: Global, either: bool) -> Result<(), AllocError> {
    let Some(second) = pieces.pop() else {
        return Ok(());
    };
    let Some(first) = pieces.pop() else {
        return Ok(());
    };
    let piece = joined(alloc, either, &first, &second)?;
    pieces.push(piece)?;
    Ok(())
}

/// The text of a part that is no operator; none of `and` and `or`.
fn part_text(
    alloc: Global,
    part: &Part<Predicate>,
    schema: &Schema,
) -> Result<Option<String>, AllocError> {
    let text = match part {
        Part::True => String::from_str(alloc, "true")?,
        Part::False => String::from_str(alloc, "false")?,
        Part::Predicate(predicate) => {
            let column_type = type_in(alloc, predicate, schema)?;
            predicate_text(alloc, column_type, predicate)?
        }
        Part::And | Part::Or => return Ok(None),
    };
    Ok(Some(text))
}

/// A filter as it was read: dates and times stand in it as a calendar has them.
pub fn reading_of(alloc: Global, asked: &Asked<'_>) -> Result<String, AllocError> {
    let mut pieces = Vec::new(alloc);
    for part in asked.filter.parts().as_slice() {
        match part_text(alloc, part, asked.schema)? {
            Some(text) => pieces.push(Piece {
                text,
                either: false,
            })?,
            None => join_last(&mut pieces, alloc, matches!(part, Part::Or))?,
        }
    }
    match pieces.pop() {
        Some(piece) => Ok(piece.text),
        None => String::from_str(alloc, "true"),
    }
}
