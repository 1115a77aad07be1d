//! Predicates: what a filter asks of a column.

ghost use Rattle.std.specs.Prelude.{◌≡◌, IfOk};
ghost use Rattle.contract_words.specs.Outcome.{Gives};
ghost use Rattle.ice_filter.specs.Binding.{path};
ghost use Rattle.ice_filter.specs.Parsing.{literal_of, predicate_step, behind_column, behind_dot, behind_not, behind_in};
ghost use Rattle.ice_filter.specs.Parsing.{behind_listed, behind_is, behind_is_not, behind_starts, compared, chosen};
ghost use Rattle.ice_filter.specs.Parsing.{chosen_too, begun};
ghost use Rattle.ice_filter.specs.declared.predicate.Progress.{Progress};

use crate::fault::FilterFault;
use crate::token::{Comparison, Token};
use contract_words::{Items, Text};
use std::alloc::{AllocError, Global};

/// A constant.
#[derive(Drop)]
pub enum Literal {
    Truth(bool),
    Number(i64),
    Text(Text),
    Bytes(Items<u8>),
}

/// The names that lead to a column.
#[derive(Drop)]
pub struct Column {
    pub first: Text,
    pub more: Items<Text>,
}

impl Column {
    /// The names, in their order.
    pub fn path(&self, alloc: Global) -> Result<Items<Text>, AllocError>
        ensures { IfOk result (λ names. names ≡ path self.now) }
    {
        let mut names = Items::new(alloc);
        names.push(self.first.copy(alloc)?)?;
        'names: for name in self.more.as_slice() {
            names.push(name.copy(alloc)?)?;
        }
        Ok(names)
    }
}

/// A list of constants, of which there is one at least.
#[derive(Drop)]
pub struct Choices {
    pub first: Literal,
    pub more: Items<Literal>,
}

/// What is asked of a column.
#[derive(Drop)]
pub enum Question {
    Compare(Comparison, Literal),
    /// In the list, or not in it.
    Among(bool, Choices),
    Missing,
    Present,
    Begins(Literal),
}

/// A column and what is asked of it.
#[derive(Drop)]
pub struct Predicate {
    pub column: Column,
    pub question: Question,
}

/// A predicate that isn't whole.
#[derive(Drop)]
pub enum Partial {
    /// Behind a column.
    Column(Column),
    /// Behind a dot.
    Dot(Column),
    Sign(Column, Comparison),
    Not(Column),
    /// Behind `in`, or `not in`.
    In(Column, bool),
    /// Behind the parenthesis.
    Open(Column, bool),
    /// Behind a literal of the list.
    Listed(Column, bool, Choices),
    Comma(Column, bool, Choices),
    Is(Column),
    IsNot(Column),
    Starts(Column),
    With(Column),
}

/// What a token makes of a predicate.
#[derive(Drop)]
pub enum Progress {
    Going(Partial),
    Done(Predicate),
}

/// What a token makes of a predicate, unless it may not stand there.
type Step = Result<Progress, FilterFault>;

/// The most literals that a list may have.
pub const MOST_LITERALS: usize = 1000;

/// The whole predicate.
fn done(column: Column, question: Question) -> Progress
    ensures { result ≡ Progress.Done (record { column = column; question = question }) }
{
    Progress::Done(Predicate { column, question })
}

#[tactic(auto, unfolding(crate::specs::Parsing::literal_of))]
fn literal_of(token: Token) -> Option<Literal>
    ensures { result ≡ literal_of token }
{
    match token {
        Token::Truth(truth) => Some(Literal::Truth(truth)),
        Token::Number(number) => Some(Literal::Number(number)),
        Token::Text(text) => Some(Literal::Text(text)),
        Token::Bytes(bytes) => Some(Literal::Bytes(bytes)),
        _ => None,
    }
}

#[tactic(auto, unfolding(crate::specs::Parsing::behind_column))]
fn behind_column(at: usize, column: Column, token: Token) -> Step
    ensures { result ≡ behind_column at column token }
{
    match token {
        Token::Dot => Ok(Progress::Going(Partial::Dot(column))),
        Token::Sign(sign) => Ok(Progress::Going(Partial::Sign(column, sign))),
        Token::Not => Ok(Progress::Going(Partial::Not(column))),
        Token::In => Ok(Progress::Going(Partial::In(column, false))),
        Token::Is => Ok(Progress::Going(Partial::Is(column))),
        Token::Starts => Ok(Progress::Going(Partial::Starts(column))),
        _ => Err(FilterFault::Syntax(at)),
    }
}

#[tactic(auto, unfolding(crate::specs::Parsing::behind_dot))]
fn behind_dot(at: usize, column: Column, token: Token) -> Step
    ensures { Gives FilterFault.Memory (λ x. x) result (behind_dot at column token) }
{
    match token {
        Token::Name(name) => {
            let Column { first, mut more } = column;
            more.push(name)?;
            Ok(Progress::Going(Partial::Column(Column { first, more })))
        }
        _ => Err(FilterFault::Syntax(at)),
    }
}

#[tactic(auto, unfolding(crate::specs::Parsing::compared))]
fn compared(at: usize, column: Column, sign: Comparison, literal: Option<Literal>) -> Step
    ensures { result ≡ compared at column sign literal }
{
    match literal {
        Some(literal) => Ok(done(column, Question::Compare(sign, literal))),
        None => Err(FilterFault::Syntax(at)),
    }
}

#[tactic(auto, unfolding(crate::specs::Parsing::behind_not))]
fn behind_not(at: usize, column: Column, token: Token) -> Step
    ensures { result ≡ behind_not at column token }
{
    match token {
        Token::In => Ok(Progress::Going(Partial::In(column, true))),
        _ => Err(FilterFault::Syntax(at)),
    }
}

#[tactic(auto, unfolding(crate::specs::Parsing::behind_in))]
fn behind_in(at: usize, column: Column, negated: bool, token: Token) -> Step
    ensures { result ≡ behind_in at column negated token }
{
    match token {
        Token::Open => Ok(Progress::Going(Partial::Open(column, negated))),
        _ => Err(FilterFault::Syntax(at)),
    }
}

#[tactic(auto, unfolding(crate::specs::Parsing::chosen))]
fn chosen(alloc: Global, at: usize, column: Column, negated: bool, literal: Option<Literal>) -> Step
    ensures { result ≡ chosen at column negated literal }
{
    match literal {
        Some(first) => {
            let more = Items::new(alloc);
            Ok(Progress::Going(Partial::Listed(column, negated, Choices { first, more })))
        }
        None => Err(FilterFault::Syntax(at)),
    }
}

#[tactic(auto, unfolding(crate::specs::Parsing::behind_listed))]
fn behind_listed(at: usize, column: Column, negated: bool, choices: Choices, token: Token) -> Step
    ensures { result ≡ behind_listed at column negated choices token }
{
    match token {
        Token::Comma => Ok(Progress::Going(Partial::Comma(column, negated, choices))),
        Token::Close => Ok(done(column, Question::Among(negated, choices))),
        _ => Err(FilterFault::Syntax(at)),
    }
}

#[tactic(auto, unfolding(crate::specs::Parsing::chosen_too))]
fn chosen_too(
    at: usize,
    column: Column,
    negated: bool,
    choices: Choices,
    literal: Option<Literal>,
) -> Step
    ensures { Gives FilterFault.Memory (λ x. x) result (chosen_too 1000 at column negated choices literal) }
{
    match literal {
        Some(literal) => {
            let Choices { first, mut more } = choices;
            if more.as_slice().len() >= MOST_LITERALS - 1 {
                return Err(FilterFault::TooBig);
            }
            more.push(literal)?;
            Ok(Progress::Going(Partial::Listed(column, negated, Choices { first, more })))
        }
        None => Err(FilterFault::Syntax(at)),
    }
}

#[tactic(auto, unfolding(crate::specs::Parsing::behind_is))]
fn behind_is(at: usize, column: Column, token: Token) -> Step
    ensures { result ≡ behind_is at column token }
{
    match token {
        Token::Null => Ok(done(column, Question::Missing)),
        Token::Not => Ok(Progress::Going(Partial::IsNot(column))),
        _ => Err(FilterFault::Syntax(at)),
    }
}

#[tactic(auto, unfolding(crate::specs::Parsing::behind_is_not))]
fn behind_is_not(at: usize, column: Column, token: Token) -> Step
    ensures { result ≡ behind_is_not at column token }
{
    match token {
        Token::Null => Ok(done(column, Question::Present)),
        _ => Err(FilterFault::Syntax(at)),
    }
}

#[tactic(auto, unfolding(crate::specs::Parsing::behind_starts))]
fn behind_starts(at: usize, column: Column, token: Token) -> Step
    ensures { result ≡ behind_starts at column token }
{
    match token {
        Token::With => Ok(Progress::Going(Partial::With(column))),
        _ => Err(FilterFault::Syntax(at)),
    }
}

#[tactic(auto, unfolding(crate::specs::Parsing::begun))]
fn begun(at: usize, column: Column, literal: Option<Literal>) -> Step
    ensures { result ≡ begun at column literal }
{
    match literal {
        Some(literal) => Ok(done(column, Question::Begins(literal))),
        None => Err(FilterFault::Syntax(at)),
    }
}

/// What the token at the offset makes of a predicate that isn't whole.
#[tactic(auto, unfolding(crate::specs::Parsing::predicate_step))]
pub fn predicate_step(
    alloc: Global,
    at: usize,
    partial: Partial,
    token: Token,
) -> Result<Progress, FilterFault>
    ensures { Gives FilterFault.Memory (λ x. x) result (predicate_step 1000 at partial token) }
{
    match partial {
        Partial::Column(column) => behind_column(at, column, token),
        Partial::Dot(column) => behind_dot(at, column, token),
        Partial::Sign(column, sign) => compared(at, column, sign, literal_of(token)),
        Partial::Not(column) => behind_not(at, column, token),
        Partial::In(column, negated) => behind_in(at, column, negated, token),
        Partial::Open(column, negated) => chosen(alloc, at, column, negated, literal_of(token)),
        Partial::Listed(column, negated, choices) => behind_listed(
            at, column, negated, choices, token,
        ),
        Partial::Comma(column, negated, choices) => chosen_too(
            at,
            column,
            negated,
            choices,
            literal_of(token),
        ),
        Partial::Is(column) => behind_is(at, column, token),
        Partial::IsNot(column) => behind_is_not(at, column, token),
        Partial::Starts(column) => behind_starts(at, column, token),
        Partial::With(column) => begun(at, column, literal_of(token)),
    }
}
