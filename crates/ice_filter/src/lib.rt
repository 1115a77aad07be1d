//! Filters of rows: their language, and what is kept of a filter once its columns are known, and what it means on a
//! row.
#![tactic(auto)]

mod binding;
mod bound;
mod fault;
mod filter;
mod laws;
mod lexer;
mod parser;
mod parts;
mod phrase;
mod predicate;
mod readings;
mod text;
mod token;
mod truths;

pub use binding::bind;
pub use bound::{Bound, BoundPredicate, Test};
pub use fault::FilterFault;
pub use filter::Filter;
pub use laws::{filters_of_parts, filters_over_other_predicates};
pub use parser::parse;
pub use parts::{Part, Parts, PredicateTest};
pub use predicate::{Choices, Column, Literal, Predicate, Question};
pub use readings::{
    and_binds_closer_than_or, shown_filters_are_read, texts_have_one_reading, tokens_say_one_filter,
};
pub use token::Comparison;
