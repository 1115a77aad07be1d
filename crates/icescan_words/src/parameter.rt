//! A word or an option of a command, and what the parser is told of it.

use clap::builder::ValueParser;
use clap::{Arg, ArgAction};
use std::alloc::{AllocError, Global};

/// How a parameter is written, and whether it has to be there.
pub enum Kind {
    /// An option that takes no value.
    Flag,
    /// An option that takes a value.
    Optional,
    /// The same, where it has to be there.
    Required,
    /// A word, which has to be there.
    Word,
    /// A word that may be left out.
    OptionalWord,
    /// Words, of which one has to be there at least.
    Words,
}

/// What a parameter has to do with others.
pub enum Rule {
    /// Nothing.
    Free,
    /// It is there only where this one is.
    With(&'static str),
    /// It is there only where this one is not.
    Without(&'static str),
    /// It has to be there where this one is not.
    Unless(&'static str),
    /// It has this value where it is not there.
    Default(&'static str),
}

/// A word or an option of a command, with what help says of it.
pub struct Parameter {
    pub name: &'static str,
    pub kind: Kind,
    /// What stands in help for its value.
    pub value: &'static str,
    pub takes: ValueParser<'static>,
    pub rule: Rule,
    pub help: &'static str,
}

/// An option that takes no value.
pub fn flag<'a>(alloc: Global, name: &'a str, help: &'a str) -> Arg<'a> {
    Arg::new(alloc, name)
        .long(name)
        .action(ArgAction::SetTrue)
        .help(help)
}

/// A word of its value.
fn word<'a>(alloc: Global, parameter: &'a Parameter) -> Arg<'a> {
    Arg::new(alloc, parameter.name)
        .value_name(parameter.value)
        .value_parser(parameter.takes)
        .required(matches!(parameter.kind, Kind::Required | Kind::Word | Kind::Words))
        .help(parameter.help)
}

/// A word of its value, or an option that takes it.
fn valued<'a>(alloc: Global, parameter: &'a Parameter) -> Arg<'a> {
    let word = word(alloc, parameter);
    match parameter.kind {
        Kind::Word | Kind::OptionalWord => word,
        Kind::Words => word.num_args(1..).action(ArgAction::Append),
        _ => word
            .long(parameter.name)
            .allow_negative_numbers(matches!(parameter.takes, ValueParser::Signed(_, _))),
    }
}

/// What the parser is told of a parameter.
pub fn argument<'a>(alloc: Global, parameter: &'a Parameter) -> Result<Arg<'a>, AllocError> {
    let argument = match parameter.kind {
        Kind::Flag => flag(alloc, parameter.name, parameter.help),
        _ => valued(alloc, parameter),
    };
    match parameter.rule {
        Rule::Free => Ok(argument),
        Rule::With(other) => argument.requires_arg(other),
        Rule::Without(other) => argument.conflicts_with(other),
        Rule::Unless(other) => argument.required_unless_present(other),
        Rule::Default(value) => Ok(argument.default_value(value)),
    }
}
