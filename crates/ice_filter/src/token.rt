//! The tokens of a filter.

ghost use Rattle.std.specs.Prelude.{◌≡◌};
ghost use Rattle.ice_filter.specs.Texts.{sign_text};

use contract_words::{Items, Text};

/// How a column is compared.
#[derive(Clone, Copy, Debug, PartialEq, Eq)]
pub enum Comparison {
    Less,
    AtMost,
    Greater,
    AtLeast,
    Equal,
    NotEqual,
}

impl Comparison {
    /// The sign between spaces, as it stands in a filter.
    pub fn text(self) -> &'static str
        ensures { result.now ≡ sign_text self }
    {
        match self {
            Comparison::Less => " < ",
            Comparison::AtMost => " <= ",
            Comparison::Greater => " > ",
            Comparison::AtLeast => " >= ",
            Comparison::Equal => " = ",
            Comparison::NotEqual => " != ",
        }
    }
}

/// A token: what stands between two places of a text.
#[derive(Drop)]
pub enum Token {
    Open,
    Close,
    Comma,
    Dot,
    Sign(Comparison),
    And,
    Or,
    Not,
    In,
    Is,
    Null,
    Starts,
    With,
    Truth(bool),
    Number(i64),
    Text(Text),
    Bytes(Items<u8>),
    Name(Text),
    /// No token of the language.
    Bad,
}
