//! Texts of names and literals.

ghost use Rattle.std.specs.Prelude.{◌≡◌, ◌<◌, ◌++◌, ◌∷◌, [], length, codes, string_bytes, OnOk};
ghost use Rattle.std.specs.Fmt.{signed_decimal};
ghost use Rattle.ice_filter.specs.Texts.{doubled, in_quotes, is_word, is_bare, name_text, bytes_text};

use crate::lexer::{is_letter, name_length};
use std::alloc::{AllocError, Global};
use std::marker::Model;

/// A text that grows at its end.
#[derive(Debug, Drop)]
pub struct Phrase {
    text: String,
}

impl Model for Phrase {
    ghost use Rattle.std.specs.Prelude.{List, ℕ, string_bytes};

    ghost Value = { List ℕ };

    ghost view = { λ p. string_bytes p.text };
}

impl Phrase {
    /// No text.
    pub fn new(alloc: Global) -> Self
        ensures { result ≡ [] }
    {
        Phrase {
            text: String::new(alloc),
        }
    }

    /// The text so far.
    pub fn as_str(&self) -> &str
        ensures { result.now ≡ self.now }
    {
        self.text.as_str()
    }

    /// Puts a text last.
    pub fn push_str(&mut self, text: &str) -> Result<(), AllocError>
        ensures { OnOk result (self.new ≡ self.old ++ text.now) }
    {
        self.text.push_str(text)
    }

    /// Puts a quote last.
    fn push_quote(&mut self, quote: char) -> Result<(), AllocError>
        requires { quote < 128 }
        ensures { OnOk result (self.new ≡ self.old ++ quote ∷ []) }
    {
        self.text.push(quote)
    }

    /// Puts a text last, each quote twice.
    fn push_doubled(&mut self, quote: char, text: &str) -> Result<(), AllocError>
        requires { quote < 128 }
        ensures { OnOk result (self.new ≡ self.old ++ doubled quote text.now) }
    {
        let mut rest = text;
        'quotes: while let Some((before, after)) = rest.split_once(quote) {
            self.push_str(before)?;
            self.push_quote(quote)?;
            self.push_quote(quote)?;
            rest = after;
        }
        self.push_str(rest)
    }

    /// Puts a text between quotes last.
    pub fn push_quoted(&mut self, quote: char, text: &str) -> Result<(), AllocError>
        requires { quote < 128 }
        ensures { OnOk result (self.new ≡ self.old ++ in_quotes quote text.now) }
    {
        self.push_quote(quote)?;
        self.push_doubled(quote, text)?;
        self.push_quote(quote)
    }

    /// Puts a name last, in quotes where it needs them.
    pub fn push_name(&mut self, name: &str) -> Result<(), AllocError>
        ensures { OnOk result (self.new ≡ self.old ++ name_text name.now) }
    {
        if is_bare(name.as_bytes()) {
            self.push_str(name)
        } else {
            self.push_quoted('"', name)
        }
    }

    /// Puts the digits of a number last.
    pub fn push_number(&mut self, alloc: Global, number: i64) -> Result<(), AllocError>
        ensures { OnOk result (self.new ≡ self.old ++ signed_decimal number) }
    {
        let digits = number.to_string(alloc)?;
        self.push_str(digits.as_str())
    }

    /// Puts bytes last, in hexadecimal digits.
    pub fn push_bytes(&mut self, alloc: Global, bytes: &[u8]) -> Result<(), AllocError>
        ensures { OnOk result (self.new ≡ self.old ++ bytes_text bytes.now) }
    {
        let digits = hex::encode(alloc, bytes)?;
        self.push_str("x'")?;
        self.push_str(digits.as_str())?;
        self.push_str("'")
    }
}

/// Whether the name is a word of the language.
#[tactic(auto, unfolding(crate::specs::Texts::is_word))]
fn is_word(name: &[u8]) -> bool
    ensures { result ≡ is_word name.now }
{
    name == b"and".as_slice()
        || name == b"or".as_slice()
        || name == b"not".as_slice()
        || name == b"in".as_slice()
        || name == b"is".as_slice()
        || name == b"null".as_slice()
        || name == b"starts".as_slice()
        || name == b"with".as_slice()
        || name == b"true".as_slice()
        || name == b"false".as_slice()
}

/// Whether the name is read as itself where it stands without quotes.
fn is_bare(name: &[u8]) -> bool
    ensures { result ≡ is_bare name.now }
{
    match name {
        [first, ..] => is_letter(*first) && name_length(name) == name.len() && !is_word(name),
        [] => false,
    }
}
