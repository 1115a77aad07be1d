//! Filters, as their text says them.

ghost use Rattle.std.specs.Prelude.{◌≡◌, IfOk, true};
ghost use Rattle.ice_filter.specs.Texts.{shown};
ghost use Rattle.ice_filter.specs.Trees.{tree_of, is_filter};

use crate::parts::{Part, Parts};
use crate::phrase::Phrase;
use crate::predicate::Predicate;
use crate::text::shown;
use contract_words::Items;
use std::alloc::{AllocError, Global};
use std::fmt;
use std::marker::Model;

/// A filter over the names of columns. It keeps the text that it is shown as, so that showing it takes no memory.
/// Contracts see its parts, and the filter that it is by `tree_of`.
#[derive(Drop)]
pub struct Filter {
    parts: Parts<Predicate>,
    text: Phrase,
}

impl Model for Filter {
    ghost use Rattle.std.specs.Prelude.{◌≡◌, List};
    ghost use Rattle.ice_filter.specs.declared.predicate.Predicate.{Predicate};
    ghost use Rattle.ice_filter.specs.declared.parts.Part.{Part};
    ghost use Rattle.ice_filter.specs.Texts.{shown};
    ghost use Rattle.ice_filter.specs.Trees.{tree_of};

    ghost Value = { List (Part Predicate) };

    ghost view = { λ f. f.parts };

    ghost invariant = { λ f. f.text ≡ shown (tree_of f.parts) };
}

impl Filter {
    /// The filter of these parts.
    pub fn from_items(alloc: Global, parts: Items<Part<Predicate>>) -> Result<Filter, AllocError>
        requires { is_filter parts ≡ true }
        ensures { IfOk result (λ filter. filter ≡ parts) }
    {
        let text = shown(alloc, parts.as_slice())?;
        Ok(Filter {
            parts: Parts::from_items(parts),
            text,
        })
    }

    /// The filter, part by part.
    pub fn parts(&self) -> &Parts<Predicate>
        ensures { result.now ≡ self.now }
    {
        &self.parts
    }

    /// The text that it is shown as.
    pub fn as_str(&self) -> &str
        ensures { result.now ≡ shown (tree_of self.now) }
    {
        self.text.as_str()
    }
}

impl fmt::Display for Filter {
    ghost use Rattle.std.specs.Prelude.{Some};
    ghost use Rattle.ice_filter.specs.Texts.{shown};
    ghost use Rattle.ice_filter.specs.Trees.{tree_of};

    ghost output = { λ filter. Some (shown (tree_of filter)) };

    fn fmt<W: fmt::Write>(&self, f: &mut fmt::Formatter<W>) -> fmt::Result {
        f.write_str(self.as_str())
    }
}
