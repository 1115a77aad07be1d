//! Filters as lists of parts.

ghost use Rattle.std.specs.Prelude.{◌≡◌, [], Bool, true, length, is_some};
ghost use Rattle.ice_filter.specs.Trees.{tree_of, meaning, is_filter, operands_after_part};
ghost use Rattle.ice_filter.specs.Truths.{judge_part};

use crate::truths::Truths;
use contract_words::Items;
use std::alloc::Global;
use std::marker::Model;

/// A part of a filter over predicates of type `L`.
#[derive(Debug, PartialEq, Drop)]
pub enum Part<L> {
    /// A filter that is always met.
    True,
    /// A filter that is never met.
    False,
    /// A filter that is met where the predicate is.
    Predicate(L),
    /// The two filters before it, both met.
    And,
    /// The two filters before it, one of them met.
    Or,
}

/// A test of predicates, of which a filter's meaning is made.
pub trait PredicateTest<L> {
    /// What the test says of a predicate.
    ghost says: { Self → L → Bool };

    /// Whether the predicate is met.
    fn is_met(&self, predicate: &L) -> bool
        ensures { result ≡ says self.now predicate.now };
}

/// A filter as the list of its parts, operands before their operators. No parts at all are the filter that is always
/// met. Filters that are read have at most 32 open parentheses, so few operands wait at any time for their operator.
#[derive(Debug, Drop)]
pub struct Parts<L> {
    parts: Items<Part<L>>,
}

impl<L> Model for Parts<L> {
    ghost use Rattle.std.specs.Prelude.{◌≡◌, List, true};
    ghost use Rattle.ice_filter.specs.declared.parts.Part.{Part};
    ghost use Rattle.ice_filter.specs.Trees.{is_filter};

    ghost Value = { List (Part L) };

    ghost view = { λ p. p.parts };

    ghost invariant = { λ p. is_filter p.parts ≡ true };
}

impl<L> Parts<L> {
    /// The filter that is always met. It takes no memory.
    pub fn always(alloc: Global) -> Self
        ensures { result ≡ [] }
    {
        Parts {
            parts: Items::new(alloc),
        }
    }

    /// The filter of these parts.
    pub fn from_items(parts: Items<Part<L>>) -> Self
        requires { is_filter parts ≡ true }
        ensures { result ≡ parts }
    {
        Parts { parts }
    }

    /// The parts in order.
    pub fn as_slice(&self) -> &[Part<L>]
        ensures parts { result.now ≡ self.now }
        ensures filter { is_filter self.now ≡ true }
    {
        self.parts.as_slice()
    }

    /// Whether the filter is met, where the test says it of each predicate. It takes no memory.
    pub fn is_met<T: PredicateTest<L>>(&self, test: &T) -> bool
        ensures { result ≡ meaning (T.says test.now) (tree_of self.now) }
    {
        let mut truths = Truths::new();
        'parts: for part in self.parts.as_slice() {
            read_part(&mut truths, part, test);
        }
        truths.top()
    }
}

/// The truth values after one more part.
fn read_part<L, T: PredicateTest<L>>(truths: &mut Truths, part: &Part<L>, test: &T)
    requires { is_some (operands_after_part (length truths.old) part.now) ≡ true }
    ensures { truths.new ≡ judge_part (T.says test.now) truths.old part.now }
{
    match part {
        Part::True => truths.push(true),
        Part::False => truths.push(false),
        Part::Predicate(predicate) => truths.push(test.is_met(predicate)),
        Part::And => {
            let second = truths.pop();
            let first = truths.pop();
            truths.push(first && second);
        }
        Part::Or => {
            let second = truths.pop();
            let first = truths.pop();
            truths.push(first || second);
        }
    }
}
