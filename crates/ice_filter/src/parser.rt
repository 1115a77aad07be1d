//! From a text to its filter.

ghost use Rattle.std.specs.Prelude.{◌≡◌, [], ◌∷◌, ◌++◌, length, reverse, Ok, IfOk};
ghost use Rattle.contract_words.specs.Outcome.{Gives};
ghost use Rattle.ice_filter.specs.Automaton.{state_of};
ghost use Rattle.ice_filter.specs.declared.predicate.Partial.{Partial};
ghost use Rattle.ice_filter.specs.Grammar.{limits};
ghost use Rattle.ice_filter.specs.Parsing.{add_part, joined, joined_and, opened, began, held, anded, ored, moved};
ghost use Rattle.ice_filter.specs.Parsing.{at_unit, after_unit, closed, step, finish, outcome, parsed, filter_of};
ghost use Rattle.ice_filter.specs.Parsing.{IsReadAs};
ghost use Rattle.ice_filter.specs.Lexing.{tokens_of};
ghost use Rattle.ice_filter.specs.Trees.{tree_of};
ghost use Rattle.ice_filter.specs.Parsing as parsing;

use crate::fault::FilterFault;
use crate::filter::Filter;
use crate::lexer::{behind, is_separator, token_at};
use crate::parts::Part;
use crate::predicate::{Column, Partial, Predicate, Progress, predicate_step};
use crate::token::Token;
use contract_words::{Items, Text};
use std::alloc::{AllocError, Global};

/// Whether an operand of `or`, and one of `and`, stands before this place in an open filter.
#[derive(Clone, Copy)]
pub struct Pending {
    pub either: bool,
    pub both: bool,
}

/// Where the reading stands.
#[derive(Drop)]
pub enum Place {
    /// An operand comes next.
    Wants,
    /// Behind an operand.
    After,
    /// In a predicate.
    Inside(Partial),
}

/// What was read so far.
#[derive(Drop)]
pub struct Parser {
    pub place: Place,
    /// Of the innermost open filter.
    pub now: Pending,
    /// Of those around it, the outermost first.
    pub outer: Vec<Pending>,
    /// The operands and operators so far.
    pub parts: Items<Part<Predicate>>,
    /// How many predicates were begun.
    pub predicates: usize,
}

/// The most predicates that a filter may have.
const MOST_PREDICATES: usize = 1000;

/// The most parentheses that may be open at once.
const MOST_OPEN: usize = 32;

const NONE: Pending = Pending {
    either: false,
    both: false,
};

impl Parser {
    /// A parser before the first token.
    fn new(alloc: Global) -> Self
        ensures { state_of result ≡ parsing.start [] }
    {
        Parser {
            place: Place::Wants,
            now: NONE,
            outer: Vec::new(alloc),
            parts: Items::new(alloc),
            predicates: 0,
        }
    }

    /// Stands at a place from here on.
    fn stand(&mut self, place: Place)
        ensures { self.new ≡ record self.old { place = place } }
    {
        self.place = place;
    }

    /// Ends the operands of `and`.
    #[tactic(auto, unfolding(crate::specs::Parsing::joined_and))]
    fn join_and(&mut self) -> Result<(), AllocError>
        ensures { IfOk result (λ _. self.new ≡
            record self.old { parts = joined_and add_part self.old.now self.old.parts }) }
    {
        if self.now.both {
            self.parts.push(Part::And)?;
        }
        Ok(())
    }

    /// Ends the operands of `or`.
    #[tactic(auto, unfolding(crate::specs::Parsing::joined))]
    fn join(&mut self) -> Result<(), AllocError>
        ensures { IfOk result (λ _. self.new ≡
            record self.old { parts = joined add_part self.old.now self.old.parts }) }
    {
        self.join_and()?;
        if self.now.either {
            self.parts.push(Part::Or)?;
        }
        Ok(())
    }

    /// Opens a parenthesis.
    #[tactic(auto, using(crate::proofs::Frames::pushed_first, crate::proofs::Frames::length_reversed), unfolding(crate::specs::Parsing::opened))]
    fn open(&mut self) -> Result<(), FilterFault>
        ensures { Gives FilterFault.Memory (λ _. state_of self.new) result (opened limits (state_of self.old)) }
    {
        if self.outer.len() >= MOST_OPEN {
            return Err(FilterFault::TooBig);
        }
        self.outer.push(self.now)?;
        self.stand(Place::Wants);
        self.now = NONE;
        Ok(())
    }

    /// Begins a predicate.
    #[tactic(auto, unfolding(crate::specs::Parsing::began))]
    fn begin(&mut self, alloc: Global, first: Text) -> Result<(), FilterFault>
        ensures { Gives FilterFault.Memory (λ _. state_of self.new) result (began limits (state_of self.old) first) }
    {
        if self.predicates >= MOST_PREDICATES {
            return Err(FilterFault::TooBig);
        }
        let more = Items::new(alloc);
        self.stand(Place::Inside(Partial::Column(Column { first, more })));
        self.predicates += 1;
        Ok(())
    }

    /// Takes `true` or `false`.
    #[tactic(auto, unfolding(crate::specs::Parsing::held))]
    fn hold_truth(&mut self, truth: bool) -> Result<(), FilterFault>
        ensures { Gives FilterFault.Memory (λ _. state_of self.new) result
            (held add_part (state_of self.old) (parsing.truth truth)) }
    {
        let part = if truth { Part::True } else { Part::False };
        self.parts.push(part)?;
        self.stand(Place::After);
        Ok(())
    }

    /// Takes a predicate.
    #[tactic(auto, unfolding(crate::specs::Parsing::held))]
    fn hold_predicate(&mut self, predicate: Predicate) -> Result<(), FilterFault>
        ensures { Gives FilterFault.Memory (λ _. state_of self.new) result
            (held add_part (state_of self.old) (parsing.predicate predicate)) }
    {
        self.parts.push(Part::Predicate(predicate))?;
        self.stand(Place::After);
        Ok(())
    }

    /// What a token makes where an operand comes next.
    #[tactic(auto, unfolding(crate::specs::Parsing::at_unit))]
    fn at_unit(&mut self, alloc: Global, at: usize, token: Token) -> Result<(), FilterFault>
        ensures { Gives FilterFault.Memory (λ _. state_of self.new) result
            (at_unit add_part limits at (state_of self.old) token) }
    {
        match token {
            Token::Open => self.open(),
            Token::Truth(truth) => self.hold_truth(truth),
            Token::Name(first) => self.begin(alloc, first),
            _ => Err(FilterFault::Syntax(at)),
        }
    }

    /// What a closing parenthesis makes behind an operand.
    #[tactic(auto, using(crate::proofs::Frames::pushed_first), unfolding(crate::specs::Parsing::closed))]
    fn close(&mut self, at: usize) -> Result<(), FilterFault>
        ensures { Gives FilterFault.Memory (λ _. state_of self.new) result
            (closed add_part at (state_of self.old) (reverse self.old.outer.items)) }
    {
        match self.outer.pop() {
            None => Err(FilterFault::Syntax(at)),
            Some(before) => {
                self.join()?;
                self.stand(Place::After);
                self.now = before;
                Ok(())
            }
        }
    }

    /// Behind `and`.
    #[tactic(auto, unfolding(crate::specs::Parsing::anded))]
    fn and(&mut self) -> Result<(), FilterFault>
        ensures { Gives FilterFault.Memory (λ _. state_of self.new) result (anded add_part (state_of self.old)) }
    {
        self.join_and()?;
        self.stand(Place::Wants);
        self.now.both = true;
        Ok(())
    }

    /// Behind `or`.
    #[tactic(auto, unfolding(crate::specs::Parsing::ored))]
    fn or(&mut self) -> Result<(), FilterFault>
        ensures { Gives FilterFault.Memory (λ _. state_of self.new) result (ored add_part (state_of self.old)) }
    {
        self.join()?;
        self.stand(Place::Wants);
        self.now = Pending {
            either: true,
            both: false,
        };
        Ok(())
    }

    /// What a token makes behind an operand.
    #[tactic(auto, unfolding(crate::specs::Parsing::after_unit))]
    fn after_unit(&mut self, at: usize, token: Token) -> Result<(), FilterFault>
        ensures { Gives FilterFault.Memory (λ _. state_of self.new) result
            (after_unit add_part at (state_of self.old) token) }
    {
        match token {
            Token::And => self.and(),
            Token::Or => self.or(),
            Token::Close => self.close(at),
            _ => Err(FilterFault::Syntax(at)),
        }
    }

    /// What was made of a predicate.
    #[tactic(auto, unfolding(crate::specs::Parsing::moved))]
    fn go_on(&mut self, progress: Progress) -> Result<(), FilterFault>
        ensures { Gives FilterFault.Memory (λ _. state_of self.new) result
            (moved add_part (state_of self.old) (Ok progress)) }
    {
        match progress {
            Progress::Going(partial) => {
                self.stand(Place::Inside(partial));
                Ok(())
            }
            Progress::Done(predicate) => self.hold_predicate(predicate),
        }
    }

    /// What the token at the offset makes of a predicate that is not whole.
    #[tactic(auto, unfolding(crate::specs::Parsing::moved))]
    fn inside(&mut self, alloc: Global, at: usize, token: Token) -> Result<(), FilterFault>
        ensures { (p : Partial) → self.old.place ≡ Place.Inside p →
            Gives FilterFault.Memory (λ _. state_of self.new) result
            (moved add_part (record (state_of self.old) { place = Place.Wants })
            (parsing.predicate_step limits.literals at p token)) }
    {
        match std::mem::replace(&mut self.place, Place::Wants) {
            Place::Inside(partial) => match predicate_step(alloc, at, partial, token) {
                Ok(progress) => self.go_on(progress),
                Err(fault) => Err(fault),
            },
            _ => Err(FilterFault::Syntax(at)),
        }
    }

    /// What the token at the offset makes of what was read before it.
    #[tactic(auto, unfolding(crate::specs::Parsing::step, crate::specs::Parsing::step_at))]
    fn step(&mut self, alloc: Global, at: usize, token: Token) -> Result<(), FilterFault>
        ensures { Gives FilterFault.Memory (λ _. state_of self.new) result
            (step add_part limits at (state_of self.old) token) }
    {
        match self.place {
            Place::Wants => self.at_unit(alloc, at, token),
            Place::After => self.after_unit(at, token),
            Place::Inside(_) => self.inside(alloc, at, token),
        }
    }

    /// Makes the parts those of the filter, where the text ends.
    #[tactic(auto, unfolding(crate::specs::Parsing::finish, crate::specs::Parsing::ended))]
    fn finish(&mut self, end: usize) -> Result<(), FilterFault>
        ensures { Gives FilterFault.Memory (λ _. self.new.parts) result (finish add_part end (state_of self.old)) }
    {
        match self.place {
            Place::After => {
                if !self.outer.is_empty() {
                    return Err(FilterFault::Syntax(end));
                }
                self.join()?;
                Ok(())
            }
            _ => Err(FilterFault::Syntax(end)),
        }
    }

    /// Reads a text.
    fn read(&mut self, alloc: Global, text: &str) -> Result<(), FilterFault>
        ensures { Gives FilterFault.Memory (λ _. self.new.parts) result
            (outcome add_part limits (length text.now) (state_of self.old) (tokens_of text.now)) }
    {
        let bytes = text.as_bytes();
        let mut at = 0;
        'tokens: while at < bytes.len() {
            if is_separator(bytes[at]) {
                at += 1;
            } else {
                let (token, size) = token_at(alloc, behind(bytes, at))?;
                self.step(alloc, at, token)?;
                at += size;
            }
        }
        self.finish(bytes.len())
    }

    /// What was read.
    fn into_parts(self) -> Items<Part<Predicate>>
        ensures { result ≡ self.parts }
    {
        let Parser { place, parts, .. } = self;
        drop(place);
        parts
    }
}

/// The filter of a text. `Syntax` gives the offset, in bytes, of the first token that cannot stand where it stands, or
/// the text's length where it ends too early; `TooBig` comes with the first predicate, parenthesis or literal over its
/// limit.
pub fn parse(alloc: Global, text: &str) -> Result<Filter, FilterFault>
    ensures exact { Gives FilterFault.Memory (λ f. tree_of f) result (filter_of text.now) }
    ensures parts { Gives FilterFault.Memory (λ f. f) result (parsed text.now) }
    ensures grammar { IsReadAs text.now (filter_of text.now) }
{
    let mut parser = Parser::new(alloc);
    let read = parser.read(alloc, text);
    let parts = parser.into_parts();
    read?;
    Ok(Filter::from_items(alloc, parts)?)
}
