//! A stack of truth values of a fixed size.

ghost use Rattle.std.specs.Prelude.{◌≡◌, ◌<◌, [], ◌∷◌, length};
ghost use Rattle.ice_filter.specs.Truths.{top, rest};

use std::marker::Model;

/// How many truth values a stack has room for.
pub const MOST_OPERANDS: usize = 67;

/// Truth values, the last one first.
#[derive(Drop)]
pub struct Truths {
    held: [bool; 67],
    height: usize,
}

impl Model for Truths {
    ghost use Rattle.std.specs.Prelude.{List, Bool, ◌≤◌};
    ghost use Rattle.ice_filter.specs.Truths.{last_of};

    ghost Value = { List Bool };

    ghost view = { λ s. last_of s.height s.held };

    ghost invariant = { λ s. s.height ≤ 67 };
}

impl Truths {
    /// No truth values.
    pub fn new() -> Self
        ensures { result ≡ [] }
    {
        Truths {
            held: [true; 67],
            height: 0,
        }
    }

    /// Puts one more on it.
    pub fn push(&mut self, truth: bool)
        requires { length self.old < 67 }
        ensures { self.new ≡ truth ∷ self.old }
    {
        self.held[self.height] = truth;
        self.height += 1;
    }

    /// Takes the last one off.
    pub fn pop(&mut self) -> bool
        requires { 0 < length self.old }
        ensures value { result ≡ top self.old }
        ensures left { self.new ≡ rest self.old }
        ensures room { length self.new < 67 }
    {
        self.height -= 1;
        self.held[self.height]
    }

    /// The last one; of none at all, true.
    pub fn top(&self) -> bool
        ensures { result ≡ top self.now }
    {
        if self.height == 0 {
            true
        } else {
            self.held[self.height - 1]
        }
    }
}
