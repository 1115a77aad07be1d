//! Laws of envelopes. Their functions do nothing.

ghost use Rattle.std.specs.Prelude.{◌≡◌, ◌≢◌, ℕ, List, Ok, Err};
ghost use Rattle.ice_state_envelopes.specs.Envelopes.{Part, Parts, Rise, AreParts, parts_at};
ghost use Rattle.ice_state_envelopes.specs.Joins.{union, joined, first_two_first, last_two_first};
ghost use Rattle.ice_state_envelopes.specs.Joins.{body_at, or_else, Agree};
ghost use Rattle.ice_state_envelopes.specs.Trees.{Tree, bytes_of, leaves, first_body, IsMade};

use crate::fault::EnvelopeFault;

/// What is joined has of each row the body of the first that has one. Joining is associative, of itself changes
/// nothing, and commutes where both agree on the rows that both have.
pub fn joins_are_unions()
    ensures bodies { (end row : ℕ) (ps qs : List Part) → Rise 0 end ps → Rise 0 end qs →
        body_at row (union ps qs) ≡ or_else (body_at row ps) (body_at row qs) }
    ensures associative { (a b c : Parts) → AreParts a → AreParts b → AreParts c →
        first_two_first a b c ≡ last_two_first a b c }
    ensures idempotent { (a : Parts) → AreParts a → joined a a ≡ Ok a }
    ensures commutative { (a b : Parts) → AreParts a → AreParts b → Agree a b → joined a b ≡ joined b a }
{}

/// What opens has a name of 32 bytes, and sections in rising order of their rows, so that each row stands once.
pub fn opened_is_in_order()
    ensures { (bytes : List ℕ) (p : Parts) → parts_at bytes ≡ Ok p → AreParts p }
{}

/// States that were joined as bytes, in whatever tree, have of each row the body of the first leaf that has it.
pub fn trees_of_joins()
    ensures { (tree : Tree) (p : Parts) (row : ℕ) → IsMade tree → parts_at (bytes_of tree) ≡ Ok p →
        body_at row p.sections ≡ first_body row (leaves tree) }
{}

/// No fault of bytes or of a join is want of memory: `open` and `join` answer `Memory` for want of it alone.
pub fn no_fault_is_memory()
    ensures opening { (bytes : List ℕ) → parts_at bytes ≢ Err EnvelopeFault.Memory }
    ensures joining { (p q : Parts) → joined p q ≢ Err EnvelopeFault.Memory }
{}
