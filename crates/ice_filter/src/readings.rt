//! Laws of what texts are read as.

ghost use Rattle.std.specs.Prelude.{◌≡◌, ℕ, List, Result, Ok, ◌∷◌, ◌++◌};
ghost use Rattle.ice_filter.specs.declared.fault.FilterFault.{FilterFault};
ghost use Rattle.ice_filter.specs.declared.predicate.Predicate.{Predicate};
ghost use Rattle.ice_filter.specs.declared.token.Token.{Token};
ghost use Rattle.ice_filter.specs.declared.token.Token.TheVariants as token;
ghost use Rattle.ice_filter.specs.Grammar.{Written, Says, Stands, tokens_in, unit, both, either};
ghost use Rattle.ice_filter.specs.Parsing.{IsReadAs, filter_of};
ghost use Rattle.ice_filter.specs.Texts.{shown};
ghost use Rattle.ice_filter.specs.Trees.{Tree};

/// A text is one thing: one filter, or one refusal.
pub fn texts_have_one_reading()
    ensures { (text : List ℕ) (one other : Result (Tree Predicate) FilterFault) → IsReadAs text one → IsReadAs text other →
        one ≡ other }
{}

/// The same tokens say one filter, parentheses and all.
pub fn tokens_say_one_filter()
    ensures { (tokens : List Token) (one other : Written) → Says tokens one → Says tokens other → one ≡ other }
{}

/// `a or b and c` is `a or (b and c)`.
pub fn and_binds_closer_than_or()
    ensures { (a b c says : Written) → Stands unit a → Stands unit b → Stands unit c →
        Says (tokens_in a ++ token.Or ∷ (tokens_in b ++ token.And ∷ tokens_in c)) says → says ≡ either a (both b c) }
{}

/// A filter's text is one of its texts: what a text is read as is shown as a text that is read as the same filter.
pub fn shown_filters_are_read()
    ensures { (text : List ℕ) (filter : Tree Predicate) → filter_of text ≡ Ok filter → filter_of (shown filter) ≡ Ok filter }
{}
