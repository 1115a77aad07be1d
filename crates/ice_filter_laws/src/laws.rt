//! What the lexer reads, and the parser above it.

ghost use Rattle.ice_filter_laws.specs.Filters.{ReadsWhatIsWritten, RefusesWhereItStops, RefusesTooMuch};
ghost use Rattle.ice_filter_laws.specs.Filters.{RefusesNothingElse, KeepsTheParts};
ghost use Rattle.ice_filter_laws.specs.Lying.{AreSpelled, BadIsNoSpelling};

/// The lexer: a text whose tokens are all good is blanks and spellings in turn, each token at the offset where its
/// spelling begins, and none could be read longer; a bad token is where no spelling begins.
pub fn tokens_are_spelled()
    ensures good { AreSpelled }
    ensures bad { BadIsNoSpelling }
{}

/// What a text is read as, by its bytes and the grammar alone: the filter that is written; or the refusal at the first
/// place where no filter goes on, since a token's spelling stands there that can't, or none begins, or the text ends;
/// or too big, where a token passes a limit first.
pub fn texts_say_filters()
    ensures filter { ReadsWhatIsWritten }
    ensures stops { RefusesWhereItStops }
    ensures too_big { RefusesTooMuch }
    ensures others { RefusesNothingElse }
{}

/// What is kept of a text are the parts of the filter that it is read as.
pub fn texts_are_kept_as_parts()
    ensures { KeepsTheParts }
{}
