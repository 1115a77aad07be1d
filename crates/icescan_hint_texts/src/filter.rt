//! The words of refusals of filters.

use crate::sentence::{MEMORY, Sentence};
use ice_filter::FilterFault;

const SYNTAX: Sentence = Sentence {
    name: "F1 Syntax",
    wrong: "the token at this byte of the filter, from 0, can't stand there; or the text ends too early, and
then it is its length",
    advice: Some(
        "`icescan plan --help` has the language; put texts in single quotes, names that are no plain
words in double quotes",
    ),
};

const NO_SUCH_COLUMN: Sentence = Sentence {
    name: "F2 NoSuchColumn",
    wrong: "a name is no column of the schema",
    advice: Some(
        "a tag and a snapshot's id are asked with the names of that snapshot's own schema, anything else
with the current ones",
    ),
};

const WRONG_LITERAL: Sentence = Sentence {
    name: "F3 WrongLiteral",
    wrong: "a column doesn't take the literal: its kind is another, or an int or date column has no number
so large, or a text is no uuid",
    advice: Some("dates are days and times microseconds since 1970-01-01 00:00 UTC"),
};

const NOT_COMPARABLE: Sentence = Sentence {
    name: "F4 NotComparable",
    wrong: "the column is a float, double, decimal, struct, list or map; or an order is asked of a uuid, or
`starts with` of another than a string",
    advice: Some(
        "plan with `--relax`, which asks the rest of the filter; and filter the rows that are read",
    ),
};

const TOO_BIG: Sentence = Sentence {
    name: "F5 TooBig",
    wrong: "over 1,000 comparisons, 32 open parentheses or 1,000 literals in one list",
    advice: Some("split the filter"),
};

/// What a refusal of a filter says.
pub fn of_filter(fault: FilterFault) -> Sentence {
    match fault {
        FilterFault::Syntax(_) => SYNTAX,
        FilterFault::NoSuchColumn => NO_SUCH_COLUMN,
        FilterFault::WrongLiteral => WRONG_LITERAL,
        FilterFault::NotComparable => NOT_COMPARABLE,
        FilterFault::TooBig => TOO_BIG,
        FilterFault::Memory => MEMORY,
    }
}
