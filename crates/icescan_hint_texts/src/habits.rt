//! What stands at the fault of a filter that other languages take there, and how it is written here.

use crate::hint::Hint;
use std::alloc::{AllocError, Global};

/// A sign of another language: what is read of it, what stands at the fault, and what to write.
#[derive(Clone, Copy)]
struct Sign {
    before: &'static str,
    at: &'static str,
    advice: &'static str,
}

const EQUAL: &str = "equality is one `=`: `id = 42`";

const NOT_EQUAL: &str = "write `!=` for `<>`: `id != 42`";

const AND: &str = "write the word `and`: `id > 1 and id < 9`";

const OR: &str = "write the word `or`: `id < 1 or id > 9`";

const NOT: &str =
    "there is no `not (..)`: write `!=`, `not in`, `is not null` or the opposite comparison";

const BACKQUOTES: &str =
    "a name that is no plain word stands in double quotes, and not in backquotes: `\"post code\" = '0150'`";

const CURLY: &str = "quotes are the straight ones, `'` for texts and `\"` for names";

const SIGNS: [Sign; 20] = [
    Sign {
        before: "=",
        at: "=",
        advice: EQUAL,
    },
    Sign {
        before: "<",
        at: ">",
        advice: NOT_EQUAL,
    },
    Sign {
        before: "=",
        at: ">",
        advice: "write `>=` for `=>`: `id >= 42`",
    },
    Sign {
        before: "=",
        at: "<",
        advice: "write `<=` for `=<`: `id <= 42`",
    },
    Sign {
        before: "",
        at: "&",
        advice: AND,
    },
    Sign {
        before: "",
        at: "|",
        advice: OR,
    },
    Sign {
        before: "",
        at: "!",
        advice: NOT,
    },
    Sign {
        before: "",
        at: "`",
        advice: BACKQUOTES,
    },
    Sign {
        before: "",
        at: "\u{2018}",
        advice: CURLY,
    },
    Sign {
        before: "",
        at: "\u{2019}",
        advice: CURLY,
    },
    Sign {
        before: "",
        at: "\u{201a}",
        advice: CURLY,
    },
    Sign {
        before: "",
        at: "\u{201c}",
        advice: CURLY,
    },
    Sign {
        before: "",
        at: "\u{201d}",
        advice: CURLY,
    },
    Sign {
        before: "",
        at: "\u{201e}",
        advice: CURLY,
    },
    Sign {
        before: "",
        at: "\u{ab}",
        advice: CURLY,
    },
    Sign {
        before: "",
        at: "\u{bb}",
        advice: CURLY,
    },
    Sign {
        before: "",
        at: "*",
        advice: "a column stands alone on the left, and a value on the right: there is no arithmetic",
    },
    Sign {
        before: "",
        at: "+",
        advice: "a column stands alone on the left, and a value on the right: there is no arithmetic",
    },
    Sign {
        before: "",
        at: "%",
        advice: "a column stands alone on the left, and a value on the right: there is no arithmetic",
    },
    Sign {
        before: "",
        at: ";",
        advice: "a filter ends without `;`",
    },
];

/// A word of another language, in lower case, and what to write.
#[derive(Clone, Copy)]
struct Foreign {
    word: &'static str,
    advice: &'static str,
}

/// Words for patterns of texts, in lower case.
const PATTERNS: [&str; 4] = ["like", "ilike", "rlike", "contains"];

const NULL: &str = "a test for null is `cat is null` or `cat is not null`";

const DATE: &str =
    "a date is its days, and a time its microseconds, since 1970-01-01 00:00 UTC: `day >= 19790`";

const FOREIGN: [Foreign; 4] = [
    Foreign {
        word: "not",
        advice: NOT,
    },
    Foreign {
        word: "null",
        advice: NULL,
    },
    Foreign {
        word: "date",
        advice: DATE,
    },
    Foreign {
        word: "timestamp",
        advice: DATE,
    },
];

/// The words of the language.
const WORDS: [&str; 10] = [
    "and", "or", "not", "in", "is", "null", "starts", "with", "true", "false",
];

/// Whether a character may stand in a plain name.
fn is_of_name(c: char) -> bool {
    c.is_ascii_alphanumeric() || c == '_'
}

/// The word at the front of a text; empty where it begins with another character.
fn first_word(text: &str) -> &str {
    match text.split_once(|c: char| !is_of_name(c)) {
        Some((word, _)) => word,
        None => text,
    }
}

/// The word at the end of a text, before any blanks.
fn last_word(text: &str) -> &str {
    let text = text.trim_end();
    match text.rsplit_once(|c: char| !is_of_name(c)) {
        Some((_, word)) => word,
        None => text,
    }
}

/// Whether two words are the same in letters of either case.
fn is_word(word: &str, other: &str) -> bool {
    word.eq_ignore_ascii_case(other)
}

/// What to write for the sign at the fault.
fn of_sign(before: &str, rest: &str) -> Option<&'static str> {
    let sign = SIGNS.iter().find(|sign| before.ends_with(sign.before)
        && rest.starts_with(sign.at))?;
    Some(sign.advice)
}

/// What to write for the word of another language at the fault.
fn of_foreign(word: &str) -> Option<&'static str> {
    let foreign = FOREIGN.iter().find(|foreign| is_word(word, foreign.word))?;
    Some(foreign.advice)
}

/// The column that stands last in a text, before a `not`: its field path, where that is of plain names.
fn last_column(text: &str) -> Option<&str> {
    let text = text.trim_end();
    let text = text.strip_suffix(" not").unwrap_or(text).trim_end();
    let column = match text.rsplit_once(|c: char| !is_of_name(c) && c != '.') {
        Some((_, column)) => column,
        None => text,
    };
    if column.is_empty() {
        None
    } else {
        Some(column)
    }
}

/// What to write for a word of another language that asks of the column before it.
fn of_question(alloc: Global, before: &str, word: &str) -> Result<Option<String>, AllocError> {
    let column = last_column(before).unwrap_or("id");
    let advice = if is_word(word, "between") {
        format!(in alloc; "write two comparisons for `between`: `{column} >= 1 and {column} <= 9`")?
    } else if PATTERNS.iter().any(|pattern| is_word(word, pattern)) {
        format!(in alloc;
            "write `{column} starts with 'a'` for `{column} like 'a%'`; there are no other patterns"
        )?
    } else {
        return Ok(None);
    };
    Ok(Some(advice))
}

/// The word of the language that a word is but for its capital letters.
fn in_capitals(word: &str) -> Option<&'static str> {
    if WORDS.iter().any(|own| *own == word) {
        return None;
    }
    WORDS.iter().copied().find(|own| is_word(word, own))
}

/// Whether a value comes next: a comparison, a list or `starts with` is open.
fn wants_value(before: &str) -> bool {
    let before = before.trim_end();
    let after_sign = before.ends_with(|c: char| c == '=' || c == '<' || c == '>' || c == ',');
    after_sign || last_word(before) == "with"
}

/// Whether a column comes next.
fn wants_column(before: &str) -> bool {
    let last = last_word(before);
    before.trim_end().is_empty() || last == "and" || last == "or"
}

/// What to write for a value at the fault.
fn of_value(before: &str, rest: &str) -> Option<&'static str> {
    let digit = rest.starts_with(|c: char| c.is_ascii_digit());
    if wants_column(before) && (digit || rest.starts_with('-') || rest.starts_with('\'')) {
        return Some("the column stands on the left: `id = 42`");
    }
    if digit && wants_value(before) {
        return Some("a number has at most 64 bits");
    }
    if before.ends_with('\'') && rest.starts_with(|c: char| is_of_name(c)) {
        return Some("a quote within a text stands twice: `'it''s'`");
    }
    if rest.starts_with('.') && before.ends_with(|c: char| c.is_ascii_digit()) {
        return Some("numbers are whole");
    }
    if rest.starts_with('-') && before.ends_with(|c: char| c.is_ascii_digit()) {
        return Some(DATE);
    }
    if wants_value(before) && rest.starts_with('"') {
        return Some("a text stands in single quotes: `cat = 'books'`; double quotes are for names");
    }
    if rest.starts_with('\'') {
        return Some("the text that begins here has no closing quote");
    }
    None
}

/// What to write for a word at the fault.
fn add_word(hint: &mut Hint, alloc: Global, before: &str, word: &str) -> Result<bool, AllocError> {
    let last = last_word(before);
    let negates = is_word(last, "is") || is_word(last, "not");
    if is_word(word, "null") && !negates {
        hint.tell(alloc, NULL)?;
    } else if let Some(own) = in_capitals(word) {
        hint.here(
            alloc,
            format!(in alloc; "words of the language are in lower case: `{own}`")?,
        )?;
    } else if let Some(advice) = of_question(alloc, before, word)? {
        hint.here(alloc, advice)?;
    } else if let Some(advice) = of_foreign(word) {
        hint.tell(alloc, advice)?;
    } else if is_word(last, "not") && last != "not" {
        hint.tell(alloc, NOT)?;
    } else if is_word(last, "where") && !word.is_empty() {
        hint.tell(alloc, "a filter begins with a column, without `where`")?;
    } else if wants_value(before) && word.starts_with(|c: char| c.is_ascii_alphabetic()) {
        hint.tell(alloc, "a text stands in single quotes: `cat = 'books'`")?;
    } else {
        return Ok(false);
    }
    Ok(true)
}

/// Adds what to do where a filter ends too early that has one word alone: a shell cut it.
fn add_cut(hint: &mut Hint, alloc: Global, text: &str) -> Result<(), AllocError> {
    if text.is_empty() || text.chars().any(|c| !is_of_name(c) && c != '.') {
        return Ok(());
    }
    hint.here(
        alloc,
        format!(in alloc;
            "the filter is `{text}` alone: a shell splits it at blanks; put it in quotes, as `--filter \"{text} = 42\"`"
        )?,
    )
}

/// Adds how that is written which stands at the fault of a filter, where another language has it there.
pub fn add_habit(
    hint: &mut Hint,
    alloc: Global,
    text: &str,
    offset: usize,
) -> Result<(), AllocError> {
    let Some((before, rest)) = text.split_at_checked(offset) else {
        return Ok(());
    };
    if rest.is_empty() && in_capitals(text).is_none() {
        return add_cut(hint, alloc, text);
    }
    let word = if rest.is_empty() {
        text
    } else {
        first_word(rest)
    };
    if add_word(hint, alloc, before, word)? {
        return Ok(());
    }
    match of_sign(before, rest) {
        Some(advice) => hint.tell(alloc, advice),
        None => match of_value(before, rest) {
            Some(advice) => hint.tell(alloc, advice),
            None => Ok(()),
        },
    }
}
