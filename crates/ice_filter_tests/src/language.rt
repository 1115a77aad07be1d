//! Texts of filters: how they are shown, and why they are refused.

use crate::cases::expect;
use ice_filter::parse;
use std::alloc::Global;

/// Texts, each with the text that its filter is shown as, or with its first fault.
const TEXTS: &str = r#"c = 1 or => Syntax(8)
9c = 1 => Syntax(0)
c = 9223372036854775808 => Syntax(4)
c = -9223372036854775808 => c = -9223372036854775808
c = 007 or c = -0 => c = 7 or c = 0
c in () => Syntax(6)
 => Syntax(0)
c = 1 and or c = 2 => Syntax(10)
OR = 1 => OR = 1
"c" is not null => c is not null
"or" = 1 and "a""b"."null" is null => "or" = 1 and "a""b"."null" is null
a.b starts with 'it''s' and (x in (1,2) or y not in (x'0aFF')) => a.b starts with 'it''s' and (x in (1, 2) or y not in (x'0aff'))
a = 'x => Syntax(4)
a = x'0g' => Syntax(4)
a = x'' => a = x''
größe = 1 => Syntax(2)
"größe" = 'größe' => "größe" = 'größe'
(a=1)and((b<=2or c!=-7)) => a = 1 and (b <= 2 or c != -7)
(a=1 and b>2)or(c>=3) => a = 1 and b > 2 or c >= 3
true or(false or true) => true or (false or true)
(true and false)and(true and true) => true and false and (true and true)
"a"."or" . "9" is null => a."or"."9" is null
"a""b" is not null => "a""b" is not null
"" in(1,007,-0) => "" in (1, 7, 0)
c not in(x'0aFF','it''s') => c not in (x'0aff', 'it''s')
c starts with'größe' => c starts with 'größe'
"And" is null => And is null"#;

/// One with all that separates.
const BLANKS: &str = " \t\r\nc\n=\r1\t => c = 1";

/// What a text is shown as, or its fault.
fn shown(alloc: Global, text: &str) -> Option<String> {
    match parse(alloc, text) {
        Ok(filter) => format!(in alloc; "{filter}").ok(),
        Err(fault) => format!(in alloc; "{fault:?}").ok(),
    }
}

fn is_right(alloc: Global, line: &str) -> Option<bool> {
    let (text, wanted) = line.split_once(" => ")?;
    Some(shown(alloc, text)?.as_str() == wanted)
}

#[test]
fn texts(rt: HostRuntime) {
    expect(&rt, is_right(rt.alloc(), BLANKS) == Some(true), BLANKS);
    for line in TEXTS.lines() {
        expect(&rt, is_right(rt.alloc(), line) == Some(true), line);
    }
}
