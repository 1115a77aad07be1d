//! What of a run is shown beside its answer, by its words and by which of the program's ends are terminals; and whether
//! its words refuse links.

ghost use Rattle.std.specs.Prelude.{◌≡◌, map, string_bytes};
ghost use Rattle.icescan_progress.specs.Asked.{asks_hints, has_word, hints, refuses_links, shows_progress};

/// Which of the program's ends are terminals.
#[derive(Clone, Copy, Debug)]
pub struct Terminals {
    pub input: bool,
    pub errors: bool,
}

/// Whether one of the words is this one.
fn has_word(words: &[String], wanted: &str) -> bool
    ensures { result ≡ has_word wanted.now (map string_bytes words.now) }
{
    words.iter().any(|word| word.as_str() == wanted)
}

/// Whether one of the words is `--explain`.
fn asks_hints(words: &[String]) -> bool
    ensures { result ≡ asks_hints (map string_bytes words.now) }
{
    has_word(words, "--explain")
}

/// Whether what is read is shown: where standard error is a terminal, and no word is `--quiet`.
pub fn shows_progress(terminals: Terminals, words: &[String]) -> bool
    ensures { result ≡ shows_progress terminals.errors (map string_bytes words.now) }
{
    terminals.errors && !has_word(words, "--quiet")
}

/// Whether a hint stands after the line of a fault.
pub fn shows_hints(terminals: Terminals, words: &[String]) -> bool
    ensures { result ≡ hints terminals.errors (map string_bytes words.now) }
{
    terminals.errors || asks_hints(words)
}

/// Whether no file is read or put through a link below a folder.
pub fn refuses_links(words: &[String]) -> bool
    ensures { result ≡ refuses_links (map string_bytes words.now) }
{
    has_word(words, "--no-links")
}
