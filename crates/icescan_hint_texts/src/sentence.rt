//! What a refusal says.

/// What a refusal says, in the words of docs/REFUSALS.md, with which `tools/trials/refusals.py` compares them. Lines
/// are short enough for a terminal.
#[derive(Clone, Copy)]
pub struct Sentence {
    /// Its number and name.
    pub name: &'static str,
    /// What is wrong.
    pub wrong: &'static str,
    /// What to do; none where a refusal inside this one says it.
    pub advice: Option<&'static str>,
}

/// What want of memory says, wherever it came from.
pub const MEMORY: Sentence = Sentence {
    name: "Memory",
    wrong: "memory ran out",
    advice: Some("give the process more memory"),
};
