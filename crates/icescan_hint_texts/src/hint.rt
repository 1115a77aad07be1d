//! The lines of a hint.

use crate::sentence::Sentence;
use contract_words::Text;
use std::alloc::{AllocError, Global};

/// The most characters of a line that breaks at blanks.
const WIDTH: usize = 80;

/// How far the lines after the first stand in.
const MARGIN: usize = 3;

/// The lines of a hint, in their order.
#[derive(Drop)]
pub struct Hint {
    lines: Vec<Text>,
}

impl Hint {
    /// No lines.
    pub fn new(alloc: Global) -> Hint {
        Hint {
            lines: Vec::new(alloc),
        }
    }

    /// The lines so far.
    pub fn lines(&self) -> &[Text] {
        self.lines.as_slice()
    }

    /// Adds a line.
    pub fn line(&mut self, line: String) -> Result<(), AllocError> {
        self.lines.push(Text::from_string(line))?;
        Ok(())
    }

    /// Adds a text after a word that says what it is, in lines that break at blanks. They are as long as a terminal has
    /// columns, but for a word that is longer.
    fn text(&mut self, alloc: Global, lead: &str, text: &str) -> Result<(), AllocError> {
        let mut line = String::from_str(alloc, lead)?;
        let mut margin = lead.len();
        let mut used = margin;
        for word in text.split(' ') {
            let length = word.chars().count();
            if used > margin && length >= WIDTH.saturating_sub(used) {
                let whole = std::mem::replace(&mut line, String::from_str(alloc, "   ")?);
                self.line(whole)?;
                margin = MARGIN;
                used = MARGIN;
            }
            line.push(' ')?;
            line.push_str(word)?;
            used = used.saturating_add(length).saturating_add(1);
        }
        self.line(line)
    }

    /// Adds what a refusal says.
    pub fn say(&mut self, alloc: Global, sentence: &Sentence) -> Result<(), AllocError> {
        let name = format!(in alloc; "  {}:", sentence.name)?;
        let wrong = joined(alloc, sentence.wrong)?;
        self.text(alloc, name.as_str(), wrong.as_str())
    }

    /// Adds what to do.
    pub fn advise(&mut self, alloc: Global, sentence: &Sentence) -> Result<(), AllocError> {
        match sentence.advice {
            Some(advice) => {
                let advice = joined(alloc, advice)?;
                self.text(alloc, "  to do:", advice.as_str())
            }
            None => Ok(()),
        }
    }

    /// Adds what of the table or of the words the refusal is about.
    pub fn here(&mut self, alloc: Global, text: String) -> Result<(), AllocError> {
        self.tell(alloc, text.as_str())
    }

    /// The same of a text that is lent.
    pub fn tell(&mut self, alloc: Global, text: &str) -> Result<(), AllocError> {
        self.text(alloc, "  here:", text)
    }

    /// Adds what is to be known of an answer.
    pub fn note(&mut self, alloc: Global, text: String) -> Result<(), AllocError> {
        self.text(alloc, "note:", text.as_str())
    }
}

/// The lines of a text as one, with blanks between them.
fn joined(alloc: Global, text: &str) -> Result<String, AllocError> {
    let mut line = String::new(alloc);
    for part in text.lines() {
        if !line.is_empty() {
            line.push(' ')?;
        }
        line.push_str(part)?;
    }
    Ok(line)
}

/// A name or a path of the table, or a word of the command line, between backquotes. Control characters that take two
/// bytes stand as the digits of these.
pub fn quoted(alloc: Global, name: &str) -> Result<String, AllocError> {
    let mut text = String::from_str(alloc, "`")?;
    for c in name.chars() {
        if c >= '\u{80}' && c <= '\u{9f}' {
            let byte = u32::from(c);
            write!(text, "\\xc2\\x{byte:02x}")?;
        } else {
            text.push(c)?;
        }
    }
    text.push('`')?;
    Ok(text)
}

/// Names between backquotes, with `and` before the last.
pub fn quoted_list(alloc: Global, names: &[String]) -> Result<String, AllocError> {
    let mut text = String::new(alloc);
    for (place, name) in names.iter().enumerate() {
        if place > 0 {
            let last = place + 1 == names.len();
            text.push_str(if last { " and " } else { ", " })?;
        }
        text.push_str(quoted(alloc, name.as_str())?.as_str())?;
    }
    Ok(text)
}
