//! From the lines of a hint to what a terminal is sent.

ghost use Rattle.std.specs.Prelude.{◌≡◌, ◌<◌, ◌++◌, OnOk, IfOk, All};
ghost use Rattle.icescan_progress.specs.Hints.{AppendsPlain, IsPlain, is_control, shown, shown_byte, shown_line};
ghost use Rattle.icescan_print.specs.Escaping.{hex_digit};

use contract_words::Text;
use icescan_print::{Sink, write_all};
use std::alloc::{AllocError, Global};

/// Whether a terminal could take the byte for a command.
fn is_control(byte: u8) -> bool
    ensures { result ≡ is_control byte }
{
    byte < b' ' || byte == 127
}

/// A hexadecimal digit, in lower case.
fn hex_digit(n: u8) -> u8
    requires { n < 16 }
    ensures { result ≡ hex_digit n }
{
    if n < 10 { b'0' + n } else { b'a' - 10 + n }
}

/// Adds a byte as a terminal is shown it.
fn push_shown(text: &mut Vec<u8>, byte: u8) -> Result<(), AllocError>
    ensures { OnOk result (text.new.items ≡ text.old.items ++ shown_byte byte) }
{
    if is_control(byte) {
        text.extend_from_slice(&[b'\\', b'x', hex_digit(byte / 16), hex_digit(byte % 16)])?;
    } else {
        text.push(byte)?;
    }
    Ok(())
}

/// Adds a line and its line feed.
fn push_line(text: &mut Vec<u8>, line: &[u8]) -> Result<(), AllocError>
    ensures { OnOk result (text.new.items ≡ text.old.items ++ shown_line line.now) }
{
    'bytes: for byte in line {
        push_shown(text, *byte)?;
    }
    text.push(b'\n')?;
    Ok(())
}

/// The lines as a terminal is sent them.
fn shown(alloc: Global, lines: &[Text]) -> Result<Vec<u8>, AllocError>
    ensures text { IfOk result (λ text. text.items ≡ shown lines.now) }
    ensures plain { IfOk result (λ text. All IsPlain text.items) }
{
    let mut text = Vec::new(alloc);
    'lines: for line in lines {
        push_line(&mut text, line.as_bytes())?;
    }
    Ok(text)
}

/// Writes lines, as far as they can be written: no control character stands in them but the line feeds at their ends.
/// Nothing is written where memory runs out.
pub fn put_lines<S: Sink>(alloc: Global, lines: &[Text], errors: &mut S)
    ensures plain { AppendsPlain (S.taken errors.old) (S.taken errors.new) }
    ensures still { S.may_fail errors.new → S.may_fail errors.old }
{
    if let Ok(text) = shown(alloc, lines) {
        let _ = write_all(errors, &text);
    }
}
