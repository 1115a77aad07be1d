//! The text of a line that is shown.

ghost use Rattle.std.specs.Prelude.{◌≡◌, ◌++◌, OnOk, IfOk};
ghost use Rattle.icescan_print.specs.Pieces.{named_number};
ghost use Rattle.icescan_progress.specs.ProgressTexts.{IsShown, erasure, progress_text};

use icescan_print::put_named_number;
use std::alloc::{AllocError, Global};

/// What erases the line that is shown.
pub fn erasure() -> &'static [u8]
    ensures text { result.now ≡ erasure }
    ensures shown { IsShown result.now }
{
    b"\r\x1b[K"
}

fn push_number(text: &mut Vec<u8>, name: &[u8], n: u64) -> Result<(), AllocError>
    ensures { OnOk result (text.new.items ≡ text.old.items ++ named_number name.now n) }
{
    put_named_number(text, name, n).map_err(|_| AllocError)
}

/// The bytes of the line.
fn line_bytes(alloc: Global, files: u64, bytes: u64) -> Result<Vec<u8>, AllocError>
    ensures { IfOk result (λ text. text.items ≡ progress_text files bytes) }
{
    let mut text = Vec::new(alloc);
    push_number(&mut text, b"\rread so far: ", files)?;
    push_number(&mut text, b" files, ", bytes / 1_000_000)?;
    text.extend_from_slice(b" MB\x1b[K")?;
    Ok(text)
}

/// The line that tells of so many files and bytes that were read, in place of any that is shown. It has no control
/// characters but the carriage return at its front and the sequence at its end, which erases what stands behind it.
pub fn progress_text(alloc: Global, files: u64, bytes: u64) -> Result<Vec<u8>, AllocError>
    ensures text { IfOk result (λ text. text.items ≡ progress_text files bytes) }
    ensures shown { IfOk result (λ text. IsShown text.items) }
{
    let text = line_bytes(alloc, files, bytes)?;
    Ok(text)
}
