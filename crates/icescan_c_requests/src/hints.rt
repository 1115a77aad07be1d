//! The hint of a refused filter.

ghost use Rattle.std.specs.Prelude.{◌≡◌, ◌++◌, OnOk, IfOk};
ghost use Rattle.icescan_c_requests.specs.Hints.{IsHint, plain_byte, plain_line, plain_lines};

use contract_words::{Items, Text};
use ice_filter::FilterFault;
use ice_meta::Metadata;
use icescan_hint_texts::{Hint, hint_of_filter};
use icescan_text::Request;
use std::alloc::{AllocError, Global};

fn plain_byte(byte: u8) -> u8
    ensures { result ≡ plain_byte byte }
{
    if byte < b' ' || byte == 127 {
        b'?'
    } else {
        byte
    }
}

/// Adds a line and its line feed.
fn push_line(text: &mut Vec<u8>, line: &[u8]) -> Result<(), AllocError>
    ensures { OnOk result (text.new.items ≡ text.old.items ++ plain_line line.now) }
{
    'bytes: for byte in line {
        text.push(plain_byte(*byte))?;
    }
    text.push(b'\n')?;
    Ok(())
}

/// Lines, as a terminal may be sent them.
fn plain_lines(alloc: Global, lines: &[Text]) -> Result<Items<u8>, AllocError>
    ensures { IfOk result (λ text. text ≡ plain_lines lines.now) }
{
    let mut text = Vec::new(alloc);
    'lines: for line in lines {
        push_line(&mut text, line.as_bytes())?;
    }
    Ok(Items::from_vec(text))
}

/// The hint of a filter's text, of the table whose metadata these are the bytes of; none where these can't be read.
fn hint_of(
    alloc: Global,
    metadata: &[u8],
    request: &Request,
    text: &Text,
    fault: FilterFault,
) -> Result<Hint, AllocError> {
    match Metadata::read(alloc, metadata) {
        Ok(metadata) => {
            let schema = metadata.schema_for(&request.target);
            let hint = hint_of_filter(alloc, text.as_str(), schema, fault);
            drop(metadata);
            hint
        }
        Err(fault) => {
            drop(fault);
            Ok(Hint::new(alloc))
        }
    }
}

/// The lines that the program tells of a request's filter that it refuses so, of the table whose metadata these are the
/// bytes of.
pub fn filter_hint(
    alloc: Global,
    metadata: &[u8],
    request: &Request,
    fault: FilterFault,
) -> Result<Items<u8>, AllocError>
    ensures { IfOk result IsHint }
{
    let hint = match &request.filter {
        Some(text) => hint_of(alloc, metadata, request, text, fault)?,
        None => Hint::new(alloc),
    };
    plain_lines(alloc, hint.lines())
}
