//! Container files: vectors by hand from the specification, and files of Avro's own libraries.

use crate::cases::expect;
use crate::look::looks;
use avro_file::{AvroFault, Container, Objects};
use std::alloc::{AllocError, Global};
use std::test::*;

mod files;
pub mod libraries;
mod types;
mod values;

const MARKER: [u8; 16] = [0, 1, 2, 3, 4, 5, 6, 7, 8, 9, 10, 11, 12, 13, 14, 15];

/// The length of up to 63 bytes, as a file has it.
fn length(bytes: &[u8]) -> [u8; 1] {
    [bytes.len().min(63) as u8 * 2]
}

/// Magic number, metadata that name a schema, marker, and more bytes.
fn begun(alloc: Global, schema: &[u8], more: &[u8]) -> Result<Vec<u8>, AllocError> {
    [
        b"Obj\x01\x02\x16avro.schema".as_slice(),
        length(schema).as_slice(),
        schema,
        [0].as_slice(),
        MARKER.as_slice(),
        more,
    ]
    .concat(alloc)
}

/// A block of so many objects with this content.
fn block(alloc: Global, count: &[u8], content: &[u8]) -> Result<Vec<u8>, AllocError> {
    [
        count,
        length(content).as_slice(),
        content,
        MARKER.as_slice(),
    ]
    .concat(alloc)
}

/// A file of that block.
fn file(alloc: Global, schema: &[u8], count: &[u8], content: &[u8]) -> Result<Vec<u8>, AllocError> {
    let block = block(alloc, count, content)?;
    begun(alloc, schema, &block)
}

/// Whether a fault looks like this. A codec's fault is told by the codec's name alone.
fn is_fault(alloc: Global, fault: &AvroFault, look: &str) -> bool {
    match fault {
        AvroFault::Codec(name) => name.as_slice() == look.as_bytes(),
        _ => looks(alloc, fault, look),
    }
}

/// Whether an object that looks like this comes next, or this fault, or the `end`.
fn is_next(alloc: Global, objects: &mut Objects<'_, '_>, look: &str) -> bool {
    match objects.next() {
        Ok(Some(object)) => match object.datum(alloc) {
            Ok(datum) => looks(alloc, &datum, look),
            Err(_) => false,
        },
        Ok(None) => look == "end",
        Err(fault) => is_fault(alloc, &fault, look),
    }
}

/// Whether what comes next looks like these lines, each of one call.
fn are_next(alloc: Global, objects: &mut Objects<'_, '_>, lines: &str) -> bool {
    for look in lines.lines() {
        if !is_next(alloc, objects, look) {
            return false;
        }
    }
    true
}

/// Whether a file gives what looks like these lines, or is refused with this fault.
fn gives(alloc: Global, bytes: &[u8], lines: &str) -> bool {
    match Container::open(alloc, bytes) {
        Ok(file) => are_next(alloc, &mut file.objects(), lines),
        Err(fault) => is_fault(alloc, &fault, lines),
    }
}
