//! Schemas' texts, what they name, and the limits of a tree.

use crate::cases::expect;
use crate::look::looks;
use avro_schema::{Schema, SchemaFault};
use std::alloc::{AllocError, Global};
use std::test::*;
use std::time::{Duration, Instant};

mod cases;
mod samples;

use cases::{FIRST_FAULTS, NAMES, NAMESPACES, PARTS};
use samples::OF_ICEBERG;

/// Whether a text names a tree that looks like this, or is refused with this fault.
fn names_tree(alloc: Global, text: &str, look: &str) -> bool {
    match Schema::from_json(alloc, text.as_bytes()) {
        Ok(schema) => looks(alloc, &schema, look),
        Err(fault) => looks(alloc, &fault, look),
    }
}

#[test]
fn texts(rt: HostRuntime) {
    for lines in [PARTS, NAMES, NAMESPACES, FIRST_FAULTS, OF_ICEBERG] {
        for line in lines.lines() {
            if let Some((text, look)) = line.split_once(" => ") {
                expect(&rt, names_tree(rt.alloc(), text, look), line);
            }
        }
    }
}

/// r0 is a fixed; each record defines the one before in its first field, and names it in its second.
fn doubled(alloc: Global, count: u32) -> Result<String, AllocError> {
    let mut text = String::from_str(alloc, r#"{"type":"fixed","name":"r0","size":1}"#)?;
    for k in 1..=count {
        let before = k - 1;
        text = format!(in alloc;
            r#"{{"type":"record","name":"r{k}","fields":[{{"name":"a","type":{text}}},{{"name":"b","type":"r{before}"}}]}}"#
        )?;
    }
    Ok(text)
}

/// A record in a namespace of so many bytes, with so many records in it, and a union that names each of them again.
fn in_long_namespace(alloc: Global, length: usize, count: u32) -> Result<String, AllocError> {
    let space = "n".repeat(alloc, length)?;
    let mut text = format!(in alloc;
        r#"{{"type":"record","name":"top","namespace":"{space}","fields":["#
    )?;
    for k in 0..count {
        let field = format!(in alloc;
            r#"{{"name":"f","type":{{"type":"record","name":"r{k}","fields":[]}}}},"#
        )?;
        text.push_str(&field)?;
    }
    text.push_str(r#"{"name":"u","type":["int""#)?;
    for k in 0..count {
        let name = format!(in alloc; r#","r{k}""#)?;
        text.push_str(&name)?;
    }
    text.push_str("]}]}")?;
    Ok(text)
}

/// Whether a text is refused with this fault, or names a tree where none is given, within half a second.
fn is_soon(rt: &HostRuntime, text: &str, want: Option<SchemaFault>) -> Option<bool> {
    let start = Instant::now(rt).ok()?;
    let fault = Schema::from_json(rt.alloc(), text.as_bytes()).err();
    Some(fault == want && start.elapsed(rt).ok()? < Duration::from_millis(500))
}

/// A tree of 4,294,967,295 nodes is too big.
fn is_seen_too_big(rt: &HostRuntime) -> Option<bool> {
    is_soon(
        rt,
        &doubled(rt.alloc(), 31).ok()?,
        Some(SchemaFault::TooBig),
    )
}

/// No name of a long namespace stands twice.
fn is_seen_unique(rt: &HostRuntime) -> Option<bool> {
    is_soon(
        rt,
        &in_long_namespace(rt.alloc(), 200_000, 2000).ok()?,
        None,
    )
}

#[test]
fn large_texts(rt: HostRuntime) {
    expect(&rt, is_seen_too_big(&rt) == Some(true), "a big tree");
    expect(&rt, is_seen_unique(&rt) == Some(true), "a long namespace");
}
