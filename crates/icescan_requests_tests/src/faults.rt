//! The printed lines and statuses of faults that no line of the transcript meets.

use avro_file::AvroFault;
use avro_schema::SchemaFault;
use contract_words::Text;
use ice_catalog_changes::PrepareFault;
use ice_filter::FilterFault;
use ice_manifest_reading::{ListFault, ManifestFault};
use ice_meta::MetaFault;
use ice_state::{FinishFault, ScanFault};
use icescan_text::{ChangeFault, DrillFault, RunFault, report};
use std::alloc::Global;

/// A fault that names no path, its line behind the program's name, and its status.
type Told = (RunFault, &'static str, u8);

const OF_MEMORY: [Told; 7] = [
    (RunFault::Memory, "Memory", 5),
    (RunFault::Change(ChangeFault::Memory), "Memory", 5),
    (RunFault::Metadata(MetaFault::Memory), "M10 Memory", 5),
    (RunFault::Filter(FilterFault::Memory), "F6 Memory", 5),
    (RunFault::Prepare(PrepareFault::Memory), "K9 Memory", 5),
    (
        RunFault::List(ListFault::Avro(AvroFault::Memory)),
        "N1 Avro V10 Memory",
        5,
    ),
    (
        RunFault::List(ListFault::Avro(AvroFault::Schema(SchemaFault::Memory))),
        "N1 Avro V9 Schema S7 Memory",
        5,
    ),
];

const OF_TABLES: [Told; 4] = [
    (
        RunFault::Scan(ScanFault::NoSuchSpec(-2147483648)),
        "X1 NoSuchSpec -2147483648",
        1,
    ),
    (
        RunFault::Prepare(PrepareFault::TooManyRows),
        "K11 TooManyRows",
        1,
    ),
    (RunFault::List(ListFault::TooManyRows), "N11 TooManyRows", 1),
    (RunFault::Drill(DrillFault::Conflict), "Conflict", 4),
];

/// A path with bytes that are escaped. It stands as `*` in the lines of `WITH_PATH`.
const PATH: &str = "a b\\\t\u{7f}é";

const ESCAPED: &str = r"a\x20b\x5c\x09\x7fé";

/// The fault of a line of `WITH_PATH`.
fn with_path(line: usize, path: Text) -> RunFault {
    match line {
        0 => RunFault::Drill(DrillFault::Lost(path)),
        1 => RunFault::Finish(FinishFault::Missing(path)),
        _ => RunFault::Finish(FinishFault::Bad(path, ManifestFault::Memory)),
    }
}

static WITH_PATH: [(&str, u8); 3] = [
    ("Lost *", 1),
    ("Z1 Missing *", 1),
    ("Z2 Bad * N10 Memory", 5),
];

/// Whether a fault prints the line of these parts behind the program's name, and ends with this status.
fn prints(alloc: Global, fault: &RunFault, parts: (&str, &str, &str), status: u8) -> bool {
    let mut errors = Vec::new(alloc);
    if report(fault, &mut errors) != status {
        return false;
    }
    let Some(printed) = errors.as_slice().strip_prefix(b"icescan: ") else {
        return false;
    };
    let Some(printed) = printed.strip_prefix(parts.0.as_bytes()) else {
        return false;
    };
    let Some(printed) = printed.strip_prefix(parts.1.as_bytes()) else {
        return false;
    };
    printed.strip_suffix(b"\n") == Some(parts.2.as_bytes())
}

/// Whether the fault of a line of `WITH_PATH` prints it, and ends with its status.
fn is_printed(alloc: Global, line: usize, text: &str, status: u8) -> bool {
    let Ok(path) = String::from_str(alloc, PATH) else {
        return false;
    };
    let Some((front, back)) = text.split_once('*') else {
        return false;
    };
    let fault = with_path(line, Text::from_string(path));
    prints(alloc, &fault, (front, ESCAPED, back), status)
}

#[test]
fn lines_with_a_path(rt: HostRuntime) {
    for (line, (text, status)) in WITH_PATH.iter().enumerate() {
        assert!(rt; is_printed(rt.alloc(), line, text, *status), "{text}");
    }
}

/// Whether all of these faults print their lines, and end with their statuses.
fn are_printed(alloc: Global, faults: &[Told]) -> bool {
    for (fault, line, status) in faults {
        if !prints(alloc, fault, (line, "", ""), *status) {
            return false;
        }
    }
    true
}

#[test]
fn lines_without_a_path(rt: HostRuntime) {
    assert!(rt; are_printed(rt.alloc(), &OF_MEMORY));
    assert!(rt; are_printed(rt.alloc(), &OF_TABLES));
}

/// Whether the fault says this sentence.
fn says(alloc: Global, fault: &RunFault, sentence: &str) -> bool {
    match format!(in alloc; "{fault}") {
        Ok(said) => said.as_str() == sentence,
        Err(_) => false,
    }
}

#[test]
fn sentences(rt: HostRuntime) {
    assert!(rt; says(rt.alloc(), &RunFault::Memory, "memory ran out"));
    assert!(rt; says(rt.alloc(), &RunFault::Input, "standard input can't be read"));
}
