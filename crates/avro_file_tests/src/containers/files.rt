//! Whole files, and a schema that is kept for the next file.

use super::libraries::{C, GO, JAVA, PYTHON, Sample};
use super::*;
use avro_file::KnownSchema;
use avro_schema::Schema;

/// The longs 64 and -1.
const LONGS: Sample = Sample {
    bytes: b"Obj\x01\x02\x16avro.schema\x0c\"long\"\x00\
\x00\x01\x02\x03\x04\x05\x06\x07\x08\x09\x0a\x0b\x0c\x0d\x0e\x0f\x04\x06\x80\x01\x01\
\x00\x01\x02\x03\x04\x05\x06\x07\x08\x09\x0a\x0b\x0c\x0d\x0e\x0f",
    rows: "Long(64)\nLong(-1)\nend\nend",
};

/// The same, cut within its last marker.
const CUT: Sample = Sample {
    bytes: b"Obj\x01\x02\x16avro.schema\x0c\"long\"\x00\
\x00\x01\x02\x03\x04\x05\x06\x07\x08\x09\x0a\x0b\x0c\x0d\x0e\x0f\x04\x06\x80\x01\x01\
\x00\x01\x02\x03",
    rows: "Truncated(46)",
};

const OTHER: Sample = Sample {
    bytes: b"Obj\x02",
    rows: "NotAvro",
};

/// Files by hand, and those of libraries.
#[test]
fn files(rt: HostRuntime) {
    for sample in [&LONGS, &CUT, &OTHER, &C, &GO, &JAVA, &PYTHON] {
        expect(
            &rt,
            gives(rt.alloc(), sample.bytes, sample.rows),
            sample.rows,
        );
    }
}

/// The int 3.
const INTS: &[u8] = b"Obj\x01\x02\x16avro.schema\x0a\"int\"\x00\
\x00\x01\x02\x03\x04\x05\x06\x07\x08\x09\x0a\x0b\x0c\x0d\x0e\x0f\x02\x02\x06\
\x00\x01\x02\x03\x04\x05\x06\x07\x08\x09\x0a\x0b\x0c\x0d\x0e\x0f";

/// Whether a file that is opened beside the schema of another gives these lines and, if so, has that schema.
fn gives_beside(alloc: Global, known: &KnownSchema, bytes: &[u8], lines: &str) -> Option<bool> {
    let file = Container::open_with(alloc, known, bytes).ok()?;
    let has_schema = file.has_schema(known);
    let mut objects = file.objects();
    if are_next(alloc, &mut objects, lines) {
        Some(has_schema)
    } else {
        None
    }
}

/// The schema of a file, kept.
fn kept_schema(alloc: Global, bytes: &[u8]) -> Option<KnownSchema> {
    let file = Container::open(alloc, bytes).ok()?;
    file.keep_schema(alloc).ok()
}

/// A schema that is kept of one file knows that of another where its text is the same.
fn is_known(alloc: Global) -> bool {
    match kept_schema(alloc, LONGS.bytes) {
        Some(known) => {
            gives_beside(alloc, &known, LONGS.bytes, LONGS.rows) == Some(true)
                && gives_beside(alloc, &known, INTS, "Int(3)\nend") == Some(false)
        }
        None => false,
    }
}

#[test]
fn known_schema(rt: HostRuntime) {
    expect(&rt, is_known(rt.alloc()), "a known schema");
}
