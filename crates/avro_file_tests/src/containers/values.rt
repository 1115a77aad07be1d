//! Values of each kind of schema.

use super::*;

const ARRAY: &[u8] = b"{\"type\":\"array\",\"items\":\"long\"}";

const NULLS: &[u8] = b"{\"type\":\"array\",\"items\":\"null\"}";

const KINDS: &[u8] = b"{\"type\":\"enum\",\"name\":\"e\",\"symbols\":[\"a\",\"b\"]}";

const UNION: &[u8] = b"[\"null\",\"long\"]";

const FIXED: &[u8] = b"{\"type\":\"fixed\",\"name\":\"f\",\"size\":2}";

const MAP: &[u8] = b"{\"type\":\"map\",\"values\":\"long\"}";

/// A schema, the content of a block of one object, and what the object looks like, or the fault.
const VALUES: &[(&[u8], &[u8], &str)] = &[
    (b"\"long\"", b"\x00", "Long(0)"),
    (b"\"long\"", b"\x01", "Long(-1)"),
    (b"\"long\"", b"\x7f", "Long(-64)"),
    (b"\"long\"", b"\x80\x01", "Long(64)"),
    (b"\"long\"", b"\x80\x81\x00", "Long(64)"),
    (
        b"\"long\"",
        b"\x80\x80\x80\x80\x80\x80\x80\x80\x80\x00",
        "Long(0)",
    ),
    (
        b"\"long\"",
        b"\xfe\xff\xff\xff\xff\xff\xff\xff\xff\x01",
        "Long(9223372036854775807)",
    ),
    (b"\"int\"", b"\xff\xff\xff\xff\x0f", "Int(-2147483648)"),
    (KINDS, b"\x02", "Enum(1)"),
    (b"\"boolean\"", b"\x01", "Boolean(true)"),
    (b"\"boolean\"", b"\x02", "BadBoolean"),
    (UNION, b"\x02\x03", "Union(1, Long(-2))"),
    (UNION, b"\x00", "NullBranch(0)"),
    (UNION, b"\x04", "BadUnion"),
    (b"\"string\"", b"\x04\xc3\xa9", "String(\"é\")"),
    (b"\"string\"", b"\x02\xff", "BadUtf8"),
    (b"\"bytes\"", b"\x02\xff", "Bytes([255])"),
    (FIXED, b"\x07\x08", "Fixed([7, 8])"),
    (b"\"float\"", b"\x00\x00\x80\x3f", "Float([0, 0, 128, 63])"),
    (
        b"\"double\"",
        b"\x00\x00\x00\x00\x00\x00\xf0\x3f",
        "Double([0, 0, 0, 0, 0, 0, 240, 63])",
    ),
    (ARRAY, b"\x04\x06\x36\x00", "Array([Long(3), Long(27)])"),
    // a negative count, and a size that is not looked at
    (ARRAY, b"\x03\x04\x06\x36\x00", "Array([Long(3), Long(27)])"),
    (ARRAY, b"\x03\x01\x06\x36\x00", "Array([Long(3), Long(27)])"),
    (
        ARRAY,
        b"\x02\x06\x01\x02\x36\x00",
        "Array([Long(3), Long(27)])",
    ),
    (MAP, b"\x02\x02k\x06\x00", "Map([(\"k\", Long(3))])"),
    // items that take no bytes: the most that may be, and one more
    (
        NULLS,
        b"\x80\x80\x80\x10\x00",
        "Repeated(ItemCount { number: 16777216 }, Null)",
    ),
    (NULLS, b"\xfe\xff\xff\x0f\x04\x00", "TooManyItems"),
];

/// Whether the content of one object gives what looks like this.
fn is_value(alloc: Global, schema: &[u8], content: &[u8], look: &str) -> bool {
    match file(alloc, schema, &[2], content) {
        Ok(bytes) => gives(alloc, &bytes, look),
        Err(_) => false,
    }
}

#[test]
fn values(rt: HostRuntime) {
    for (schema, content, look) in VALUES {
        expect(&rt, is_value(rt.alloc(), schema, content, look), look);
    }
}
