//! A file with a field of every type, by hand from the specification.

use super::*;

/// A file with metadata `k`, before the schema's length.
const FRONT: &[u8] = b"Obj\x01\x06\x14avro.codec\x08null\x16avro.schema\xf6\x0d";

/// A record with a field of every type.
const EVERY: &[u8] = b"{\"type\":\"record\",\"name\":\"r\",\"fields\":[\
{\"name\":\"a\",\"type\":\"null\"},{\"name\":\"b\",\"type\":\"boolean\"},{\"name\":\"c\",\"type\":\"int\"},\
{\"name\":\"d\",\"type\":\"long\"},{\"name\":\"e\",\"type\":\"float\"},{\"name\":\"f\",\"type\":\"double\"},\
{\"name\":\"g\",\"type\":\"bytes\"},{\"name\":\"h\",\"type\":\"string\"},\
{\"name\":\"i\",\"type\":{\"type\":\"fixed\",\"name\":\"x\",\"size\":2}},\
{\"name\":\"j\",\"type\":{\"type\":\"enum\",\"name\":\"y\",\"symbols\":[\"A\",\"B\"]}},\
{\"name\":\"k\",\"type\":{\"type\":\"array\",\"items\":\"int\"}},\
{\"name\":\"l\",\"type\":{\"type\":\"map\",\"values\":\"long\"}},\
{\"name\":\"m\",\"type\":[\"null\",\"string\"]},{\"name\":\"n\",\"type\":[\"null\",\"string\"]},\
{\"name\":\"o\",\"type\":{\"type\":\"array\",\"items\":{\"type\":\"record\",\"name\":\"p\",\"fields\":[\
{\"name\":\"k\",\"type\":\"int\"},{\"name\":\"v\",\"type\":\"long\"}]}}},\
{\"name\":\"q\",\"type\":{\"type\":\"array\",\"items\":{\"type\":\"record\",\"name\":\"s\",\"fields\":[\
{\"name\":\"k\",\"type\":\"int\"},{\"name\":\"v\",\"type\":\"bytes\"}]}}},\
{\"name\":\"t\",\"type\":{\"type\":\"array\",\"items\":\"p\"}}]}";

/// An object of that type, a field each row.
const EVERY_CONTENT: &[u8] = b"\x01\
\xff\xff\xff\xff\x0f\
\xfe\xff\xff\xff\xff\xff\xff\xff\xff\x01\
\x00\x00\x80\x3f\
\x00\x00\x00\x00\x00\x00\x00\xc0\
\x02\xff\
\x04\xc3\xa9\
\x01\x02\
\x02\
\x04\x05\x90\x03\x00\
\x02\x02k\x0e\x00\
\x02\x02s\
\x00\
\x04\x03\xd8\x04\x90\x03\xff\xff\xff\xff\xff\xff\xff\xff\xff\x01\x00\
\x04\x02\x04\x03\xff\xfe\xff\xff\xff\x0f\x00\x00\
\x00";

/// What that object looks like.
const EVERY_LOOK: &str =
    r#"Record([Null, Boolean(true), Int(-2147483648), Long(9223372036854775807), Float([0, 0, 128, 63]), Double([0, 0, 0, 0, 0, 0, 0, 192]), Bytes([255]), String("é"), Fixed([1, 2]), Enum(1), Array([Int(-3), Int(200)]), Map([("k", Long(7))]), Union(1, String("s")), NullBranch(0), LongPairs([(-2, 300), (200, -9223372036854775808)]), BytesPairs([(1, [3, 255]), (2147483647, [])]), LongPairs([])])"#;

/// A file of that object.
fn file_of_every(alloc: Global) -> Result<Vec<u8>, AllocError> {
    [
        FRONT,
        EVERY,
        b"\x02k\x02v\x00".as_slice(),
        MARKER.as_slice(),
        b"\x02\xa0\x01".as_slice(),
        EVERY_CONTENT,
        MARKER.as_slice(),
    ]
    .concat(alloc)
}

#[test]
fn every_type(rt: HostRuntime) {
    let is_right = match file_of_every(rt.alloc()) {
        Ok(bytes) => gives(rt.alloc(), &bytes, EVERY_LOOK),
        Err(_) => false,
    };
    expect(&rt, is_right, "a record with a field of every type");
}
