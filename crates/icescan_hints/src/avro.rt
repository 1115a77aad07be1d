//! The words of refusals of Avro containers.

use avro_file::AvroFault;
use icescan_hint_texts::{MEMORY, Sentence};

const NOT_AVRO: Sentence = Sentence {
    name: "V1 NotAvro",
    wrong: "the file does not begin as an Avro container, or its header names no schema",
    advice: Some("is it the right file?"),
};

const CODEC: Sentence = Sentence {
    name: "V2 Codec",
    wrong: "the container is compressed, by this codec",
    advice: Some(
        "`icescan-uncompress FOLDER COPY` copies a table's metadata without compression; plan the copy. The
table property `write.avro.compression-codec` changes the manifests of PyIceberg alone",
    ),
};

const TRUNCATED: Sentence = Sentence {
    name: "V3 Truncated",
    wrong: "the file ends inside what begins at this byte",
    advice: Some("the file was not copied whole"),
};

const BAD_NUMBER: Sentence = Sentence {
    name: "V4 BadNumber",
    wrong: "a number has more than ten groups or bits than it may have, or a length is negative",
    advice: Some("the file is corrupt; fetch it again"),
};

const BAD_UNION: Sentence = Sentence {
    name: "V5 BadUnion",
    wrong: "a union names a branch that it does not have",
    advice: Some("the file is corrupt; fetch it again"),
};

const BAD_UTF8: Sentence = Sentence {
    name: "V6 BadUtf8",
    wrong: "a text is not UTF-8",
    advice: Some("the file is corrupt; fetch it again"),
};

const BAD_SYNC: Sentence = Sentence {
    name: "V7 BadSync",
    wrong: "a block does not end with the file's marker",
    advice: Some("the file is corrupt; fetch it again"),
};

const BLOCK_SIZE: Sentence = Sentence {
    name: "V8 BlockSize",
    wrong: "a block's objects do not fill just its size, or its count or size is negative",
    advice: Some("the file is corrupt; fetch it again"),
};

const SCHEMA: Sentence = Sentence {
    name: "V9 Schema",
    wrong: "the schema in the header can't be read",
    advice: None,
};

const BAD_BOOLEAN: Sentence = Sentence {
    name: "V11 BadBoolean",
    wrong: "a boolean is neither 0 nor 1",
    advice: Some("the file is corrupt; fetch it again"),
};

const TOO_MANY_ITEMS: Sentence = Sentence {
    name: "V12 TooManyItems",
    wrong: "one object has over 16,777,216 items in its arrays and maps",
    advice: Some("the file is corrupt; fetch it again"),
};

/// What a refusal of a container says.
pub fn of_container(fault: &AvroFault) -> Sentence {
    match fault {
        AvroFault::NotAvro => NOT_AVRO,
        AvroFault::Codec(_) => CODEC,
        AvroFault::Truncated(_) => TRUNCATED,
        AvroFault::BadNumber => BAD_NUMBER,
        AvroFault::BadUnion => BAD_UNION,
        AvroFault::BadUtf8 => BAD_UTF8,
        AvroFault::BadSync => BAD_SYNC,
        AvroFault::BlockSize => BLOCK_SIZE,
        AvroFault::Schema(_) => SCHEMA,
        AvroFault::Memory => MEMORY,
        AvroFault::BadBoolean => BAD_BOOLEAN,
        AvroFault::TooManyItems => TOO_MANY_ITEMS,
    }
}
