//! The words of refusals of manifest lists and manifests.

use ice_manifest_reading::{ListFault, ManifestFault};
use icescan_hint_texts::{MEMORY, Sentence};

/// What to do about a file whose fields are not those of the format.
const FOREIGN: Option<&str> = Some(
    "the file was not written by a table format library, or is of another format version",
);

const AVRO: Sentence = Sentence {
    name: "N1 Avro",
    wrong: "the container can't be read",
    advice: None,
};

const MISSING_FIELD: Sentence = Sentence {
    name: "N2 MissingField",
    wrong: "the schema lacks a field that has to be there, or an object has null in it",
    advice: Some(
        "the file was not written by a table format library; `515`, `516`, `517` and `134` may be absent,
as in files of format version 1, but not null",
    ),
};

const WRONG_FIELD_TYPE: Sentence = Sentence {
    name: "N3 WrongFieldType",
    wrong: "a field has a type that does not fit",
    advice: FOREIGN,
};

const OUT_OF_RANGE: Sentence = Sentence {
    name: "N4 OutOfRange",
    wrong: "a number or a path is outside what it may be: ints have 32 bits, sequence numbers are not
negative, paths have at most 65,535 bytes",
    advice: FOREIGN,
};

const BAD_STATUS: Sentence = Sentence {
    name: "N5 BadStatus",
    wrong: "an entry's status is neither existing, added nor deleted",
    advice: FOREIGN,
};

const BAD_CONTENT: Sentence = Sentence {
    name: "N6 BadContent",
    wrong: "a content number is none, or an entry's content is not what its manifest may hold",
    advice: FOREIGN,
};

const NO_SEQUENCE: Sentence = Sentence {
    name: "N7 NoSequence",
    wrong: "an existing entry has no sequence number, and can't inherit one",
    advice: Some("rewrite the manifest with the engine that owns the table"),
};

const FLOAT_PARTITION: Sentence = Sentence {
    name: "N8 FloatPartition",
    wrong: "a partition field is a float or a double, of which rows and delete files can't be told apart by
equality",
    advice: Some("the table can't be planned; partition it by another column"),
};

const MANIFEST_TWICE: Sentence = Sentence {
    name: "N9 ManifestTwice",
    wrong: "two different rows of the list have this path",
    advice: Some("the list is corrupt; take the snapshot before"),
};

const TOO_MANY_ROWS: Sentence = Sentence {
    name: "N11 TooManyRows",
    wrong: "the list has over 65,536 different rows",
    advice: Some("rewrite the table's manifests into fewer"),
};

/// What a refusal of a manifest list says.
pub fn of_list(fault: &ListFault) -> Sentence {
    match fault {
        ListFault::Avro(_) => AVRO,
        ListFault::MissingField(_) => MISSING_FIELD,
        ListFault::WrongFieldType(_) => WRONG_FIELD_TYPE,
        ListFault::OutOfRange(_) => OUT_OF_RANGE,
        ListFault::BadContent => BAD_CONTENT,
        ListFault::ManifestTwice(_) => MANIFEST_TWICE,
        ListFault::Memory => MEMORY,
        ListFault::TooManyRows => TOO_MANY_ROWS,
    }
}

/// What a refusal of a manifest says.
pub fn of_manifest(fault: &ManifestFault) -> Sentence {
    match fault {
        ManifestFault::Avro(_) => AVRO,
        ManifestFault::MissingField(_) => MISSING_FIELD,
        ManifestFault::WrongFieldType(_) => WRONG_FIELD_TYPE,
        ManifestFault::OutOfRange(_) => OUT_OF_RANGE,
        ManifestFault::BadStatus => BAD_STATUS,
        ManifestFault::BadContent => BAD_CONTENT,
        ManifestFault::NoSequence => NO_SEQUENCE,
        ManifestFault::FloatPartition(_) => FLOAT_PARTITION,
        ManifestFault::Memory => MEMORY,
    }
}
