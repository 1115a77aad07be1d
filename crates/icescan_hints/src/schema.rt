//! The words of refusals of Avro schemas.

use avro_schema::SchemaFault;
use icescan_hint_texts::{MEMORY, Sentence};

const NOT_JSON: Sentence = Sentence {
    name: "S1 NotJson",
    wrong: "the schema is no JSON text, or is nested over 127 deep",
    advice: Some("the writer is at fault; icescan can't read what it wrote"),
};

const UNKNOWN_TYPE: Sentence = Sentence {
    name: "S2 UnknownType",
    wrong: "a type lacks what it has to have, or is none that Avro has",
    advice: Some("the writer is at fault; icescan can't read what it wrote"),
};

const UNKNOWN_NAME: Sentence = Sentence {
    name: "S3 UnknownName",
    wrong: "a name is used that was not defined before",
    advice: Some("the writer is at fault; icescan can't read what it wrote"),
};

const RECURSIVE: Sentence = Sentence {
    name: "S4 Recursive",
    wrong: "a name is used inside its own definition: manifests have no such types",
    advice: Some("the writer is at fault; icescan can't read what it wrote"),
};

const TOO_BIG: Sentence = Sentence {
    name: "S5 TooBig",
    wrong: "the schema has over 10,000 types or 32 levels",
    advice: Some("the writer is at fault; icescan can't read what it wrote"),
};

const FIELD_TWICE: Sentence = Sentence {
    name: "S6 FieldTwice",
    wrong: "two fields of one record have this id",
    advice: Some("the writer is at fault; icescan can't read what it wrote"),
};

const NAME_TWICE: Sentence = Sentence {
    name: "S8 NameTwice",
    wrong: "a name is defined twice",
    advice: Some("the writer is at fault; icescan can't read what it wrote"),
};

/// What a refusal of a schema says.
pub fn of_schema(fault: SchemaFault) -> Sentence {
    match fault {
        SchemaFault::NotJson => NOT_JSON,
        SchemaFault::UnknownType => UNKNOWN_TYPE,
        SchemaFault::UnknownName => UNKNOWN_NAME,
        SchemaFault::Recursive => RECURSIVE,
        SchemaFault::TooBig => TOO_BIG,
        SchemaFault::FieldTwice(_) => FIELD_TWICE,
        SchemaFault::Memory => MEMORY,
        SchemaFault::NameTwice => NAME_TWICE,
    }
}
