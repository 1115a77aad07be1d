//! The words of refusals of table metadata.

use ice_meta::MetaFault;
use icescan_hint_texts::{MEMORY, Sentence};

const NOT_JSON: Sentence = Sentence {
    name: "M1 NotJson",
    wrong: "the file is not the text of a JSON object",
    advice: Some("is it the metadata file itself, uncompressed?"),
};

const VERSION: Sentence = Sentence {
    name: "M2 Version",
    wrong: "the table has another format version than 2",
    advice: Some("read the table with a tool that knows its version"),
};

const MISSING: Sentence = Sentence {
    name: "M3 Missing",
    wrong: "a member that has to be there is not; a snapshot's sequence-number may be left out, and is 0",
    advice: Some("the file is cut or was not written by a table format library"),
};

const WRONG_KIND: Sentence = Sentence {
    name: "M4 WrongKind",
    wrong: "a member is of another kind, or its number or text is outside what it may be",
    advice: Some("the file is cut or was not written by a table format library"),
};

const UNKNOWN_TYPE: Sentence = Sentence {
    name: "M5 UnknownType",
    wrong: "a column has a type that version 2 does not have",
    advice: Some("read the table with a tool that knows the type"),
};

const NO_SUCH_REF: Sentence = Sentence {
    name: "M6 NoSuchRef",
    wrong: "there is no branch or tag of that name",
    advice: Some("`icescan show` lists them"),
};

const NO_SUCH_SNAPSHOT: Sentence = Sentence {
    name: "M7 NoSuchSnapshot",
    wrong: "there is no snapshot of that id",
    advice: Some("`icescan show` lists them; the snapshot may have expired"),
};

const NO_SNAPSHOT: Sentence = Sentence {
    name: "M8 NoSnapshot",
    wrong: "the table has no current snapshot: nothing was ever written to it",
    advice: Some("nothing; there are no files to plan"),
};

const ID_TWICE: Sentence = Sentence {
    name: "M9 IdTwice",
    wrong: "two snapshots, schemas, specs, columns of one schema or fields of one spec have this id",
    advice: Some("the metadata is corrupt; take the version before"),
};

const DANGLING: Sentence = Sentence {
    name: "M11 Dangling",
    wrong: "the member names a schema or a spec that is not there",
    advice: Some("the metadata is corrupt; take the version before"),
};

const TOO_BIG: Sentence = Sentence {
    name: "M12 TooBig",
    wrong: "a partition spec has over 64 fields",
    advice: Some("icescan does not plan such a table"),
};

/// What a refusal of table metadata says.
pub fn of_metadata(fault: &MetaFault) -> Sentence {
    match fault {
        MetaFault::NotJson => NOT_JSON,
        MetaFault::Version(_) => VERSION,
        MetaFault::Missing(_) => MISSING,
        MetaFault::WrongKind(_) => WRONG_KIND,
        MetaFault::UnknownType(_) => UNKNOWN_TYPE,
        MetaFault::NoSuchRef => NO_SUCH_REF,
        MetaFault::NoSuchSnapshot => NO_SUCH_SNAPSHOT,
        MetaFault::NoSnapshot => NO_SNAPSHOT,
        MetaFault::IdTwice(_) => ID_TWICE,
        MetaFault::Memory => MEMORY,
        MetaFault::Dangling(_) => DANGLING,
        MetaFault::TooBig => TOO_BIG,
    }
}
