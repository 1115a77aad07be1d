//! The words of refusals of change files and of commits.

use ice_catalog_changes::PrepareFault;
use icescan_hint_texts::{MEMORY, Sentence};
use icescan_text::ChangeFault;

const BAD_CHANGE: Sentence = Sentence {
    name: "C1 BadChange",
    wrong: "the first member at fault, in the order `data`, `deletes`, and then file by file `path`,
`format`, `spec-id`, `partition`, `record-count`, `file-size`, `content`, `equality-ids`,
`referenced-data-file`: it is not there, or of another kind or range; `format` also where it is
none of `avro`, `orc` and `parquet`, in letters of either case; `deletes` also where an append has
some; `-` where the file is not the text of a JSON object",
    advice: Some("`icescan row-delta --help` shows a change file; delete files go by `row-delta`"),
};

const SNAPSHOT_TAKEN: Sentence = Sentence {
    name: "K1 SnapshotTaken",
    wrong: "a snapshot of the table has this id, or it is -1, which stands for none",
    advice: Some("draw another id"),
};

const PATH_TAKEN: Sentence = Sentence {
    name: "K2 PathTaken",
    wrong: "the path is that of a live file of the table",
    advice: Some("the file was committed before; or write the new one under another name"),
};

const PATH_TWICE: Sentence = Sentence {
    name: "K3 PathTwice",
    wrong: "two files of the change have this path",
    advice: Some("name it once"),
};

const EMPTY: Sentence = Sentence {
    name: "K4 Empty",
    wrong: "the change has no file",
    advice: Some("there is nothing to commit"),
};

const NO_SUCH_SPEC: Sentence = Sentence {
    name: "K5 NoSuchSpec",
    wrong: "a file names a partition spec that the table does not have",
    advice: Some("`icescan show` lists the specs"),
};

const WRONG_TUPLE: Sentence = Sentence {
    name: "K6 WrongTuple",
    wrong: "the partition of the file at this path has not one value for each field of its spec, or one of
another kind, or the spec can't be written by",
    advice: Some("dates are days, times microseconds, and a `void` field has null"),
};

const SEQUENCE_END: Sentence = Sentence {
    name: "K7 SequenceEnd",
    wrong: "the table has had as many commits as there are sequence numbers",
    advice: Some("the metadata is corrupt; take the version before"),
};

const BASE_BAD: Sentence = Sentence {
    name: "K8 BaseBad",
    wrong: "the list of the current snapshot, or else a manifest of it, is not there or can't be read",
    advice: Some("plan the table: the refusal says more"),
};

const BAD_FILE: Sentence = Sentence {
    name: "K10 BadFile",
    wrong: "rows or bytes of the file at this path are not from 0 to 2^40, its path is over 65,535 bytes, it
deletes by equality without ids or with over 1,000, or it names a data file without holding
position deletes or by over 65,535 bytes",
    advice: Some("look at what the writer says of the file"),
};

const TOO_MANY_ROWS: Sentence = Sentence {
    name: "K11 TooManyRows",
    wrong: "the list would have over 65,536 manifests, or the change has over 1,000,000 files",
    advice: Some("rewrite the manifests into fewer, or commit in parts"),
};

const OUT_OF_ORDER: Sentence = Sentence {
    name: "K12 OutOfOrder",
    wrong: "the commit's time is before the newest entry of the table's snapshot log; other engines refuse
metadata whose log goes back in time",
    advice: Some(
        "give the present time, `--now-ms $(date +%s000)`; if it is before the table's newest snapshot, a
writer's clock is wrong: wait, or give that snapshot's time",
    ),
};

/// What a refusal of a change file says.
pub fn of_change(fault: ChangeFault) -> Sentence {
    match fault {
        ChangeFault::NotJson | ChangeFault::Bad(_) => BAD_CHANGE,
        ChangeFault::Memory => MEMORY,
    }
}

/// What a refusal of a commit says.
pub fn of_prepare(fault: &PrepareFault) -> Sentence {
    match fault {
        PrepareFault::SnapshotTaken => SNAPSHOT_TAKEN,
        PrepareFault::PathTaken(_) => PATH_TAKEN,
        PrepareFault::PathTwice(_) => PATH_TWICE,
        PrepareFault::Empty => EMPTY,
        PrepareFault::NoSuchSpec(_) => NO_SUCH_SPEC,
        PrepareFault::WrongTuple(_) => WRONG_TUPLE,
        PrepareFault::SequenceEnd => SEQUENCE_END,
        PrepareFault::BaseBad(_) => BASE_BAD,
        PrepareFault::Memory => MEMORY,
        PrepareFault::BadFile(_) => BAD_FILE,
        PrepareFault::TooManyRows => TOO_MANY_ROWS,
        PrepareFault::OutOfOrder => OUT_OF_ORDER,
    }
}
