//! The words of refusals of plans.

use ice_state::{FinishFault, ScanFault};
use icescan_hint_texts::{MEMORY, Sentence};

const NO_SUCH_SPEC: Sentence = Sentence {
    name: "X1 NoSuchSpec",
    wrong: "a manifest is of a partition spec that the metadata does not have; of several, the one with the
least path",
    advice: Some("the metadata is corrupt; take the version before"),
};

const BAD: Sentence = Sentence {
    name: "Z2 Bad",
    wrong: "the manifest at this path can't be read",
    advice: None,
};

const PATH_TWICE: Sentence = Sentence {
    name: "Z3 PathTwice",
    wrong: "two live entries, of two manifests or two places in one, name the same file: reading it once or
twice would both be a guess",
    advice: Some(
        "the last commit was at fault; take the snapshot before, or rewrite the manifests",
    ),
};

/// A plan reads each wanted manifest before it is made, so none is missing; of states one may be.
const MISSING: Sentence = Sentence {
    name: "Z1 Missing",
    wrong: "no state of those that were given has the manifest at this path; of several, the least path",
    advice: Some(
        "take the shares that are missing, as `take --part 3/8`, and finish with their states too",
    ),
};

/// What a refusal of a scan says.
pub fn of_scan(fault: ScanFault) -> Sentence {
    match fault {
        ScanFault::NoSuchSpec(_) => NO_SUCH_SPEC,
        ScanFault::Memory => MEMORY,
    }
}

/// What a refusal of a plan says.
pub fn of_finish(fault: &FinishFault) -> Sentence {
    match fault {
        FinishFault::Missing(_) => MISSING,
        FinishFault::Bad(_, _) => BAD,
        FinishFault::PathTwice(_) => PATH_TWICE,
        FinishFault::Memory => MEMORY,
    }
}
