//! The words of refusals of snapshots that do not follow another by appends alone.

use icescan_hint_texts::Sentence;
use icescan_text::LineageFault;

const NOT_APPENDED: Sentence = Sentence {
    name: "L1 NotAppended",
    wrong: "`--appends` was given, and the snapshot of this id, after that of `--from`, has another operation
than `append`, or none; of several the earliest is told",
    advice: Some("leave `--appends` out: the changes say what was removed too"),
};

const NOT_ANCESTOR: Sentence = Sentence {
    name: "L2 NotAncestor",
    wrong: "`--appends` was given, and the parents of the snapshot of `--to` do not lead to that of `--from`; an
expiry may have taken snapshots between",
    advice: Some("leave `--appends` out: any two snapshots have changes"),
};

/// What a refusal of a snapshot says that does not follow another by appends alone.
pub fn of_lineage(fault: LineageFault) -> Sentence {
    match fault {
        LineageFault::NotAppended(_) => NOT_APPENDED,
        LineageFault::NotAncestor => NOT_ANCESTOR,
    }
}
