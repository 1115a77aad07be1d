//! The words of refusals of states.

use icescan_hint_texts::Sentence;
use icescan_text::StateFlaw;

const NOT_A_STATE: Sentence = Sentence {
    name: "Y1 NotAState",
    wrong: "the file does not begin as a state does",
    advice: Some("name files that `icescan take` or `icescan join` wrote"),
};

const OTHER_VERSION: Sentence = Sentence {
    name: "Y2 OtherVersion",
    wrong: "the state is of a version that this icescan does not read",
    advice: Some("take and finish with one version of icescan"),
};

const DAMAGED: Sentence = Sentence {
    name: "Y3 Damaged",
    wrong: "the state is cut, or its bytes are not those that were written",
    advice: Some("copy it again, or take its share again"),
};

const OTHER_SCAN: Sentence = Sentence {
    name: "Y4 OtherScan",
    wrong: "the state was taken of other metadata, another manifest list, another snapshot or another filter",
    advice: Some("take, join and finish with the same words but for `--part`, and the same files"),
};

const NOT_OF_SCAN: Sentence = Sentence {
    name: "Y5 NotOfScan",
    wrong: "the state says of a manifest what none of its row can have: it was not made by `icescan take`",
    advice: Some("look where it comes from, and take its share again"),
};

/// What a refusal of a state says.
pub fn of_state(flaw: StateFlaw) -> Sentence {
    match flaw {
        StateFlaw::NotAState => NOT_A_STATE,
        StateFlaw::OtherVersion => OTHER_VERSION,
        StateFlaw::Damaged => DAMAGED,
        StateFlaw::OtherScan => OTHER_SCAN,
        StateFlaw::NotOfScan => NOT_OF_SCAN,
    }
}
