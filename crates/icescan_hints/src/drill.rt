//! The words of refusals of drills.

use icescan_hint_texts::Sentence;
use icescan_text::DrillFault;

const CONFLICT: Sentence = Sentence {
    name: "Conflict",
    wrong: "a thread of a drill tried a commit as often as all threads commit together, and another came
before it each time; status 4",
    advice: Some("nothing that a user does leads here: report it"),
};

const LOST: Sentence = Sentence {
    name: "Lost",
    wrong: "a thread of a drill made a commit, and a later version has no such file; status 1",
    advice: Some("nothing that a user does leads here: report it"),
};

/// What a refusal of a drill says.
pub fn of_drill(fault: &DrillFault) -> Sentence {
    match fault {
        DrillFault::Conflict => CONFLICT,
        DrillFault::Lost(_) => LOST,
    }
}
