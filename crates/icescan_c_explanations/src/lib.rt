//! Explanations from C: a plan is explained on what is handed in of a table, as lines of JSON.
#![tactic(auto)]

mod handed;

pub use handed::HandedExplanation;
