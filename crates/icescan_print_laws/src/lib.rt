//! Laws of the text of a plan.
#![tactic(auto)]

mod laws;

pub use laws::plan_text_determines_the_plan;
