//! Hints: what stands after the line of a fault where a user reads it. What the fault says in a sentence, which
//! column, file, manifest or text it is about, and what to do. And notes: what is to be known of an answer.
#![tactic(auto)]

mod avro;
mod case;
mod changes;
mod columns;
mod commit;
mod commits;
mod drill;
mod fields;
mod lineage;
mod looks;
mod manifest;
mod manifests;
mod metadata;
mod newest;
mod notes;
mod paths;
mod plan;
mod run;
mod schema;
mod state;
mod tables;
mod telling;

pub use case::{Case, place_of};
pub use fields::field_name;
pub use looks::{Kind, Looks};
pub use notes::{put_notes, put_reading, put_unasked, put_words_hint};
pub use run::sentences_of;
pub use telling::put_hint;
