//! The library for programs in C: an engine keeps its own files, threads and memory; it hands bytes in, and gets the
//! plan out. `include/icescan.h` tells callers in C what each call does, and what is left to them.
#![tactic(auto)]

mod commit_calls;
mod commit_telling;
mod explanation_calls;
mod handle;
mod held;
mod loose;
mod plan_calls;
mod questions;
mod relax_calls;
mod scan_calls;
mod state_calls;
mod states;
mod telling;
mod text_calls;
mod working;
