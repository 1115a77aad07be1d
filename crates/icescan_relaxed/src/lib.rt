//! Requests that ask less than their filters say: what of a filter can't be asked of its columns is not, and the rest
//! is.
#![tactic(auto)]

mod requests;

pub use requests::{RelaxedRequest, relax_request, relax_request_at};
