//! What all tests of cases assert. It is written once, since the text of a failure takes long to prove.

use std::process::Abort;

/// A case has to be right.
pub fn expect(rt: &impl Abort, is_right: bool, case: &str) {
    assert!(rt; is_right, "{case}");
}
