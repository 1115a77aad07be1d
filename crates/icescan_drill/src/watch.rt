//! What is shown of a long drill while it runs.

use std::io::{Eprint, IsTerminal};

/// Who is told of each commit of a drill. Any thread may tell.
pub trait Watch {
    /// A commit was made, after which the table had so many.
    fn committed(&self, commits: u64);
}

/// Where standard error is a terminal, it shows how many commits there are.
impl Watch for HostRuntime {
    fn committed(&self, commits: u64) {
        if self.stderr().is_terminal() {
            let _ = eprint!(self; "commits {commits}\r");
        }
    }
}
