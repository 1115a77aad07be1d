//! What a handle holds.

use crate::questions::{Answer, SharedScan};
use crate::states::{ScanPlan, State};
use contract_words::Items;
use icescan_audit::{HandedAudit, Subject};
use icescan_c_commits::{CommitFiles, HandedCommit};
use icescan_c_explanations::HandedExplanation;
use icescan_relaxed::RelaxedRequest;

/// What a handle holds.
#[derive(Drop)]
pub enum Held {
    /// Nothing yet: what is to be made is written here.
    Nothing,
    /// What a request selects of a table, whose manifest list is still to be read.
    Selection(Answer),
    /// A request whose filter is relaxed.
    Relaxed(RelaxedRequest),
    /// A snapshot to be audited, whose manifest list is still to be read.
    Subject(Subject),
    /// An audit, of which manifests are still to be read.
    Audit(HandedAudit),
    /// A commit that is asked for, of whose table files are still to be handed in.
    Change(HandedCommit),
    /// What a commit writes, which is prepared.
    Commit(CommitFiles),
    /// An explanation that is asked for, of whose table files are still to be handed in.
    Explanation(HandedExplanation),
    /// A scan.
    Scan(SharedScan),
    /// A state of a scan.
    State(State),
    /// A plan.
    Plan(ScanPlan),
    /// Lines of JSON.
    Text(Items<u8>),
    /// What tells why there is none of these.
    Fault(FaultTexts),
}

/// What tells of a fault.
#[derive(Drop)]
pub struct FaultTexts {
    /// The line; no bytes where memory ran out for it.
    pub line: Items<u8>,
    /// The lines of the hint; no bytes where there is none.
    pub hint: Items<u8>,
}
