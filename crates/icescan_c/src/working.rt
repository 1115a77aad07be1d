//! Making scans, states and plans of what a handle holds.

ghost use Rattle.std.specs.Prelude.{◌≡◌, Ok};
ghost use Rattle.contract_words.specs.Outcome.{Gives};
ghost use Rattle.icescan_c.specs.Calls.{Finishes, Hands, HandsFile, Merges, Starts, Takes};
ghost use Rattle.icescan_c.specs.Making.{CommitsTo, Holds, Makes, asked, auditing, changing, finished, handing, made};
ghost use Rattle.icescan_c.specs.Making.{explaining, opening, relaxing, started, telling_audit, telling_columns};
ghost use Rattle.icescan_c.specs.Making.{telling_explanation};
ghost use Rattle.icescan_c.specs.declared.held.Held.{Held};
ghost use Rattle.icescan_c_commits.specs.Handed.{took};
ghost use Rattle.icescan_c_explanations.specs.Handed.{took as took_to_explain};
ghost use Rattle.icescan_c_requests.specs.Hints.{IsHint};

use crate::held::{FaultTexts, Held};
use crate::questions::{Answer, SharedScan};
use crate::states::State;
use contract_words::Items;
use ice_catalog_changes::Ids;
use icescan_audit::{HandedAudit, Subject, select_subject};
use icescan_c_commits::HandedCommit;
use icescan_c_explanations::HandedExplanation;
use icescan_c_requests::{Refusal, columns_json, fault_line, filter_hint};
use icescan_relaxed::relax_request;
use icescan_text::{Request, RunFault};
use std::alloc::Global;
use std::mem::replace;

/// What is made of a table's metadata and a request.
#[derive(Clone, Copy)]
pub enum Making {
    /// What the request selects, to be scanned.
    Scan,
    /// The request with its filter relaxed.
    Relaxed,
    /// The columns that a filter of the snapshot names.
    Columns,
    /// The snapshot, to be audited.
    Audit,
    /// The plan, to be explained.
    Explanation,
}

/// What a request selects of the table whose metadata these are the bytes of.
#[tactic(auto, unfolding(crate::specs::Making::asked))]
fn asked(alloc: Global, metadata: &[u8], request: &Request) -> Result<Held, RunFault>
    ensures { Gives RunFault.Memory (λ held. held) result (asked metadata.now request.now) }
{
    Ok(Held::Selection(Answer::read(alloc, metadata, request)?))
}

/// The request whose filter is relaxed, of the table whose metadata these are the bytes of.
#[tactic(auto, unfolding(crate::specs::Making::relaxing))]
fn relaxed(alloc: Global, metadata: &[u8], request: &Request) -> Result<Held, RunFault>
    ensures { Gives RunFault.Memory (λ held. held) result (relaxing metadata.now request.now) }
{
    Ok(Held::Relaxed(relax_request(alloc, metadata, request)?))
}

/// The columns that a filter of the request's snapshot names, of the table whose metadata these are the bytes of.
#[tactic(auto, unfolding(crate::specs::Making::telling_columns))]
fn told_columns(alloc: Global, metadata: &[u8], request: &Request) -> Result<Held, RunFault>
    ensures { Gives RunFault.Memory (λ held. held) result (telling_columns metadata.now request.now) }
{
    Ok(Held::Text(columns_json(alloc, metadata, &request.target)?))
}

/// The request's snapshot to be audited, of the table whose metadata these are the bytes of.
#[tactic(auto, unfolding(crate::specs::Making::auditing))]
fn audited(alloc: Global, metadata: &[u8], request: &Request) -> Result<Held, RunFault>
    ensures { Gives RunFault.Memory (λ held. held) result (auditing metadata.now request.now) }
{
    Ok(Held::Subject(select_subject(alloc, metadata, &request.target)?))
}

/// The plan of the request to be explained, of the table whose metadata these are the bytes of.
#[tactic(auto, unfolding(crate::specs::Making::explaining))]
fn explained(alloc: Global, metadata: &[u8], request: &Request) -> Result<Held, RunFault>
    ensures { Gives RunFault.Memory (λ held. held) result (explaining metadata.now request.now) }
{
    Ok(Held::Explanation(HandedExplanation::new(alloc, metadata, request)?))
}

/// What is asked to be made of the table whose metadata these are the bytes of.
fn made(alloc: Global, making: Making, metadata: &[u8], request: &Request) -> Result<Held, RunFault>
    ensures { Gives RunFault.Memory (λ held. held) result (made making metadata.now request.now) }
{
    match making {
        Making::Scan => asked(alloc, metadata, request),
        Making::Relaxed => relaxed(alloc, metadata, request),
        Making::Columns => told_columns(alloc, metadata, request),
        Making::Audit => audited(alloc, metadata, request),
        Making::Explanation => explained(alloc, metadata, request),
    }
}

/// The hint of a filter that was refused; no bytes after another end, or where memory ran out for it.
fn hint_of(
    alloc: Global,
    metadata: &[u8],
    request: &Request,
    made: &Result<Held, RunFault>,
) -> Items<u8>
    ensures { IsHint result }
{
    if let Err(RunFault::Filter(fault)) = made
        && let Ok(hint) = filter_hint(alloc, metadata, request, *fault)
    {
        return hint;
    }
    Items::new(alloc)
}

/// The scan of what was selected, whose manifest list these are the bytes of.
#[tactic(auto, unfolding(crate::specs::Making::started))]
fn started(alloc: Global, answer: Answer, list: &[u8]) -> Result<Held, RunFault>
    ensures { Gives RunFault.Memory (λ held. held) result (started answer list.now) }
{
    Ok(Held::Scan(SharedScan::start(alloc, answer, list)?))
}

/// The audit of a snapshot whose manifest list these are the bytes of.
#[tactic(auto, unfolding(crate::specs::Making::opening))]
fn opened(alloc: Global, subject: Subject, list: &[u8]) -> Result<Held, RunFault>
    ensures { Gives RunFault.Memory (λ held. held) result (opening subject list.now) }
{
    Ok(Held::Audit(HandedAudit::open(alloc, subject, list)?))
}

/// The audit with the next manifest, which has these bytes.
#[tactic(auto, unfolding(crate::specs::Making::handing))]
fn handed(alloc: Global, audit: HandedAudit, manifest: &[u8]) -> Result<Held, RunFault>
    ensures { Gives RunFault.Memory (λ held. held) result (handing audit manifest.now) }
{
    Ok(Held::Audit(audit.take(alloc, manifest)?))
}

/// What an audit found.
#[tactic(auto, unfolding(crate::specs::Making::telling_audit))]
fn told_audit(alloc: Global, audit: HandedAudit) -> Result<Held, RunFault>
    ensures { Gives RunFault.Memory (λ held. held) result (telling_audit audit) }
{
    Ok(Held::Text(audit.into_json(alloc)?))
}

/// A commit of the change that a text says, to the table whose metadata these are the bytes of.
#[tactic(auto, unfolding(crate::specs::Making::changing))]
fn changed(alloc: Global, metadata: &[u8], change: &[u8], ids: Ids) -> Result<Held, RunFault>
    ensures { Gives RunFault.Memory (λ held. held) result (changing metadata.now change.now ids) }
{
    Ok(Held::Change(HandedCommit::new(alloc, metadata, change, ids)?))
}

/// The commit with the next file of its table, which has these bytes.
fn with_file(alloc: Global, commit: HandedCommit, bytes: &[u8]) -> Result<Held, RunFault>
    ensures { Gives RunFault.Memory (λ held. held) result (Ok (Held.Change (took commit bytes.now))) }
{
    Ok(Held::Change(commit.take(alloc, bytes)?))
}

/// The commit, prepared on what was handed in.
fn committed(alloc: Global, commit: HandedCommit) -> Result<Held, RunFault>
    ensures { CommitsTo commit result }
{
    Ok(Held::Commit(commit.prepare(alloc)?))
}

/// The explanation with the next file of its table, which has these bytes.
fn explained_with(
    alloc: Global,
    explanation: HandedExplanation,
    bytes: &[u8],
) -> Result<Held, RunFault>
    ensures { Gives RunFault.Memory (λ held. held) result
        (Ok (Held.Explanation (took_to_explain explanation bytes.now))) }
{
    Ok(Held::Explanation(explanation.take(alloc, bytes)?))
}

/// What became of manifests and files, on what was handed in.
#[tactic(auto, unfolding(crate::specs::Making::telling_explanation))]
fn told_explanation(alloc: Global, explanation: HandedExplanation) -> Result<Held, RunFault>
    ensures { Gives RunFault.Memory (λ held. held) result (telling_explanation explanation) }
{
    Ok(Held::Text(explanation.into_json(alloc)?))
}

/// The plan of what a state took.
#[tactic(auto, unfolding(crate::specs::Making::finished))]
fn finished(alloc: Global, state: State) -> Result<Held, RunFault>
    ensures { Gives RunFault.Memory (λ held. held) result (finished state) }
{
    Ok(Held::Plan(state.into_plan(alloc)?))
}

impl Held {
    /// Holds this from here on.
    pub(crate) fn set(&mut self, held: Held)
        ensures { self.new ≡ held }
    {
        *self = held;
    }

    /// Holds what was made, or the line of the fault and this hint; no bytes where memory ran out for the line.
    fn hold_with(
        &mut self,
        alloc: Global,
        made: Result<Held, RunFault>,
        hint: Items<u8>,
    ) -> Result<(), Refusal>
        requires { IsHint hint }
        ensures { Holds made result self.new }
    {
        match made {
            Ok(held) => {
                self.set(held);
                Ok(())
            }
            Err(fault) => {
                let line = match fault_line(alloc, &fault) {
                    Ok(line) => line,
                    Err(_) => Items::new(alloc),
                };
                self.set(Held::Fault(FaultTexts { line, hint }));
                let status = fault.status();
                drop(fault);
                Err(Refusal::Fault(status))
            }
        }
    }

    /// The same without a hint.
    fn hold(&mut self, alloc: Global, made: Result<Held, RunFault>) -> Result<(), Refusal>
        ensures { Holds made result self.new }
    {
        self.hold_with(alloc, made, Items::new(alloc))
    }

    /// Holds what is made of a table's metadata and a request, or the line of the fault, and the hint of a filter.
    pub fn ask(
        &mut self,
        alloc: Global,
        making: Making,
        metadata: &[u8],
        request: &Request,
    ) -> Result<(), Refusal>
        ensures { Makes (made making metadata.now request.now) result self.new }
    {
        let made = made(alloc, making, metadata, request);
        let hint = hint_of(alloc, metadata, request, &made);
        self.hold_with(alloc, made, hint)
    }

    /// Holds a commit of the change that a text says, to the table whose metadata these are the bytes of, or the line
    /// of the fault.
    pub fn ask_commit(
        &mut self,
        alloc: Global,
        metadata: &[u8],
        change: &[u8],
        ids: Ids,
    ) -> Result<(), Refusal>
        ensures { Makes (changing metadata.now change.now ids) result self.new }
    {
        self.hold(alloc, changed(alloc, metadata, change, ids))
    }

    /// Holds the scan of what was selected, or the line of the fault. `Kind` where it held no selection.
    pub fn start(&mut self, alloc: Global, list: &[u8]) -> Result<(), Refusal>
        ensures { Starts list.now self.old result self.new }
    {
        match replace(self, Held::Nothing) {
            Held::Selection(answer) => self.hold(alloc, started(alloc, answer, list)),
            Held::Subject(subject) => self.hold(alloc, opened(alloc, subject, list)),
            held => {
                self.set(held);
                Err(Refusal::Kind)
            }
        }
    }

    /// Takes the manifest of the wanted row `i` into a state: `Kind` where it held none, else as `State::take`.
    pub fn take(&mut self, i: usize, manifest: &[u8]) -> Result<(), Refusal>
        ensures { Takes i manifest.now self.old result self.new }
    {
        match self {
            Held::State(state) => state.take(i, manifest),
            _ => Err(Refusal::Kind),
        }
    }

    /// Hands the manifest of the next row to an audit, or holds the line of the fault. `Kind` where it held none, and
    /// `PastEnd` where each row's was handed in.
    pub fn hand(&mut self, alloc: Global, manifest: &[u8]) -> Result<(), Refusal>
        ensures { Hands manifest.now self.old result self.new }
    {
        match replace(self, Held::Nothing) {
            Held::Audit(audit) => match audit.rows().get(audit.handed()) {
                Some(_) => self.hold(alloc, handed(alloc, audit, manifest)),
                None => {
                    self.set(Held::Audit(audit));
                    Err(Refusal::PastEnd)
                }
            },
            held => {
                self.set(held);
                Err(Refusal::Kind)
            }
        }
    }

    /// Hands the next file of its table to a commit or an explanation, or holds the line of the fault. `Kind` where it
    /// held none, and `PastEnd` where each was handed in.
    pub fn hand_file(&mut self, alloc: Global, bytes: &[u8]) -> Result<(), Refusal>
        ensures { HandsFile bytes.now self.old result self.new }
    {
        match replace(self, Held::Nothing) {
            Held::Change(commit) => match commit.files.next() {
                Some(_) => self.hold(alloc, with_file(alloc, commit, bytes)),
                None => {
                    self.set(Held::Change(commit));
                    Err(Refusal::PastEnd)
                }
            },
            Held::Explanation(explanation) => match explanation.files.next() {
                Some(_) => self.hold(alloc, explained_with(alloc, explanation, bytes)),
                None => {
                    self.set(Held::Explanation(explanation));
                    Err(Refusal::PastEnd)
                }
            },
            held => {
                self.set(held);
                Err(Refusal::Kind)
            }
        }
    }

    /// Takes over what another state took: `Kind` where one of them is none, else as `State::merge`.
    pub fn merge(&mut self, other: &Held) -> Result<(), Refusal>
        ensures { Merges other.now self.old result self.new }
    {
        let Held::State(other) = other else {
            return Err(Refusal::Kind);
        };
        match self {
            Held::State(state) => state.merge(other),
            _ => Err(Refusal::Kind),
        }
    }

    /// The same as `merge`, of a state that nobody needs any more.
    pub fn absorb(&mut self, other: Held) -> Result<(), Refusal>
        ensures { Merges other self.old result self.new }
    {
        match (self, other) {
            (Held::State(state), Held::State(other)) => state.absorb(other),
            (_, other) => {
                drop(other);
                Err(Refusal::Kind)
            }
        }
    }

    /// Holds the plan of what a state took, what an audit found, a commit that is prepared or a plan's explanation, or
    /// the line of the fault. `Kind` where it held none of these.
    pub fn finish(&mut self, alloc: Global) -> Result<(), Refusal>
        ensures { Finishes self.old result self.new }
    {
        match replace(self, Held::Nothing) {
            Held::State(state) => self.hold(alloc, finished(alloc, state)),
            Held::Audit(audit) => self.hold(alloc, told_audit(alloc, audit)),
            Held::Change(commit) => self.hold(alloc, committed(alloc, commit)),
            Held::Explanation(explanation) => self.hold(
                alloc,
                told_explanation(alloc, explanation),
            ),
            held => {
                self.set(held);
                Err(Refusal::Kind)
            }
        }
    }
}
