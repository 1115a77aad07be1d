//! What is asked of which table, what that selects, and the scan of it.

ghost use Rattle.std.specs.Prelude.{◌≡◌, ◌↔◌, IfOk, IsTrue};
ghost use Rattle.contract_words.specs.Outcome.{Gives};
ghost use Rattle.icescan_c.specs.Making.{answered, scanned};

use contract_words::{Items, Text};
use ice_manifest_reading::read_list;
use ice_meta::Target;
use ice_state::Scan;
use icescan_c_requests::copy_request;
use icescan_requests::{Selection, select};
use icescan_text::{Request, RunFault};
use std::alloc::{AllocError, Global};
use std::marker::Model;
use std::sync::Arc;

/// What is asked, and of which table: these are the bytes of its metadata.
#[derive(Drop)]
pub struct Question {
    /// The bytes.
    pub metadata: Items<u8>,
    /// What is asked.
    pub request: Request,
}

impl Question {
    /// Whether the other asks the same, by the same bytes.
    fn is_same(&self, other: &Question) -> bool
        ensures { IsTrue result ↔ (self.now ≡ other.now) }
    {
        self.metadata.as_slice() == other.metadata.as_slice()
            && is_same_target(&self.request.target, &other.request.target)
            && is_same_text(&self.request.filter, &other.request.filter)
    }
}

/// Whether two snapshots are asked for in the same way.
fn is_same_target(one: &Target, other: &Target) -> bool
    ensures { IsTrue result ↔ (one.now ≡ other.now) }
{
    match (one, other) {
        (Target::Main, Target::Main) => true,
        (Target::Ref(one), Target::Ref(other)) => one.as_bytes() == other.as_bytes(),
        (Target::Snapshot(one), Target::Snapshot(other)) => one == other,
        _ => false,
    }
}

/// Whether both are the same text, or none.
fn is_same_text(one: &Option<Text>, other: &Option<Text>) -> bool
    ensures { IsTrue result ↔ (one.now ≡ other.now) }
{
    match (one, other) {
        (Some(one), Some(other)) => one.as_bytes() == other.as_bytes(),
        (None, None) => true,
        _ => false,
    }
}

/// A question, and what it selects.
#[derive(Drop)]
pub struct Answer {
    question: Question,
    selection: Selection,
}

impl Model for Answer {
    ghost use Rattle.icescan_c.specs.Kept.{Answered, IsAnswer};

    ghost Value = { Answered };

    ghost view = { λ a. record { question = a.question; selection = a.selection } };

    ghost invariant = { λ a. IsAnswer a.question a.selection };
}

impl Answer {
    /// What a request selects of the table whose metadata these are the bytes of. The refusals are those of `select`.
    #[tactic(auto, unfolding(crate::specs::Making::answered))]
    pub fn read(alloc: Global, metadata: &[u8], request: &Request) -> Result<Answer, RunFault>
        ensures { Gives RunFault.Memory (λ answer. answer) result (answered metadata.now request.now) }
    {
        let selection = select(alloc, metadata, request)?;
        let metadata = Items::from_vec(Vec::from_slice(alloc, metadata)?);
        let request = copy_request(alloc, request)?;
        Ok(Answer {
            question: Question { metadata, request },
            selection,
        })
    }

    /// The path of the manifest list that was selected.
    pub fn list(&self) -> &[u8]
        ensures { result.now ≡ self.now.selection.list }
    {
        self.selection.list.as_bytes()
    }
}

/// The scan of a question, which its states share.
#[derive(Drop)]
pub struct SharedScan {
    question: Arc<Question>,
    scan: Arc<Scan>,
}

impl Model for SharedScan {
    ghost use Rattle.std.specs.Arc.{arc_value};
    ghost use Rattle.icescan_c.specs.Kept.{AskedScan, IsOfQuestion};

    ghost Value = { AskedScan };

    ghost view = { λ s. record { question = arc_value s.question; scan = arc_value s.scan } };

    ghost invariant = { λ s. IsOfQuestion (arc_value s.question) (arc_value s.scan) };
}

impl SharedScan {
    /// The scan of what was selected, whose manifest list these are the bytes of.
    #[tactic(auto, unfolding(crate::specs::Making::scanned))]
    pub fn start(alloc: Global, answer: Answer, list: &[u8]) -> Result<SharedScan, RunFault>
        ensures { Gives RunFault.Memory (λ scan. scan) result (scanned answer list.now) }
    {
        let rows = read_list(alloc, list)?;
        let Answer {
            question,
            selection,
        } = answer;
        let Selection {
            list: _,
            specs,
            filter,
        } = selection;
        let scan = Scan::new(alloc, rows, specs.into_vec(), filter)?;
        Ok(SharedScan {
            question: Arc::new(alloc, question)?,
            scan: Arc::new(alloc, scan)?,
        })
    }

    /// The same scan, for another that shares it.
    pub fn share(&self) -> Result<SharedScan, AllocError>
        ensures { IfOk result (λ shared. shared ≡ self.now) }
    {
        Ok(SharedScan {
            question: Arc::try_clone(&self.question)?,
            scan: Arc::try_clone(&self.scan)?,
        })
    }

    /// What was asked.
    pub fn question(&self) -> &Question
        ensures { result.now ≡ self.now.question }
    {
        &self.question
    }

    /// The scan.
    pub fn scan(&self) -> &Scan
        ensures { result.now ≡ self.now.scan }
    {
        &self.scan
    }

    /// Whether the other is the same scan: of the same question, and of the same rows.
    pub fn is_same(&self, other: &SharedScan) -> bool
        ensures { IsTrue result ↔ (self.now ≡ other.now) }
    {
        self.question.is_same(&other.question) && self.scan.wants_same_rows(&other.scan)
    }
}
