//! Envelopes.

ghost use Rattle.std.specs.Prelude.{◌≡◌, ◌<◌, ◌++◌, ◌∷◌, [], suc, length, map, Ok, IfOk, OnOk, OnErr};
ghost use Rattle.contract_words.specs.Outcome.{Gives};
ghost use Rattle.ice_state_envelopes.specs.declared.fault.EnvelopeFault.TheVariants.{Memory};
ghost use Rattle.ice_state_envelopes.specs.Envelopes.{Parts, Rise, shown, contents_at, parts_at};
ghost use Rattle.ice_state_envelopes.specs.Joins.{joined};

use crate::closing::{push_contents, with_digest};
use crate::fault::EnvelopeFault;
use crate::joining::union_of;
use crate::opening::{
    ANY_VERSION, THIS_VERSION, are_rising, has_front, scan_of, sealed_of, sections_of,
};
use crate::section::Section;
use crate::written::push_bytes;
use avro_file_parts::{run_of_len, unsigned_of};
use std::alloc::{AllocError, Global};
use std::marker::Model;

/// The sections of a state, in rising order of their rows, the name of its scan, and how many rows that wants.
#[derive(Debug, Drop)]
pub struct Envelope<'a> {
    scan: [u8; 32],
    rows: u64,
    sections: Vec<Section<'a>>,
}

impl<'a> Model for Envelope<'a> {
    ghost use Rattle.std.specs.Prelude.{map};
    ghost use Rattle.ice_state_envelopes.specs.Envelopes.{Parts, AreParts, shown};

    ghost Value = { Parts };

    ghost view = { λ e. record { scan = e.scan; rows = e.rows; sections = map shown e.sections.items } };

    ghost invariant = { λ e.
        AreParts (record { scan = e.scan; rows = e.rows; sections = map shown e.sections.items }) };
}

impl<'a> Envelope<'a> {
    /// No section yet.
    pub fn new(alloc: Global, scan: [u8; 32], rows: u64) -> Envelope<'a>
        ensures { result ≡ record { scan = scan; rows = rows; sections = [] } }
    {
        Envelope {
            scan,
            rows,
            sections: Vec::new(alloc),
        }
    }

    /// Puts a section last. A refusal, for want of memory, leaves the envelope as it was.
    pub fn push(&mut self, row: u64, body: &'a [u8]) -> Result<(), AllocError>
        requires behind { Rise 0 row self.old.sections }
        requires below { row < self.old.rows }
        ensures ok { OnOk result (self.new ≡ record self.old { sections = self.old.sections ++ (row, body.now) ∷ [] }) }
        ensures rise { OnOk result (Rise 0 (suc row) self.new.sections) }
        ensures err { OnErr result (self.new ≡ self.old) }
    {
        self.sections.push(Section { row, body })?;
        Ok(())
    }

    /// The 32 bytes that name the scan.
    pub fn scan(&self) -> &[u8; 32]
        ensures scan { result.now ≡ self.now.scan }
        ensures len { length self.now.scan ≡ 32 }
    {
        &self.scan
    }

    /// How many rows the scan wants.
    pub fn rows(&self) -> u64
        ensures { result ≡ self.now.rows }
    {
        self.rows
    }

    /// The sections, in rising order of their rows, each below the rows of the scan.
    pub fn sections(&self) -> &[Section<'a>]
        ensures sections { map shown result.now ≡ self.now.sections }
        ensures rise { Rise 0 self.now.rows self.now.sections }
    {
        self.sections.as_slice()
    }

    /// The contents of a state's bytes, behind its first line.
    #[tactic(auto, unfolding(crate::specs::Envelopes::contents_at))]
    fn of_contents(alloc: Global, bytes: &'a [u8]) -> Result<Envelope<'a>, EnvelopeFault>
        ensures { Gives Memory (λ e. e) result (contents_at bytes.now) }
    {
        let (scan, rest) = scan_of(bytes)?;
        let (rows, rest) = unsigned_of(rest)?;
        let (count, rest) = unsigned_of(rest)?;
        let (sections, rest) = sections_of(alloc, count, rest)?;
        if !rest.is_empty() || !are_rising(rows, &sections) {
            return Err(EnvelopeFault::Damaged);
        }
        Ok(Envelope {
            scan,
            rows,
            sections,
        })
    }

    /// What the bytes of a state are read as, or the first fault.
    #[tactic(auto, unfolding(crate::specs::Envelopes::parts_at, crate::specs::Envelopes::opened_at))]
    pub fn open(alloc: Global, bytes: &'a [u8]) -> Result<Envelope<'a>, EnvelopeFault>
        ensures { Gives Memory (λ e. e) result (parts_at bytes.now) }
    {
        if !has_front(ANY_VERSION, bytes) {
            return Err(EnvelopeFault::NotAState);
        }
        if !has_front(THIS_VERSION, bytes) {
            return Err(EnvelopeFault::OtherVersion);
        }
        let sealed = sealed_of(bytes)?;
        let (_, contents) = run_of_len(THIS_VERSION.len() as u64, sealed)?;
        Envelope::of_contents(alloc, contents)
    }

    /// Bytes that open as this envelope.
    pub fn to_bytes(&self, alloc: Global) -> Result<Vec<u8>, AllocError>
        ensures { IfOk result (λ all. parts_at all.items ≡ Ok self.now) }
    {
        let bytes = push_bytes(Vec::new(alloc), THIS_VERSION)?;
        let bytes = push_contents(bytes, &self.scan, self.rows, &self.sections)?;
        with_digest(bytes)
    }

    /// The sections of both, those of this one where both have a row. Envelopes of other scans are not joined.
    pub fn join(&self, alloc: Global, other: &Envelope<'a>) -> Result<Envelope<'a>, EnvelopeFault>
        ensures { Gives Memory (λ e. e) result (joined self.now other.now) }
    {
        if self.scan.as_slice() != other.scan.as_slice() || self.rows != other.rows {
            return Err(EnvelopeFault::OtherScan);
        }
        let sections = union_of(alloc, self.rows, &self.sections, &other.sections)?;
        Ok(Envelope {
            scan: self.scan,
            rows: self.rows,
            sections,
        })
    }
}
