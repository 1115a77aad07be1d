//! What a scan reads: the rows that it wants, and what they are read by.

ghost use Rattle.std.specs.Prelude.{◌≡◌, ◌<◌, ◌≤◌, ◌↔◌, [], length, OnOk, Some, MatchResult, IfOk, IsTrue};
ghost use Rattle.contract_words.specs.Outcome.{Gives};
ghost use Rattle.ice_state.specs.Parts.{NamesFirst};
ghost use Rattle.ice_state.specs.Pruning.{pruner_of};
ghost use Rattle.ice_state.specs.Scans.{by_row_path, spec_at, without_spec, wanted_rows};

pub mod pruning;
pub mod room;

use crate::fault::ScanFault;
use crate::scan::pruning::{Pruning, SpecFilter};
use crate::scan::room::MOST_MADE;
use ice_filter::Bound;
use ice_manifest_reading::Row;
use ice_meta::Spec;
use std::alloc::{AllocError, Global};
use std::marker::Model;

/// The rows that a scan wants, sorted by the bytes of their paths, and the partition specs of the table and the filter
/// by which their manifests are read.
#[derive(Debug, Drop)]
pub struct Scan {
    wanted: Vec<Row>,
    pruning: Pruning,
}

impl Model for Scan {
    ghost use Rattle.ice_state.specs.Scans.{Scanned};

    ghost Value = { Scanned };

    ghost view = { λ s. record { wanted = s.wanted.items; specs = s.pruning.specs; filter = s.pruning.filter } };

    ghost use Rattle.ice_state.specs.Scans.{AllHaveSpec};

    ghost invariant = { λ s. AllHaveSpec s.pruning.specs s.wanted.items };
}

impl Scan {
    ghost use Rattle.ice_state.specs.Scans.{scan_of};

    /// A scan of a snapshot's rows, in whatever order they come, for the files that may have a row that meets the
    /// filter: `Bound::always` leaves nothing out. Each manifest is read by the spec whose id its row has, the first of
    /// those that share the id: `NoSuchSpec` where there is none. A row is wanted unless its summaries show that no
    /// tuple in its manifest meets the filter's projection through that spec.
    pub fn new(
        alloc: Global,
        mut rows: Vec<Row>,
        specs: Vec<Spec>,
        filter: Bound,
    ) -> Result<Scan, ScanFault>
        ensures { Gives ScanFault.Memory (λ scan. scan) result (scan_of rows.items specs.items filter.parts) }
    {
        let mut pruning = Pruning::new(alloc, specs, filter)?;
        sort_by_path(&mut rows)?;
        check_specs(&rows, &pruning)?;
        let wanted = wanted(alloc, rows, &mut pruning)?;
        Ok(Scan { wanted, pruning })
    }

    /// The rows whose manifests have to be taken, each at its place.
    pub fn wanted(&self) -> &[Row]
        ensures { result.now ≡ self.now.wanted }
    {
        &self.wanted
    }

    /// The partition specs of the table, by their ids.
    pub fn specs(&self) -> &[Spec]
        ensures { result.now ≡ self.now.specs }
    {
        self.pruning.specs()
    }

    /// The bytes of the largest projection that is made where a manifest is read, about.
    fn most_made(&self) -> usize {
        let mut most: usize = 0;
        'rows: for row in &self.wanted {
            let made = self.pruning.bytes_made(row);
            if made > most {
                most = made;
            }
        }
        most
    }

    /// Of so many workers, how many may take manifests at once: no more than there are manifests, since one that finds
    /// none left reads another's; and few where the projections that are not held are large, since each makes its own.
    pub fn workers(&self, most: usize) -> usize
        requires { 0 < most }
        ensures few { result ≤ most }
        ensures one_a_manifest { 0 < length self.now.wanted → result ≤ length self.now.wanted }
        ensures some { 0 < result }
    {
        let most = most.min(self.wanted.len().max(1));
        let made = self.most_made();
        if made == 0 {
            return most;
        }
        let few = MOST_MADE / made;
        if few == 0 {
            return 1;
        }
        if few < most { few } else { most }
    }

    /// Whether the other scan wants the same rows.
    pub fn wants_same_rows(&self, other: &Scan) -> bool
        ensures { IsTrue result ↔ (self.now.wanted ≡ other.now.wanted) }
    {
        self.wanted == other.wanted
    }

    /// The spec of the wanted row `i`.
    pub fn spec(&self, i: usize) -> &Spec
        requires { i < length self.now.wanted }
        ensures { spec_at self.now i ≡ Some result.now }
    {
        match self.pruning.spec_of_row(&self.wanted[i]) {
            Some(spec) => spec,
            None => unreachable!(),
        }
    }

    /// What the manifest of the wanted row `i` is read by.
    pub(crate) fn filter_of(&self, alloc: Global, i: usize) -> Result<SpecFilter<'_>, AllocError>
        requires { i < length self.now.wanted }
        ensures spec { IfOk result (λ by. spec_at self.now i ≡ Some by.spec) }
        ensures filter { IfOk result (λ by. by.filter ≡ self.now.filter) }
    {
        let found = self.pruning.of_row(alloc, &self.wanted[i])?;
        match found {
            Some(filter) => Ok(filter),
            None => unreachable!(),
        }
    }
}

/// Puts rows in the order of their paths.
fn sort_by_path(rows: &mut Vec<Row>) -> Result<(), AllocError>
    ensures { OnOk result (rows.new.items ≡ by_row_path rows.old.items) }
{
    rows.sort_by(|a, b| a.path.as_bytes().cmp(b.path.as_bytes()))?;
    Ok(())
}

/// Those of the rows that are wanted.
fn wanted(alloc: Global, rows: Vec<Row>, pruning: &mut Pruning) -> Result<Vec<Row>, AllocError>
    ensures wanted { IfOk result (λ wanted. wanted.items
        ≡ wanted_rows (pruner_of pruning.old.filter pruning.old.specs) rows.items) }
    ensures same { pruning.new ≡ pruning.old }
{
    let mut wanted = Vec::new(alloc);
    'rows: for row in rows {
        if pruning.wants(alloc, &row)? {
            wanted.push(row)?;
        }
    }
    Ok(wanted)
}

/// Stops at the first row whose spec is missing.
fn check_specs(rows: &[Row], pruning: &Pruning) -> Result<(), ScanFault>
    ensures { MatchResult result (λ _. without_spec pruning.now.specs rows.now ≡ [])
        (λ f. NamesFirst f (without_spec pruning.now.specs rows.now)) }
{
    'rows: for row in rows {
        if pruning.spec_of_row(row).is_none() {
            return Err(ScanFault::NoSuchSpec(row.spec_id));
        }
    }
    Ok(())
}
