//! What one worker has read of a scan so far.

ghost use Rattle.std.specs.Prelude.{◌≡◌, ◌<◌, ◌≤◌, ◌↔◌, length, OnOk, OnErr, replicate, None, IfOk, IsOk, IsTrue, List};
ghost use Rattle.std.specs.Prelude.{Bool, ℕ, vec_len, false, Some, slice_get, slice_index_or, option_map};
ghost use Rattle.contract_words.specs.Outcome.{Gives};
ghost use Rattle.ice_meta.specs.declared.spec.Spec.{Spec};
ghost use Rattle.ice_manifest_fields.specs.Seen.{result_map};
ghost use Rattle.ice_manifest_reading.specs.declared.row.Row.{Row};
ghost use Rattle.ice_manifest_reading.specs.Telling.{told_of};
ghost use Rattle.ice_state.specs.Contents.{World, IsOf, is_row_taken, took, content, no_row, every_row, add, HasBytes};
ghost use Rattle.ice_state.specs.Contents.{HasEach, manifest_of, with_row};
ghost use Rattle.ice_state.specs.Outcomes.{outcome};
ghost use Rattle.ice_state.specs.Refusals.{RanOut};
ghost use Rattle.ice_state.specs.Covering.{AreCovered};
ghost use Rattle.ice_state.specs.Handing.{handed, HaveShortPaths};
ghost use Rattle.ice_state.specs.Joins.{join, either, TookAllOf};
ghost use Rattle.ice_state.specs.Pruning.{pruner_of};
ghost use Rattle.ice_state.specs.Readings.{Good, Bad};
ghost use Rattle.ice_state.specs.Scans.{Scanned, IsScanOf};
ghost use Rattle.ice_state.specs.Snapshots.{plan_of_snapshot};

use crate::fault::FinishFault;
use crate::finish::helpers::{NoHelpers, Workers};
use crate::finish::plan_or_fault;
use crate::kept::deletes::{
    KeptDeletes, absorbed_behind, absorbed_deletes, with_absorbed, with_gained, with_index_of_all,
    with_taken,
};
use crate::kept::handing::{Given, given_by, put_new, taken_of};
use crate::kept::merging::{gained, has_taken_all_of};
use crate::kept::segments::Segments;
use crate::kept::slots::{put_all, put_behind, put_row};
use crate::kept::taken::{Taken, TakenTold, take_manifest};
use crate::laws::filtering;
use crate::plan::{OwnedPlan, Plan};
use crate::scan::Scan;
use avro_file::KnownSchema;
use ice_manifest_reading::{Entry, ManifestFault, Silent, Tell, read_told};
use std::alloc::{AllocError, Global};
use std::marker::Model;
use std::thread::Threads;

/// What the wanted rows gave that were taken: of each the numbers of its kept entries, which are kept in segments.
#[derive(Debug, Drop)]
pub struct Partial {
    entries: Segments,
    slots: Vec<Option<Taken>>,
    /// The delete files of the taken rows; none where they were dropped for want of memory.
    deletes: Option<KeptDeletes>,
    alloc: Global,
}

impl Model for Partial {
    ghost use Rattle.ice_state.specs.Contents.{Content};

    ghost Value = { Content };

    ghost use Rattle.ice_state.specs.KeptDeletes.{IsState};
    ghost use Rattle.ice_state.specs.Slots.{contents};

    ghost view = { λ p. contents p.entries p.slots.items };

    ghost invariant = { λ p. IsState p.entries p.slots.items p.deletes };
}

impl Partial {
    /// The state in which no row is taken.
    pub fn empty(alloc: Global, scan: &Scan) -> Result<Self, AllocError>
        ensures of_scan { IfOk result (λ state. IsOf scan.now state) }
        ensures none { IfOk result (λ state. state ≡ replicate (length scan.now.wanted) None) }
        ensures world { (world : World) → IfOk result (λ state. state ≡ content world scan.now (no_row scan.now)) }
    {
        let mut slots = Vec::new(alloc);
        for _ in 0..scan.wanted().len() {
            slots.push(None)?;
        }
        let entries = Segments::new(alloc);
        let deletes = KeptDeletes::of_files(alloc, &entries, Vec::new(alloc)).ok();
        Ok(Partial {
            entries,
            slots,
            deletes,
            alloc,
        })
    }

    /// Whether the wanted row `i` was taken; no row past the last was.
    pub fn is_taken(&self, i: usize) -> bool
        ensures { result ≡ is_row_taken self.now i }
    {
        match self.slots.get(i) {
            Some(slot) => slot.is_some(),
            None => false,
        }
    }

    /// Takes the manifest of the wanted row `i`, which has these bytes. One that can't be read is taken and kept as
    /// bad. Where the row was taken before, nothing changes and no memory is needed. A refusal, for want of memory,
    /// leaves the state as it was.
    pub fn take(&mut self, scan: &Scan, i: usize, bytes: &[u8]) -> Result<(), AllocError>
        requires of_scan { IsOf scan.now self.old }
        requires row { i < length scan.now.wanted }

        ensures of_scan { IsOf scan.now self.new }
        ensures again { IsTrue (is_row_taken self.old i) → IsOk result }
        ensures still { IsTrue (is_row_taken self.old i) → self.new ≡ self.old }
        ensures ok { OnOk result (self.new ≡ took scan.now self.old i bytes.now) }
        ensures err { OnErr result (self.new ≡ self.old) }
        ensures world { (world : World) (ts : List Bool) →
            self.old ≡ content world scan.now ts →
            HasBytes world scan.now i bytes.now →
            OnOk result (self.new ≡ content world scan.now (add ts i)) }
    {
        self.take_after(scan, i, bytes, &mut None)
    }

    /// As `take`, for manifests that are taken one after the other: `last` is the schema of the one before, and then
    /// this one's. A schema of the same text is not read again; nothing else depends on it.
    pub fn take_after(
        &mut self,
        scan: &Scan,
        i: usize,
        bytes: &[u8],
        last: &mut Option<KnownSchema>,
    ) -> Result<(), AllocError>
        requires of_scan { IsOf scan.now self.old }
        requires row { i < length scan.now.wanted }

        ensures of_scan { IsOf scan.now self.new }
        ensures again { IsTrue (is_row_taken self.old i) → IsOk result }
        ensures still { IsTrue (is_row_taken self.old i) → self.new ≡ self.old }
        ensures ok { OnOk result (self.new ≡ took scan.now self.old i bytes.now) }
        ensures err { OnErr result (self.new ≡ self.old) }
        ensures world { (world : World) (ts : List Bool) →
            self.old ≡ content world scan.now ts →
            HasBytes world scan.now i bytes.now →
            OnOk result (self.new ≡ content world scan.now (add ts i)) }
    {
        if self.is_taken(i) {
            return Ok(());
        }
        let _ = self.take_new(scan, i, bytes, &Silent, last)?;
        Ok(())
    }

    /// Takes the manifest of the wanted row `i` as `take` does, and gives what is told of each of its live entries,
    /// kept or not, in the order of their positions. A row that was taken before is only told. Where memory is refused,
    /// the state is as it was. Any other fault is the manifest's, which is taken and kept as bad.
    pub fn take_told<T: Tell>(
        &mut self,
        scan: &Scan,
        i: usize,
        bytes: &[u8],
        tell: &T,
    ) -> Result<Vec<T::Told>, ManifestFault>
        requires of_scan { IsOf scan.now self.old }
        requires row { i < length scan.now.wanted }

        ensures of_scan { IsOf scan.now self.new }
        ensures still { IsTrue (is_row_taken self.old i) → self.new ≡ self.old }
        ensures ok { (RanOut result → ⊥) → self.new ≡ took scan.now self.old i bytes.now }
        ensures err { RanOut result → self.new ≡ self.old }
        ensures told { (row : Row) → slice_get scan.now.wanted i ≡ Some row →
            Gives ManifestFault.Memory (λ told. told.items) result
            (told_of (T.told tell.now) (manifest_of scan.now.specs row bytes.now)) }
        ensures world { (world : World) (ts : List Bool) →
            self.old ≡ content world scan.now ts →
            HasBytes world scan.now i bytes.now →
            (RanOut result → ⊥) → self.new ≡ content world scan.now (add ts i) }
    {
        if self.is_taken(i) {
            return read_told(self.alloc, &scan.wanted()[i], scan.spec(i), tell, bytes);
        }
        self.take_new(scan, i, bytes, tell, &mut None)?
    }

    /// Takes the manifest of a wanted row that was not taken, and gives what is told of its live entries, or why it
    /// can't be read. A refusal, for want of memory, leaves the state as it was. `last` is the schema of the manifest
    /// that was taken before.
    fn take_new<T: Tell>(
        &mut self,
        scan: &Scan,
        i: usize,
        bytes: &[u8],
        tell: &T,
        last: &mut Option<KnownSchema>,
    ) -> Result<Result<Vec<T::Told>, ManifestFault>, AllocError>
        requires of_scan { IsOf scan.now self.old }
        requires row { i < length scan.now.wanted }
        requires new { is_row_taken self.old i ≡ false }

        ensures ok { OnOk result (self.new ≡ took scan.now self.old i bytes.now) }
        ensures err { OnErr result (self.new ≡ self.old) }
        ensures told { (row : Row) → slice_get scan.now.wanted i ≡ Some row →
            IfOk result (λ told. result_map (λ told. told.items) told
            ≡ told_of (T.told tell.now) (manifest_of scan.now.specs row bytes.now)) }
        ensures memory { IfOk result (λ told. RanOut told → ⊥) }
    {
        let row = &scan.wanted()[i];
        let filter = scan.filter_of(self.alloc, i)?;
        let TakenTold { taken, told } = take_manifest(
            self.alloc,
            &mut self.entries,
            row,
            &filter,
            tell,
            bytes,
            last,
        )?;
        self.deletes = with_taken(self.alloc, self.deletes.take(), &self.entries, &taken);
        put_row(&mut self.slots, i, taken);
        Ok(told)
    }

    /// Takes over what another state of the same scan took. A row that was taken here stays as it is. Where the other
    /// took none that isn't taken here, no memory is needed. A refusal, for want of memory, leaves the state as it was.
    pub fn merge(&mut self, other: &Partial) -> Result<(), AllocError>
        requires { length self.old ≡ length other.now }

        ensures of_scan { (scan : Scanned) → IsOf scan self.old → IsOf scan self.new }
        ensures known { TookAllOf self.old other.now → IsOk result }
        ensures still { TookAllOf self.old other.now → self.new ≡ self.old }
        ensures ok { OnOk result (self.new ≡ join self.old other.now) }
        ensures err { OnErr result (self.new ≡ self.old) }
        ensures world { (world : World) (scan : Scanned) (ts us : List Bool) →
            self.old ≡ content world scan ts →
            other.now ≡ content world scan us →
            OnOk result (self.new ≡ content world scan (either ts us)) }
    {
        if has_taken_all_of(&self.slots, &other.slots) {
            return Ok(());
        }
        let gained = gained(
            self.alloc,
            &mut self.entries,
            &self.slots,
            &other.entries,
            &other.slots,
        )?;
        self.deletes = with_gained(
            self.alloc,
            self.deletes.take(),
            &self.slots,
            &self.entries,
            &gained,
        );
        put_all(&mut self.slots, gained);
        Ok(())
    }

    /// The same as `merge`, of a state that nobody needs any more: its entries stay where they are, and none is copied.
    /// Those of rows that were taken here too stay with them.
    pub fn absorb(&mut self, other: Partial) -> Result<(), AllocError>
        requires { length self.old ≡ length other }

        ensures of_scan { (scan : Scanned) → IsOf scan self.old → IsOf scan self.new }
        ensures known { TookAllOf self.old other → IsOk result }
        ensures still { TookAllOf self.old other → self.new ≡ self.old }
        ensures ok { OnOk result (self.new ≡ join self.old other) }
        ensures err { OnErr result (self.new ≡ self.old) }
        ensures world { (world : World) (scan : Scanned) (ts us : List Bool) →
            self.old ≡ content world scan ts →
            other ≡ content world scan us →
            OnOk result (self.new ≡ content world scan (either ts us)) }
    {
        if has_taken_all_of(&self.slots, &other.slots) {
            return Ok(());
        }
        let deletes = other.deletes;
        let absorbed = absorbed_deletes(
            self.alloc,
            &self.slots,
            &other.entries,
            &other.slots,
            deletes,
        );
        let before = self.entries.append(other.entries)?;
        self.deletes = with_absorbed(
            self.alloc,
            self.deletes.take(),
            &self.entries,
            absorbed_behind(absorbed, before),
        );
        put_behind(&mut self.slots, other.slots, before);
        Ok(())
    }

    /// What the wanted row `i` gave, where it was taken; no row past the last was.
    pub fn given(&self, i: usize) -> Result<Option<Given<'_>>, AllocError>
        ensures { IfOk result (λ out. option_map handed out ≡ slice_index_or self.now i None) }
    {
        match self.slots.get(i) {
            Some(Some(taken)) => match given_by(self.alloc, &self.entries, taken) {
                Ok(given) => Ok(Some(given)),
                Err(refusal) => Err(refusal),
            },
            _ => Ok(None),
        }
    }

    /// Puts in that the manifest of the wanted row `i` has these kept entries. Where the row was taken before, nothing
    /// changes and no memory is needed. A refusal, for want of memory, leaves the state as it was.
    pub fn put_entries(&mut self, i: usize, entries: &[Entry]) -> Result<(), AllocError>
        requires row { i < length self.old }
        requires short { HaveShortPaths entries.now }

        ensures again { IsTrue (is_row_taken self.old i) → IsOk result }
        ensures still { IsTrue (is_row_taken self.old i) → self.new ≡ self.old }
        ensures ok { OnOk result (self.new ≡ with_row self.old i (Good entries.now)) }
        ensures err { OnErr result (self.new ≡ self.old) }
    {
        if self.is_taken(i) {
            return Ok(());
        }
        let taken = taken_of(self.alloc, &mut self.entries, entries)?;
        self.deletes = put_new(
            self.alloc,
            &self.entries,
            &mut self.slots,
            self.deletes.take(),
            i,
            taken,
        );
        Ok(())
    }

    /// Puts in why the manifest of the wanted row `i` can't be read. Where the row was taken before, nothing changes.
    pub fn put_fault(&mut self, i: usize, fault: ManifestFault)
        requires { i < length self.old }

        ensures still { IsTrue (is_row_taken self.old i) → self.new ≡ self.old }
        ensures row { self.new ≡ with_row self.old i (Bad fault) }
    {
        if self.is_taken(i) {
            return;
        }
        self.deletes = put_new(
            self.alloc,
            &self.entries,
            &mut self.slots,
            self.deletes.take(),
            i,
            Taken::Bad(fault),
        );
    }

    /// The plan, or what keeps the content from being one.
    pub fn finish(&self, scan: &Scan) -> Result<Plan<'_>, FinishFault>
        requires { IsOf scan.now self.now }

        ensures outcome { Gives FinishFault.Memory (λ plan. plan) result (outcome scan.now self.now) }

        // Where every wanted manifest was taken: the plan of the snapshot, over all its rows.
        ensures snapshot { (world : World) (rows : List Row) (specs : List Spec) →
            IsScanOf rows specs scan.now →
            AreCovered world specs rows →
            HasEach world scan.now.wanted →
            self.now ≡ content world scan.now (every_row scan.now) →
            Gives FinishFault.Memory (λ plan. plan) result
            (plan_of_snapshot (pruner_of scan.now.filter specs) world specs rows) }
    {
        filtering();
        let numbered = plan_or_fault(
            &NoHelpers,
            self.alloc,
            scan.wanted(),
            &self.entries,
            &self.slots,
            &self.deletes,
        )?;
        Ok(Plan {
            entries: &self.entries,
            numbered,
        })
    }

    /// The plan that `finish` gives, which takes the state's files over and copies none.
    pub fn into_plan(self, scan: &Scan) -> Result<OwnedPlan, FinishFault>
        requires { IsOf scan.now self }

        ensures outcome { Gives FinishFault.Memory (λ plan. plan) result (outcome scan.now self) }
        ensures snapshot { (world : World) (rows : List Row) (specs : List Spec) →
            IsScanOf rows specs scan.now →
            AreCovered world specs rows →
            HasEach world scan.now.wanted →
            self ≡ content world scan.now (every_row scan.now) →
            Gives FinishFault.Memory (λ plan. plan) result
            (plan_of_snapshot (pruner_of scan.now.filter specs) world specs rows) }
    {
        filtering();
        let deletes = with_index_of_all(self.alloc, self.deletes, &self.entries);
        let numbered = plan_or_fault(
            &NoHelpers,
            self.alloc,
            scan.wanted(),
            &self.entries,
            &self.slots,
            &deletes,
        )?;
        Ok(OwnedPlan {
            entries: self.entries,
            numbered,
        })
    }

    /// The same as `into_plan` by so many workers, each in a thread of its own where one can be started.
    pub fn into_plan_by<R: Threads + Sync>(
        self,
        rt: &R,
        scan: &Scan,
        workers: usize,
    ) -> Result<OwnedPlan, FinishFault>
        requires { IsOf scan.now self }

        ensures outcome { Gives FinishFault.Memory (λ plan. plan) result (outcome scan.now self) }
        ensures snapshot { (world : World) (rows : List Row) (specs : List Spec) →
            IsScanOf rows specs scan.now →
            AreCovered world specs rows →
            HasEach world scan.now.wanted →
            self ≡ content world scan.now (every_row scan.now) →
            Gives FinishFault.Memory (λ plan. plan) result
            (plan_of_snapshot (pruner_of scan.now.filter specs) world specs rows) }
    {
        filtering();
        let deletes = with_index_of_all(self.alloc, self.deletes, &self.entries);
        let helpers = Workers { rt, count: workers };
        let numbered = plan_or_fault(
            &helpers,
            self.alloc,
            scan.wanted(),
            &self.entries,
            &self.slots,
            &deletes,
        )?;
        Ok(OwnedPlan {
            entries: self.entries,
            numbered,
        })
    }
}
