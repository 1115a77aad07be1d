//! States: what was read of a scan so far.

ghost use Rattle.std.specs.Prelude.{◌≡◌, IfOk, map};
ghost use Rattle.contract_words.specs.Outcome.{Gives};
ghost use Rattle.icescan_c.specs.Calls.{IsJsonOfScan};
ghost use Rattle.icescan_c.specs.Making.{planned};
ghost use Rattle.icescan_json.specs.Types.{spec_types};
ghost use Rattle.icescan_c.specs.States.{TakesOver, TakesRow, untaken};

use crate::questions::SharedScan;
use contract_words::Items;
use ice_state::{OwnedPlan, Partial};
use icescan_c_requests::{Refusal, plan_json};
use icescan_json::{SpecTypes, types_of_specs};
use icescan_text::RunFault;
use std::alloc::{AllocError, Global};
use std::marker::Model;

/// What was read of a scan so far.
#[derive(Drop)]
pub struct State {
    scan: SharedScan,
    partial: Partial,
}

impl Model for State {
    ghost use Rattle.ice_state.specs.Contents.{IsOf};
    ghost use Rattle.icescan_c.specs.Kept.{Kept};

    ghost Value = { Kept };

    ghost view = { λ s. record { question = s.scan.question; scan = s.scan.scan; content = s.partial } };

    ghost invariant = { λ s. IsOf s.scan.scan s.partial };
}

impl State {
    /// The state in which no row of the scan is taken.
    pub fn new(alloc: Global, scan: &SharedScan) -> Result<State, AllocError>
        ensures { IfOk result (λ state. state ≡ untaken scan.now) }
    {
        let shared = scan.share()?;
        Ok(State {
            partial: Partial::empty(alloc, scan.scan())?,
            scan: shared,
        })
    }

    /// Takes the manifest of the wanted row `i`, which has these bytes: `PastEnd` where there is no such row, or
    /// `Memory`, and then the state is as it was.
    pub fn take(&mut self, i: usize, manifest: &[u8]) -> Result<(), Refusal>
        ensures { TakesRow self.old i manifest.now result self.new }
    {
        let scan = self.scan.scan();
        if scan.wanted().len() <= i {
            return Err(Refusal::PastEnd);
        }
        self.partial.take(scan, i, manifest)?;
        Ok(())
    }

    /// Takes over what another state of the same scan took: `OtherScan` where its scan is another, or `Memory`, and
    /// then the state is as it was.
    pub fn merge(&mut self, other: &State) -> Result<(), Refusal>
        ensures { TakesOver self.old other.now result self.new }
    {
        if !self.scan.is_same(&other.scan) {
            return Err(Refusal::OtherScan);
        }
        self.partial.merge(&other.partial)?;
        Ok(())
    }

    /// The same as `merge`, of a state that nobody needs any more: none of its entries is copied.
    pub fn absorb(&mut self, other: State) -> Result<(), Refusal>
        ensures { TakesOver self.old other result self.new }
    {
        if !self.scan.is_same(&other.scan) {
            drop(other);
            return Err(Refusal::OtherScan);
        }
        let State { scan, partial } = other;
        drop(scan);
        self.partial.absorb(partial)?;
        Ok(())
    }

    /// What is known of the scan's partition specs.
    fn types(&self, alloc: Global) -> Result<Items<SpecTypes>, AllocError>
        ensures { IfOk result (λ types. types ≡ map spec_types self.now.scan.specs) }
    {
        let types = types_of_specs(alloc, self.scan.scan().specs())?;
        Ok(Items::from_vec(types))
    }

    /// The plan, or what keeps the content from being one.
    #[tactic(auto, unfolding(crate::specs::Making::planned))]
    pub fn into_plan(self, alloc: Global) -> Result<ScanPlan, RunFault>
        ensures { Gives RunFault.Memory (λ plan. plan) result (planned self) }
    {
        let types = self.types(alloc)?;
        let State { scan, partial } = self;
        let plan = partial.into_plan(scan.scan())?;
        Ok(ScanPlan { scan, types, plan })
    }
}

/// The plan of a scan.
#[derive(Drop)]
pub struct ScanPlan {
    /// The scan.
    pub scan: SharedScan,
    /// What is known of its partition specs.
    pub types: Items<SpecTypes>,
    /// The plan.
    pub plan: OwnedPlan,
}

impl ScanPlan {
    /// The plan as JSON, with the filter that was asked.
    pub fn json(&self, alloc: Global) -> Result<Items<u8>, AllocError>
        ensures { IfOk result (IsJsonOfScan self.now) }
    {
        let question = self.scan.question();
        plan_json(
            alloc,
            question.metadata.as_slice(),
            &question.request,
            self.types.as_slice(),
            &self.plan,
        )
    }
}
