//! A summary whose bounds are of any length.

ghost use Rattle.std.specs.Prelude.{◌≡◌, ◌++◌, length, IfOk};
ghost use Rattle.std.specs.Option.{option_copied};
ghost use Rattle.ice_value.specs.Runs.{lower_of, upper_of, IsSplit};
ghost use Rattle.ice_value.specs.declared.bounded.Bounds.TheVariants.{Both};

use contract_words::Items;
use std::alloc::{AllocError, Global};
use std::marker::Model;

/// Which bounds a run of bytes holds.
#[derive(Clone, Copy)]
enum Bounds {
    Neither,
    Lower,
    Upper,
    /// So many bytes of a lower bound, and behind them an upper one.
    Both(u32),
}

/// A summary with bounds of any length. They are one run of bytes, since lists may have millions of summaries.
#[derive(Drop)]
pub(crate) struct Bounded {
    contains_null: bool,
    contains_nan: Option<bool>,
    bounds: Bounds,
    run: Items<u8>,
}

impl Model for Bounded {
    ghost use Rattle.ice_value.specs.Summaries.{FieldSummary};
    ghost use Rattle.ice_value.specs.Runs.{lower_of, upper_of, IsSplit};

    ghost Value = { FieldSummary };

    ghost view = { λ b. record {
      contains_null = b.contains_null;
      contains_nan = b.contains_nan;
      lower = lower_of b.bounds b.run;
      upper = upper_of b.bounds b.run;
    } };

    ghost invariant = { λ b. IsSplit b.bounds b.run };
}

/// The bytes of both.
fn joined(alloc: Global, lower: &[u8], upper: &[u8]) -> Result<Items<u8>, AllocError>
    ensures { IfOk result (λ run. run ≡ lower.now ++ upper.now) }
{
    let mut run = Vec::with_capacity(alloc, lower.len() + upper.len())?;
    run.extend_from_slice(lower)?;
    run.extend_from_slice(upper)?;
    Ok(Items::from_vec(run))
}

/// Both bounds, of which the lower one is this. It is refused where the bound has no length of 32 bits.
fn both(lower: &[u8]) -> Result<Bounds, AllocError>
    ensures { IfOk result (λ bounds. bounds ≡ Both (length lower.now)) }
{
    match u32::try_from(lower.len()) {
        Ok(length) => Ok(Bounds::Both(length)),
        Err(_) => Err(AllocError),
    }
}

/// Copies of the bounds in one run of bytes.
fn run_of(
    alloc: Global,
    lower: Option<&[u8]>,
    upper: Option<&[u8]>,
) -> Result<(Bounds, Items<u8>), AllocError>
    ensures split { IfOk result (λ made. IsSplit made.0 made.1) }
    ensures lower { IfOk result (λ made. lower_of made.0 made.1 ≡ option_copied lower.entry) }
    ensures upper { IfOk result (λ made. upper_of made.0 made.1 ≡ option_copied upper.entry) }
{
    match (lower, upper) {
        (None, None) => Ok((Bounds::Neither, Items::new(alloc))),
        (Some(lower), None) => Ok((Bounds::Lower, Items::from_vec(lower.to_vec(alloc)?))),
        (None, Some(upper)) => Ok((Bounds::Upper, Items::from_vec(upper.to_vec(alloc)?))),
        (Some(lower), Some(upper)) => Ok((both(lower)?, joined(alloc, lower, upper)?)),
    }
}

impl Bounded {
    /// A summary with copies of these bounds.
    pub fn new(
        alloc: Global,
        contains_null: bool,
        contains_nan: Option<bool>,
        lower: Option<&[u8]>,
        upper: Option<&[u8]>,
    ) -> Result<Bounded, AllocError>
        ensures { IfOk result (λ bounded. bounded ≡ record {
          contains_null = contains_null;
          contains_nan = contains_nan;
          lower = option_copied lower.entry;
          upper = option_copied upper.entry;
        }) }
    {
        let (bounds, run) = run_of(alloc, lower, upper)?;
        Ok(Bounded {
            contains_null,
            contains_nan,
            bounds,
            run,
        })
    }

    pub fn contains_null(&self) -> bool
        ensures { result ≡ self.now.contains_null }
    {
        self.contains_null
    }

    pub fn contains_nan(&self) -> Option<bool>
        ensures { result ≡ self.now.contains_nan }
    {
        self.contains_nan
    }

    pub fn lower(&self) -> Option<&[u8]>
        ensures { option_copied result ≡ self.now.lower }
    {
        let run = self.run.as_slice();
        match self.bounds {
            Bounds::Lower => Some(run),
            Bounds::Upper | Bounds::Neither => None,
            Bounds::Both(length) => Some(&run[..length as usize]),
        }
    }

    pub fn upper(&self) -> Option<&[u8]>
        ensures { option_copied result ≡ self.now.upper }
    {
        let run = self.run.as_slice();
        match self.bounds {
            Bounds::Lower | Bounds::Neither => None,
            Bounds::Upper => Some(run),
            Bounds::Both(length) => Some(&run[length as usize..]),
        }
    }
}
