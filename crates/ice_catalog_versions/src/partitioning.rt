//! Partition specs with what their values may be.

ghost use Rattle.std.specs.Prelude.{◌≡◌, IfOk, map};
ghost use Rattle.ice_catalog_versions.specs.Tuples.{allowed_of};

use crate::tuples::{Allowed, each_allowed};
use contract_words::Items;
use ice_meta::Spec;
use std::alloc::{AllocError, Global};

/// A partition spec, with what the values of each of its fields may be.
#[derive(Debug, Drop)]
pub struct Partitioning<'a> {
    pub spec: &'a Spec,
    pub allowed: Items<Allowed>,
    ghost known: { allowed ≡ map allowed_of spec.now.fields },
}

impl<'a> Partitioning<'a> {
    /// The spec, with what its values may be.
    pub fn new(alloc: Global, spec: &'a Spec) -> Result<Partitioning<'a>, AllocError>
        ensures { IfOk result (λ partitioning. partitioning.spec.now ≡ spec.now) }
    {
        let allowed = each_allowed(alloc, spec.fields.as_slice())?;
        Ok(Partitioning { spec, allowed })
    }
}
