//! Tests of ice_filter, ice_project and ice_transform, of what no clause says: texts, and values from outside. Public
//! calls of ice_meta, ice_meta_json, ice_filter and ice_project stand here once more, too.
#![tactic(auto)]

mod calls;
#[cfg(test)]
mod cases;
#[cfg(test)]
mod columns;
#[cfg(test)]
mod language;
#[cfg(test)]
mod projections;

pub use calls::{
    bind, filled, is_unpartitioned, meets, parse, project, read, resolve, schema_for, summary_may,
};
