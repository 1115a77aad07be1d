//! The columns of a schema, with what finds them by their ids.

ghost use Rattle.std.specs.Prelude.{◌≡◌, IfOk};
ghost use Rattle.icescan_audit_findings.specs.Ids.{Rises};
ghost use Rattle.icescan_audit_findings.specs.Places.{HasPlaces};

use crate::basis::TypedColumn;
use crate::columns::SchemaColumns;
use crate::ids::rising_ids;
use crate::places::{found_by_id, places_by_id};
use std::alloc::{AllocError, Global};
use std::marker::Model;

/// The columns of a schema. Contracts see them as the list of these; where each is found by its id is worked out once,
/// for all manifests.
#[derive(Debug, Drop)]
pub struct TypedColumns {
    columns: Vec<TypedColumn>,
    /// Their ids, if no two have the same, as they rise; else none.
    ids: Vec<i32>,
    /// Their ids as they rise, each with the column's place.
    places: Vec<(i32, usize)>,
}

impl Model for TypedColumns {
    ghost use Rattle.std.specs.Prelude.{List};
    ghost use Rattle.icescan_audit_findings.specs.Ids.{Rises};
    ghost use Rattle.icescan_audit_findings.specs.Places.{HasPlaces};
    ghost use Rattle.icescan_audit_findings.specs.declared.basis.TypedColumn.{TypedColumn};

    ghost Value = { List TypedColumn };

    ghost view = { λ c. c.columns.items };

    ghost invariant = { λ c. Rises c.ids.items × HasPlaces c.columns.items c.places.items };
}

/// Columns with their ids and places, lent.
fn lent<'a>(all: &'a [TypedColumn], ids: &'a [i32], by_id: &'a [(i32, usize)]) -> SchemaColumns<'a>
    requires rises { Rises ids.now }
    requires places { HasPlaces all.now by_id.now }
    ensures { result.all.now ≡ all.now }
{
    let places = found_by_id(all, by_id);
    SchemaColumns { all, ids, places }
}

impl TypedColumns {
    /// These columns.
    pub fn new(alloc: Global, columns: Vec<TypedColumn>) -> Result<TypedColumns, AllocError>
        ensures { IfOk result (λ typed. typed ≡ columns.items) }
    {
        let ids = rising_ids(alloc, &columns)?;
        let places = places_by_id(alloc, &columns)?;
        Ok(TypedColumns {
            columns,
            ids,
            places,
        })
    }

    /// The columns, with their places, lent.
    pub fn lent(&self) -> SchemaColumns<'_>
        ensures { result.all.now ≡ self.now }
    {
        lent(&self.columns, &self.ids, &self.places)
    }
}
