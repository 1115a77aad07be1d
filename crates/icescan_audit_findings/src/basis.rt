//! What a table's entries are held against.

ghost use Rattle.std.specs.Prelude.{◌≡◌};
ghost use Rattle.std.specs.Option.{option_copied};
ghost use Rattle.ice_state.specs.Specs.{spec_of};
ghost use Rattle.icescan_audit_findings.specs.Bases.{among, has_content_of_deletes, have_deletes};

use crate::typed_columns::TypedColumns;
use contract_words::Items;
use ice_manifest_reading::{ManifestContent, Row};
use ice_meta::Spec;
use ice_value::{ColumnType, SequenceNumber};

/// A column of the schema.
#[derive(Debug, Drop)]
pub struct TypedColumn {
    /// Its id.
    pub id: i32,
    /// The type of its values; None for a struct, a list or a map.
    pub column_type: Option<ColumnType>,
}

/// What a table's metadata and its manifest list say of its entries.
#[derive(Debug, Drop)]
pub struct Basis {
    /// The partition specs, with the types of their source columns.
    pub specs: Items<Spec>,
    /// The ids of the schema's columns.
    pub columns: Items<i32>,
    /// The schema's columns.
    pub typed: TypedColumns,
    /// The number of the table's last change.
    pub last: SequenceNumber,
    /// The number of the snapshot.
    pub snapshot: SequenceNumber,
    /// Whether a manifest of the list has deletes. Only then the keys of live files are kept.
    pub has_deletes: bool,
}

fn is_of_deletes(row: &Row) -> bool
    ensures { result ≡ has_content_of_deletes row.now.content }
{
    match row.content {
        ManifestContent::Data => false,
        ManifestContent::Deletes => true,
    }
}

/// Whether a manifest of the list has deletes.
fn have_deletes(rows: &[Row]) -> bool
    ensures { result ≡ have_deletes rows.now }
{
    rows.iter().any(|row| is_of_deletes(row))
}

impl Basis {
    /// The partition spec of this id.
    pub fn spec_of(&self, id: i32) -> Option<&Spec>
        ensures { option_copied result ≡ spec_of self.now.specs id }
    {
        self.specs.as_slice().iter().find(|spec| spec.id == id)
    }

    /// The same, among the rows of a manifest list.
    pub fn among(self, rows: &[Row]) -> Basis
        ensures { result ≡ among rows.now self }
    {
        Basis {
            has_deletes: have_deletes(rows),
            ..self
        }
    }
}
