//! Partition specs.

ghost use Rattle.std.specs.Prelude.{◌≡◌, IfOk};
ghost use Rattle.ice_meta.specs.Targets.{bound_field};
ghost use Rattle.ice_meta.specs.Partitioning.{without_fields, is_void, is_unpartitioned};

use crate::numbered::Numbered;
use crate::schema::Schema;
use contract_words::{Items, Text};
use ice_value::ColumnType;
use std::alloc::{AllocError, Global};

/// A partition field: a column's values under a transform.
#[derive(Debug, PartialEq, Drop)]
pub struct PartitionField {
    /// The id of the column that the values come from.
    pub source_id: i32,
    /// The number by which manifests name the field.
    pub field_id: i32,
    /// The field's name.
    pub name: Text,
    /// The transform's text, as the metadata has it.
    pub transform: Text,
    /// The source column's type in the schema that the spec is bound to. None where that schema lacks the column, and
    /// where the column is a struct, list or map.
    pub source_type: Option<ColumnType>,
}

impl PartitionField {
    /// Whether the field has no values.
    fn is_void(&self) -> bool
        ensures { result ≡ is_void self.now }
    {
        self.transform.as_str() == "void"
    }

    /// The field, with the type that its source column has in the schema.
    pub(crate) fn bound_to(&self, alloc: Global, schema: &Schema) -> Result<Self, AllocError>
        ensures { IfOk result (λ bound. bound ≡ bound_field schema.now self.now) }
    {
        Ok(PartitionField {
            source_id: self.source_id,
            field_id: self.field_id,
            name: self.name.copy(alloc)?,
            transform: self.transform.copy(alloc)?,
            source_type: schema.type_of(self.source_id),
        })
    }
}

impl Numbered for PartitionField {
    ghost use Rattle.ice_meta.specs.Tables.{field_id};

    ghost id_of = { field_id };

    fn number(&self) -> i64 {
        self.field_id as i64
    }
}

/// A partition spec: its fields in order.
#[derive(Debug, PartialEq, Drop)]
pub struct Spec {
    /// The number by which manifests name the spec.
    pub id: i32,
    /// The fields, in the order of the partition values.
    pub fields: Items<PartitionField>,
}

impl Spec {
    /// The spec of this id that has no fields.
    pub fn empty(alloc: Global, id: i32) -> Spec
        ensures { result ≡ without_fields id }
    {
        Spec {
            id,
            fields: Items::new(alloc),
        }
    }

    /// Whether equality deletes of this spec apply to data files of every spec: it has no field but void ones.
    pub fn is_unpartitioned(&self) -> bool
        ensures { result ≡ is_unpartitioned self.now }
    {
        'fields: for field in self.fields.as_slice() {
            if !field.is_void() {
                return false;
            }
        }
        true
    }
}

impl Numbered for Spec {
    ghost use Rattle.ice_meta.specs.Tables.{spec_id};

    ghost id_of = { spec_id };

    fn number(&self) -> i64 {
        self.id as i64
    }
}
