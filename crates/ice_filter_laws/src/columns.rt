//! From the JSON of a schema to the column of a name.

ghost use Rattle.ice_filter_laws.specs.Columns.{FindsNoOther, FindsTheField, HasTheSchema};

/// A name with dots leads to the first field of its first name among the `fields` of the schema, and from there on
/// within the struct that is this field's type. The column that is found has the `id` and the `type` of the field to
/// which the whole name leads; where it leads to none, also through a list, a map or a primitive type, no column is
/// found. The schema of an id is that of the JSON with this `schema-id` among the `schemas` of the table's metadata.
pub fn columns_are_found_by_name()
    ensures found { FindsTheField }
    ensures none { FindsNoOther }
    ensures schema { HasTheSchema }
{}
