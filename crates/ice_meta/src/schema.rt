//! Schemas and their columns.

ghost use Rattle.std.specs.Prelude.{◌≡◌, None, Some, slice_get};
ghost use Rattle.std.specs.Option.{option_and_then, option_copied};
ghost use Rattle.ice_meta.specs.Columns.{is_field, field_place, place_on, column_on, column_of, type_of};

use crate::numbered::Numbered;
use contract_words::{Items, Text};
use ice_value::ColumnType;

/// A column of a schema: a field of a row or of a struct, the element of a list, the key or the value of a map.
#[derive(Debug, PartialEq, Drop)]
pub struct Column {
    /// The column's id, which no other column of its schema has.
    pub id: i32,
    /// The place of the column that it stands in; None for a field of the row.
    pub around: Option<usize>,
    /// The name of a field; elements, keys and values have none.
    pub name: Option<Text>,
    /// The type of its values; None for a struct, a list or a map.
    pub column_type: Option<ColumnType>,
}

/// A schema: its columns, each before those that stand in it.
#[derive(Debug, PartialEq, Drop)]
pub struct Schema {
    /// The number by which snapshots name the schema.
    pub id: i32,
    /// The columns at their places.
    pub columns: Items<Column>,
}

impl Numbered for Column {
    ghost use Rattle.ice_meta.specs.Schemas.{column_id};

    ghost id_of = { column_id };

    fn number(&self) -> i64 {
        self.id as i64
    }
}

impl Numbered for Schema {
    ghost use Rattle.ice_meta.specs.Tables.{schema_id};

    ghost id_of = { schema_id };

    fn number(&self) -> i64 {
        self.id as i64
    }
}

impl Column {
    /// Whether it is a field of this name in the struct at a place, or in the row.
    fn is_field(&self, around: Option<usize>, name: &Text) -> bool
        ensures { result ≡ is_field around name.now self.now }
    {
        match &self.name {
            Some(own) => self.around == around && own == name,
            None => false,
        }
    }
}

impl Schema {
    /// The place of the first field of this name in the struct at a place, or in the row.
    fn field_place(&self, around: Option<usize>, name: &Text) -> Option<usize>
        ensures { result ≡ field_place around name.now self.now.columns }
    {
        let columns = self.columns.as_slice();
        'columns: for place in 0..columns.len() {
            if columns[place].is_field(around, name) {
                return Some(place);
            }
        }
        None
    }

    /// The place to which a path leads.
    fn place_on(&self, path: &[Text]) -> Option<usize>
        ensures { result ≡ place_on self.now.columns None path.now }
    {
        let mut around = None;
        'names: for name in path {
            around = Some(self.field_place(around, name)?);
        }
        around
    }

    /// The column to which a path of field names leads, from the row through structs. Of several fields of one name it
    /// is the first. An empty path leads nowhere.
    pub fn column(&self, path: &[Text]) -> Option<&Column>
        ensures { option_copied result ≡ column_on path.now self.now }
    {
        self.columns.as_slice().get(self.place_on(path)?)
    }

    /// The column of this id.
    fn column_of(&self, id: i32) -> Option<&Column>
        ensures { option_copied result ≡ column_of id self.now }
    {
        self.columns
            .as_slice()
            .iter()
            .find(|column| column.id == id)
    }

    /// The type of the column of this id, where there is one and its values are single ones.
    pub fn type_of(&self, id: i32) -> Option<ColumnType>
        ensures { result ≡ type_of id self.now }
    {
        match self.column_of(id) {
            Some(column) => column.column_type,
            None => None,
        }
    }
}
