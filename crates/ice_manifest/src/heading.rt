//! What the entries of a new manifest have in common.

use contract_words::{Items, Text};
use ice_manifest_reading::ManifestContent;
use ice_meta::Spec;
use ice_value::ColumnType;

/// What the entries of a new manifest have in common, and what its file says of the table.
#[derive(Debug, Drop)]
pub struct Heading {
    /// The JSON text of the table's current schema.
    pub schema: Text,
    /// The id of that schema.
    pub schema_id: i32,
    pub spec: Spec,
    /// The type of the values of each partition field, in the order of the spec's fields; of a field without values,
    /// `Int`.
    pub types: Items<ColumnType>,
    pub content: ManifestContent,
    /// The snapshot that adds the files.
    pub snapshot_id: i64,
    /// The marker between the blocks of the file, which no other file should have.
    pub sync: [u8; 16],
}
