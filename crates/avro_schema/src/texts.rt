//! Schemas from their texts.

ghost use Rattle.serde_json.specs.View.{view};
ghost use Rattle.contract_words.specs.Outcome.{Gives};
ghost use Rattle.avro_schema.specs.View.{tree};
ghost use Rattle.avro_schema.specs.Texts.{json_of, schema_of as tree_of_text};

use crate::fault::SchemaFault;
use crate::names::Seen;
use crate::reading::{Role, schema_of};
use crate::schema::Schema;
use serde_json::{Category, Value};
use std::alloc::Global;
use std::collections::BTreeMap;

/// How many nodes a tree may have.
const MOST_NODES: u32 = 10_000;

/// How many levels a tree may have, its root among them.
const MOST_LEVELS: u32 = 32;

/// The JSON value of a text.
fn json_from(alloc: Global, text: &[u8]) -> Result<Value, SchemaFault>
    ensures { Gives SchemaFault.Memory view result (json_of text.now) }
{
    let Ok(text) = str::from_utf8(text) else {
        return Err(SchemaFault::NotJson);
    };
    match Value::from_str(alloc, text) {
        Ok(json) => Ok(json),
        Err(e) => match e.classify() {
            Category::Memory => Err(SchemaFault::Memory),
            _ => Err(SchemaFault::NotJson),
        },
    }
}

impl Schema {
    /// Reads a schema: the tree that its JSON text names, each name expanded to the tree of its definition.
    ///
    /// A tree has at most 10,000 nodes and 32 levels, which is found out before anything is expanded. Attributes that
    /// a tree does not show are ignored, and an id that is no 32-bit whole number is none.
    #[tactic(auto, unfolding(crate::specs::Texts::schema_of))]
    pub fn from_json(alloc: Global, text: &[u8]) -> Result<Schema, SchemaFault>
        ensures { Gives SchemaFault.Memory tree result (tree_of_text text.now) }
    {
        let json = json_from(alloc, text)?;
        let seen = Seen {
            alloc,
            names: BTreeMap::new(alloc),
            left: MOST_NODES,
        };
        let (schema, _) = schema_of(&json, MOST_LEVELS, Role::Elsewhere, &[], seen)?;
        Ok(schema)
    }
}
