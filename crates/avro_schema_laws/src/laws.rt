//! Which fault of a schema is told. Each function is a law: its contract is the statement, and there is nothing to run.

ghost use Rattle.std.specs.Prelude.{◌≡◌, ◌↔◌, ℕ, List, Ok, Err};
ghost use Rattle.serde_json.specs.Data.{Data};
ghost use Rattle.avro_schema.specs.declared.fault.SchemaFault.{SchemaFault};
ghost use Rattle.avro_schema.specs.declared.fault.SchemaFault.TheVariants.{NotJson};
ghost use Rattle.avro_schema.specs.Tree.{Tree};
ghost use Rattle.avro_schema.specs.Texts.{schema_of};
ghost use Rattle.avro_schema_laws.specs.Faults.{IsJson, HasFirstFault};

/// `NotJson` is told just where the text is no JSON in UTF-8.
pub fn only_a_text_that_is_no_json_is_told_so()
    ensures { (text : List ℕ) → (schema_of text ≡ Err NotJson) ↔ ((d : Data) → IsJson text d → ⊥) }
{}

/// The fault that is told is the first on the walk through the schema: from the root, depth first, fields and branches
/// in their order, each field before its type. So it is that of a type or a field that has it, and nothing before has
/// one. A schema without a fault is accepted.
pub fn the_first_fault_is_told()
    ensures told { (text : List ℕ) (d : Data) (e : SchemaFault)
        → IsJson text d → (schema_of text ≡ Err e) ↔ HasFirstFault d e }
    ensures accepted { (text : List ℕ) (d : Data)
        → IsJson text d → ((e : SchemaFault) → HasFirstFault d e → ⊥) → (t : Tree) × (schema_of text ≡ Ok t) }
{}
