//! A schema beside the text that names it.

ghost use Rattle.std.specs.Prelude.{◌≡◌, Ok};
ghost use Rattle.std.proofs.Props.{props};
ghost use Rattle.avro_file.specs.Sets.{tree_set, fault_set};
ghost use Rattle.avro_schema.specs.View.{tree};
ghost use Rattle.avro_schema.specs.Texts.{schema_of};

use avro_schema::Schema;

/// The schema of a file, with its text there.
#[derive(Debug, Drop)]
pub struct NamedSchema<'a> {
    pub text: &'a [u8],
    pub schema: Schema,
    ghost named: { schema_of text.now ≡ Ok (tree schema) } by { Prim.hlevel (props, tree_set, fault_set) },
}

/// A schema that is kept with its text, so that files of the same text need not read it again.
///
/// The files that one writer makes have one schema text. A caller keeps the schema of the first of them
/// (`Container::keep_schema`), opens the others by `Container::open_with`, and keeps what it made of the schema beside
/// it, as long as `Container::has_schema` answers true.
#[derive(Debug, Drop)]
pub struct KnownSchema {
    pub(crate) text: Vec<u8>,
    pub(crate) schema: Schema,
    ghost named: { schema_of text.items ≡ Ok (tree schema) } by { Prim.hlevel (props, tree_set, fault_set) },
}
