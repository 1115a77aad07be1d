//! What follows from the definition of a schema's tree, said in its own words. Each function is a law: its contract is
//! the statement, and there is nothing to run.

ghost use Rattle.std.specs.Prelude.{◌≡◌, ◌≢◌, ◌≤◌, ℕ, ℤ, List, [], Ok, Err, Some, Option, MatchResult};
ghost use Rattle.serde_json.specs.Data.{Data};
ghost use Rattle.avro_schema.specs.declared.fault.SchemaFault.{SchemaFault};
ghost use Rattle.avro_schema.specs.declared.fault.SchemaFault.TheVariants.{Recursive, UnknownName, NameTwice};
ghost use Rattle.avro_schema.specs.declared.fault.SchemaFault.TheVariants.{FieldTwice, Memory};
ghost use Rattle.avro_schema.specs.declared.reading.Role.{Role};
ghost use Rattle.avro_schema.specs.Tree.{Tree};
ghost use Rattle.avro_schema.specs.Size.{nodes as node_count, depth as level_count};
ghost use Rattle.avro_schema.specs.Names.{lookup};
ghost use Rattle.avro_schema.specs.Inside.{Inside, Defines, Uses, HasRecursion};
ghost use Rattle.avro_schema.specs.Order.{At};
ghost use Rattle.avro_schema.specs.Reading.{Seen, tree_at};
ghost use Rattle.avro_schema.specs.Shape.{Shape, IsTwice};
ghost use Rattle.avro_schema.specs.Stands.{Meaning, Stands, NamesOf};
ghost use Rattle.avro_schema.specs.Faults.{HasUnknownName, HasNameTwice, HasIdTwice};
ghost use Rattle.avro_schema.specs.First.{HasFirst};
ghost use Rattle.avro_schema.specs.Refusals.{IsOnlyFor, IsRefused};
ghost use Rattle.avro_schema.specs.Texts.{json_of, schema_of, most_nodes, most_levels};

/// An accepted tree has at most 10,000 nodes and at most 32 levels.
pub fn accepted_tree_is_small()
    ensures nodes { (text : List ℕ) (t : Tree) → schema_of text ≡ Ok t → node_count t ≤ most_nodes }
    ensures depth { (text : List ℕ) (t : Tree) → schema_of text ≡ Ok t → level_count t ≤ most_levels }
{}

/// A name that is used stands for the tree of its definition: a definition gives its name its tree, what is known of a
/// name stays whatever is read next, and a use of a name is the tree that it was given.
pub fn used_name_stands_for_its_definition()
    ensures given { (n : ℕ) (at : Role) (space : List ℕ) (d : Data) (s q : Seen) (t : Tree) (name : List ℕ)
        → Defines space d name → tree_at n at space d s ≡ Ok (t, q)
        → lookup name q.names ≡ Some (Some t) }
    ensures stays { (n : ℕ) (at : Role) (space : List ℕ) (d : Data) (s q : Seen) (t : Tree) (name : List ℕ)
        (x : Option Tree) → lookup name s.names ≡ Some x → tree_at n at space d s ≡ Ok (t, q)
        → lookup name q.names ≡ Some x }
    ensures used { (n : ℕ) (at : Role) (space : List ℕ) (d : Data) (s q : Seen) (t : Tree) (name : List ℕ)
        → Uses space d name → tree_at n at space d s ≡ Ok (t, q)
        → lookup name s.names ≡ Some (Some t) }
{}

/// A schema in which a name is used inside its own definition is refused, and `Recursive` is answered for no other.
pub fn recursion_is_refused()
    ensures refused { IsRefused (HasRecursion []) }
    ensures nothing_else { IsOnlyFor Recursive (HasRecursion []) }
{}

/// The tree of a schema that uses no name is the shape of its JSON. It is accepted where that is small enough, unless a
/// name is defined twice or two fields of a record have one id.
pub fn schema_without_used_names_has_its_shape()
    ensures same { (text : List ℕ) (d : Data) (t u : Tree)
        → json_of text ≡ Ok d → Shape d u → schema_of text ≡ Ok t → t ≡ u }
    ensures accepted { (text : List ℕ) (d : Data) (t : Tree)
        → json_of text ≡ Ok d → Shape d t → node_count t ≤ most_nodes → level_count t ≤ most_levels
        → MatchResult (schema_of text) (λ u. u ≡ t) IsTwice }
{}

/// The tree of an accepted schema is what its JSON stands for, where each name that the schema defines stands for what
/// its definition stands for. No other tree is.
///
/// A schema that stands for a tree is accepted with it, where that is small enough, no name is used before its
/// definition or inside it, no name is defined twice, and no two fields of one record have one id.
pub fn schema_has_its_shape()
    ensures shape { (text : List ℕ) (d : Data) (t : Tree) → json_of text ≡ Ok d → schema_of text ≡ Ok t
        → (names : Meaning) × (NamesOf d names × Stands names [] d t) }
    ensures only { (text : List ℕ) (d : Data) (names : Meaning) (t u : Tree) → json_of text ≡ Ok d
        → NamesOf d names → Stands names [] d u → schema_of text ≡ Ok t → t ≡ u }
    ensures accepted { (text : List ℕ) (d : Data) (names : Meaning) (t : Tree) → json_of text ≡ Ok d
        → NamesOf d names → Stands names [] d t → node_count t ≤ most_nodes → level_count t ≤ most_levels
        → (HasUnknownName [] d → ⊥) → (HasRecursion [] d → ⊥) → (HasNameTwice [] d → ⊥)
        → ((id : ℤ) → HasIdTwice id [] d → ⊥) → schema_of text ≡ Ok t }
{}

/// A type has a place in another where it stands inside it, and nowhere else.
pub fn type_inside_has_a_place()
    ensures has { (space last : List ℕ) (d e : Data) → Inside space d last e
        → (place : List ℕ) × At place space d last e }
    ensures only { (place space last : List ℕ) (d e : Data) → At place space d last e → Inside space d last e }
{}

/// A schema in which a name is used that nothing before defines is refused, and `UnknownName` is answered for no other.
pub fn unknown_name_is_refused()
    ensures refused { IsRefused (HasUnknownName []) }
    ensures nothing_else { IsOnlyFor UnknownName (HasUnknownName []) }
{}

/// A schema in which a name is defined twice is refused, and `NameTwice` is answered for no other.
pub fn name_twice_is_refused()
    ensures refused { IsRefused (HasNameTwice []) }
    ensures nothing_else { IsOnlyFor NameTwice (HasNameTwice []) }
{}

/// A schema in which two fields of one record have one id is refused, and `FieldTwice` is answered only for an id that
/// two fields of one record have.
pub fn id_twice_is_refused()
    ensures refused { (text : List ℕ) (d : Data) (t : Tree) (id : ℤ)
        → json_of text ≡ Ok d → HasIdTwice id [] d → schema_of text ≡ Ok t → ⊥ }
    ensures nothing_else { (text : List ℕ) (d : Data) (id : ℤ)
        → json_of text ≡ Ok d → schema_of text ≡ Err (FieldTwice id) → HasIdTwice id [] d }
{}

/// The fault of a refused schema is the first: it stands at a place before which each name that is used was defined,
/// none is defined twice, and no record has an id twice. A fault of names or ids is that of the type at the place.
pub fn fault_is_the_first()
    ensures { (text : List ℕ) (d : Data) (e : SchemaFault)
        → json_of text ≡ Ok d → schema_of text ≡ Err e → HasFirst d e }
{}

/// No fault of a schema is want of memory: `Memory` is answered for want of it alone.
pub fn no_fault_is_memory()
    ensures { (text : List ℕ) → schema_of text ≢ Err Memory }
{}
