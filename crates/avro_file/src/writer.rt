//! Files written.

ghost use Rattle.std.specs.Prelude.{◌≡◌, ◌++◌, ◌∷◌, [], ◌<◌, ◌^◌, ℕ, List, map, length, IfOk};
ghost use Rattle.std.specs.Prelude.{◌≢◌, Ok, Err, OnOk};
ghost use Rattle.std.specs.Result.{IfErr};
ghost use Rattle.avro_schema.specs.Tree.{Tree};
ghost use Rattle.avro_schema.specs.Texts.{schema_of};
ghost use Rattle.avro_file.specs.Blocks.{refused};
ghost use Rattle.avro_file.specs.Header.{Property as Shown};
ghost use Rattle.avro_file.specs.Files.{magic};
ghost use Rattle.avro_file.specs.Writing.{block_bytes, properties_written, file_bytes, in_order as all_in_order};
ghost use Rattle.avro_file.specs.Property.{shown_property, shown_properties};

use crate::container::schema_named;
use crate::datum::Datum;
use crate::encode::{push_byte, push_count, push_datum, push_position, push_raw, push_run};
use crate::fault::AvroFault;
use crate::header::{CODEC, MAGIC, NO_CODEC, SCHEMA};
use std::alloc::{AllocError, Global};

/// A key of a file's metadata, which is UTF-8, and the bytes under it.
#[derive(Clone, Copy, Debug)]
pub struct Property<'a> {
    pub key: &'a [u8],
    pub value: &'a [u8],
}

/// Refuses a text that names no schema.
fn check_schema(alloc: Global, text: &[u8]) -> Result<(), AvroFault>
    ensures named { OnOk result ((s : Tree) × (schema_of text.now ≡ Ok s)) }
    ensures refused { IfErr result (λ e. e ≢ AvroFault.Memory → refused AvroFault.Schema (schema_of text.now) ≡ Err e) }
{
    schema_named(alloc, text)?;
    Ok(())
}

/// The properties of a file of this schema, in the order of the bytes of their keys.
fn in_order<'a>(
    alloc: Global,
    schema: &'a [u8],
    metadata: &[Property<'a>],
) -> Result<Vec<Property<'a>>, AllocError>
    ensures { IfOk result (λ all. shown_properties all.items ≡
        all_in_order schema.now (shown_properties metadata.now)) }
{
    let mut properties = Vec::from_slice(alloc, metadata)?;
    properties.push(Property {
        key: CODEC,
        value: NO_CODEC,
    })?;
    properties.push(Property {
        key: SCHEMA,
        value: schema,
    })?;
    properties.sort_by(|a, b| a.key.cmp(b.key))?;
    Ok(properties)
}

/// Puts properties last, one after the other.
fn push_properties(bytes: Vec<u8>, properties: &[Property<'_>]) -> Result<Vec<u8>, AllocError>
    ensures { IfOk result (λ all. all.items ≡ bytes.items ++ properties_written (shown_properties properties.now)) }
{
    let mut bytes = bytes;
    'properties: for property in properties {
        bytes = push_run(bytes, property.key)?;
        bytes = push_run(bytes, property.value)?;
    }
    Ok(bytes)
}

/// The bytes of a marker.
fn marker_bytes(sync: &[u8; 16]) -> &[u8]
    ensures same { result.now ≡ sync.now }
    ensures sixteen { length sync.now ≡ 16 }
{
    prove!(sync.len() == 16);
    sync
}

/// Puts a header last, its marker among it.
fn push_header(
    bytes: Vec<u8>,
    properties: &[Property<'_>],
    sync: &[u8],
) -> Result<Vec<u8>, AllocError>
    ensures { IfOk result (λ all. all.items ≡ bytes.items ++ (magic ++
        (block_bytes (length properties.now) (properties_written (shown_properties properties.now)) ++ sync.now))) }
{
    let mut bytes = push_raw(bytes, MAGIC)?;
    if !properties.is_empty() {
        bytes = push_count(bytes, properties.len() as u64)?;
        bytes = push_properties(bytes, properties)?;
    }
    let bytes = push_byte(bytes, 0)?;
    push_raw(bytes, sync)
}

/// A file that is being written.
#[derive(Debug, Drop)]
pub struct Writer {
    header: Vec<u8>,
    sync: [u8; 16],
    count: u64,
    content: Vec<u8>,
}

impl Writer {
    ghost use Rattle.std.specs.Prelude.{MatchResult};
    ghost use Rattle.std.specs.Str.{IsUtf8};
    ghost use Rattle.std.specs.List.{AllByRecursion};
    ghost use Rattle.avro_file.specs.Value.{Value};
    ghost use Rattle.avro_file.specs.View.{view};
    ghost use Rattle.avro_file.specs.Holding.{AreWithinLimits};
    ghost use Rattle.avro_file.specs.Files.{HoldsFile, opened_at, reader_of};
    ghost use Rattle.avro_file.specs.Writers.{WasGiven, WillWrite, AreOf, HasMetadata};

    /// A file of no objects yet, of the type that a schema's text names, with these metadata, the schema and the codec
    /// `null`. The marker should be one that no other file has.
    ///
    /// A text that names no schema is `Schema`.
    pub fn new(
        alloc: Global,
        schema: &[u8],
        metadata: &[Property<'_>],
        sync: [u8; 16],
    ) -> Result<Writer, AvroFault>
        requires { AllByRecursion (λ p. IsUtf8 p.0) (shown_properties metadata.now) }
        ensures begun { IfOk result (λ w. (s : Tree) × (schema_of schema.now ≡ Ok s) ×
            WasGiven w (all_in_order schema.now (shown_properties metadata.now)) s []) }
        ensures exact { IfOk result (λ w.
            WillWrite w (all_in_order schema.now (shown_properties metadata.now)) sync []) }
        ensures refused { IfErr result (λ e. e ≢ AvroFault.Memory →
            refused AvroFault.Schema (schema_of schema.now) ≡ Err e) }
    {
        check_schema(alloc, schema)?;
        let properties = in_order(alloc, schema, metadata)?;
        let header = push_header(Vec::new(alloc), &properties, marker_bytes(&sync))?;
        Ok(Writer {
            header,
            sync,
            count: 0,
            content: Vec::new(alloc),
        })
    }

    /// Puts an object last. After want of memory the objects are those of before.
    #[tactic(auto, unfolding(crate::specs::Writers::WasGiven, crate::specs::Writers::WillWrite))]
    pub fn push(&mut self, alloc: Global, datum: &Datum<'_>) -> Result<(), AllocError>
        ensures given { (ps : List Shown) (s : Tree) (vs : List Value) → WasGiven self.old ps s vs → MatchResult result
            (λ _. WasGiven self.new ps s (vs ++ view datum.now ∷ [])) (λ _. WasGiven self.new ps s vs) }
        ensures exact { (ps : List Shown) (sync : List ℕ) (vs : List Value) → WillWrite self.old ps sync vs →
            MatchResult result (λ _. WillWrite self.new ps sync (vs ++ view datum.now ∷ []))
            (λ _. WillWrite self.new ps sync vs) }
    {
        if self.count >= i64::MAX as u64 {
            return Err(AllocError);
        }
        let one = push_datum(Vec::new(alloc), datum)?;
        self.content.extend_from_slice(&one)?;
        self.count += 1;
        Ok(())
    }

    /// The file's bytes, all objects in one block. Where they are of the schema, the file holds exactly them; a reader
    /// gives them back where they are within its limits too.
    #[tactic(auto, unfolding(crate::specs::Writers::WasGiven, crate::specs::Writers::WillWrite))]
    pub fn finish(self) -> Result<Vec<u8>, AllocError>
        ensures exact { (ps : List Shown) (sync : List ℕ) (vs : List Value) → WillWrite self ps sync vs →
            IfOk result (λ bytes. bytes.items ≡ file_bytes ps sync vs) }
        ensures holds { (ps : List Shown) (s : Tree) (vs : List Value) → WasGiven self ps s vs → AreOf s vs →
            IfOk result (λ bytes. HoldsFile s vs bytes.items) }
        ensures metadata { (ps : List Shown) (s : Tree) (vs : List Value) → WasGiven self ps s vs →
            IfOk result (λ bytes. HasMetadata ps bytes.items) }
        ensures read_back { (ps : List Shown) (s : Tree) (vs : List Value) → WasGiven self ps s vs → AreOf s vs →
            AreWithinLimits vs → IfOk result (λ bytes. opened_at bytes.items ≡ Ok (reader_of s vs)) }
    {
        let Writer {
            header,
            sync,
            count,
            content,
        } = self;
        if count == 0 {
            return Ok(header);
        }
        let bytes = push_position(header, count as usize)?;
        let bytes = push_count(bytes, content.len() as u64)?;
        let bytes = push_raw(bytes, &content)?;
        push_raw(bytes, &sync)
    }
}
