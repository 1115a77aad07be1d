//! A whole file: its header, and the objects one after the other.

ghost use Rattle.std.specs.Prelude.{◌≡◌, List, length, IfOk, IsTrue, Ok, None};
ghost use Rattle.contract_words.specs.Outcome.{Gives};
ghost use Rattle.avro_file_parts.specs.Exact.{IsRead};
ghost use Rattle.avro_schema.specs.View.{tree};
ghost use Rattle.avro_schema.specs.Texts.{schema_of};
ghost use Rattle.avro_file.specs.Where.{header_of_file, now_of};
ghost use Rattle.avro_file.specs.Blocks.{fault_of, refused};
ghost use Rattle.avro_file.specs.Files.{begun_at, uncompressed};

use crate::blocks::{Spot, entered, step};
use crate::fault::{AvroFault, CodecName};
use crate::header::{Header, MAGIC, NO_CODEC, header_of};
use crate::known::schema_once;
use crate::named::{KnownSchema, NamedSchema};
use crate::object::Object;
use avro_file_parts::Refusal;
use avro_schema::{Schema, SchemaFault};
use std::alloc::{AllocError, Global};

/// The header of a file.
#[tactic(auto, unfolding(crate::specs::Files::begun_at))]
fn begin(bytes: &[u8]) -> Result<Header<'_>, AvroFault>
    ensures { IsRead header_of_file result (begun_at bytes.now) }
{
    let total = bytes.len();
    if total < 4 {
        return Err(AvroFault::NotAvro);
    }
    let (front, rest) = bytes.split_at(4);
    if front != MAGIC {
        return Err(AvroFault::NotAvro);
    }
    match header_of(rest) {
        Ok(header) => Ok(header),
        Err(refusal) => Err(fault_of(refusal, total)),
    }
}

/// What a refusal is called, in a file of so many bytes.
fn fault_of(refusal: Refusal, total: usize) -> AvroFault
    ensures { result ≡ fault_of total refusal }
{
    match refusal {
        Refusal::Short(left) => AvroFault::Truncated(total.saturating_sub(left)),
        Refusal::BadNumber => AvroFault::BadNumber,
        Refusal::BadUnion => AvroFault::BadUnion,
        Refusal::BadUtf8 => AvroFault::BadUtf8,
        Refusal::BadBoolean => AvroFault::BadBoolean,
        Refusal::TooManyItems => AvroFault::TooManyItems,
        Refusal::BadSync => AvroFault::BadSync,
        Refusal::BlockSize => AvroFault::BlockSize,
        Refusal::Memory => AvroFault::Memory,
    }
}

/// Refuses each codec that compresses.
fn check_codec(alloc: Global, codec: Option<&[u8]>) -> Result<(), AvroFault>
    ensures { Gives AvroFault.Memory (λ x. x) result (uncompressed (now_of codec.entry)) }
{
    match codec {
        None => Ok(()),
        Some(name) => {
            if name == NO_CODEC {
                return Ok(());
            }
            let bytes = Vec::from_slice(alloc, name)?;
            Err(AvroFault::Codec(CodecName::from_vec(bytes)))
        }
    }
}

/// The type of the objects.
pub fn schema_named(alloc: Global, text: &[u8]) -> Result<Schema, AvroFault>
    ensures { Gives AvroFault.Memory tree result (refused AvroFault.Schema (schema_of text.now)) }
{
    match Schema::from_json(alloc, text) {
        Ok(schema) => Ok(schema),
        Err(SchemaFault::Memory) => Err(AvroFault::Memory),
        Err(fault) => Err(AvroFault::Schema(fault)),
    }
}

/// A file: its schema, and where its objects begin.
#[derive(Debug, Drop)]
pub struct Container<'a> {
    named: NamedSchema<'a>,
    sync: &'a [u8],
    total: usize,
    rest: &'a [u8],
}

impl<'a> Container<'a> {
    ghost use Rattle.avro_schema.specs.Tree.{Tree};
    ghost use Rattle.avro_file.specs.Value.{Value};
    ghost use Rattle.avro_file.specs.Ahead.{running};
    ghost use Rattle.avro_file.specs.Holding.{AreWithinLimits};
    ghost use Rattle.std.specs.Result.{IfErr};
    ghost use Rattle.avro_file.specs.Known.{known_tree};
    ghost use Rattle.avro_file.specs.Files.{HasHeader, ahead, at_start, tree_of, type_of, opened, opened_at, reader_of};
    ghost use Rattle.avro_file.specs.Files.{HoldsFile};

    /// The file of these bytes, of which nothing is copied.
    ///
    /// `NotAvro` comes where the file does not begin as a container does, and where its whole header names no
    /// schema; the faults of the header come in the order of its bytes, then `Codec`, then `Schema`.
    /// Of equal keys in the metadata the last counts. No block is looked at.
    pub fn open(alloc: Global, bytes: &'a [u8]) -> Result<Container<'a>, AvroFault>
        // Data that the file holds are what the reader will give.
        ensures held { (s : Tree) (vs : List Value) → HoldsFile s vs bytes.now → AreWithinLimits vs →
            Gives AvroFault.Memory opened result (Ok (reader_of s vs)) }
        // What it will give up to the file's end is what the file holds.
        ensures only { IfOk result (λ c. (vs : List Value) → at_start c ≡ running vs None →
            HoldsFile (tree_of c) vs bytes.now × AreWithinLimits vs) }
        // What it will give in any case, and which fault it is.
        ensures exact { Gives AvroFault.Memory opened result (opened_at bytes.now) }
        // No memory is asked for before the header was whole and named a schema.
        ensures memory { IfErr result (λ e. e ≡ AvroFault.Memory → HasHeader bytes.now) }
    {
        Container::read_header(alloc, None, bytes)
    }

    /// The same, where a caller knows a schema: if the file's has the same text, it is not read again.
    pub fn open_with(
        alloc: Global,
        known: &KnownSchema,
        bytes: &'a [u8],
    ) -> Result<Container<'a>, AvroFault>
        ensures held { (s : Tree) (vs : List Value) → HoldsFile s vs bytes.now → AreWithinLimits vs →
            Gives AvroFault.Memory opened result (Ok (reader_of s vs)) }
        ensures only { IfOk result (λ c. (vs : List Value) → at_start c ≡ running vs None →
            HoldsFile (tree_of c) vs bytes.now × AreWithinLimits vs) }
        ensures exact { Gives AvroFault.Memory opened result (opened_at bytes.now) }
        ensures memory { IfErr result (λ e. e ≡ AvroFault.Memory → HasHeader bytes.now) }
    {
        Container::read_header(alloc, Some(known), bytes)
    }

    /// The header, the codec and the schema, which is not read where it is known.
    #[tactic(auto, unfolding(crate::specs::Files::opened_at))]
    fn read_header(
        alloc: Global,
        known: Option<&KnownSchema>,
        bytes: &'a [u8],
    ) -> Result<Container<'a>, AvroFault>
        ensures exact { Gives AvroFault.Memory opened result (opened_at bytes.now) }
        ensures memory { IfErr result (λ e. e ≡ AvroFault.Memory → HasHeader bytes.now) }
    {
        let header = begin(bytes)?;
        let Some(text) = header.wanted.schema else {
            return Err(AvroFault::NotAvro);
        };
        check_codec(alloc, header.wanted.codec)?;
        let schema = schema_once(alloc, known, text)?;
        Ok(Container {
            named: NamedSchema { text, schema },
            sync: header.sync,
            total: bytes.len(),
            rest: header.rest,
        })
    }

    /// The type of the objects.
    pub fn schema(&self) -> &Schema
        ensures { tree result.now ≡ tree_of self.now }
    {
        &self.named.schema
    }

    /// The same schema with its text, to open other files by `open_with`. The text is copied, the schema shared.
    pub fn keep_schema(&self, alloc: Global) -> Result<KnownSchema, AllocError>
        ensures { IfOk result (λ known. known_tree known ≡ tree_of self.now) }
    {
        let text = self.named.text.to_vec(alloc)?;
        let schema = self.named.schema.share()?;
        Ok(KnownSchema { text, schema })
    }

    /// Whether the file's schema has the text that was kept. What was made of the known schema then fits.
    pub fn has_schema(&self, known: &KnownSchema) -> bool
        ensures { IsTrue result → tree_of self.now ≡ known_tree known.now }
    {
        self.named.text == known.text.as_slice()
    }

    /// The objects, from the first on.
    pub fn objects(&self) -> Objects<'_, 'a>
        ensures ahead { ahead result ≡ at_start self.now }
        ensures schema { type_of result ≡ tree_of self.now }
    {
        Objects {
            schema: &self.named.schema,
            sync: self.sync,
            total: self.total,
            spot: Spot {
                count: 0,
                block: &[],
                bytes: self.rest,
            },
            refused: None,
        }
    }
}

/// The objects of a file, one after the other. Nothing of them is built unasked.
#[derive(Debug, Drop)]
pub struct Objects<'s, 'a> {
    schema: &'s Schema,
    sync: &'a [u8],
    total: usize,
    spot: Spot<'a>,
    refused: Option<Refusal>,
}

impl<'s, 'a> Objects<'s, 'a> {
    ghost use Rattle.std.specs.Prelude.{[], IfSome};
    ghost use Rattle.avro_file.specs.Ahead.{running};
    ghost use Rattle.avro_file.specs.Alike.{EndAlike};
    ghost use Rattle.avro_file.specs.Files.{ahead, type_of, Next, Shows};
    ghost use Rattle.avro_file.specs.Front.{Front, StandsBefore, EndsAtFront};

    /// The next object, which was checked whole; none at the end of the file. This takes no memory.
    ///
    /// A block's count, size, content and marker are checked before its first object. An object that runs past its
    /// block, or bytes left behind the last one, are `BlockSize`. After a refusal each further call gives the same
    /// refusal. An object only lends: whether it is built, skipped or dropped changes nothing of what follows.
    pub fn next(&mut self) -> Result<Option<Object<'s, 'a>>, AvroFault>
        ensures next { Next Shows (ahead self.old) result (ahead self.new) }
        // At the end of the file it always answers so, and stays there.
        ensures end { ahead self.old ≡ running [] None → (result ≡ Ok None) × (ahead self.new ≡ running [] None) }
        ensures schema { type_of self.new ≡ type_of self.old }
        ensures object { IfOk result (λ next. IfSome next (λ o. tree o.schema.now ≡ type_of self.old)) }
    {
        let schema = self.schema;
        self.next_alike(schema)
    }

    /// The same, where a caller has a schema whose values end where those of the file's do, as `lean_schema` makes it:
    /// objects are checked by that one.
    pub fn next_alike(&mut self, passing: &Schema) -> Result<Option<Object<'s, 'a>>, AvroFault>
        requires { EndAlike (tree passing.now) (type_of self.old) }
        ensures next { Next Shows (ahead self.old) result (ahead self.new) }
        ensures end { ahead self.old ≡ running [] None → (result ≡ Ok None) × (ahead self.new ≡ running [] None) }
        ensures schema { type_of self.new ≡ type_of self.old }
        ensures object { IfOk result (λ next. IfSome next (λ o. tree o.schema.now ≡ type_of self.old)) }
    {
        if let Some(refusal) = self.refused {
            return Err(fault_of(refusal, self.total));
        }
        match step(passing, self.sync, self.spot) {
            Ok(None) => Ok(None),
            Ok(Some((bytes, spot))) => {
                self.spot = spot;
                Ok(Some(Object {
                    schema: self.schema,
                    bytes,
                }))
            }
            Err(refusal) => {
                self.refused = Some(refusal);
                Err(fault_of(refusal, self.total))
            }
        }
    }

    /// A reader that stands where this one does, and goes on by itself.
    pub fn fork(&self) -> Objects<'s, 'a>
        ensures { result ≡ self.now }
    {
        Objects {
            schema: self.schema,
            sync: self.sync,
            total: self.total,
            spot: self.spot,
            refused: self.refused,
        }
    }

    /// The bytes up to its block's end at whose front the next object stands, of which nothing was looked at yet; none
    /// at the end of the file. The objects that come stay the same. Refusals are those that `next` gives here.
    pub fn front(&mut self) -> Result<Option<&'a [u8]>, AvroFault>
        ensures front { Front self.old result self.new }
        ensures schema { type_of self.new ≡ type_of self.old }
    {
        if let Some(earlier) = self.refused {
            return Err(fault_of(earlier, self.total));
        }
        match entered(self.sync, self.spot) {
            Ok(None) => Ok(None),
            Ok(Some(spot)) => {
                self.spot = spot;
                Ok(Some(spot.block))
            }
            Err(met) => {
                self.refused = Some(met);
                Err(fault_of(met, self.total))
            }
        }
    }

    /// Passes the object at whose front the reader stands, where a caller found its end. It is given as `next` does.
    pub fn pass(&mut self, end: usize) -> Object<'s, 'a>
        requires { EndsAtFront self.old end }
        ensures next { Next Shows (ahead self.old) (Ok (Some result)) (ahead self.new) }
        ensures object { tree result.schema.now ≡ type_of self.old }
        ensures bytes { StandsBefore self.old result.bytes.now }
        ensures schema { type_of self.new ≡ type_of self.old }
    {
        let object = Object {
            schema: self.schema,
            bytes: self.spot.block,
        };
        self.spot = Spot {
            count: self.spot.count - 1,
            block: &self.spot.block[end..],
            bytes: self.spot.bytes,
        };
        object
    }
}
