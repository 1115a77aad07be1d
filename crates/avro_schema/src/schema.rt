//! The tree that a schema's text names.

use std::sync::Arc;

/// What an array stands for: a list, or a map whose items are records of a key and a value.
#[derive(Clone, Copy, Debug, PartialEq, Eq)]
pub enum ArrayKind {
    List,
    Map,
}

/// What bytes stand for: themselves, or the two's complement of a decimal number.
#[derive(Clone, Copy, Debug, PartialEq, Eq)]
pub enum BytesKind {
    Plain,
    Decimal,
}

/// A type, as a tree: each name in the text stands for the whole tree of its definition, and shares it in memory.
#[derive(Debug, Drop)]
#[cycle(schema)]
pub enum Schema {
    Null,
    Boolean,
    Int,
    Long,
    Float,
    Double,
    Bytes(BytesKind),
    String,
    /// So many bytes.
    Fixed(u32, BytesKind),
    /// One of so many symbols.
    Enum(usize),
    Record(Arc<Vec<Field>>),
    /// The items' type and their field id.
    Array(Arc<Schema>, Option<i32>, ArrayKind),
    /// The values' type; the keys are texts.
    Map(Arc<Schema>),
    Union(Arc<Vec<Schema>>),
}

/// A field of a record: its field id, where it has one, and its type.
#[derive(Debug, Drop)]
#[cycle(schema)]
pub struct Field {
    pub id: Option<i32>,
    pub schema: Schema,
}
