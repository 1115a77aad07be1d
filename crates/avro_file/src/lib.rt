//! Avro container files: the data that they hold, or the first fault.
#![tactic(auto)]

mod blocks;
mod container;
mod datum;
mod decode;
mod encode;
mod ends;
mod fault;
mod header;
mod known;
mod laws;
mod lean;
mod named;
mod object;
mod pairs;
mod quick;
mod repeated;
mod short;
mod window;
mod writer;

pub use container::{Container, Objects};
pub use datum::{Datum, ItemCount};
pub use decode::{datum_of, natural};
pub use ends::{end_of, takes_bytes};
pub use fault::{AvroFault, CodecName};
pub use laws::{
    a_skip_leaves_what_follows, before_a_fault, cut_files, held_is_read, no_fault_is_memory,
    no_item_limit, objects_take_bytes, one_list,
};
pub use lean::lean_schema;
pub use named::KnownSchema;
pub use object::Object;
pub use pairs::{Second, bytes_pairs_of, long_pairs_of, second_of_pair};
pub use quick::value_end;
pub use writer::{Property, Writer};
