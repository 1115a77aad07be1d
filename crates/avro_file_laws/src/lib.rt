//! Laws on reading Avro container files: what is given before a fault, and where each fault stands.
#![tactic(auto)]

mod laws;

pub use laws::{each_fault_stands_where_it_is, the_longest_front_is_given};
