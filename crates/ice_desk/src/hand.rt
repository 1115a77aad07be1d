//! What the desk's rule speaks of. No value of `Hand` is made.

use std::collections::LinkedList;

/// What a seat has done.
pub struct Hand {
    /// For how many of the seats that were made it stands.
    pub seats: u64,
    /// The numbers that it drew, in order.
    pub drawn: LinkedList<u64>,
    /// The manifests that it marked, in order.
    pub marked: LinkedList<u64>,
    /// The manifests that it saw marked, in order.
    pub seen: LinkedList<u64>,
}

/// What a desk is made for.
#[derive(Drop)]
pub struct Size {
    /// How many manifests there are.
    pub manifests: u64,
    /// The first number that is no ticket.
    pub limit: u64,
    /// How many seats there are.
    pub seats: u64,
}
