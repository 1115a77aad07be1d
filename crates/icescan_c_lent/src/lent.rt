//! Bytes and ids that are lent to C.

ghost use Rattle.std.specs.Prelude.{◌≡◌, ℕ, ℤ, List, [], length, Option, Some};
ghost use denote.Builtin.{u8, i32};
ghost use Rattle.icescan_c_lent.specs.Lending.{are_lent};

use std::marker::Model;
use std::ptr::null;

/// Bytes that are lent to C: where they begin, which is null where there are none, and how many there are. What C has
/// there before a call is no bytes that we know.
#[repr(C)]
#[derive(Drop)]
pub struct Bytes {
    /// Where they begin.
    pub at: *const u8,
    /// How many there are.
    pub len: usize,
    pub ghost bytes: { Option (List ℕ) },
}

impl Model for Bytes {
    ghost also_owns = { λ b. are_lent u8 b.at b.len b.bytes };
}

impl Bytes {
    /// These bytes.
    pub fn of(bytes: &[u8]) -> Bytes
        ensures bytes { result.bytes ≡ Some bytes.now }
        ensures len { result.len ≡ length bytes.now }
    {
        if bytes.is_empty() {
            return Bytes::nothing();
        }
        Bytes::over(bytes)
    }

    fn nothing() -> Bytes
        ensures { (result.bytes ≡ Some []) × (result.len ≡ 0) }
    {
        Bytes { at: null(), len: 0 }
    }

    fn over(bytes: &[u8]) -> Bytes
        ensures { (result.bytes ≡ Some bytes.now) × (result.len ≡ length bytes.now) }
    {
        Bytes {
            at: bytes.as_ptr(),
            len: bytes.len(),
        }
    }
}

/// Ids that are lent to C, in the same way.
#[repr(C)]
#[derive(Drop)]
pub struct Ids {
    /// Where they begin.
    pub at: *const i32,
    /// How many there are.
    pub len: usize,
    pub ghost ids: { Option (List ℤ) },
}

impl Model for Ids {
    ghost also_owns = { λ i. are_lent i32 i.at i.len i.ids };
}

impl Ids {
    /// These ids.
    pub fn of(ids: &[i32]) -> Ids
        ensures ids { result.ids ≡ Some ids.now }
        ensures len { result.len ≡ length ids.now }
    {
        if ids.is_empty() {
            return Ids::nothing();
        }
        Ids::over(ids)
    }

    fn nothing() -> Ids
        ensures { (result.ids ≡ Some []) × (result.len ≡ 0) }
    {
        Ids { at: null(), len: 0 }
    }

    fn over(ids: &[i32]) -> Ids
        ensures { (result.ids ≡ Some ids.now) × (result.len ≡ length ids.now) }
    {
        Ids {
            at: ids.as_ptr(),
            len: ids.len(),
        }
    }
}
