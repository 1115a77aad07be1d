//! What a refused growth leaves. The tests are run with each allocation refused in turn, by `tools/trials/refuse
//! --test`: the call succeeds when it is repeated, and the arena holds what was interned and nothing else.

use crate::held::holds;
use path_arena::{Arena, ArenaFault};
use std::alloc::{AllocError, Global};

/// Strings, of which the last four have one hash.
const PATHS: [&[u8]; 9] = [
    b"s3://a/one",
    b"",
    b"s3://a/two",
    b"s3://a/on",
    b"\x00",
    b"s3://a/one/file0.orc-zzz",
    b"s3://a/oaipbnepdJg8S22rG",
    b"s3://a/oplodhpalcGrtVv.2",
    b"s3://a/openljiljbfjilnoiHpATxCkQ",
];

/// Interns a string, again where a growth was refused.
fn intern_at_last(arena: &mut Arena, string: &[u8]) -> Result<(), ArenaFault> {
    if arena.intern(string).is_err() {
        arena.intern(string)?;
    }
    Ok(())
}

/// Makes room, again where a growth was refused.
fn reserve_at_last(arena: &mut Arena, ids: usize, bytes: usize) -> Result<(), ArenaFault> {
    if arena.reserve(ids, bytes).is_err() {
        arena.reserve(ids, bytes)?;
    }
    Ok(())
}

/// The copy, also where a growth was refused at first.
fn copied_at_last(arena: &Arena, alloc: Global) -> Result<Arena, AllocError> {
    match arena.copy(alloc) {
        Ok(copied) => Ok(copied),
        Err(_) => arena.copy(alloc),
    }
}

/// Interns the paths, with too little room for them and with much behind them.
fn fill(arena: &mut Arena) -> Result<(), ArenaFault> {
    reserve_at_last(arena, 1, 4)?;
    for path in PATHS {
        intern_at_last(arena, path)?;
    }
    reserve_at_last(arena, 1_000, 2_000_000)
}

/// Whether a copy of the arena has the paths.
fn copy_holds(arena: &Arena, alloc: Global) -> bool {
    match copied_at_last(arena, alloc) {
        Ok(copied) => holds(&copied, &PATHS),
        Err(_) => false,
    }
}

#[test]
fn a_refused_growth_changes_nothing(rt: HostRuntime) {
    let mut arena = Arena::new(rt.alloc());
    let is_filled = fill(&mut arena).is_ok();
    let is_right = is_filled && holds(&arena, &PATHS) && copy_holds(&arena, rt.alloc());
    assert!(rt; is_right);
}

/// A string of 200 bytes. Forty of them take two chunks, and buckets that are made anew again and again.
fn long_string(number: u8) -> [u8; 200] {
    let mut string = [b'a'; 200];
    string[199] = number;
    string
}

fn fill_with_long(arena: &mut Arena) -> Result<(), ArenaFault> {
    for number in 0..40u8 {
        intern_at_last(arena, &long_string(number))?;
    }
    Ok(())
}

/// Whether the arena knows the forty long strings by their numbers.
fn holds_long(arena: &Arena) -> bool {
    for number in 0..40u8 {
        match arena.find(&long_string(number)) {
            Some(id) if id.place() == number as u32 => {}
            _ => return false,
        }
    }
    true
}

/// Here it is interning that makes the room.
#[test]
fn a_refused_intern_changes_nothing(rt: HostRuntime) {
    let mut arena = Arena::new(rt.alloc());
    let is_right = fill_with_long(&mut arena).is_ok() && holds_long(&arena);
    assert!(rt; is_right);
}
