//! Pieces of texts that are made in memory.

ghost use Rattle.std.specs.Prelude.{◌≡◌, ◌++◌, OnOk};
ghost use Rattle.icescan_print.specs.Pieces.{named_path, named_signed};

use icescan_print::{put_named_int, put_named_long, put_named_number, put_named_path};
use itoa::Integer;
use std::alloc::AllocError;

/// Puts a name last, and a number after it.
pub fn push_number<I: Integer>(text: &mut Vec<u8>, name: &[u8], n: I) -> Result<(), AllocError>
    ensures { OnOk result (text.new.items ≡ text.old.items ++ (name.now ++ I.text n)) }
{
    put_named_number(text, name, n).map_err(|_| AllocError)
}

/// As `push_number`, where the number may be negative.
pub fn push_int(text: &mut Vec<u8>, name: &[u8], n: i32) -> Result<(), AllocError>
    ensures { OnOk result (text.new.items ≡ text.old.items ++ named_signed name.now n) }
{
    put_named_int(text, name, n).map_err(|_| AllocError)
}

/// As `push_int`, for a long.
pub fn push_long(text: &mut Vec<u8>, name: &[u8], n: i64) -> Result<(), AllocError>
    ensures { OnOk result (text.new.items ≡ text.old.items ++ named_signed name.now n) }
{
    put_named_long(text, name, n).map_err(|_| AllocError)
}

/// Puts a name last, and a path after it, with its bytes escaped that can't stand in a line.
pub fn push_path(text: &mut Vec<u8>, name: &[u8], path: &[u8]) -> Result<(), AllocError>
    ensures { OnOk result (text.new.items ≡ text.old.items ++ named_path name.now path.now) }
{
    put_named_path(text, name, path).map_err(|_| AllocError)
}
