//! The pieces that texts are made of. Nothing here takes memory.

ghost use Rattle.std.specs.Prelude.{◌++◌};
ghost use Rattle.icescan_print.specs.Pieces.{named_path, named_signed};
ghost use Rattle.icescan_print.specs.Written.{Wrote};

use crate::escape::put_escaped;
use crate::sink::{Sink, SinkFault, write_all};
use itoa::{Buffer, Integer};

/// Writes a number in decimal.
pub fn put_number<S: Sink, I: Integer>(sink: &mut S, n: I) -> Result<(), SinkFault>
    ensures { Wrote S.taken S.may_fail sink.old result sink.new (I.text n) }
{
    let mut buffer = Buffer::new();
    write_all(sink, buffer.format(n).as_bytes())
}

/// Writes a name and the number that it is about.
pub fn put_named_number<S: Sink, I: Integer>(
    sink: &mut S,
    name: &[u8],
    n: I,
) -> Result<(), SinkFault>
    ensures { Wrote S.taken S.may_fail sink.old result sink.new (name.now ++ I.text n) }
{
    write_all(sink, name)?;
    put_number(sink, n)
}

/// Writes a name and the int that it is about.
pub fn put_named_int<S: Sink>(sink: &mut S, name: &[u8], n: i32) -> Result<(), SinkFault>
    ensures { Wrote S.taken S.may_fail sink.old result sink.new (named_signed name.now n) }
{
    put_named_number(sink, name, n)
}

/// Writes a name and the long that it is about.
pub fn put_named_long<S: Sink>(sink: &mut S, name: &[u8], n: i64) -> Result<(), SinkFault>
    ensures { Wrote S.taken S.may_fail sink.old result sink.new (named_signed name.now n) }
{
    put_named_number(sink, name, n)
}

/// Writes a name and the path that it is about.
pub fn put_named_path<S: Sink>(sink: &mut S, name: &[u8], path: &[u8]) -> Result<(), SinkFault>
    ensures { Wrote S.taken S.may_fail sink.old result sink.new (named_path name.now path.now) }
{
    write_all(sink, name)?;
    put_escaped(sink, path)
}
