//! Where bytes are written to.

ghost use Rattle.std.specs.Prelude.{◌≡◌, ◌<◌, ◌≤◌, ◌++◌, ℕ, List, Option, length, take, IfOk, OnOk, OnErr};
ghost use Rattle.icescan_print.specs.Written.{Appends, Wrote};

use std::io::Write;

/// A write failed.
#[derive(Clone, Copy, Debug, PartialEq, Eq)]
pub struct SinkFault;

/// Takes bytes, one run after the other.
pub trait Sink {
    /// The bytes that it took so far, where it tells them.
    ghost taken: { Self → Option (List ℕ) };

    /// A write may fail.
    ghost may_fail: { Self → Type 0 };

    /// Takes a front of the bytes and says how many. A refusal took none. It refuses, or takes none of some bytes, only
    /// where a write may fail.
    fn write(&mut self, bytes: &[u8]) -> Result<usize, SinkFault>
        ensures count { IfOk result (λ n. n ≤ length bytes.now) }
        ensures took { IfOk result (λ n. Appends (taken self.old) (taken self.new) (take n bytes.now)) }
        ensures zero { IfOk result (λ n. n ≡ 0 → 0 < length bytes.now → may_fail self.old) }
        ensures none { OnErr result (taken self.new ≡ taken self.old) }
        ensures cause { OnErr result (may_fail self.old) }
        ensures still { may_fail self.new → may_fail self.old };
}

/// Writes all of the bytes, or a front of them where a write fails.
pub fn write_all<S: Sink>(sink: &mut S, bytes: &[u8]) -> Result<(), SinkFault>
    ensures { Wrote S.taken S.may_fail sink.old result sink.new bytes.now }
{
    let mut done = 0;
    while done < bytes.len() {
        let count = sink.write(&bytes[done..])?;
        if count == 0 {
            return Err(SinkFault);
        }
        done += count;
    }
    Ok(())
}

/// Memory takes all of the bytes, or none where it can't grow.
impl Sink for Vec<u8> {
    ghost use Rattle.std.specs.Prelude.{Some};

    ghost taken = { λ v. Some v.items };

    ghost may_fail = { λ v. Unit {0} };

    fn write(&mut self, bytes: &[u8]) -> Result<usize, SinkFault> {
        match self.extend_from_slice(bytes) {
            Ok(()) => Ok(bytes.len()),
            Err(_) => Err(SinkFault),
        }
    }
}

/// A writer of the system, as standard output: what it took is known to nobody here, and each write may fail.
#[derive(Drop)]
pub struct Output<W> {
    writer: W,
}

impl<W: Write> Output<W> {
    /// A sink over a writer. It keeps nothing back: each write is the writer's.
    pub fn new(writer: W) -> Self
        ensures { result ≡ record { writer = writer } }
    {
        Output { writer }
    }
}

impl<W: Write> Sink for Output<W> {
    ghost use Rattle.std.specs.Prelude.{None};

    ghost taken = { λ _. None };

    ghost may_fail = { λ _. Unit {0} };

    fn write(&mut self, bytes: &[u8]) -> Result<usize, SinkFault> {
        match self.writer.write(bytes) {
            Ok(count) => Ok(count),
            Err(_) => Err(SinkFault),
        }
    }
}

/// Takes nothing: what is on its way there stays on its page, as far as that has room.
#[derive(Debug, Drop)]
pub(crate) struct Nowhere;

impl Sink for Nowhere {
    ghost use Rattle.std.specs.Prelude.{[], Some};

    ghost taken = { λ _. Some [] };

    ghost may_fail = { λ _. Unit {0} };

    fn write(&mut self, _bytes: &[u8]) -> Result<usize, SinkFault> {
        Err(SinkFault)
    }
}
