//! Pieces of a text on their way to a sink.

ghost use Rattle.std.specs.Prelude.{◌≡◌, ◌<◌, ◌≤◌, ◌++◌, [], Ok, Err, IfOk, IfErr, OnOk, if◌then◌else◌, length, take};
ghost use Rattle.icescan_print.specs.Escaping.{escaped};
ghost use Rattle.icescan_print.specs.Pieces.{named_signed};
ghost use Rattle.icescan_print.specs.Written.{Sent, Wrote};

use crate::escape::{count_plain, digits_of, has_escaped, is_escaped};
use crate::sink::{Sink, SinkFault, write_all};
use itoa::{Buffer, Integer};
use std::alloc::{AllocError, Global};
use std::marker::Model;

/// How many bytes wait at most.
const ROOM: usize = 65_536;

/// Pieces of a text that wait for their sink: they go there together, once there is no room for one more. All memory is
/// taken at the start.
#[derive(Debug, Drop)]
pub struct Page {
    bytes: Vec<u8>,
}

impl Model for Page {
    ghost use Rattle.std.specs.Prelude.{List, ℕ};

    ghost Value = { List ℕ };

    ghost view = { λ p. p.bytes.items };
}

impl Page {
    /// A page on which nothing waits.
    pub fn new(alloc: Global) -> Result<Page, AllocError>
        ensures { IfOk result (λ page. page ≡ []) }
    {
        Page::with_room(alloc, ROOM)
    }

    /// A page on which nothing waits, with room for so many bytes.
    pub(crate) fn with_room(alloc: Global, room: usize) -> Result<Page, AllocError>
        ensures { IfOk result (λ page. page ≡ []) }
    {
        Ok(Page {
            bytes: Vec::with_capacity(alloc, room)?,
        })
    }

    /// What its memory is taken from.
    pub(crate) fn alloc(&self) -> Global {
        *self.bytes.allocator()
    }

    /// What waits.
    pub(crate) fn bytes(&self) -> &[u8]
        ensures { result.now ≡ self.now }
    {
        &self.bytes
    }

    /// Takes all that waits off the page, to no sink.
    pub(crate) fn clear(&mut self)
        ensures { self.new ≡ [] }
    {
        self.bytes.clear();
    }

    /// Puts a piece behind those that wait, where there is room for it.
    fn keep(&mut self, piece: &[u8]) -> bool
        ensures { self.new ≡ (if result then self.old ++ piece.now else self.old) }
    {
        if self.bytes.capacity() - self.bytes.len() < piece.len() {
            return false;
        }
        self.bytes.extend_from_slice(piece).is_ok()
    }

    /// Writes all that waits.
    pub fn flush<S: Sink>(&mut self, sink: &mut S) -> Result<(), SinkFault>
        ensures wrote { Wrote S.taken S.may_fail sink.old result sink.new self.old }
        ensures empty { OnOk result (self.new ≡ []) }
    {
        write_all(sink, &self.bytes)?;
        self.clear();
        Ok(())
    }

    /// Sends a piece on its way.
    pub fn put<S: Sink>(&mut self, sink: &mut S, piece: &[u8]) -> Result<(), SinkFault>
        ensures { Sent S.taken S.may_fail sink.old self.old result sink.new self.new piece.now }
    {
        if self.keep(piece) {
            return Ok(());
        }
        self.flush(sink)?;
        if self.keep(piece) {
            return Ok(());
        }
        write_all(sink, piece)
    }

    /// Sends a number in decimal.
    pub fn put_number<S: Sink, I: Integer>(&mut self, sink: &mut S, n: I) -> Result<(), SinkFault>
        ensures { Sent S.taken S.may_fail sink.old self.old result sink.new self.new (I.text n) }
    {
        let mut buffer = Buffer::new();
        self.put(sink, buffer.format(n).as_bytes())
    }

    /// Sends a name and the number that it is about.
    pub fn put_named_number<S: Sink, I: Integer>(
        &mut self,
        sink: &mut S,
        name: &[u8],
        n: I,
    ) -> Result<(), SinkFault>
        ensures { Sent S.taken S.may_fail sink.old self.old result sink.new self.new (name.now ++ I.text n) }
    {
        self.put(sink, name)?;
        self.put_number(sink, n)
    }

    /// Sends a name and the int that it is about.
    pub fn put_named_int<S: Sink>(
        &mut self,
        sink: &mut S,
        name: &[u8],
        n: i32,
    ) -> Result<(), SinkFault>
        ensures { Sent S.taken S.may_fail sink.old self.old result sink.new self.new (named_signed name.now n) }
    {
        self.put_named_number(sink, name, n)
    }

    /// Sends a name and the long that it is about.
    pub fn put_named_long<S: Sink>(
        &mut self,
        sink: &mut S,
        name: &[u8],
        n: i64,
    ) -> Result<(), SinkFault>
        ensures { Sent S.taken S.may_fail sink.old self.old result sink.new self.new (named_signed name.now n) }
    {
        self.put_named_number(sink, name, n)
    }

    /// Sends a name and the path that it is about.
    pub fn put_named_path<S: Sink>(
        &mut self,
        sink: &mut S,
        name: &[u8],
        path: &[u8],
    ) -> Result<(), SinkFault>
        ensures { Sent S.taken S.may_fail sink.old self.old result sink.new self.new (name.now ++ escaped path.now) }
    {
        self.put(sink, name)?;
        self.put_escaped(sink, path)
    }

    /// Sends a path or a name, escaped.
    pub fn put_escaped<S: Sink>(&mut self, sink: &mut S, bytes: &[u8]) -> Result<(), SinkFault>
        ensures { Sent S.taken S.may_fail sink.old self.old result sink.new self.new (escaped bytes.now) }
    {
        if !has_escaped(bytes) {
            return self.put(sink, bytes);
        }
        self.put_fronts(sink, bytes)
    }

    /// Sends a path or a name, escaped, a run of plain bytes or one escaped byte at a time.
    fn put_fronts<S: Sink>(&mut self, sink: &mut S, bytes: &[u8]) -> Result<(), SinkFault>
        ensures { Sent S.taken S.may_fail sink.old self.old result sink.new self.new (escaped bytes.now) }
    {
        let mut done = 0;
        while done < bytes.len() {
            done += self.put_front(sink, &bytes[done..])?;
        }
        Ok(())
    }

    /// Sends the first byte where it has to be escaped, else all bytes before the next such byte, and says how many.
    fn put_front<S: Sink>(&mut self, sink: &mut S, bytes: &[u8]) -> Result<usize, SinkFault>
        requires { 0 < length bytes.now }
        ensures some { IfOk result (λ n. 0 < n) }
        ensures within { IfOk result (λ n. n ≤ length bytes.now) }
        ensures ok { IfOk result (λ n. Sent S.taken S.may_fail sink.old self.old (Ok tt) sink.new self.new
            (escaped (take n bytes.now))) }
        ensures err { IfErr result (λ e. Sent S.taken S.may_fail sink.old self.old (Err e) sink.new self.new
            (escaped bytes.now)) }
    {
        if is_escaped(bytes[0]) {
            self.put(sink, &digits_of(bytes[0]))?;
            return Ok(1);
        }
        let plain = count_plain(bytes);
        self.put(sink, &bytes[..plain])?;
        Ok(plain)
    }
}
