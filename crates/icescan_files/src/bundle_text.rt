//! Reading a bundle line by line, so that the digits of one line are held at a time, and not those of all.

ghost use Rattle.std.specs.Prelude.{◌≡◌, ◌≢◌, ◌+◌, ◌*◌, ◌<◌, ◌≤◌, ◌^◌, ◌++◌, ◌∷◌, [], ℕ, List, Ok, Err, None, length};
ghost use Rattle.std.specs.Prelude.{take};
ghost use Rattle.std.specs.Prelude.{IfOk, IfErr, IfSome, OnOk, vec_len};
ghost use Rattle.std.specs.List.{All};
ghost use Rattle.std.specs.Io.KnownBytes.{Consumes, IsAtEnd};
ghost use Rattle.contract_words.specs.Outcome.{Gives};
ghost use Rattle.icescan_files.specs.Bundles.{IsInput, NoBundle, bundle_of, files_from};

use crate::bundle::Bundle;
use crate::input::{MOST_READS, room};
use icescan_text::RunFault;
use memchr::memchr;
use std::alloc::Global;
use std::io::{ErrorKind, Read};

/// What a front of a bundle's text has: the files of its lines, and the bytes behind its last line feed.
#[derive(Drop)]
pub struct Front {
    bundle: Bundle,
    lines: u64,
    begun: Vec<u8>,
}

impl Front {
    /// That of no text.
    pub fn empty(alloc: Global) -> Front
        ensures bundle { result.bundle ≡ [] }
        ensures lines { result.lines ≡ 0 }
        ensures begun { result.begun.items ≡ [] }
    {
        Front {
            bundle: Bundle::empty(alloc),
            lines: 0,
            begun: Vec::new(alloc),
        }
    }

    /// Ends the line that was begun.
    fn end_line(&mut self, alloc: Global) -> Result<(), RunFault>
        requires unbroken { All (λ b. b ≢ 10) self.old.begun.items }
        requires few { self.old.lines + 1 < 2 ^ 64 }
        ensures ok { OnOk result ((rest : List ℕ) →
            files_from self.new.lines self.new.bundle rest ≡
            files_from self.old.lines self.old.bundle (self.old.begun.items ++ 10 ∷ rest)) }
        ensures err { IfErr result (λ e. e ≢ RunFault.Memory → (rest : List ℕ) →
            files_from self.old.lines self.old.bundle (self.old.begun.items ++ 10 ∷ rest) ≡ Err e) }
        ensures lines { OnOk result (self.new.lines ≡ self.old.lines + 1) }
        ensures begun { OnOk result (self.new.begun.items ≡ []) }
    {
        self.lines += 1;
        self.bundle
            .add_line(alloc, self.lines, self.begun.as_slice())?;
        self.begun.clear();
        Ok(())
    }

    /// Ends the line that was begun, with these bytes at its end.
    fn end_line_with(&mut self, alloc: Global, end: &[u8]) -> Result<(), RunFault>
        requires unbroken { All (λ b. b ≢ 10) self.old.begun.items }
        requires end { All (λ b. b ≢ 10) end.now }
        requires few { self.old.lines + 1 < 2 ^ 64 }
        ensures ok { OnOk result ((rest : List ℕ) →
            files_from self.new.lines self.new.bundle rest ≡
            files_from self.old.lines self.old.bundle (self.old.begun.items ++ (end.now ++ 10 ∷ rest))) }
        ensures err { IfErr result (λ e. e ≢ RunFault.Memory → (rest : List ℕ) →
            files_from self.old.lines self.old.bundle (self.old.begun.items ++ (end.now ++ 10 ∷ rest)) ≡ Err e) }
        ensures lines { OnOk result (self.new.lines ≡ self.old.lines + 1) }
        ensures begun { OnOk result (self.new.begun.items ≡ []) }
    {
        self.begun.extend_from_slice(end)?;
        self.end_line(alloc)
    }

    /// Goes on with the next bytes of the text.
    pub fn take(&mut self, alloc: Global, bytes: &[u8]) -> Result<(), RunFault>
        requires unbroken { All (λ b. b ≢ 10) self.old.begun.items }
        requires few { self.old.lines + length bytes.now < 2 ^ 64 }
        ensures ok { OnOk result ((rest : List ℕ) →
            files_from self.new.lines self.new.bundle (self.new.begun.items ++ rest) ≡
            files_from self.old.lines self.old.bundle (self.old.begun.items ++ (bytes.now ++ rest))) }
        ensures err { IfErr result (λ e. e ≢ RunFault.Memory → (rest : List ℕ) →
            files_from self.old.lines self.old.bundle (self.old.begun.items ++ (bytes.now ++ rest)) ≡ Err e) }
        ensures unbroken { OnOk result (All (λ b. b ≢ 10) self.new.begun.items) }
        ensures few { OnOk result (self.new.lines + length self.new.begun.items ≤
            self.old.lines + length self.old.begun.items + length bytes.now) }
    {
        let mut left = bytes;
        'left: while let Some(at) = memchr(b'\n', left) {
            self.end_line_with(alloc, &left[..at])?;
            left = &left[at + 1..];
        }
        self.begun.extend_from_slice(left)?;
        Ok(())
    }

    /// The files of the text, where it ends here.
    pub fn finish(mut self, alloc: Global) -> Result<Bundle, RunFault>
        requires unbroken { All (λ b. b ≢ 10) self.begun.items }
        requires few { self.lines + length self.begun.items < 2 ^ 64 }
        ensures { Gives RunFault.Memory (λ bundle. bundle) result
            (files_from self.lines self.bundle self.begun.items) }
    {
        let line = self.begun.as_slice();
        if line.is_empty() {
            return Ok(self.bundle);
        }
        self.bundle.add_line(alloc, self.lines + 1, line)?;
        Ok(self.bundle)
    }
}

/// Reads once. None is the end; a read that a signal interrupted gives no bytes.
fn read_piece<R: Read>(reader: &mut R, room: &mut [u8]) -> Result<Option<usize>, RunFault>
    requires { 0 < length room.old }
    ensures piece { IfOk result (λ piece. IfSome piece (λ count. count ≤ length room.new)) }
    ensures bytes { IfOk result (λ piece. IfSome piece (λ count.
        Consumes (R.remaining reader.old) (R.remaining reader.new) (take count room.new))) }
    ensures end { result ≡ Ok None → IsAtEnd (R.remaining reader.old) }
    ensures cause { IfErr result (λ e. e ≡ RunFault.Input) }
{
    match reader.read(room) {
        Ok(0) => Ok(None),
        Ok(count) => Ok(Some(count)),
        Err(e) => {
            if e.kind() == ErrorKind::Interrupted {
                Ok(Some(0))
            } else {
                Err(RunFault::Input)
            }
        }
    }
}

/// Reads what is left, at most so many times.
fn read_rest<R: Read>(reader: &mut R, room: &mut [u8], turns: u64) -> Result<(), RunFault>
    requires { 0 < length room.old }
    ensures { IfErr result (λ e. e ≡ RunFault.Input) }
{
    for _ in 0..turns {
        if read_piece(reader, room)?.is_none() {
            return Ok(());
        }
    }
    Err(RunFault::Input)
}

/// The files of the bundle that a reader has left, read through this room.
fn read_lines<R: Read>(alloc: Global, reader: &mut R, room: &mut [u8]) -> Result<Bundle, RunFault>
    requires { (0 < length room.old) × (length room.old ≤ 65536) }
    ensures found { IfOk result (λ bundle. (text : List ℕ) × IsInput (R.remaining reader.old) text ×
        (bundle_of text ≡ Ok bundle)) }
    ensures refused { IfErr result (λ e. (text : List ℕ) × IsInput (R.remaining reader.old) text ×
        NoBundle text e) }
{
    let mut front = Front::empty(alloc);
    for turn in 0..MOST_READS {
        let Some(count) = read_piece(reader, room)? else {
            return front.finish(alloc);
        };
        if let Err(fault) = front.take(alloc, &room[..count]) {
            read_rest(reader, room, MOST_READS - turn - 1)?;
            return Err(fault);
        }
    }
    Err(RunFault::Input)
}

/// The files of the bundle that a reader has left, which is read to its end. The refusal is `Input` where a read fails
/// or the end does not come in 16,777,216 reads of at most 65,536 bytes; else `Bundle` with the first line that is
/// none.
pub fn read_bundle<R: Read>(alloc: Global, reader: &mut R) -> Result<Bundle, RunFault>
    ensures found { IfOk result (λ bundle. (text : List ℕ) × IsInput (R.remaining reader.old) text ×
        (bundle_of text ≡ Ok bundle)) }
    ensures refused { IfErr result (λ e. (text : List ℕ) × IsInput (R.remaining reader.old) text ×
        NoBundle text e) }
{
    let mut room = room(alloc)?;
    read_lines(alloc, reader, room.as_mut_slice())
}
