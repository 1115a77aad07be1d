//! Reading standard input, or a file, to its end.

ghost use Rattle.std.specs.Prelude.{◌≡◌, ◌⊎◌, ◌<◌, ◌≤◌, ◌+◌, ◌*◌, drop, length, take, vec_len};
ghost use Rattle.std.specs.Prelude.{IfErr, IfOk, IfSome, OnErr, OnOk};
ghost use Rattle.std.specs.Io.KnownBytes.{Consumes, IsAtEnd, Keeps};

use ice_desk::ReadFault;
use std::alloc::{AllocError, Global};
use std::io::{self, ErrorKind, Read};

/// How many reads of standard input, or of one file, are made at most.
pub const MOST_READS: u64 = 16_777_216;

/// How many bytes a read gives at most.
const MOST_AT_ONCE: usize = 65_536;

/// Room is made for so many bytes at least.
const LEAST_ROOM: usize = 4096;

/// What room is made of.
static ZEROS: [u8; MOST_AT_ONCE] = [0; MOST_AT_ONCE];

/// Room for the bytes of one read.
pub(crate) fn room(alloc: Global) -> Result<Vec<u8>, AllocError>
    ensures { IfOk result (λ room. vec_len room ≡ 65536) }
{
    vec![in alloc; 0; MOST_AT_ONCE]
}

/// Makes room for a read behind the bytes that were read, where there is none: as much again, up to what a read gives.
/// What stands there from an earlier file is room too, and is not cleared.
fn make_room(bytes: &mut Vec<u8>, filled: usize) -> Result<(), AllocError>
    requires { filled ≤ vec_len bytes.old }
    ensures front { take filled bytes.new.items ≡ take filled bytes.old.items }
    ensures within { filled ≤ vec_len bytes.new }
    ensures room { OnOk result (filled < vec_len bytes.new) }
{
    if filled < bytes.len() {
        return Ok(());
    }
    bytes.extend_from_slice(&ZEROS[..filled.clamp(LEAST_ROOM, MOST_AT_ONCE)])
}

/// Reads once into the bytes from a place on, and says how many it gave.
fn read_at<R: Read>(reader: &mut R, bytes: &mut [u8], at: usize) -> io::Result<usize>
    requires { at < length bytes.old }
    ensures front { take at bytes.new ≡ take at bytes.old }
    ensures fits { IfOk result (λ n. at + n ≤ length bytes.new) }
    ensures most { IfOk result (λ n. n ≤ 65536) }
    ensures read { IfOk result (λ n. Consumes (R.remaining reader.old) (R.remaining reader.new)
        (take n (drop at bytes.new))) }
    ensures end { IfOk result (λ n. n ≡ 0 → IsAtEnd (R.remaining reader.new)) }
    ensures err { OnErr result (Keeps (R.remaining reader.old) (R.remaining reader.new)) }
    ensures same { length bytes.new ≡ length bytes.old }
{
    let most = (bytes.len() - at).min(MOST_AT_ONCE);
    reader.read(&mut bytes[at..at + most])
}

/// Reads once behind the bytes that were read before, and says how many it gave.
fn read_behind<R: Read>(reader: &mut R, bytes: &mut Vec<u8>, filled: usize) -> io::Result<usize>
    requires { filled < vec_len bytes.old }
    ensures front { take filled bytes.new.items ≡ take filled bytes.old.items }
    ensures within { filled ≤ vec_len bytes.new }
    ensures fits { IfOk result (λ n. filled + n ≤ vec_len bytes.new) }
    ensures most { IfOk result (λ n. n ≤ 65536) }
    ensures read { IfOk result (λ n. Consumes (R.remaining reader.old) (R.remaining reader.new)
        (take n (drop filled bytes.new.items))) }
    ensures end { IfOk result (λ n. n ≡ 0 → IsAtEnd (R.remaining reader.new)) }
    ensures err { OnErr result (Keeps (R.remaining reader.old) (R.remaining reader.new)) }
{
    read_at(reader, bytes.as_mut_slice(), filled)
}

/// Puts all that a reader has left in place of what `bytes` has. At most `turns` reads are made: where the last of them
/// does not see the end, or a read fails, it is `Device`. A read that a signal interrupted is made again, and counts. A
/// refusal leaves any bytes.
pub fn read_all_into<R: Read>(
    reader: &mut R,
    turns: u64,
    bytes: &mut Vec<u8>,
) -> Result<(), ReadFault>
    ensures all { OnOk result (IfSome (R.remaining reader.old) (λ left. bytes.new.items ≡ left)) }
    // A read gives at most 65,536 bytes.
    ensures most { OnOk result (length bytes.new.items ≤ turns * 65536) }
    ensures causes { IfErr result (λ e. (e ≡ ReadFault.Device) ⊎ (e ≡ ReadFault.Memory)) }
{
    let mut filled = 0;
    for turn in 0..turns {
        if make_room(bytes, filled).is_err() {
            return Err(ReadFault::Memory);
        }
        match read_behind(reader, bytes, filled) {
            Ok(0) => {
                bytes.truncate(filled);
                return Ok(());
            }
            Ok(count) => filled += count,
            Err(e) => {
                if e.kind() != ErrorKind::Interrupted {
                    return Err(ReadFault::Device);
                }
            }
        }
    }
    Err(ReadFault::Device)
}

/// All that a reader has left. At most `turns` reads are made: where the last of them does not see the end, or a read
/// fails, it is `Device`. A read that a signal interrupted is made again, and counts.
pub fn read_all<R: Read>(alloc: Global, reader: &mut R, turns: u64) -> Result<Vec<u8>, ReadFault>
    ensures all { IfOk result (λ bytes. IfSome (R.remaining reader.old) (λ left. bytes.items ≡ left)) }
    // A read gives at most 65,536 bytes.
    ensures most { IfOk result (λ bytes. length bytes.items ≤ turns * 65536) }
    ensures causes { IfErr result (λ e. (e ≡ ReadFault.Device) ⊎ (e ≡ ReadFault.Memory)) }
{
    let mut bytes = Vec::new(alloc);
    read_all_into(reader, turns, &mut bytes)?;
    Ok(bytes)
}
