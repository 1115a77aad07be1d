//! Readers that fail, that a signal interrupts, and whose end comes late.

use ice_desk::ReadFault;
use icescan_files::read_all;
use std::alloc::Global;
use std::io::{self, ErrorKind, Read};

/// Gives a byte a time. The read of this number, from 1, fails.
#[derive(Drop)]
struct Faltering<'a> {
    bytes: &'a [u8],
    reads: u64,
    failing: u64,
    kind: ErrorKind,
}

impl Read for Faltering<'_> {
    fn read(&mut self, buf: &mut [u8]) -> io::Result<usize> {
        self.reads = self.reads.saturating_add(1);
        if self.reads == self.failing {
            return Err(io::Error::from(self.kind));
        }
        let count = self.bytes.len().min(buf.len()).min(1);
        buf[..count].copy_from_slice(&self.bytes[..count]);
        self.bytes = &self.bytes[count..];
        Ok(count)
    }
}

/// Readings: what there is to read, which read fails, and how, how many reads are allowed, and what is read, if it is
/// not refused.
static READINGS: [(&[u8], u64, ErrorKind, u64, Option<&[u8]>); 6] = [
    // Three bytes want four reads: the last one sees the end.
    (b"abc", 0, ErrorKind::Other, 4, Some(b"abc")),
    (b"abc", 0, ErrorKind::Other, 3, None),
    (b"", 0, ErrorKind::Other, 0, None),
    // An interrupted read is made again, and counts.
    (b"abc", 2, ErrorKind::Interrupted, 5, Some(b"abc")),
    (b"abc", 2, ErrorKind::Interrupted, 4, None),
    (b"abc", 3, ErrorKind::ConnectionReset, 9, None),
];

/// Whether so many reads give this, or none is given.
fn gives(alloc: Global, mut reader: Faltering, most: u64, expected: Option<&[u8]>) -> bool {
    match (read_all(alloc, &mut reader, most), expected) {
        (Ok(bytes), Some(expected)) => bytes.as_slice() == expected,
        (Err(ReadFault::Device), None) => true,
        _ => false,
    }
}

#[test]
fn readings(rt: HostRuntime) {
    for (bytes, failing, kind, most, expected) in &READINGS {
        let reader = Faltering {
            bytes: *bytes,
            reads: 0,
            failing: *failing,
            kind: *kind,
        };
        assert!(rt; gives(rt.alloc(), reader, *most, *expected));
    }
}
