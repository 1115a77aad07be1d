//! A line on a terminal that tells how much was read.

ghost use Rattle.std.specs.Prelude.{true};
ghost use Rattle.icescan_progress.specs.ProgressTexts.{IsShown};

use crate::progress_text::{erasure, progress_text};
use crate::watched::Progress;
use std::alloc::Global;
use std::io::Write;
use std::rt::Clock;
use std::sync::atomic::{AtomicBool, AtomicU64, Ordering};
use std::time::Instant;

/// When the first line is shown, in milliseconds: a command that ends before shows none.
const FIRST: u64 = 1_000;

/// How long a line is shown at least.
const PAUSE: u64 = 100;

/// A terminal that can be sent bytes by any thread.
pub trait Screen {
    /// Sends what a line shows, as far as it is taken.
    fn send(&self, bytes: &[u8])
        requires { IsShown bytes.now };
}

/// Standard error.
impl Screen for HostRuntime {
    fn send(&self, bytes: &[u8]) {
        let mut errors = self.stderr();
        let _ = errors.write_all(bytes);
    }
}

/// A line that is shown from the first second on, at most ten times a second. Where there is no clock none is.
#[derive(Drop)]
pub struct ProgressLine<'a, H> {
    host: &'a H,
    alloc: Global,
    begun: Option<Instant>,
    files: AtomicU64,
    bytes: AtomicU64,
    /// From when on the next line may be shown, in milliseconds since `begun`.
    due: AtomicU64,
    /// A line is shown.
    stands: AtomicBool,
}

impl<'a, H: Clock + Screen> ProgressLine<'a, H> {
    /// No line yet, of a command that begins now.
    pub fn new(host: &'a H, alloc: Global) -> Self {
        ProgressLine {
            host,
            alloc,
            begun: Instant::now(host).ok(),
            files: AtomicU64::new(0),
            bytes: AtomicU64::new(0),
            due: AtomicU64::new(FIRST),
            stands: AtomicBool::new(false),
        }
    }

    /// How many milliseconds went by.
    fn elapsed(&self) -> Option<u64> {
        let elapsed = self.begun?.elapsed(self.host).ok()?;
        u64::try_from(elapsed.as_millis()).ok()
    }

    /// Whether a line is to be shown now, and not by another thread.
    fn is_due(&self) -> bool {
        let Some(now) = self.elapsed() else {
            return false;
        };
        let due = self.due.load(Ordering::SeqCst);
        let next = now.saturating_add(PAUSE);
        now >= due
            && self
                .due
                .compare_exchange(due, next, Ordering::SeqCst, Ordering::SeqCst)
                .is_ok()
    }

    /// Shows the line of so many files and bytes.
    fn show(&self, files: u64, bytes: u64) {
        if let Ok(text) = progress_text(self.alloc, files, bytes) {
            self.stands.store(true, Ordering::SeqCst);
            self.host.send(&text);
        }
    }
}

impl<H: Clock + Screen> Progress for ProgressLine<'_, H> {
    ghost may_be_told = { λ _. true };

    fn file_read(&self, bytes: usize) {
        let bytes = bytes as u64;
        let files = self.files.fetch_add(1, Ordering::SeqCst).wrapping_add(1);
        let bytes = self
            .bytes
            .fetch_add(bytes, Ordering::SeqCst)
            .wrapping_add(bytes);
        if self.is_due() {
            self.show(files, bytes);
        }
    }

    fn clear(&self) {
        if self.stands.swap(false, Ordering::SeqCst) {
            self.host.send(erasure());
        }
    }
}
