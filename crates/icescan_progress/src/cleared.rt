//! Where bytes are written to while a line may be shown.

ghost use Rattle.std.specs.Prelude.{◌≡◌};

use crate::watched::Progress;
use icescan_print::{Sink, SinkFault};

/// A sink that takes what another takes. What is shown is gone before each write.
#[derive(Drop)]
pub struct Cleared<'a, S, P> {
    sink: S,
    progress: &'a P,
}

impl<'a, S: Sink, P: Progress> Cleared<'a, S, P> {
    /// This sink, and what shows something.
    pub fn new(sink: S, progress: &'a P) -> Self
        ensures { result.sink ≡ sink }
    {
        Cleared { sink, progress }
    }
}

impl<S: Sink, P: Progress> Sink for Cleared<'_, S, P> {
    ghost taken = { λ cleared. S.taken cleared.sink };

    ghost may_fail = { λ cleared. S.may_fail cleared.sink };

    fn write(&mut self, bytes: &[u8]) -> Result<usize, SinkFault> {
        self.progress.clear();
        self.sink.write(bytes)
    }
}
