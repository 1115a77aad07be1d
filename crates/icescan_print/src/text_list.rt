//! Lists of things that have texts.

ghost use Rattle.std.specs.Prelude.{◌≡◌, ◌<◌, ◌^◌, ℕ, List, length};
ghost use Rattle.icescan_print.specs.Ranges.{range_text};
ghost use Rattle.icescan_print.specs.Written.{Sent};

use crate::page::Page;
use crate::sink::{Sink, SinkFault};

/// Things in an order, each of which has a text: where they are lent, the texts of ranges of them can be sent.
pub trait TextList {
    /// Their texts.
    ghost texts: { Self → List (List ℕ) };

    /// How many there are.
    fn count(&self) -> usize
        ensures counted { result ≡ length (texts self.now) }
        ensures few { result < 2 ^ 63 };

    /// Sends the texts of so many of them from a place on, or of those that there are.
    fn put_range<S: Sink>(
        &self,
        page: &mut Page,
        sink: &mut S,
        first: usize,
        count: usize,
    ) -> Result<(), SinkFault>
        ensures { Sent S.taken S.may_fail sink.old page.old result sink.new page.new
            (range_text (texts self.now) first count) };
}
