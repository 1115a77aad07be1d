//! The pieces that JSON is written in.

ghost use Rattle.std.specs.Prelude.{◌≡◌, nat_lt};
ghost use Rattle.std.specs.Fmt.{signed_decimal};
ghost use Rattle.json.specs.Print.{quoted};
ghost use Rattle.serde_json.specs.Written.{comma_if};
ghost use Rattle.icescan_print.specs.Written.{Sent};
ghost use Rattle.icescan_forms.specs.Pieces.{each_from};

use crate::quotes::put_escaped;
use icescan_print::{Page, Sink, SinkFault};

/// Sends a text in quotes.
pub fn put_quoted<S: Sink>(page: &mut Page, sink: &mut S, text: &[u8]) -> Result<(), SinkFault>
    ensures { Sent S.taken S.may_fail sink.old page.old result sink.new page.new (quoted text.now) }
{
    page.put(sink, b"\"")?;
    put_escaped(page, sink, text)?;
    page.put(sink, b"\"")
}

/// What stands between a thing of a list, which has this place, and the one before it.
pub fn comma_before(i: usize) -> &'static [u8]
    ensures { result.now ≡ comma_if (nat_lt 0 i) }
{
    if 0 < i { b"," } else { b"" }
}

/// Sends ids, with commas between them.
pub fn put_ids<S: Sink>(page: &mut Page, sink: &mut S, ids: &[i32]) -> Result<(), SinkFault>
    ensures { Sent S.taken S.may_fail sink.old page.old result sink.new page.new
        (each_from (λ _ id. signed_decimal id) 0 ids.now) }
{
    for i in 0..ids.len() {
        page.put_named_int(sink, comma_before(i), ids[i])?;
    }
    Ok(())
}
