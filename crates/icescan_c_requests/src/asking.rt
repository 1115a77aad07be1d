//! What is asked of a table, in the bytes in which C hands it in.

ghost use Rattle.std.specs.Prelude.{[], ◌∷◌};
ghost use Rattle.icescan_c_requests.specs.Requests.{ReadsTexts, by_id, by_name, target_in, text_in};

use crate::endings::Refusal;
use contract_words::Text;
use ice_meta::Target;
use icescan_text::Request;
use std::alloc::Global;
use std::str::from_utf8;

/// The text of bytes; none where there are none. `Encoding` where they are no UTF-8, or `Memory`.
fn read_text(alloc: Global, bytes: &[u8]) -> Result<Option<Text>, Refusal>
    ensures { ReadsTexts (bytes.now ∷ []) (text_in bytes.now) result }
{
    let Ok(text) = from_utf8(bytes) else {
        return Err(Refusal::Encoding);
    };
    if bytes.is_empty() {
        return Ok(None);
    }
    Ok(Some(Text::from_string(String::from_str(alloc, text)?)))
}

/// The branch or tag of a name; without a name the current snapshot. The refusals are those of `read_text`.
fn read_target(alloc: Global, name: &[u8]) -> Result<Target, Refusal>
    ensures { ReadsTexts (name.now ∷ []) (target_in name.now) result }
{
    match read_text(alloc, name)? {
        Some(name) => Ok(Target::Ref(name)),
        None => Ok(Target::Main),
    }
}

/// A request for the snapshot that a branch or tag names, the current one without a name, under a filter, if there is
/// one.
pub fn request_by_name(alloc: Global, name: &[u8], filter: &[u8]) -> Result<Request, Refusal>
    ensures { ReadsTexts (name.now ∷ filter.now ∷ []) (by_name name.now filter.now) result }
{
    Ok(Request {
        target: read_target(alloc, name)?,
        filter: read_text(alloc, filter)?,
    })
}

/// A request for a snapshot by its id, under a filter, if there is one.
pub fn request_by_id(alloc: Global, id: i64, filter: &[u8]) -> Result<Request, Refusal>
    ensures { ReadsTexts (filter.now ∷ []) (by_id id filter.now) result }
{
    Ok(Request {
        target: Target::Snapshot(id),
        filter: read_text(alloc, filter)?,
    })
}
