//! Copies of requests.

ghost use Rattle.std.specs.Prelude.{◌≡◌, IfOk};

use contract_words::Text;
use ice_meta::Target;
use icescan_text::Request;
use std::alloc::{AllocError, Global};

fn copy_target(alloc: Global, target: &Target) -> Result<Target, AllocError>
    ensures { IfOk result (λ copied. copied ≡ target.now) }
{
    match target {
        Target::Main => Ok(Target::Main),
        Target::Ref(name) => Ok(Target::Ref(name.copy(alloc)?)),
        Target::Snapshot(id) => Ok(Target::Snapshot(*id)),
    }
}

fn copy_text(alloc: Global, text: &Option<Text>) -> Result<Option<Text>, AllocError>
    ensures { IfOk result (λ copied. copied ≡ text.now) }
{
    match text {
        Some(text) => Ok(Some(text.copy(alloc)?)),
        None => Ok(None),
    }
}

/// The same request.
pub fn copy_request(alloc: Global, request: &Request) -> Result<Request, AllocError>
    ensures { IfOk result (λ copied. copied ≡ request.now) }
{
    Ok(Request {
        target: copy_target(alloc, &request.target)?,
        filter: copy_text(alloc, &request.filter)?,
    })
}
