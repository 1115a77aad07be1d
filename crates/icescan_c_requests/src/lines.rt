//! The line that tells a fault.

ghost use Rattle.std.specs.Prelude.{◌≡◌, IfOk};
ghost use Rattle.icescan_text.specs.FaultTexts.{fault_text};

use contract_words::Items;
use icescan_text::{RunFault, put_fault};
use std::alloc::{AllocError, Global};

/// The line of a fault, the one that the program writes.
pub fn fault_line(alloc: Global, fault: &RunFault) -> Result<Items<u8>, AllocError>
    ensures { IfOk result (λ line. line ≡ fault_text fault.now) }
{
    let mut line = Vec::new(alloc);
    match put_fault(&mut line, fault) {
        Ok(()) => Ok(Items::from_vec(line)),
        Err(_) => Err(AllocError),
    }
}
