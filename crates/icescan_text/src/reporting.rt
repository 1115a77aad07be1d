//! The line that tells a fault.

ghost use Rattle.std.specs.Prelude.{◌≡◌};
ghost use Rattle.icescan_text.specs.Faults.{status_of};
ghost use Rattle.icescan_text.specs.FaultTexts.{fault_text};
ghost use Rattle.icescan_print.specs.Written.{Appends, AppendsFront};

use crate::fault::RunFault;
use crate::fault_text::put_fault;
use icescan_print::Sink;

/// Writes the line of a fault, and gives the status that the program ends with. A write that fails is ignored: then a
/// front of the line was written. It takes no memory, so that a lack of memory is told too.
pub fn report<E: Sink>(fault: &RunFault, errors: &mut E) -> u8
    ensures status { result ≡ status_of fault.now }
    ensures front { AppendsFront (E.taken errors.old) (E.taken errors.new) (fault_text fault.now) }
    ensures all { (E.may_fail errors.old → ⊥) →
        Appends (E.taken errors.old) (E.taken errors.new) (fault_text fault.now) }
{
    let _ = put_fault(errors, fault);
    fault.status()
}
