//! Why a drill ends without its text.

ghost use Rattle.std.specs.Prelude.{◌≡◌};
ghost use Rattle.icescan_text.specs.Faults.{drill_status};

use contract_words::Text;

/// Why a drill ends without its text.
#[derive(Debug, Drop)]
pub enum DrillFault {
    /// A commit was tried as often as may be needed, and each time another commit came before it.
    Conflict,
    /// The plan of a version lacks the file at this path, which was committed before.
    Lost(Text),
}

impl DrillFault {
    /// The status that the program ends with: 4 for a conflict, and 1 for a lost file.
    pub fn status(&self) -> u8
        ensures { result ≡ drill_status self.now }
    {
        match self {
            DrillFault::Conflict => 4,
            DrillFault::Lost(_) => 1,
        }
    }
}
