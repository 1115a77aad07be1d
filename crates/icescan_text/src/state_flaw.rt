//! Why a state's file is refused.

ghost use Rattle.std.specs.Prelude.{◌≡◌};
ghost use Rattle.icescan_text.specs.FaultTexts.{state_flaw_name};

/// Why a state's file is refused: the first of these that holds.
#[derive(Clone, Copy, Debug, PartialEq, Eq)]
pub enum StateFlaw {
    /// It does not begin as a state does.
    NotAState,
    /// It is of a version that this program does not read.
    OtherVersion,
    /// It is cut, or its bytes are not those that were written.
    Damaged,
    /// It is of another scan.
    OtherScan,
    /// It says what no manifest of the scan can give.
    NotOfScan,
}

impl StateFlaw {
    /// Its number and its name.
    pub(crate) fn name(self) -> &'static [u8]
        ensures { result.now ≡ state_flaw_name self }
    {
        match self {
            StateFlaw::NotAState => b"Y1 NotAState ",
            StateFlaw::OtherVersion => b"Y2 OtherVersion ",
            StateFlaw::Damaged => b"Y3 Damaged ",
            StateFlaw::OtherScan => b"Y4 OtherScan ",
            StateFlaw::NotOfScan => b"Y5 NotOfScan ",
        }
    }
}
