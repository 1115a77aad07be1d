//! The number of a refusal, as its line has it.

ghost use Rattle.std.specs.Prelude.{◌≡◌};
ghost use Rattle.icescan_c_requests.specs.Reasons.{digit_of, number_of, reason_in, reason_of};

/// The letter and the number of a refusal, as `F` and 2; both are 0 where it has none.
#[repr(C)]
#[derive(Clone, Copy)]
pub struct Reason {
    /// The letter's byte.
    pub letter: u32,
    /// The number.
    pub number: u32,
}

fn digit_of(byte: u8) -> Option<u32>
    ensures { result ≡ digit_of byte }
{
    if byte >= b'0' && byte <= b'9' {
        Some((byte - b'0') as u32)
    } else {
        None
    }
}

/// The number that begins with these bytes, of one digit or two.
fn number_of(first: u8, second: u8) -> Option<u32>
    ensures { result ≡ number_of first second }
{
    match (digit_of(first), digit_of(second)) {
        (Some(tens), Some(ones)) => Some(10 * tens + ones),
        (ones, _) => ones,
    }
}

fn reason_of(letter: u8, number: Option<u32>) -> Reason
    ensures { result ≡ reason_of letter number }
{
    match number {
        Some(number) => Reason {
            letter: letter as u32,
            number,
        },
        None => Reason {
            letter: 0,
            number: 0,
        },
    }
}

impl Reason {
    /// The number of the refusal that a line tells.
    pub fn of_line(line: &[u8]) -> Reason
        ensures { result ≡ reason_in line.now }
    {
        match (line.get(9), line.get(10), line.get(11)) {
            (Some(letter), Some(first), Some(second)) => {
                reason_of(*letter, number_of(*first, *second))
            }
            _ => reason_of(0, None),
        }
    }
}
