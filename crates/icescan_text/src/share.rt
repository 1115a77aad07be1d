//! One of the shares of what a scan reads.

ghost use Rattle.std.specs.Prelude.{◌≡◌, ◌⊎◌, ◌<◌, ◌≤◌, MatchOption};

/// One of the shares of what a scan reads: its number, from 1, and how many there are, at most 65,536.
#[derive(Clone, Copy, Debug, PartialEq, Eq)]
pub struct Share {
    number: u64,
    count: u64,
    ghost some: { 0 < number },
    ghost within: { number ≤ count },
    ghost few: { count ≤ 65536 },
}

impl Share {
    /// The share of this number, of so many.
    pub fn new(number: u64, count: u64) -> Option<Share>
        ensures { MatchOption result ((number ≡ 0) ⊎ ((count < number) ⊎ (65536 < count)))
            (λ share. (share.number ≡ number) × (share.count ≡ count)) }
    {
        if number == 0 || number > count || count > 65_536 {
            return None;
        }
        Some(Share { number, count })
    }

    /// Its number, from 1.
    pub fn number(self) -> u64
        ensures same { result ≡ self.number }
        ensures some { 0 < result }
    {
        self.number
    }

    /// How many shares there are.
    pub fn count(self) -> u64
        ensures same { result ≡ self.count }
        ensures some { 0 < result }
        ensures few { result ≤ 65536 }
    {
        self.count
    }
}
