//! What a worker left.

ghost use Rattle.std.specs.Prelude.{◌≡◌, ◌+◌, ◌<◌, ◌^◌};
ghost use Rattle.ice_desk.specs.Left.{all_left, counted, left_by_both};

/// What became of a manifest that a worker drew.
#[derive(Clone, Copy, Debug, PartialEq, Eq)]
pub enum Served {
    /// The state has it.
    Taken,
    /// There is no file at its path.
    Absent,
    /// Reading its file failed.
    Device,
    /// A growth was refused.
    Memory,
    /// It was marked: a worker took it before.
    Marked,
}

/// How many of the tickets that a worker drew it left, by cause.
#[derive(Clone, Copy, Debug, PartialEq, Eq)]
pub struct Left {
    /// There was no file.
    pub absent: u64,
    /// Reading the file failed.
    pub device: u64,
    /// A growth was refused.
    pub memory: u64,
    /// The manifest was marked: a worker took it before.
    pub marked: u64,
}

impl Left {
    /// No ticket was left.
    pub fn none() -> Left
        ensures { result ≡ record { absent = 0; device = 0; memory = 0; marked = 0 } }
    {
        Left {
            absent: 0,
            device: 0,
            memory: 0,
            marked: 0,
        }
    }

    /// Counts a ticket that was served so.
    pub(crate) fn count(&mut self, served: Served)
        requires { all_left self.old < 2 ^ 32 }
        ensures { self.new ≡ counted self.old served }
    {
        match served {
            Served::Taken => {}
            Served::Absent => self.absent += 1,
            Served::Device => self.device += 1,
            Served::Memory => self.memory += 1,
            Served::Marked => self.marked += 1,
        }
    }

    /// What two workers left together.
    pub fn plus(self, other: Left) -> Left
        requires { all_left self + all_left other < 2 ^ 64 }
        ensures { result ≡ left_by_both self other }
    {
        Left {
            absent: self.absent + other.absent,
            device: self.device + other.device,
            memory: self.memory + other.memory,
            marked: self.marked + other.marked,
        }
    }
}
