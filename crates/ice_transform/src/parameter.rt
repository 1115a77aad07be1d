//! The number of a transform.

ghost use Rattle.std.specs.Prelude.{◌≡◌, ◌<◌};

/// The N of `bucket[N]` or the W of `truncate[W]`: from 1 to 2147483647.
#[derive(Clone, Copy, Debug, PartialEq, Eq)]
pub struct Parameter {
    number: u32,
    ghost positive: { 0 < number },
    ghost below: { number < 0x8000_0000 },
}

impl Parameter {
    ghost use Rattle.std.specs.Option.{option_map};
    ghost use Rattle.ice_transform.specs.Parameters.{parameter_if};
    ghost use Rattle.ice_transform.specs.declared.parameter.Parameter.{Parameter};

    /// The number; none outside 1 to 2147483647.
    pub fn new(number: u32) -> Option<Parameter>
        ensures { option_map (λ (parameter : Parameter). parameter.number) result ≡ parameter_if number }
    {
        if number > 0 && number < 0x8000_0000 {
            Some(Parameter { number })
        } else {
            None
        }
    }

    /// The number itself.
    pub fn get(self) -> u32
        ensures { result ≡ self.number }
    {
        self.number
    }
}
