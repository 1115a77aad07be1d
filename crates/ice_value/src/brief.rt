//! A summary whose bounds are short.

ghost use Rattle.std.specs.Prelude.{◌≡◌, IfSome};
ghost use Rattle.std.specs.Option.{option_copied};
ghost use Rattle.ice_value.specs.Briefs.{bound_in, nan_in};

use std::marker::Model;

/// A bound of two bytes at most, or none.
#[derive(Clone, Copy)]
enum ShortBound {
    Absent,
    Empty,
    One([u8; 1]),
    Two([u8; 2]),
}

impl ShortBound {
    /// The bound; none where it is longer.
    fn new(bound: Option<&[u8]>) -> Option<ShortBound>
        ensures { IfSome result (λ short. bound_in short ≡ option_copied bound.entry) }
    {
        match bound {
            None => Some(ShortBound::Absent),
            Some([]) => Some(ShortBound::Empty),
            Some([byte]) => Some(ShortBound::One([*byte])),
            Some([first, second]) => Some(ShortBound::Two([*first, *second])),
            Some(_) => None,
        }
    }

    fn bytes(&self) -> Option<&[u8]>
        ensures { option_copied result ≡ bound_in self.now }
    {
        match self {
            ShortBound::Absent => None,
            ShortBound::Empty => Some(&[]),
            ShortBound::One(bytes) => Some(bytes.as_slice()),
            ShortBound::Two(bytes) => Some(bytes.as_slice()),
        }
    }
}

/// Whether a partition value is no number.
#[derive(Clone, Copy)]
enum Nan {
    Unsaid,
    No,
    Yes,
}

/// A summary in eight bytes: its bounds have two bytes at most.
#[derive(Drop)]
pub(crate) struct Brief {
    contains_null: bool,
    nan: Nan,
    lower: ShortBound,
    upper: ShortBound,
}

impl Model for Brief {
    ghost use Rattle.ice_value.specs.Summaries.{FieldSummary};
    ghost use Rattle.ice_value.specs.Briefs.{bound_in, nan_in};

    ghost Value = { FieldSummary };

    ghost view = { λ b. record {
      contains_null = b.contains_null;
      contains_nan = nan_in b.nan;
      lower = bound_in b.lower;
      upper = bound_in b.upper;
    } };
}

impl Brief {
    /// A summary with these bounds; none where one of them has more than two bytes.
    pub fn new(
        contains_null: bool,
        contains_nan: Option<bool>,
        lower: Option<&[u8]>,
        upper: Option<&[u8]>,
    ) -> Option<Brief>
        ensures { IfSome result (λ brief. brief ≡ record {
          contains_null = contains_null;
          contains_nan = contains_nan;
          lower = option_copied lower.entry;
          upper = option_copied upper.entry;
        }) }
    {
        let lower = ShortBound::new(lower)?;
        let upper = ShortBound::new(upper)?;
        let nan = match contains_nan {
            None => Nan::Unsaid,
            Some(false) => Nan::No,
            Some(true) => Nan::Yes,
        };
        Some(Brief {
            contains_null,
            nan,
            lower,
            upper,
        })
    }

    pub fn contains_null(&self) -> bool
        ensures { result ≡ self.now.contains_null }
    {
        self.contains_null
    }

    pub fn contains_nan(&self) -> Option<bool>
        ensures { result ≡ self.now.contains_nan }
    {
        match self.nan {
            Nan::Unsaid => None,
            Nan::No => Some(false),
            Nan::Yes => Some(true),
        }
    }

    pub fn lower(&self) -> Option<&[u8]>
        ensures { option_copied result ≡ self.now.lower }
    {
        self.lower.bytes()
    }

    pub fn upper(&self) -> Option<&[u8]>
        ensures { option_copied result ≡ self.now.upper }
    {
        self.upper.bytes()
    }
}
