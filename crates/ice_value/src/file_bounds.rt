//! What manifests say about the values of files: summaries of partition fields, counts and bounds of columns.

ghost use Rattle.std.specs.Prelude.{◌≡◌, IfOk};
ghost use Rattle.std.specs.Option.{option_copied};
ghost use Rattle.ice_value.specs.Columns.{count_of, bound_of};

use crate::bounded::Bounded;
use crate::brief::Brief;
use crate::columns::{ColumnBounds, ColumnCounts};
use contract_words::Duplicate;
use std::alloc::{AllocError, Global};
use std::fmt::{self, Debug, Formatter};
use std::marker::Model;

/// What a manifest list says about one partition field over all files of a manifest. Bounds are single values in bytes,
/// of the type that the field's transform gives.
///
/// A list may have millions of summaries of a byte or some more, so that one with short bounds is small: bounds take
/// memory of their own only where one of them has more than two bytes.
#[derive(Drop)]
pub struct Summary {
    said: Said,
}

#[derive(Drop)]
enum Said {
    Short(Brief),
    Long(Box<Bounded>),
}

impl Model for Summary {
    ghost use Rattle.ice_value.specs.Summaries.{FieldSummary};
    ghost use Rattle.ice_value.specs.Said.{summary_said};

    ghost Value = { FieldSummary };

    ghost view = { λ s. summary_said s.said };
}

impl Summary {
    /// A summary with copies of these bounds. It takes memory only where one of them has more than two bytes.
    pub fn new(
        alloc: Global,
        contains_null: bool,
        contains_nan: Option<bool>,
        lower: Option<&[u8]>,
        upper: Option<&[u8]>,
    ) -> Result<Summary, AllocError>
        ensures { IfOk result (λ summary. summary ≡ record {
          contains_null = contains_null;
          contains_nan = contains_nan;
          lower = option_copied lower.entry;
          upper = option_copied upper.entry;
        }) }
    {
        if let Some(brief) = Brief::new(contains_null, contains_nan, lower, upper) {
            return Ok(Summary {
                said: Said::Short(brief),
            });
        }
        let bounded = Bounded::new(alloc, contains_null, contains_nan, lower, upper)?;
        Ok(Summary {
            said: Said::Long(Box::new(alloc, bounded)?),
        })
    }

    /// Whether a partition value is null.
    pub fn contains_null(&self) -> bool
        ensures { result ≡ self.now.contains_null }
    {
        match &self.said {
            Said::Short(brief) => brief.contains_null(),
            Said::Long(bounded) => bounded.contains_null(),
        }
    }

    /// Whether a partition value is no number, where the writer says it.
    pub fn contains_nan(&self) -> Option<bool>
        ensures { result ≡ self.now.contains_nan }
    {
        match &self.said {
            Said::Short(brief) => brief.contains_nan(),
            Said::Long(bounded) => bounded.contains_nan(),
        }
    }

    /// No partition value is below it.
    pub fn lower(&self) -> Option<&[u8]>
        ensures { option_copied result ≡ self.now.lower }
    {
        match &self.said {
            Said::Short(brief) => brief.lower(),
            Said::Long(bounded) => bounded.lower(),
        }
    }

    /// No partition value is above it.
    pub fn upper(&self) -> Option<&[u8]>
        ensures { option_copied result ≡ self.now.upper }
    {
        match &self.said {
            Said::Short(brief) => brief.upper(),
            Said::Long(bounded) => bounded.upper(),
        }
    }
}

/// A bound as a list of bytes is shown.
#[derive(Drop)]
struct Shown<'a> {
    bytes: &'a [u8],
}

impl<'a> Debug for Shown<'a> {
    fn fmt<W: fmt::Write>(&self, f: &mut Formatter<W>) -> fmt::Result {
        f.debug_struct("Items").field("items", &self.bytes).finish()
    }
}

/// Its four fields.
impl Debug for Summary {
    fn fmt<W: fmt::Write>(&self, f: &mut Formatter<W>) -> fmt::Result {
        f.debug_struct("Summary")
            .field("contains_null", &self.contains_null())
            .field("contains_nan", &self.contains_nan())
            .field("lower", &self.lower().map(|bytes| Shown { bytes }))
            .field("upper", &self.upper().map(|bytes| Shown { bytes }))
            .finish()
    }
}

impl PartialEq for Summary {
    ghost use Rattle.std.specs.Cmp.{partial_equiv_from_equiv};
    ghost use Rattle.ice_value.specs.Summaries.{same_summary};
    ghost use Rattle.ice_value.specs.Equality.{same_summary_equiv};

    ghost eq = { same_summary };

    ghost laws = { partial_equiv_from_equiv same_summary_equiv };

    fn eq(&self, other: &Self) -> bool {
        self.contains_null() == other.contains_null()
            && self.contains_nan() == other.contains_nan()
            && self.lower() == other.lower()
            && self.upper() == other.upper()
    }
}

impl Duplicate for Summary {
    fn copy(&self, alloc: Global) -> Result<Summary, AllocError> {
        Summary::new(
            alloc,
            self.contains_null(),
            self.contains_nan(),
            self.lower(),
            self.upper(),
        )
    }
}

/// What a manifest says about the columns of a file, by column id. It lends what lies in the file.
#[derive(Debug, Drop)]
pub struct FileBounds<'a, 'd> {
    /// How many values each column has, null ones among them.
    pub value_counts: ColumnCounts<'a>,
    /// How many values of each column are null.
    pub null_counts: ColumnCounts<'a>,
    /// No value of the column is below its lower bound.
    pub lower_bounds: ColumnBounds<'a, 'd>,
    /// No value of the column is above its upper bound.
    pub upper_bounds: ColumnBounds<'a, 'd>,
}

impl<'a, 'd> FileBounds<'a, 'd> {
    /// How many values the column has, null ones among them.
    pub fn value_count(&self, column: i32) -> Option<i64>
        ensures { result ≡ count_of column self.now.value_counts }
    {
        self.value_counts.get(column)
    }

    /// How many values of the column are null.
    pub fn null_count(&self, column: i32) -> Option<i64>
        ensures { result ≡ count_of column self.now.null_counts }
    {
        self.null_counts.get(column)
    }

    /// The bytes of the column's lower bound.
    pub fn lower_bound(&self, column: i32) -> Option<&[u8]>
        ensures { option_copied result ≡ bound_of column self.now.lower_bounds }
    {
        self.lower_bounds.get(column)
    }

    /// The bytes of the column's upper bound.
    pub fn upper_bound(&self, column: i32) -> Option<&[u8]>
        ensures { option_copied result ≡ bound_of column self.now.upper_bounds }
    {
        self.upper_bounds.get(column)
    }
}
