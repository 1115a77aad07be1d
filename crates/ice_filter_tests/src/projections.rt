//! Projections of filters through a partition field of the column `c`.

use crate::cases::expect;
use crate::columns::{bound, text};
use contract_words::Items;
use ice_filter::Bound;
use ice_meta::{PartitionField, Spec};
use ice_project::{PartFilter, project};
use ice_transform::Transform;
use ice_value::ColumnType;
use std::alloc::{AllocError, Global};

// Each line: a transform, the column's type, a filter, and what its projection has in it. A predicate without tests is
// one that every partition value meets.

/// Numbers are rounded down to tens.
const TENS: &str = "\
truncate[10] of int: c < 10 => test: AtMost(Whole(0))
truncate[10] of int: c <= 10 => test: AtMost(Whole(10))
truncate[10] of int: c > 9 => test: AtLeast(Whole(10))
truncate[10] of int: c > 5 => test: AtLeast(Whole(0))
truncate[10] of int: c = 1 => test: Among(Items { items: [Whole(0)] })
truncate[10] of int: c = -1 => test: Among(Items { items: [Whole(-10)] })
truncate[10] of int: c != 5 => [Predicate(Items { items: [] })]
truncate[10] of int: c <= -2147483648 => [Predicate(Items { items: [] })]
truncate[10] of long: c < -2147483648 => test: AtMost(Whole(-2147483650))
truncate[10] of long: c = -2147483648 => test: Among(Items { items: [Whole(-2147483650)] })
truncate[10] of long: c = -9223372036854775808 => [Predicate(Items { items: [] })]";

/// Texts are cut to so many characters, and byte strings to so many bytes.
const CUT: &str =
    r#"truncate[3] of string: c < 'iceberg' => test: AtMost(Text(Text { text: "ice" }))
truncate[3] of string: c starts with 'ic' => test: StartsWith(Text { text: "ic" })
truncate[3] of string: c starts with 'éééé' => test: Among(Items { items: [Text(Text { text: "ééé" })] })
truncate[2] of string: c = '氷山!' => test: Among(Items { items: [Text(Text { text: "氷山" })] })
truncate[1] of string: c = '🧊x' => test: Among(Items { items: [Text(Text { text: "🧊" })] })
truncate[2] of binary: c > x'010203' => test: AtLeast(Bytes(Items { items: [1, 2] }))
truncate[3] of binary: c = x'ff008001' => test: Among(Items { items: [Bytes(Items { items: [255, 0, 128] })] })"#;

/// Units of 2017-11-16T22:31:08, of the microsecond before 1970, and of the last microsecond.
const UNITS: &str = "\
year of timestamptz: c <= 1510871468000000 => test: AtMost(Whole(47))
year of timestamptz: c = 1510871468000000 => test: Among(Items { items: [Whole(47)] })
month of timestamptz: c >= 1510871468000000 => test: AtLeast(Whole(574))
month of timestamp: c = 1510871468000000 => test: Among(Items { items: [Whole(574)] })
day of timestamptz: c = 1510871468000000 => test: Among(Items { items: [Whole(17486)] })
hour of timestamp: c = 1510871468000000 => test: Among(Items { items: [Whole(419686)] })
hour of timestamp: c = -1 => test: Among(Items { items: [Whole(-1)] })
year of timestamp: c = -1 => test: Among(Items { items: [Whole(-1)] })
hour of timestamptz: c < 0 => test: AtMost(Whole(-1))
day of timestamp: c = 9223372036854775807 => test: Among(Items { items: [Whole(106751991)] })
hour of timestamp: c = 9223372036854775807 => [Predicate(Items { items: [] })]";

/// Months, years and days of days, at -9999-01-01 and 9999-12-31 too.
const DAYS: &str = "\
month of date: c = -31 => test: Among(Items { items: [Whole(-1)] })
month of date: c = -32 => test: Among(Items { items: [Whole(-2)] })
month of date: c = 58 => test: Among(Items { items: [Whole(1)] })
month of date: c = 59 => test: Among(Items { items: [Whole(2)] })
year of date: c = -4371587 => test: Among(Items { items: [Whole(-11969)] })
month of date: c = -4371587 => test: Among(Items { items: [Whole(-143628)] })
year of date: c = 2932896 => test: Among(Items { items: [Whole(8029)] })
month of date: c = 2932896 => test: Among(Items { items: [Whole(96359)] })
day of date: c = 2932897 => test: Among(Items { items: [Whole(2932897)] })
year of date: c = -4371588 => [Predicate(Items { items: [] })]
month of date: c = 2932897 => [Predicate(Items { items: [] })]";

/// 2017239379, the hash of 34, has the remainder 3 by 16.
const BUCKETS: &str = "\
bucket[16] of long: c = 34 => test: Among(Items { items: [Whole(3)] })
bucket[16] of int: c = 34 => test: Among(Items { items: [Whole(3)] })
bucket[16] of date: c = 17486 => test: Among(Items { items: [Whole(10)] })
bucket[16] of string: c = 'iceberg' => test: Among(Items { items: [Whole(9)] })
bucket[16] of long: c < 34 => [Predicate(Items { items: [] })]
bucket[16] of long: c is null => test: IsNull";

/// The hashes of the specification and of Murmur3's authors, without their highest bit.
const HASHES: &str = "\
bucket[2147483647] of long: c = 34 => [Whole(2017239379)]
bucket[2147483647] of date: c = 17486 => [Whole(1494153226)]
bucket[2147483647] of time: c = 81068000000 => [Whole(1484720659)]
bucket[2147483647] of timestamptz: c = 1510871468000000 => [Whole(99539207)]
bucket[2147483647] of uuid: c = 'f79c3e09-677c-4bbd-a479-3f349cb785e7' => [Whole(1488055340)]
bucket[2147483647] of fixed[4]: c = x'00010203' => [Whole(1958800441)]
bucket[2147483647] of binary: c = x'00010203' => [Whole(1958800441)]
bucket[2147483647] of binary: c = x'' => [Whole(0)]
bucket[2147483647] of binary: c = x'21' => [Whole(1919294708)]
bucket[2147483647] of binary: c = x'2143' => [Whole(553103482)]
bucket[2147483647] of binary: c = x'214365' => [Whole(2118813236)]
bucket[2147483647] of binary: c = x'21436587' => [Whole(1968918891)]
bucket[2147483647] of string: c = 'iceberg' => [Whole(1210000089)]
bucket[2147483647] of string: c = 'a' => [Whole(1009084850)]
bucket[2147483647] of string: c = 'abc' => [Whole(870159354)]
bucket[2147483647] of string: c = 'Hello, world!' => [Whole(1077296707)]
bucket[2147483647] of string: c = 'The quick brown fox jumps over the lazy dog' => [Whole(776992547)]";

/// The value itself, and transforms that say nothing of it.
const OTHERS: &str = "\
identity of int: c != 9 => test: NotAmong(Items { items: [Whole(9)] })
identity of string: c = 'ice' => test: Among(Items { items: [Text(Text { text: \"ice\" })] })
void of int: c = 7 => [Predicate(Items { items: [] })]
zorder of int: c = 7 => [Predicate(Items { items: [] })]
bucket[01] of int: c = 7 => [Predicate(Items { items: [] })]
hour of date: c = 7 => [Predicate(Items { items: [] })]";

fn type_of(name: &str) -> Option<ColumnType> {
    match name {
        "binary" => Some(ColumnType::Binary),
        "date" => Some(ColumnType::Date),
        "fixed[4]" => Some(ColumnType::Fixed(4)),
        "int" => Some(ColumnType::Int),
        "long" => Some(ColumnType::Long),
        "string" => Some(ColumnType::String),
        "time" => Some(ColumnType::Time),
        "timestamp" => Some(ColumnType::Timestamp),
        "timestamptz" => Some(ColumnType::Timestamptz),
        "uuid" => Some(ColumnType::Uuid),
        _ => None,
    }
}

/// The spec of that field alone.
fn spec_of(alloc: Global, transform: &str, column_type: ColumnType) -> Result<Spec, AllocError> {
    let mut fields = Items::new(alloc);
    fields.push(PartitionField {
        source_id: 1,
        field_id: 1000,
        name: text(alloc, "part")?,
        transform: text(alloc, transform)?,
        source_type: Some(column_type),
    })?;
    Ok(Spec { id: 0, fields })
}

fn projected(
    alloc: Global,
    transform: &str,
    column_type: ColumnType,
    filter: &Bound,
) -> Result<PartFilter, AllocError> {
    project(alloc, filter, &spec_of(alloc, transform, column_type)?)
}

/// Whether a projection has this in it.
fn has(alloc: Global, part: &PartFilter, look: &str) -> bool {
    match format!(in alloc; "{part:?}") {
        Ok(text) => text.as_str().contains(look),
        Err(_) => false,
    }
}

/// Whether a transform is written as the text that it was read of.
fn is_written_back(alloc: Global, name: &str) -> Option<bool> {
    let transform = Transform::parse(alloc, name).ok()?;
    Some(transform.text(alloc).ok()?.as_str() == name)
}

/// Whether the projection of a line's filter has in it what the line says.
fn projects(alloc: Global, line: &str) -> Option<bool> {
    let (field, case) = line.split_once(": ")?;
    let (transform, name) = field.split_once(" of ")?;
    let is_written_back = is_written_back(alloc, transform)?;
    let (filter, look) = case.split_once(" => ")?;
    let column_type = type_of(name)?;
    let filter = bound(alloc, column_type, filter).ok()?;
    let part = projected(alloc, transform, column_type, &filter).ok()?;
    Some(is_written_back && has(alloc, &part, look))
}

#[test]
fn projections(rt: HostRuntime) {
    for lines in [TENS, CUT, UNITS, DAYS, BUCKETS, HASHES, OTHERS] {
        for line in lines.lines() {
            expect(&rt, projects(rt.alloc(), line) == Some(true), line);
        }
    }
}
