//! The command `columns`.

use crate::parameter::Parameter;
use crate::parameters::{
    BUNDLE, COLUMNS_REF, COLUMNS_SNAPSHOT, DIR, LINES_FORMAT, METADATA, PREFIX,
};

pub const COLUMNS: &[Parameter] = &[
    METADATA,
    COLUMNS_REF,
    COLUMNS_SNAPSHOT,
    LINES_FORMAT,
    BUNDLE,
    DIR,
    PREFIX,
];

pub const COLUMNS_ABOUT: &str = "Print the columns that a filter may name, and partition fields";

pub const COLUMNS_EXAMPLE: &str =
    "A line for the schema, and after it one for each of its columns, each before
those inside it; then the spec of new files, and each partition spec with its
fields:
  schema ID columns N
  column ID type TYPE required yes|no filter yes|equality|no name NAME
  default-spec ID
  spec ID fields N
  field ID source COLUMN transform TRANSFORM name NAME
NAME of a column is what a filter writes, with double quotes where it needs
them; `-` is a list's element, a map's key or value, or what stands inside one,
which no filter names. `filter` says how a filter may compare the column:
`equality` by =, !=, in and is null alone. A name with control characters or
backslashes is escaped, as paths are.

The schema is the one that a filter of the same --ref or --snapshot is read by:
the current one, or that of the snapshot itself for a tag and for --snapshot.

With --format json each line is an object: its `kind` is the first word of the
line of text, in which a `field` or a `column` also has its `spec` or `schema`.
What no filter names has the name null.

Example, at the top of icescan's repository:
  icescan columns --dir examples/events-java/table --prefix s3://warehouse/db/events \\
    s3://warehouse/db/events/metadata/00009-ea5012f5-592b-59fd-6564-e953f439e682.metadata.json

Exit status: 0 done, 1 the metadata is refused, 2 the command line or the bundle
is, 3 a read or a write failed, 5 memory ran out. A refusal is one line on
standard error.";
