//! The command `explain`.

use crate::parameter::Parameter;
use crate::parameters::{
    BUNDLE, DIR, FILTER, LINES_FORMAT, METADATA, PREFIX, QUIET, REF, RELAX, SNAPSHOT, WORKERS,
};

pub const EXPLAIN: &[Parameter] = &[
    METADATA,
    REF,
    SNAPSHOT,
    FILTER,
    RELAX,
    WORKERS,
    LINES_FORMAT,
    BUNDLE,
    DIR,
    PREFIX,
    QUIET,
];

pub const EXPLAIN_ABOUT: &str = "Say why each manifest and file is in a plan, or left out";

pub const EXPLAIN_EXAMPLE: &str =
    "What becomes of each manifest of the snapshot, in the order of their paths, and
after each that is read what becomes of its live files, in the order of their
positions:
  manifest PATH wanted                      it is read
  manifest PATH pruned by FIELD             its summary of this partition field
                                            shows that no row meets the filter
  data PATH kept                            the plan has it
  data PATH pruned by partition FIELD       its value of this field shows it
  data PATH pruned by bounds COLUMN         its counts and bounds of this column
                                            show it
  delete PATH applies N                     it applies to so many data files
  delete PATH pruned by partition FIELD     its value of this field shows it
The first comparison of the filter that alone shows it is told. Where the filter
is never met, as `false` is, no name stands there. The files of a manifest that
is left out are not read, and have no lines.

The last three lines count them, and the bytes of the manifests and of the data
files that are left out:
  manifests N wanted N pruned N bytes N
  data N kept N partition N bounds N bytes N
  deletes N kept N partition N

With --format json each line is an object: its `kind` is the first word of the
line of text, `by` says what a manifest or a file is pruned by, `partition` or
`bounds`, and `name` the field or column.

Example, at the top of icescan's repository:
  icescan explain --dir examples/events-java/table --prefix s3://warehouse/db/events --filter \"id = 42\" \\
    s3://warehouse/db/events/metadata/00009-ea5012f5-592b-59fd-6564-e953f439e682.metadata.json

On a terminal, and with --explain, a line of standard error says first how the
filter was read, with dates and times as a calendar has them.

Exit status: 0 done, 1 the table is refused, 2 the command line, the bundle or
the filter is, 3 a read or a write failed, 5 memory ran out. A refusal is one
line on standard error.";
