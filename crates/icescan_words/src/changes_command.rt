//! The command `changes`.

use crate::parameter::Parameter;
use crate::parameters::{
    APPENDS, BUNDLE, DIR, FILTER, FROM, LINES_FORMAT, METADATA, PREFIX, QUIET, TO, WORKERS,
};

pub const CHANGES: &[Parameter] = &[
    METADATA,
    FROM,
    TO,
    FILTER,
    APPENDS,
    LINES_FORMAT,
    WORKERS,
    BUNDLE,
    DIR,
    PREFIX,
    QUIET,
];

pub const CHANGES_ABOUT: &str = "Print what became of a table's files from one snapshot to another";

pub const CHANGES_EXAMPLE: &str =
    "What is new in a table since a snapshot, and what is gone: the plan of --from
against that of --to, under one filter. A line for each data file that only one
of the two plans has, or to which other delete files apply, in the order of
their paths:
  + data PATH seq N spec N rows N size N    only the later plan has it; below it
                                            the delete files that apply to it,
                                            as `plan` prints them
  - data PATH seq N spec N rows N size N    only the earlier plan has it
  ~ data PATH seq N spec N rows N size N    both have it; below it the delete
                                            files that apply now (+), and those
                                            that did before (-):
    + pos PATH seq N
    - eq PATH seq N ids N,N
A path at which the plans have different files has a line - and a line +. The
last line counts:
  added N removed N altered N

--from and --to take a snapshot's id, or the name of a branch or a tag; a text
that is a whole number is an id. Each snapshot is planned as `plan` does, by the
schema that counts for it.

With --appends it is refused where --from is no ancestor of --to, by the parents
that the table's metadata says (L2), or where a snapshot after it, up to --to,
has another operation than `append` (L1, which names the first such snapshot).

With --format json each line is an object: of a data file or a delete file with
kind, change (added, removed or altered), path and the other values of its line,
of a delete file with data, the path of its data file, and ids as above; of the
last line with kind totals, added, removed and altered.

Example, at the top of icescan's repository:
  icescan changes --from eoy --dir examples/events-java/table --prefix s3://warehouse/db/events \\
    s3://warehouse/db/events/metadata/00009-ea5012f5-592b-59fd-6564-e953f439e682.metadata.json

Exit status: 0 done, 1 the table is refused, 2 the command line, the bundle or
the filter is, 3 a read or a write failed, 5 memory ran out. A refusal is one
line on standard error.";
