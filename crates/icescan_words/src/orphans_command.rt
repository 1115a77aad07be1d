//! The command `orphans`.

use crate::parameter::Parameter;
use crate::parameters::{
    LINES_FORMAT, METADATA, OLDER_THAN_MS, QUIET, SEARCHED_DIR, SEARCHED_PREFIX,
};

pub const ORPHANS: &[Parameter] = &[
    METADATA,
    OLDER_THAN_MS,
    LINES_FORMAT,
    SEARCHED_DIR,
    SEARCHED_PREFIX,
    QUIET,
];

pub const ORPHANS_ABOUT: &str =
    "Print the files below a folder that no snapshot of the table needs";

pub const ORPHANS_EXAMPLE: &str =
    "A line for each file below DIR that the table does not need, in the order of their
paths. `orphan PATH`: it was last changed more than N milliseconds ago, and no file
that any snapshot needs has its path, nor one that may be another spelling of it:
with `s3a:` or `s3n:` for `s3:`, with more slashes, or with percent escapes.
`doubtful PATH`: it is younger, or its path may be such a spelling. A path is
escaped, as in a plan. Links are not followed, nor are they files; a name that is
not UTF-8 is passed over. Nothing is deleted.
What the table needs is read as `reachable` reads it. Where anything is absent,
can't be read or is compressed, nothing is printed.
With --format json each line is an object of `kind` and `path`, as of `reachable`.
A commit writes its files before its metadata: let N be longer than a commit may
take, and METADATA the newest there is.

Example, at the top of icescan's repository:
  icescan orphans --dir examples/events-java/table --prefix s3://warehouse/db/events \\
    --older-than-ms 259200000 \\
    s3://warehouse/db/events/metadata/00009-ea5012f5-592b-59fd-6564-e953f439e682.metadata.json

Exit status: 0 done, 1 the metadata, a manifest list or a manifest is refused, 2
the command line is, 3 a read or a write failed, 5 memory ran out. A refusal is
one line on standard error.";
