//! The command `reachable`.

use crate::parameter::Parameter;
use crate::parameters::{BUNDLE, DIR, LINES_FORMAT, METADATA, ONLY, PREFIX, QUIET, WITHOUT};

pub const REACHABLE: &[Parameter] = &[
    METADATA,
    ONLY,
    WITHOUT,
    LINES_FORMAT,
    BUNDLE,
    DIR,
    PREFIX,
    QUIET,
];

pub const REACHABLE_ABOUT: &str = "Print every file that a snapshot of the table needs";

pub const REACHABLE_EXAMPLE: &str =
    "A line for each file that the table needs, in the order of the lines' bytes, each
once: `metadata` (the file itself and those of its metadata log), `statistics`,
`list` and `manifest` (those of every snapshot that the metadata has, also of one
that no branch or tag names), `data` and `delete` (the files that a snapshot has
live). A path is escaped, as in a plan.
`--without ID,ID` tells the files that stay needed without these snapshots, and
`--only ID,ID` the others, which these snapshots alone need: what expiring them
lets go. Statistics go with their snapshot; the metadata and its log stay.
Every manifest list is read, and every manifest once. Where one is absent, can't
be read or is compressed, nothing is printed.
With --format json each line is an object: its `kind` is the first word of the
line of text, and its `path` the path, not escaped but as JSON has it.

Example, at the top of icescan's repository:
  icescan reachable --dir examples/events-java/table --prefix s3://warehouse/db/events \\
    s3://warehouse/db/events/metadata/00009-ea5012f5-592b-59fd-6564-e953f439e682.metadata.json

Exit status: 0 done, 1 the metadata, a manifest list or a manifest is refused, 2
the command line or the bundle is, 3 a read or a write failed, 5 memory ran out.
A refusal is one line on standard error.";
