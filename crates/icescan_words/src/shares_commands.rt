//! The commands `take`, `join` and `finish`.

use crate::parameter::Parameter;
use crate::parameters::{
    BUNDLE, DIR, FILTER, FORMAT, METADATA, PART, PREFIX, QUIET, REF, RELAX, SNAPSHOT, STATES,
    WORKERS,
};

pub const TAKE_ABOUT: &str = "Read a share of a plan's manifests, and print its state";

pub const TAKE_EXAMPLE: &str =
    "Several machines make one plan: each takes a share of the manifests that the
plan reads, `join` makes one state of several, and `finish` prints the plan. The
words but for --part are those of the plan. A share is by the bytes of its
manifests; there may be more shares than manifests. A state is no secret and no
promise: whoever writes one with a right digest is trusted.

Each command may run twice, anywhere and in any order: a share that was taken
twice stands once. A state is of the metadata, the manifest list, the snapshot
and the filter that it was taken for, and is refused for any other.

Example, at the top of icescan's repository:
  where=\"--dir examples/events-java/table --prefix s3://warehouse/db/events\"
  at=s3://warehouse/db/events/metadata/00009-ea5012f5-592b-59fd-6564-e953f439e682.metadata.json
  icescan take --part 1/2 $where $at > /tmp/1.state
  icescan take --part 2/2 $where $at > /tmp/2.state
  icescan finish $where $at /tmp/1.state /tmp/2.state

Exit status: 0 done, 1 the table is refused, 2 the command line, the bundle or
the filter is, 3 a read or a write failed, 5 memory ran out. A refusal is one
line on standard error.";

pub const JOIN_ABOUT: &str = "Make one state of several";

pub const JOIN_EXAMPLE: &str =
    "What each of the states has, once; see `take`. Neither the table nor the order
of the states is needed, and states that were joined may be joined again.

Example:
  icescan join /tmp/1.state /tmp/2.state > /tmp/both.state

Exit status: 0 done, 2 the command line or a state is refused, 3 a read or a
write failed, 5 memory ran out. A refusal is one line on standard error.";

pub const FINISH_ABOUT: &str = "Print the plan that states have together";

pub const FINISH_EXAMPLE: &str =
    "The words but for the states are those of the plan, and so is what is printed.
No manifest is read; `Z1 Missing` names one that no state has. See `take`.

Example, at the top of icescan's repository, after that of `take`:
  icescan finish --format json --dir examples/events-java/table --prefix s3://warehouse/db/events \\
    s3://warehouse/db/events/metadata/00009-ea5012f5-592b-59fd-6564-e953f439e682.metadata.json \\
    /tmp/1.state /tmp/2.state

Exit status: 0 done, 1 the table is refused, 2 the command line, the bundle, the
filter or a state is, 3 a read or a write failed, 5 memory ran out. A refusal is
one line on standard error.";

pub const TAKE: &[Parameter] = &[
    METADATA, PART, REF, SNAPSHOT, FILTER, RELAX, WORKERS, BUNDLE, DIR, PREFIX, QUIET,
];

pub const JOIN: &[Parameter] = &[STATES, QUIET];

pub const FINISH: &[Parameter] = &[
    METADATA, STATES, REF, SNAPSHOT, FILTER, RELAX, WORKERS, FORMAT, BUNDLE, DIR, PREFIX, QUIET,
];
