//! The command `locate`.

use crate::parameter::Parameter;
use crate::parameters::{ALL, FOLDER, NULL};

pub const LOCATE: &[Parameter] = &[FOLDER, ALL, NULL];

pub const LOCATE_ABOUT: &str = "Find a table's newest metadata, and print words that name it";

pub const LOCATE_EXAMPLE: &str =
    "FOLDER is the folder that stands for the table's location; its metadata files
are in FOLDER/metadata. The newest of vN.metadata.json, N.metadata.json and
N-ID.metadata.json is the one with the highest number N. Where
FOLDER/metadata/version-hint.text has the number of a file that is there, it is
the last of those that follow that one by one.

What is printed are the words by which other commands are told of the table:
  --dir FOLDER --prefix LOCATION METADATA
LOCATION is the table's location, as its metadata says it.

--all prints a line for each metadata file, the highest number first:
  metadata NUMBER at TIME file NAME
TIME is when the table was last changed, in milliseconds since 1970-01-01 UTC,
as the file says it; it is - where the file is none that icescan can read.

Example, at the top of icescan's repository:
  icescan plan $(icescan locate examples/events-java/table) --filter \"id = 42\"
Where a path has blanks:
  icescan locate --null FOLDER | xargs -0 icescan show

Exit status: 0 done, 1 the metadata is refused, 2 the command line is, 3 a read
or a write failed, or there is no newest metadata that can be read, 5 memory ran
out. A refusal is one line on standard error.";
