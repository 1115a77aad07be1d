//! What the program and its commands say of themselves, below the usage in their long help.

pub const ABOUT: &str =
    "Plans scans of Apache Iceberg tables: live data files and their delete files";

pub const PLAN_ABOUT: &str = "Print a snapshot's data files, each with its delete files";

pub const PLAN_EXAMPLE: &str =
    "A filter says which rows are asked for. A data file is left out only where none
of its rows can meet it. In quotes it is one word for a shell:
  id = 42 and cat != 'books'        also <, <=, > and >=; texts stand in single
                                    quotes, and a quote in them twice
  id in (1, 2, 3)                   or: id not in (1, 2, 3)
  cat is null                       or: cat is not null; any other comparison
                                    with null is false
  note starts with 'note 4'         of texts alone
  id < 10 or (id > 20 and id < 30)  `and` binds closer than `or`
  flag = true                       `true` and `false` alone are filters too
  day = 19790                       dates are days since 1970-01-01
  ts >= 1709856000000000            times are microseconds since 1970-01-01 UTC
  key = x'00ff'                     bytes in hexadecimal; a uuid is a text
  place.\"post code\" = '0150'        a dot leads into a struct; double quotes
                                    stand round a name that is no plain word
Floats, doubles, decimals, lists and maps are not compared: with --relax such a
comparison is left out, named on standard error, and the rest is asked.

`date` writes the number of a time, as that of 2024-03-08 00:00 UTC here:
  --filter \"ts >= $(date -u -d 2024-03-08 +%s)000000\"

Example, at the top of icescan's repository:
  icescan plan --dir examples/events-java/table --prefix s3://warehouse/db/events --filter \"id = 42\" \\
    s3://warehouse/db/events/metadata/00009-ea5012f5-592b-59fd-6564-e953f439e682.metadata.json

With --format json the plan is one line, the answer of an Iceberg REST catalog
to a scan that was planned: each delete file that applies to one of the data
files stands once in `delete-files`, and the task of a data file names those
that apply to it by their places there, from 0. Partition values are as the
table format has them in JSON, with days as dates:
  icescan plan --format json --dir examples/events-java/table --prefix s3://warehouse/db/events \\
    s3://warehouse/db/events/metadata/00009-ea5012f5-592b-59fd-6564-e953f439e682.metadata.json

Exit status: 0 done, 1 the table is refused, 2 the command line, the bundle or
the filter is, 3 a read or a write failed, 5 memory ran out. A refusal is one
line on standard error.";

pub const PROGRAM_EXAMPLE: &str =
    "Each command's long help has an example, as `icescan plan --help`.

Without any word icescan does the same as `icescan list-plan --bundle`.";

pub const LIST_ABOUT: &str = "Plan a manifest list, of a table without partitions alone";

pub const LIST_EXAMPLE: &str =
    "Right for tables without partitions alone: every partition spec is taken as one
without fields. For any other table use `icescan plan`.

Example, at the top of icescan's repository:
  icescan list-plan --dir examples/plain-java/table --prefix s3://warehouse/db/plain \\
    s3://warehouse/db/plain/metadata/snap-5787346651261761729-1-2833c2eb-01d6-02bb-4299-f66acae4221d.avro

Exit status: 0 done, 1 the table is refused, 2 the command line or the bundle
is, 3 a read or a write failed, 5 memory ran out. A refusal is one line on
standard error.";

pub const SHOW_ABOUT: &str = "Print a table's schemas, partition specs, snapshots and refs";

pub const SHOW_EXAMPLE: &str =
    "With --format json each line is an object, whose `kind` is `table`, `schema`,
`column`, `spec`, `field`, `snapshot` or `ref`; the columns of each schema and
the fields of each partition spec come after it, as `columns` has them.

Example, at the top of icescan's repository:
  icescan show --dir examples/plain-java/table --prefix s3://warehouse/db/plain \\
    s3://warehouse/db/plain/metadata/00005-c64aaab7-8283-c18e-53ea-99e6e56da046.metadata.json

Exit status: 0 done, 1 the metadata is refused, 2 the command line or the bundle
is, 3 a read or a write failed, 5 memory ran out. A refusal is one line on
standard error.";

pub const AUDIT_ABOUT: &str = "Check that each manifest is as the list and the metadata say";

pub const AUDIT_EXAMPLE: &str =
    "Every manifest of the snapshot is read, also those that no filter wants. A line
for each finding names what is wrong, the manifest and, where it is about one
entry, its file; the last line has the numbers of manifests, live entries and
findings:
  other-spec, other-content, other-length
               the manifest names another partition spec or another content, or
               has another length, than the manifest list says
  other-summaries
               the manifest list has summaries of another number of fields than
               the manifest's spec has
  above-snapshot
               the manifest's sequence number is above the snapshot's
  added-files, existing-files, deleted-files
               the manifest has another number of entries of this status than
               the manifest list counts
  added-rows, existing-rows, deleted-rows
               the files of these entries have another number of rows than the
               manifest list counts
  uncovered    the manifest list's summary of this partition field does not
               cover the file's value: a plan under a filter may lose the file
  below-least  the file's sequence number is below the least one that the
               manifest list names
  above-last   the file's sequence number is above the table's last
  no-column    the file deletes by a column of this id, which the schema lacks
  bounds-cross, excess-nulls
               the manifest gives the column of this id a lower bound above its
               upper one, or more nulls than values
  negative-counts, bounds-of-nulls
               the manifest gives the column of this id fewer than no values or
               nulls, or nulls alone and yet a bound
  unbounded    the manifest list's summary of this partition field lacks a
               bound, and the file's value isn't null
  other-nulls  the file's value of this partition field is null and its column
               has other values, or it isn't null and its column has nulls
  outside-bounds
               no value between the bounds of the field's column has the file's
               value of this partition field
  above-manifest
               the file's sequence number is above the manifest's
  no-equality-ids
               the equality delete file names no column to delete by
  negative-size, unknown-format
               the file has fewer than no rows or bytes, or is of a format that
               is none of Avro, ORC and Parquet
  named-not-live
               the position delete file names a data file that is not live
  dangling-position-deletes, dangling-equality-deletes
               the delete file applies to no live data file, which costs time
               and is no fault
  live-twice   another live entry has the file's path, or a spelling of it
               (these lines come after those of all manifests)
  total-data-files, total-delete-files, total-records, total-position-deletes,
  total-equality-deletes, total-files-size
               the snapshot's summary says this number, and its live files come
               to another, which no plan goes by and is no fault
Where no finding is `uncovered`, the plan under any filter is that of all
manifests of the snapshot. Where none is a fault, each file may have, of each
column by itself, values of which the manifest is right. No data file is read.

With --format json each line is an object: a finding, whose `level` is `fault`
or `note`, or last the numbers.

--all audits every snapshot, each by its own schema, and reads each manifest
once. A finding is told once, with `snapshots` and their ids behind it; the
lines are in the order of their bytes, and the last has the numbers of
snapshots, manifests, findings and faults.

Example, at the top of icescan's repository:
  icescan audit --dir examples/events-java/table --prefix s3://warehouse/db/events \\
    s3://warehouse/db/events/metadata/00009-ea5012f5-592b-59fd-6564-e953f439e682.metadata.json

Exit status: 0 nothing found, or no fault, 1 there are faults, or the table is
refused, 2 the command line or the bundle is, 3 a read or a write failed, 5
memory ran out. A refusal is one line on standard error.";

pub const DRILL_ABOUT: &str = "Commit from many threads at once in memory, and lose none";

pub const DRILL_EXAMPLE: &str =
    "Each thread appends one file in each of its commits, and tries again on the
newer version where another commit came before. In the end each sees that the
plan of a version that it pins has all its files. Then three lines are printed:
how many commits the table has, its last sequence number, and the last line of
its plan. Nothing is read or kept.

Example:
  icescan drill --threads 3 --commits 4

Exit status: 0 done, 1 a file is lost, 2 the command line is refused, 3 a write
failed, 4 a commit met others too often, 5 memory ran out. A refusal is one line
on standard error.";

/// The long help of a command that commits: what its change file says of delete files, the one of the example, and the
/// command's name.
macro_rules! help_of_commits {
    ($of_deletes:literal, $change:literal, $name:literal) => {
        concat!(
            "CHANGE is a JSON file, as in the example. `partition` has a value for each
field of the partition spec: null, true, false, a whole number (dates in days
and times in microseconds since 1970-01-01 00:00 UTC), a text, or
{\"hex\": \"00ff\"} for bytes and for a uuid.",
            $of_deletes,
            "

With --dir the new files are written below the folder, whose folders have to be
there, each whole and none over another; the metadata at --out comes last, so
that a reader sees all of the commit or none. With --bundle they are printed as
the lines of a bundle.

Two commits compete for the path at --out alone: it is the one name that all
writers of a table share for the metadata that follows, vN+1.metadata.json after
vN, and the second to come is a conflict (status 4). A table that a catalog owns
is committed to through its catalog, never past it.

Example, at the top of icescan's repository:
  cp -r examples/plain-java/table /tmp/plain
  echo '",
            $change,
            "' > /tmp/plain/change.json
  icescan ",
            $name,
            " --dir /tmp/plain --prefix s3://warehouse/db/plain --snapshot-id 7 \\
    --uuid $(uuidgen) --now-ms $(date +%s000) \\
    --out s3://warehouse/db/plain/metadata/00006.metadata.json \\
    s3://warehouse/db/plain/metadata/00005-c64aaab7-8283-c18e-53ea-99e6e56da046.metadata.json \\
    s3://warehouse/db/plain/change.json

Exit status: 0 done, 1 the table or the commit is refused, 2 the command line,
the bundle or the change file is, 3 a read or a write failed, 4 there is a file
at the metadata's path already, 5 memory ran out. A refusal is one line on
standard error."
        )
    };
}

pub const APPEND_ABOUT: &str = "Commit data files: write manifests, a list and, last, metadata";

pub const APPEND_EXAMPLE: &str = help_of_commits!(
    "",
    "{\"data\": [{\"path\": \"s3://warehouse/db/plain/data/new.parquet\",
    \"format\": \"parquet\", \"spec-id\": 0, \"partition\": [], \"record-count\": 10,
    \"file-size\": 1000}], \"deletes\": []}",
    "append"
);

pub const ROW_DELTA_ABOUT: &str = "Commit data files and delete files in the same way";

pub const ROW_DELTA_EXAMPLE: &str = help_of_commits!(
    " What a delete file deletes is by
`position` or by `equality`, and then `equality-ids` are the ids of the columns
to compare.",
    "{\"data\": [{\"path\": \"s3://warehouse/db/plain/data/new.parquet\",
    \"format\": \"parquet\", \"spec-id\": 0, \"partition\": [], \"record-count\": 10,
    \"file-size\": 1000}], \"deletes\": [{\"path\":
    \"s3://warehouse/db/plain/data/eq.parquet\", \"format\": \"parquet\",
    \"spec-id\": 0, \"partition\": [], \"record-count\": 1, \"file-size\": 300,
    \"content\": \"equality\", \"equality-ids\": [1]}]}",
    "row-delta"
);
