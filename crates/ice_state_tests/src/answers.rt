//! Whether a plan is that of the manifests of all cases.

use ice_state::{Lines, PlanFile, PlanFiles};

/// Whether it is the data file, number by number.
fn is_data(file: &PlanFile<'_>) -> bool {
    file.path() == "mem://t/a.parquet".as_bytes()
        && file.spec_id() == 0
        && file.sequence_number().get() == 3
        && file.record_count() == 10
        && file.file_size() == 100
}

/// Whether this is the only file.
fn is_alone(files: &PlanFiles<'_>, path: &str) -> bool {
    files.len() == 1 && files.file(0).path() == path.as_bytes()
}

/// Whether there is one file, which deletes by column 1.
fn is_by_column_1(files: &PlanFiles<'_>) -> bool {
    files.len() == 1 && files.file(0).equality_ids() == [1].as_slice()
}

/// Whether these are the lines: equality deletes of the data file's own sequence number do not apply to it.
pub fn is_plan(lines: &Lines<'_>) -> bool {
    if lines.len() != 1 {
        return false;
    }
    let line = lines.line(0);
    is_data(&line.file())
        && is_alone(&line.positions(), "mem://t/p.parquet")
        && is_alone(&line.equalities(), "mem://t/e.parquet")
        && is_by_column_1(&line.equalities())
}
