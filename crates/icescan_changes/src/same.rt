//! Whether two plans tell the same of a file.

ghost use Rattle.std.specs.Prelude.{◌≡◌, ◌&&◌};
ghost use Rattle.std.specs.Cmp.Lexicographic.{pointwise};
ghost use Rattle.std.specs.Option.{option_eq};
ghost use Rattle.std.specs.Ordering.{int_eq};
ghost use Rattle.std.specs.Str.{bytes_eq};
ghost use Rattle.icescan_changes.specs.Files.{same_file, same_ids, same_place, same_size};

use ice_state::PlanFile;

/// Whether both files have one path, and one spec with the same partition values.
fn is_same_place(x: &PlanFile<'_>, y: &PlanFile<'_>) -> bool
    ensures { result ≡ same_place x.now y.now }
{
    x.path() == y.path() && x.spec_id() == y.spec_id() && x.tuple() == y.tuple()
}

/// Whether both files have as many rows and bytes.
fn is_same_size(x: &PlanFile<'_>, y: &PlanFile<'_>) -> bool
    ensures { result ≡ same_size x.now y.now }
{
    x.record_count() == y.record_count() && x.file_size() == y.file_size()
}

/// Whether both files delete by the same columns, and name the same data file or none.
fn is_same_ids(x: &PlanFile<'_>, y: &PlanFile<'_>) -> bool
    ensures { result ≡ same_ids x.now y.now }
{
    x.equality_ids() == y.equality_ids() && x.referenced() == y.referenced()
}

/// Whether the plans that two files are of tell the same of both.
pub fn is_same_file(x: &PlanFile<'_>, y: &PlanFile<'_>) -> bool
    ensures { result ≡ same_file x.now y.now }
{
    x.sequence_number().get() == y.sequence_number().get()
        && is_same_place(x, y)
        && is_same_size(x, y)
        && is_same_ids(x, y)
}
