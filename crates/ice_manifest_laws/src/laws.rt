//! What is read of a file is what the format says that it holds.

ghost use Rattle.std.specs.Prelude.{◌≡◌, ◌^◌, ◌<◌, ℕ, List, length};
ghost use Rattle.avro_schema.specs.Tree.{Tree};
ghost use Rattle.avro_file.specs.Value.{Value};
ghost use Rattle.avro_file.specs.Holding.{AreWithinLimits};
ghost use Rattle.avro_file.specs.Files.{HoldsFile};
ghost use Rattle.ice_meta.specs.declared.spec.Spec.{Spec};
ghost use Rattle.ice_manifest_reading.specs.declared.row.Row.{Row};
ghost use Rattle.ice_manifest_reading.specs.Lists.{rows_of};
ghost use Rattle.ice_manifest_reading.specs.Manifests.{live_of, entries_of};
ghost use Rattle.ice_manifest_laws.specs.Held.{rows_said, live_said, entries_said};

use avro_file::held_is_read;

/// Where a file holds data within the limits, what is read of it as a list are the rows that these data say, and as a
/// manifest their live entries, or else their first fault; however the data lie in blocks.
pub fn what_is_held_is_read()
    ensures list { (s : Tree) (vs : List Value) (bytes : List ℕ) → length bytes < 2 ^ 64 → HoldsFile s vs bytes →
        AreWithinLimits vs → rows_of bytes ≡ rows_said s vs }
    ensures manifest { (row : Row) (spec : Spec) (s : Tree) (vs : List Value) (bytes : List ℕ) →
        length bytes < 2 ^ 64 → HoldsFile s vs bytes → AreWithinLimits vs →
        entries_of row spec bytes ≡ entries_said row spec s vs }
    ensures bounds { (row : Row) (spec : Spec) (s : Tree) (vs : List Value) (bytes : List ℕ) →
        length bytes < 2 ^ 64 → HoldsFile s vs bytes → AreWithinLimits vs →
        live_of row spec bytes ≡ live_said row spec s vs }
{
    held_is_read();
}
