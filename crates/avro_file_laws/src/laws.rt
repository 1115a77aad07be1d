//! Laws of reading, over the definitions of the format alone.

ghost use Rattle.std.specs.Prelude.{◌≡◌, ◌^◌, ◌<◌, ◌↔◌, ℕ, List, [], length, Option, Some, Ok, Err};
ghost use Rattle.avro_schema.specs.Tree.{Tree};
ghost use Rattle.avro_file.specs.Value.{Value};
ghost use Rattle.avro_file.specs.Ahead.{running};
ghost use Rattle.avro_file.specs.Holding.{AreWithinLimits};
ghost use Rattle.avro_file.specs.Files.{opened_at, Opened};
ghost use Rattle.avro_file.specs.Fronts.{FrontHoldsFile};
ghost use Rattle.avro_file_laws.specs.Fronts.{IsFrontOf, Opens};
ghost use Rattle.avro_file_laws.specs.Faults.{IsNoFile, FaultFollows};

use avro_file::AvroFault;

/// What a file gives before a fault, or before its end, is the longest front of its data: the data that a front of the
/// file holds within the limits are the fronts of what is given, and no others. A file opens exactly where its header
/// is whole, names a schema that can be read, and no codec that compresses.
pub fn the_longest_front_is_given()
    ensures opened { (s : Tree) (bytes : List ℕ) → length bytes < 2 ^ 64 →
        Opens s bytes ↔ FrontHoldsFile s [] bytes }
    ensures given { (bytes : List ℕ) (o : Opened) (vs ws : List Value) (ending : Option AvroFault) →
        opened_at bytes ≡ Ok o → o.ahead ≡ running vs ending →
        IsFrontOf ws vs ↔ (FrontHoldsFile o.schema ws bytes × AreWithinLimits ws) }
{}

/// Each fault stands where it is: everything before the first part that cannot be read is spelled, and the bytes behind
/// hold no such part. `Truncated` is told with the offset of the first byte of the first number, run of bytes, block
/// content or marker at which the file ends, and each other fault exactly where what stands there is at fault so. So no
/// fault is told early, none is passed over, and none is told of two that stand at one place.
pub fn each_fault_stands_where_it_is()
    ensures opening { (bytes : List ℕ) (f : AvroFault) → length bytes < 2 ^ 63 →
        (opened_at bytes ≡ Err f) ↔ IsNoFile bytes f }
    ensures objects { (bytes : List ℕ) (o : Opened) (vs : List Value) (f : AvroFault) → opened_at bytes ≡ Ok o →
        (o.ahead ≡ running vs (Some f)) ↔ FaultFollows o.schema vs bytes f }
{}
