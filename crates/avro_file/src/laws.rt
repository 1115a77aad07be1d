//! Laws of the format, over its definitions alone.

ghost use Rattle.std.specs.Prelude.{◌≡◌, ◌≢◌, ◌^◌, ◌<◌, ◌≤◌, ◌↔◌, ℕ, true, List, ◌++◌, length, drop, Option, Some};
ghost use Rattle.std.specs.Prelude.{None, Ok, Err};
ghost use Rattle.avro_schema.specs.Tree.{Tree};
ghost use Rattle.avro_file.specs.Value.{Value};
ghost use Rattle.avro_file.specs.Spelling.{takes_bytes};
ghost use Rattle.avro_file.specs.Ahead.{Ahead, running, still_ahead};
ghost use Rattle.avro_file.specs.Holding.{AreWithinLimits};
ghost use Rattle.avro_file.specs.Files.{opened_at, reader_of, HoldsFile, Next, Opened, Shows};
ghost use Rattle.avro_file.specs.Passing.{Passes, PassesAll};
ghost use Rattle.avro_file.specs.Fronts.{FrontHoldsFile, IsCutFile};

use crate::fault::AvroFault;
use crate::object::Object;

/// A file holds one list of data of one schema at most, however many items its objects have.
pub fn one_list()
    ensures { (s t : Tree) (bytes : List ℕ) (vs ws : List Value) → HoldsFile s vs bytes → HoldsFile t ws bytes →
        (s ≡ t) × (vs ≡ ws) }
{}

/// The metadata of a header may have any number of items.
pub fn no_item_limit()
    ensures { (bytes : List ℕ) → length bytes < 2 ^ 63 → opened_at bytes ≢ Err AvroFault.TooManyItems }
{}

/// A file gives no more objects than it has bytes, where each value of its schema takes a byte at least.
pub fn objects_take_bytes()
    ensures { (bytes : List ℕ) (o : Opened) → opened_at bytes ≡ Ok o → takes_bytes o.schema ≡ true →
        still_ahead o.ahead ≤ length bytes }
{}

/// The data that a file holds within the limits are what its reader gives up to the end, and only these.
pub fn held_is_read()
    ensures read { (s : Tree) (vs : List Value) (bytes : List ℕ) → length bytes < 2 ^ 64 → HoldsFile s vs bytes →
        AreWithinLimits vs → opened_at bytes ≡ Ok (reader_of s vs) }
    ensures only { (bytes : List ℕ) (o : Opened) (vs : List Value) → opened_at bytes ≡ Ok o →
        o.ahead ≡ running vs None → HoldsFile o.schema vs bytes × AreWithinLimits vs }
{}

/// What follows objects that a reader gave is what stood behind them, whether each was built or skipped.
pub fn a_skip_leaves_what_follows()
    ensures given { (old new : Ahead) (object : Object) → Next Shows old (Ok (Some object)) new → Passes old new }
    ensures behind { (n : ℕ) (vs : List Value) (ending : Option AvroFault) (new : Ahead) →
        PassesAll n (running vs ending) new ↔ ((n ≤ length vs) × (new ≡ running (drop n vs) ending)) }
{}

/// What is left of a file whose end was cut off begins as none, is refused as cut, or gives a front of the same data.
pub fn cut_files()
    ensures { (s : Tree) (vs : List Value) (bytes front back : List ℕ) → length bytes < 2 ^ 64 → HoldsFile s vs bytes →
        AreWithinLimits vs → bytes ≡ front ++ back → IsCutFile s vs front }
{}

/// What a file gives before a fault, or before its end, are data that a front of its blocks holds.
pub fn before_a_fault()
    ensures { (bytes : List ℕ) (o : Opened) (vs : List Value) (ending : Option AvroFault) → opened_at bytes ≡ Ok o →
        o.ahead ≡ running vs ending → FrontHoldsFile o.schema vs bytes × AreWithinLimits vs }
{}

/// No fault of a file is want of memory: opening answers `Memory` for want of it alone, and `next` never does.
pub fn no_fault_is_memory()
    ensures opening { (bytes : List ℕ) → opened_at bytes ≢ Err AvroFault.Memory }
    ensures objects { (bytes : List ℕ) (o : Opened) (vs : List Value) → opened_at bytes ≡ Ok o →
        o.ahead ≢ running vs (Some AvroFault.Memory) }
{}
