//! Which delete files apply to a data file.

ghost use Rattle.std.specs.Prelude.{◌↔◌, IsTrue};
ghost use Rattle.ice_value.specs.Applying.{DataKey, DeleteKey, Applies, applies};

/// The test `applies` says which delete files apply to a data file by the rules of the table format.
pub fn applying_of_deletes()
    ensures { (x : DataKey) (d : DeleteKey) → IsTrue (applies x d) ↔ Applies x d }
{}
