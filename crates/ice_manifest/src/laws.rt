//! What the names of partition fields come to.

ghost use Rattle.ice_manifest.specs.NamesApart.{KeepsNames, OwnWhereTheyDiffer, SpellsNames, TellsApart};

/// The names of a manifest's partition fields tell them apart: no two of a spec's fields are called alike. Where the
/// spec's own names are taken, each is a name that Avro has, and one that Avro has already stays as it is. They are
/// taken exactly where none of them is empty and no two are alike.
pub fn partition_names_tell_fields_apart()
    ensures kept { KeepsNames }
    ensures spelled { SpellsNames }
    ensures apart { TellsApart }
    ensures own { OwnWhereTheyDiffer }
{}
