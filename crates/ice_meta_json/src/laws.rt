//! What filling in comes to.

ghost use Rattle.ice_meta_json.specs.Laws.{FillsAll, FillsOnce, KeepsFilled, KeepsOtherMembers, KeepsOfSnapshots};

/// Each snapshot of a filled document has its sequence number. Such a document stays as it is; so filling in twice is
/// filling in once. The other members of the document, and of its snapshots, stay.
pub fn filling_in_adds_what_is_left_out()
    ensures all { FillsAll }
    ensures once { FillsOnce }
    ensures filled { KeepsFilled }
    ensures others { KeepsOtherMembers }
    ensures snapshots { KeepsOfSnapshots }
{}
