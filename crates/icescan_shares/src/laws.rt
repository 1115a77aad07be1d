//! What shares, names and states are, in words of their own. Their functions do nothing.

ghost use Rattle.std.specs.Prelude.{◌≡◌, ◌<◌, ◌≤◌, ℕ, List, length, slice_index_or};
ghost use Rattle.ice_manifest_reading.specs.declared.row.Row.{Row};
ghost use Rattle.icescan_shares.specs.Names.{IsSmall, scan_text};
ghost use Rattle.icescan_shares.specs.Shares.{shares_of};
ghost use Rattle.icescan_text.specs.declared.request.Request.{Request};

/// Each of the rows is in one of the shares, whose numbers go from 1 up to how many there are, and so in no other.
pub fn sharing_out()
    ensures each { (count : ℕ) (rows : List Row) → length (shares_of count rows) ≡ length rows }
    ensures one { (count : ℕ) (rows : List Row) (i : ℕ) → 0 < count → i < length rows →
        (0 < slice_index_or (shares_of count rows) i 0) × (slice_index_or (shares_of count rows) i 0 ≤ count) }
{}

/// Scans whose texts are equal are made of the same metadata, the same manifest list and the same request: so no two
/// that differ in one of these have one text. (The name is the text's digest.)
pub fn naming()
    ensures { (metadata other : List ℕ) (list second : List ℕ) (request asked : Request) →
        IsSmall metadata list request → IsSmall other second asked →
        scan_text metadata list request ≡ scan_text other second asked →
        (metadata ≡ other) × (list ≡ second) × (request ≡ asked) }
{}
