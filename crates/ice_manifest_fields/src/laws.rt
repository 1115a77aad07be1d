//! What the definitions of fields come to.

ghost use Rattle.ice_manifest_fields.specs.Decimals.{KeepsTheNumber, LeavesNoneRedundant, KeepsOneSpelling};

/// The bytes that are kept of a decimal are the same number in two's complement, and the first of them is not
/// redundant. So two cells of one number are the same, however many bytes each was written with.
pub fn decimals_are_kept_shortest()
    ensures number { KeepsTheNumber }
    ensures front { LeavesNoneRedundant }
    ensures spelling { KeepsOneSpelling }
{}
