//! What a data file says of its columns, in the maps that were found.

ghost use Rattle.std.specs.Prelude.{◌≡◌, IfOk};
ghost use Rattle.contract_words.specs.Outcome.{Gives};
ghost use Rattle.avro_file.specs.Picking.{Picked};
ghost use Rattle.avro_file_picked.specs.Finding.{IsMet};
ghost use Rattle.ice_manifest_fields.specs.Fields.{there};
ghost use Rattle.ice_manifest_fields.specs.Naming.{in_manifest, told};
ghost use Rattle.ice_manifest_values.specs.Met.{MapsMet, counts_in, bounds_in, columns_met, Checks, LeadsToMap};
ghost use Rattle.ice_manifest_values.specs.MapsRead.{AreCounts, AreBounds, AreMet, AreRead};

use crate::listed::{listed_bytes, listed_longs, lists_bytes, lists_longs};
use crate::pairs::{bounds_in_place, counts_in_place};
use crate::sound::is_sound;
use avro_file_picked::{Found, GuidedObject};
use ice_manifest_fields::{
    ColumnMap, Kind, LOWER_BOUNDS, ManifestFault, NULL_COUNTS, UPPER_BOUNDS, VALUE_COUNTS,
};
use ice_value::{ColumnBounds, ColumnCounts, FileBounds};
use std::alloc::{AllocError, Global};

/// The maps of a data file's columns, as they were found.
#[derive(Clone, Copy, Debug)]
pub struct FoundMaps<'e, 's, 'd> {
    /// The object in which they were found, with a guide that keeps the fields of their pairs, if there is one.
    pub guided: &'e Option<GuidedObject<'e, 's, 'd>>,
    /// How many values each column has, null ones among them.
    pub value_counts: Option<Found<'s, 'd>>,
    /// How many values of each column are null.
    pub null_counts: Option<Found<'s, 'd>>,
    /// No value of the column is below its lower bound.
    pub lower_bounds: Option<Found<'s, 'd>>,
    /// No value of the column is above its upper bound.
    pub upper_bounds: Option<Found<'s, 'd>>,
}

/// A map of a data file's columns, in the way in which it is read.
#[derive(Debug, Drop)]
enum ReadMap<'e, 's, 'd, T> {
    /// Its pairs, which were read.
    Pairs(Vec<(i32, T)>),
    /// Its pairs are read one by one where it lies, if it was found, by a guide of the object, if there is one.
    InPlace(Option<Found<'s, 'd>>, &'e Option<GuidedObject<'e, 's, 'd>>),
}

/// The maps of a data file's columns, which were read from the file. It lends the file's bytes.
#[derive(Debug, Drop)]
pub struct ReadMaps<'e, 's, 'd> {
    value_counts: ReadMap<'e, 's, 'd, i64>,
    null_counts: ReadMap<'e, 's, 'd, i64>,
    lower_bounds: ReadMap<'e, 's, 'd, &'d [u8]>,
    upper_bounds: ReadMap<'e, 's, 'd, &'d [u8]>,
}

/// The map of counts that was found.
fn read_counts<'e, 's, 'd>(
    alloc: Global,
    found: Option<Found<'s, 'd>>,
    guided: &'e Option<GuidedObject<'e, 's, 'd>>,
    map: ColumnMap,
) -> Result<ReadMap<'e, 's, 'd, i64>, AllocError>
    ensures { (met : Picked) → IsMet found.entry met → LeadsToMap map guided.now met →
        IfOk result (λ read. AreCounts map read met) }
{
    match found {
        Some(found) if lists_longs(found.schema(), map) => {
            let pairs = listed_longs(alloc, found)?;
            Ok(ReadMap::Pairs(pairs))
        }
        found => Ok(ReadMap::InPlace(found, guided)),
    }
}

/// The map of bounds that was found.
fn read_bounds<'e, 's, 'd>(
    alloc: Global,
    found: Option<Found<'s, 'd>>,
    guided: &'e Option<GuidedObject<'e, 's, 'd>>,
    map: ColumnMap,
) -> Result<ReadMap<'e, 's, 'd, &'d [u8]>, AllocError>
    ensures { (met : Picked) → IsMet found.entry met → LeadsToMap map guided.now met →
        IfOk result (λ read. AreBounds map read met) }
{
    match found {
        Some(found) if lists_bytes(found.schema(), map) => {
            let pairs = listed_bytes(alloc, found)?;
            Ok(ReadMap::Pairs(pairs))
        }
        found => Ok(ReadMap::InPlace(found, guided)),
    }
}

/// The counts that a map says, lent from it; none where there is no map.
fn counts<'a>(
    alloc: Global,
    read: &'a ReadMap<'_, '_, '_, i64>,
    map: ColumnMap,
) -> Result<ColumnCounts<'a>, ManifestFault>
    ensures { (met : Picked) → AreCounts map read.now met →
        Gives ManifestFault.Memory (λ x. x) result (told in_manifest (counts_in map (there met))) }
{
    match read {
        ReadMap::Pairs(pairs) => Ok(ColumnCounts::lent(pairs.as_slice())),
        ReadMap::InPlace(found, guided) => {
            let counts = counts_in_place(alloc, *found, guided, map)?;
            Ok(ColumnCounts::made(counts))
        }
    }
}

/// The bounds that a map says, lent from it; none where there is no map.
fn bounds<'a, 'd>(
    alloc: Global,
    read: &'a ReadMap<'_, '_, 'd, &'d [u8]>,
    map: ColumnMap,
) -> Result<ColumnBounds<'a, 'd>, ManifestFault>
    ensures { (met : Picked) → AreBounds map read.now met →
        Gives ManifestFault.Memory (λ x. x) result (told in_manifest (bounds_in map (there met))) }
{
    match read {
        ReadMap::Pairs(pairs) => Ok(ColumnBounds::lent(pairs.as_slice())),
        ReadMap::InPlace(found, guided) => {
            let bounds = bounds_in_place(alloc, *found, guided, map)?;
            Ok(ColumnBounds::made(bounds))
        }
    }
}

/// The first fault of the pairs of a map of counts. Where its type allows none, it is not read.
fn check_counts(
    alloc: Global,
    found: Option<Found>,
    guided: &Option<GuidedObject>,
    map: ColumnMap,
) -> Result<(), ManifestFault>
    requires { map.kind ≡ Kind.Whole }
    ensures { (met : Picked) → IsMet found.entry met → LeadsToMap map guided.now met →
        Checks result (counts_in map (there met)) }
{
    match found {
        Some(found) if is_sound(found.schema(), map) => Ok(()),
        found => {
            let _counts = counts_in_place(alloc, found, guided, map)?;
            Ok(())
        }
    }
}

/// The first fault of the pairs of a map of bounds. Where its type allows none, it is not read.
fn check_bounds(
    alloc: Global,
    found: Option<Found>,
    guided: &Option<GuidedObject>,
    map: ColumnMap,
) -> Result<(), ManifestFault>
    requires { map.kind ≡ Kind.Binary }
    ensures { (met : Picked) → IsMet found.entry met → LeadsToMap map guided.now met →
        Checks result (bounds_in map (there met)) }
{
    match found {
        Some(found) if is_sound(found.schema(), map) => Ok(()),
        found => {
            let _bounds = bounds_in_place(alloc, found, guided, map)?;
            Ok(())
        }
    }
}

impl<'e, 's, 'd> FoundMaps<'e, 's, 'd> {
    /// The first fault that reading the maps would find. Of a map whose type allows none nothing is read.
    #[tactic(auto, unfolding(crate::specs::Met::columns_met))]
    pub fn check(&self, alloc: Global) -> Result<(), ManifestFault>
        ensures { (met : MapsMet) → AreMet self.now met → Checks result (columns_met met) }
    {
        check_counts(alloc, self.value_counts, self.guided, VALUE_COUNTS)?;
        check_counts(alloc, self.null_counts, self.guided, NULL_COUNTS)?;
        check_bounds(alloc, self.lower_bounds, self.guided, LOWER_BOUNDS)?;
        check_bounds(alloc, self.upper_bounds, self.guided, UPPER_BOUNDS)
    }

    /// The maps, of which those that lie as pairs are read into one list each, and the others are left where they lie.
    pub fn read(&self, alloc: Global) -> Result<ReadMaps<'e, 's, 'd>, AllocError>
        ensures { (met : MapsMet) → AreMet self.now met → IfOk result (λ maps. AreRead maps met) }
    {
        Ok(ReadMaps {
            value_counts: read_counts(alloc, self.value_counts, self.guided, VALUE_COUNTS)?,
            null_counts: read_counts(alloc, self.null_counts, self.guided, NULL_COUNTS)?,
            lower_bounds: read_bounds(alloc, self.lower_bounds, self.guided, LOWER_BOUNDS)?,
            upper_bounds: read_bounds(alloc, self.upper_bounds, self.guided, UPPER_BOUNDS)?,
        })
    }
}

impl<'e, 's, 'd> ReadMaps<'e, 's, 'd> {
    /// The counts and bounds of the columns, lent from the maps; or the first fault of the first map that has one.
    #[tactic(auto, unfolding(crate::specs::Met::columns_met))]
    pub fn columns(&self, alloc: Global) -> Result<FileBounds<'_, 'd>, ManifestFault>
        ensures { (met : MapsMet) → AreRead self.now met →
            Gives ManifestFault.Memory (λ x. x) result (told in_manifest (columns_met met)) }
    {
        Ok(FileBounds {
            value_counts: counts(alloc, &self.value_counts, VALUE_COUNTS)?,
            null_counts: counts(alloc, &self.null_counts, NULL_COUNTS)?,
            lower_bounds: bounds(alloc, &self.lower_bounds, LOWER_BOUNDS)?,
            upper_bounds: bounds(alloc, &self.upper_bounds, UPPER_BOUNDS)?,
        })
    }
}
