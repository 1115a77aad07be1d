//! Which delete files apply to a data file, looked up in the index.

ghost use Rattle.std.specs.Prelude.{◌≡◌, ◌≤◌, ◌↔◌, ◌++◌, ◌∷◌, [], ◌==◌, ℕ, map, IfOk, OnOk, OnErr, Contains, count_by};
ghost use Rattle.std.specs.Prelude.{length};
ghost use Rattle.std.specs.List.Sorted.{IsPermutation};
ghost use Rattle.ice_value.specs.declared.file_content.FileContent.TheVariants.{PositionDeletes, EqualityDeletes};
ghost use Rattle.ice_deletes.specs.Found.{lent, AppliesAt};
ghost use Rattle.ice_deletes.specs.Keys.{key_of as record_key};
ghost use Rattle.ice_deletes.specs.Unions.{renumbered, AreBelow};
ghost use Rattle.ice_manifest_reading.specs.Lending.{lent as lent_entry};
ghost use Rattle.ice_state.specs.Applying.{data_key_of, delete_key_of};
ghost use Rattle.ice_state.specs.Parts.{places_of, numbers_of};
ghost use Rattle.ice_state.specs.Segments.{AreKept, entries_at};

use crate::kept::segments::{FileNumber, Segments};
use crate::plan::shared_places::SharedPlaces;
use ice_deletes::{Finder, Hits, Record};
use ice_manifest_reading::LentEntry;
use std::alloc::{AllocError, Global};

/// What the index is told of a delete file.
fn record<'a>(d: &LentEntry<'a>) -> Record<'a>
    ensures { record_key result ≡ delete_key_of (lent_entry d.now) }
{
    Record {
        content: d.content,
        spec_id: d.spec_id,
        unpartitioned: d.unpartitioned,
        tuple: d.tuple,
        sequence_number: d.sequence_number.get(),
        referenced: d.referenced,
    }
}

/// What the index is told of the delete files, each at its place.
pub fn records<'a>(
    alloc: Global,
    entries: &'a Segments,
    deletes: &[FileNumber],
) -> Result<Vec<Record<'a>>, AllocError>
    requires { AreKept entries.now deletes.now }
    ensures { IfOk result (λ records. map record_key records.items
        ≡ map delete_key_of (entries_at entries.now deletes.now)) }
{
    let mut records = Vec::with_capacity(alloc, deletes.len())?;
    'deletes: for d in deletes {
        records.push(record(&entries.entry(*d)))?;
    }
    Ok(records)
}

/// The numbers of the delete files that apply to the data file.
fn deletes_for<'i, 'x>(finder: &mut Finder<'i, 'x>, x: &LentEntry<'x>) -> Hits<'i>
    ensures positions { IsPermutation (numbers_of PositionDeletes finder.old (data_key_of (lent_entry x.now)))
        (result.positions.now ++ result.referenced.now) }
    ensures equalities { IsPermutation (numbers_of EqualityDeletes finder.old (data_key_of (lent_entry x.now)))
        (result.equalities.now ++ result.everywhere.now) }

    // Exactly those, each once.
    ensures exact { (n : ℕ) → Contains (lent result) n ↔ AppliesAt finder.old (data_key_of (lent_entry x.now)) n }
    ensures once { (n : ℕ) → count_by (λ m. m == n) (lent result) ≤ 1 }
    ensures same { finder.new ≡ finder.old }
{
    finder.for_data(x.spec_id, x.tuple, x.sequence_number, x.path)
}

/// Puts a line last: the places of the delete files that apply to the data file, which the ranks have at the numbers of
/// the index. A refusal, for want of memory, leaves the lines as they were.
pub fn push_places<'x>(
    places: &mut SharedPlaces,
    finder: &mut Finder<'_, 'x>,
    ranks: &[u32],
    x: &LentEntry<'x>,
) -> Result<(), AllocError>
    requires { AreBelow (length ranks.now) finder.old }
    ensures ok { OnOk result (places.new ≡ places.old
        ++ places_of (renumbered ranks.now finder.old) (data_key_of (lent_entry x.now)) ∷ []) }
    ensures err { OnErr result (places.new ≡ places.old) }
    ensures same { finder.new ≡ finder.old }
{
    let hits = deletes_for(finder, x);
    places.push(
        ranks,
        hits.positions,
        hits.referenced,
        hits.equalities,
        hits.everywhere,
    )
}
