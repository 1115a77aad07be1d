//! Public calls of ice_state_entries once more, each under the one clause that its wrong implementations turn.

ghost use Rattle.std.specs.Prelude.{◌≡◌, IfOk};
ghost use Rattle.ice_manifest_reading.specs.Lending.{lent, HasShortPaths};
ghost use Rattle.ice_state_entries.specs.Kept.{AreKept, entries_at, entry_at};

use ice_manifest_reading::LentEntry;
use ice_state_entries::{Entries, EntryNumber};
use std::alloc::AllocError;

/// Keeps an entry, as a clash if its path is that of another one.
pub fn add(entries: &mut Entries, entry: &LentEntry<'_>) -> Result<EntryNumber, AllocError>
    requires { HasShortPaths entry.now }
    ensures { IfOk result (λ number. entry_at entries.new number ≡ lent entry.now) }
{
    entries.add(entry)
}

/// Keeps entries that others keep.
pub fn add_kept(
    entries: &mut Entries,
    others: &Entries,
    numbers: &[EntryNumber],
) -> Result<Vec<EntryNumber>, AllocError>
    requires { AreKept others.now numbers.now }
    ensures { IfOk result (λ added. entries_at entries.new added.items ≡ entries_at others.now numbers.now) }
{
    entries.add_kept(others, numbers)
}
