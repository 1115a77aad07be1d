//! Which live entries of a manifest are kept.

ghost use Rattle.std.specs.Prelude.{◌≡◌, Bool, true, IfSome};
ghost use Rattle.ice_value.specs.declared.file_bounds.FileBounds.{FileBounds};
ghost use Rattle.ice_manifest_reading.specs.declared.entry.Live.{Live};
ghost use Rattle.ice_manifest_reading.specs.Keeping.{live_with};

use crate::entry::{EntryView, Live};

/// Tells which live entries are kept.
pub trait Keep {
    /// Whether a live entry is kept.
    ghost kept: { Self → Live → Bool };

    /// Whether a live entry is kept.
    fn keeps(&self, live: &Live<'_, '_>) -> bool
        ensures { result ≡ kept self.now live.now };

    /// Whether an entry is kept, where what its manifest says of its file's columns does not matter; none where it
    /// may matter, and has to be read.
    fn without_columns(&self, _entry: &EntryView<'_>) -> Option<bool>
        ensures { IfSome result (λ answer. (columns : FileBounds) →
            kept self.now (live_with _entry.now columns) ≡ answer) }
    {
        None
    }
}

/// Keeps every live entry.
pub struct Everything;

impl Keep for Everything {
    ghost kept = { λ all live. true };

    fn keeps(&self, _live: &Live<'_, '_>) -> bool {
        true
    }

    fn without_columns(&self, _entry: &EntryView<'_>) -> Option<bool> {
        Some(true)
    }
}
