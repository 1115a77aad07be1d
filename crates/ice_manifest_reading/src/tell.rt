//! What is told of the live entries of a manifest.

ghost use Rattle.std.specs.Prelude.{◌≡◌, IfOk, IfSome};
ghost use Rattle.ice_value.specs.declared.file_bounds.FileBounds.{FileBounds};
ghost use Rattle.ice_manifest_reading.specs.declared.entry.Live.{Live};
ghost use Rattle.ice_manifest_reading.specs.Keeping.{live_with};

use crate::entry::{EntryView, Live};
use std::alloc::{AllocError, Global};

/// Tells something of each live entry.
pub trait Tell {
    /// What is told.
    type Told: Drop;

    /// What is told of a live entry.
    ghost told: { Self → Live → Self.Told };

    /// What is told of a live entry.
    fn tell(&self, alloc: Global, live: &Live<'_, '_>) -> Result<Self::Told, AllocError>
        ensures { IfOk result (λ it. it ≡ told self.now live.now) };

    /// What is told of an entry, where what its manifest says of its file's columns does not matter; none where it may
    /// matter, and has to be read.
    fn without_columns(
        &self,
        _alloc: Global,
        _entry: &EntryView<'_>,
    ) -> Result<Option<Self::Told>, AllocError>
        ensures { IfOk result (λ answer. IfSome answer (λ it. (columns : FileBounds) →
            told self.now (live_with _entry.now columns) ≡ it)) }
    {
        Ok(None)
    }
}

/// Tells nothing.
pub struct Silent;

impl Tell for Silent {
    type Told = ();

    ghost told = { λ silent live. tt };

    fn tell(&self, _alloc: Global, _live: &Live<'_, '_>) -> Result<(), AllocError> {
        Ok(())
    }

    fn without_columns(
        &self,
        _alloc: Global,
        _entry: &EntryView<'_>,
    ) -> Result<Option<()>, AllocError> {
        Ok(Some(()))
    }
}
