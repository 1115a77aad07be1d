//! The kept entries of a manifest, as they are read.

ghost use Rattle.std.specs.Prelude.{◌≡◌, [], IfOk};

use ice_manifest_reading::{EntryView, Gather};
use std::alloc::{AllocError, Global};
use std::marker::Model;

/// Entries whose paths lie in their manifest still, in the order of their positions.
#[derive(Drop)]
pub(crate) struct Gathering<'d> {
    views: Vec<EntryView<'d>>,
}

impl<'d> Model for Gathering<'d> {
    ghost use Rattle.std.specs.Prelude.{List};
    ghost use Rattle.ice_manifest_reading.specs.declared.entry.Entry.{Entry};

    ghost Value = { List Entry };

    ghost view = { λ g. g.views.items };
}

impl<'d> Gathering<'d> {
    /// None yet, with room for so many.
    pub(crate) fn with_capacity(alloc: Global, entries: usize) -> Result<Gathering<'d>, AllocError>
        ensures { IfOk result (λ gathering. gathering ≡ []) }
    {
        Ok(Gathering {
            views: Vec::with_capacity(alloc, entries)?,
        })
    }

    /// The entries.
    pub(crate) fn views(&self) -> &[EntryView<'d>]
        ensures { result.now ≡ self.now }
    {
        &self.views
    }
}

impl<'d> Gather<'d> for Gathering<'d> {
    ghost gathered = { λ entries. entries };

    ghost keeps = { λ old new. Unit {0} };

    fn gather(&mut self, entry: EntryView<'d>) -> Result<(), AllocError> {
        Ok(self.views.push(entry)?)
    }

    ghost keeps_itself = { λ entries. tt };

    ghost keeps_further = { λ first second third one next. tt };
}
