//! Who gathers the entries of a manifest that are kept.

ghost use Rattle.std.specs.Prelude.{◌≡◌, ◌++◌, ◌∷◌, [], List, OnOk};
ghost use Rattle.ice_manifest_reading.specs.declared.entry.Entry.{Entry};

use crate::entry::EntryView;
use std::alloc::AllocError;

/// Gathers live entries as they are read.
pub trait Gather<'d> {
    /// The entries that were gathered so far.
    ghost gathered: { Self → List Entry };

    /// The second keeps what has to be kept of the first, from which it came by gathering.
    ghost keeps: { Self → Self → Type 0 };

    /// Puts an entry last. After a refusal, for want of memory, only what has to be kept is known.
    fn gather(&mut self, entry: EntryView<'d>) -> Result<(), AllocError>
        ensures keeps { keeps self.old self.new }
        ensures ok { OnOk result (gathered self.new ≡ gathered self.old ++ entry.entry ∷ []) };

    ghost keeps_itself: { (x : Self) → keeps x x };

    ghost keeps_further: { (x y z : Self) → keeps x y → keeps y z → keeps x z };
}
