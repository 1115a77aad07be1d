//! What live entries give, one after the other.

ghost use Rattle.std.specs.Prelude.{◌≡◌, false, ◌++◌, Ok, OnOk};
ghost use Rattle.contract_words.specs.Outcome.{Gives};
ghost use Rattle.ice_manifest_fields.specs.Maps.{columns_of as columns_said};
ghost use Rattle.ice_manifest_layouts.specs.Seen.{file_seen, IsFile};
ghost use Rattle.ice_value.specs.declared.file_bounds.FileBounds.{FileBounds};
ghost use Rattle.ice_manifest_reading.specs.Keeping.{live_with};
ghost use Rattle.ice_manifest_reading.specs.Collecting.{kept_each, told_each, if_kept};

use crate::columns::{columns_of, maps_of};
use crate::entry::{EntryView, Live};
use crate::gather::Gather;
use crate::keep::Keep;
use crate::tell::Tell;
use ice_manifest_fields::ManifestFault;
use ice_manifest_layouts::FoundFile;
use std::alloc::{AllocError, Global};

/// What is asked of each live entry: whether it is kept, and what is told of it.
#[derive(Drop)]
pub struct Asked<'a, K, T> {
    /// Whether an entry is kept.
    pub keep: &'a K,
    /// What is told of an entry, kept or not.
    pub tell: &'a T,
}

/// Gathers an entry if it is kept.
fn gather_if<'d, G: Gather<'d>>(
    gather: &mut G,
    kept: bool,
    entry: EntryView<'d>,
) -> Result<(), AllocError>
    ensures gathered { OnOk result (G.gathered gather.new ≡ G.gathered gather.old ++ if_kept kept entry.entry) }
    ensures keeps { G.keeps gather.old gather.new }
{
    if kept {
        gather.gather(entry)?;
    }
    Ok(())
}

/// Puts what is told of a live entry last, and gathers the entry if it is kept.
fn put_read<'d, K: Keep, T: Tell, G: Gather<'d>>(
    alloc: Global,
    asked: &Asked<'_, K, T>,
    told: &mut Vec<T::Told>,
    gather: &mut G,
    live: Live<'_, 'd>,
) -> Result<(), AllocError>
    ensures told { OnOk result (told.new.items
        ≡ told.old.items ++ told_each (T.told asked.now.tell.now) live.entry) }
    ensures gathered { OnOk result (G.gathered gather.new
        ≡ G.gathered gather.old ++ kept_each (K.kept asked.now.keep.now) live.entry) }
    ensures keeps { G.keeps gather.old gather.new }
{
    let kept = asked.keep.keeps(&live);
    let said = asked.tell.tell(alloc, &live)?;
    told.push(said)?;
    gather_if(gather, kept, live.entry)
}

/// Puts what is told of a live entry last, and gathers the entry if it is kept, by what is said of its file's columns,
/// which has no fault.
fn put_by_columns<'d, K: Keep, T: Tell, G: Gather<'d>>(
    alloc: Global,
    asked: &Asked<'_, K, T>,
    told: &mut Vec<T::Told>,
    gather: &mut G,
    entry: EntryView<'d>,
    file: &FoundFile<'_, '_, '_, 'd>,
) -> Result<(), ManifestFault>
    requires { IsFile file.now }
    ensures told { (columns : FileBounds) → columns_said (file_seen file.now) ≡ Ok columns →
        Gives ManifestFault.Memory (λ _. told.new.items) result
        (Ok (told.old.items ++ told_each (T.told asked.now.tell.now) (live_with entry.entry columns))) }
    ensures gathered { (columns : FileBounds) → columns_said (file_seen file.now) ≡ Ok columns →
        Gives ManifestFault.Memory (λ _. G.gathered gather.new) result
        (Ok (G.gathered gather.old ++ kept_each (K.kept asked.now.keep.now) (live_with entry.entry columns))) }
    ensures keeps { G.keeps gather.old gather.new }
{
    let guided = file.guided();
    let maps = maps_of(file, &guided).read(alloc)?;
    let bounds = columns_of(alloc, file, &maps)?;
    Ok(put_read(alloc, asked, told, gather, Live { entry, bounds })?)
}

/// Puts what is told of a live entry last, and gathers the entry if it is kept. What is said of its file's columns,
/// which has no fault, is read only where it tells.
pub(crate) fn put_live<'d, K: Keep, T: Tell, G: Gather<'d>>(
    alloc: Global,
    asked: &Asked<'_, K, T>,
    told: &mut Vec<T::Told>,
    gather: &mut G,
    entry: EntryView<'d>,
    file: &FoundFile<'_, '_, '_, 'd>,
) -> Result<(), ManifestFault>
    requires { IsFile file.now }
    ensures told { (columns : FileBounds) → columns_said (file_seen file.now) ≡ Ok columns →
        Gives ManifestFault.Memory (λ _. told.new.items) result
        (Ok (told.old.items ++ told_each (T.told asked.now.tell.now) (live_with entry.entry columns))) }
    ensures gathered { (columns : FileBounds) → columns_said (file_seen file.now) ≡ Ok columns →
        Gives ManifestFault.Memory (λ _. G.gathered gather.new) result
        (Ok (G.gathered gather.old ++ kept_each (K.kept asked.now.keep.now) (live_with entry.entry columns))) }
    ensures keeps { G.keeps gather.old gather.new }
{
    let kept = asked.keep.without_columns(&entry);
    let said = asked.tell.without_columns(alloc, &entry)?;
    let (Some(kept), Some(said)) = (kept, said) else {
        return put_by_columns(alloc, asked, told, gather, entry, file);
    };
    told.push(said)?;
    Ok(gather_if(gather, kept, entry)?)
}

/// Entries as a list.
#[derive(Drop)]
pub(crate) struct Views<'d> {
    pub(crate) list: Vec<EntryView<'d>>,
}

impl<'d> Gather<'d> for Views<'d> {
    ghost gathered = { λ views. views.list.items };

    ghost keeps = { λ old new. Unit {0} };

    fn gather(&mut self, entry: EntryView<'d>) -> Result<(), AllocError> {
        Ok(self.list.push(entry)?)
    }

    ghost keeps_itself = { λ views. tt };

    ghost keeps_further = { λ first second third one next. tt };
}

/// Keeps no entry.
pub(crate) struct Nothing;

impl Keep for Nothing {
    ghost kept = { λ none live. false };

    fn keeps(&self, _live: &Live<'_, '_>) -> bool {
        false
    }

    fn without_columns(&self, _entry: &EntryView<'_>) -> Option<bool> {
        Some(false)
    }
}
