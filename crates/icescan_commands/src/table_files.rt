//! The files of a table.

ghost use Rattle.std.specs.Prelude.{◌≡◌, ℕ, List, IfErr, IfOk, true};
ghost use Rattle.icescan_commands.specs.Reading.{AreGivenBelow};
ghost use Rattle.icescan_commands.specs.Sources.{AreOf, IsNoBundle};
ghost use Rattle.icescan_files.specs.Bundles.{IsInput};

use crate::system::System;
use ice_desk::{Files, ReadFault};
use icescan_files::{Below, Bundle, Folders, read_bundle};
use icescan_progress::{Progress, Watched};
use icescan_text::RunFault;
use icescan_words::{Place, Source};
use std::alloc::Global;
use std::io::Read;

/// The files of a table.
#[derive(Drop)]
pub enum TableFiles<F> {
    /// Those of a bundle.
    Bundle(Bundle),
    /// Those below a folder.
    Folder(F),
}

impl<F: Files> Files for TableFiles<F> {
    ghost use Rattle.icescan_commands.specs.TablesFiles.{gives_of, may_fail_of, world_of};

    ghost world = { λ files. world_of F.world files };

    ghost gives = { λ files. gives_of F.gives files };

    ghost may_fail = { λ files. may_fail_of F.may_fail files };

    fn read(&self, alloc: Global, path: &str) -> Result<Vec<u8>, ReadFault> {
        match self {
            TableFiles::Bundle(bundle) => bundle.read(alloc, path),
            TableFiles::Folder(files) => files.read(alloc, path),
        }
    }

    fn read_into(&self, alloc: Global, path: &str, bytes: &mut Vec<u8>) -> Result<(), ReadFault> {
        match self {
            TableFiles::Bundle(bundle) => bundle.read_into(alloc, path, bytes),
            TableFiles::Folder(files) => files.read_into(alloc, path, bytes),
        }
    }
}

/// The files below the folder of a place.
pub fn files_below<'a, S: Folders>(folders: &'a S, place: &'a Place) -> Below<'a, S>
    ensures { (result.folders.now ≡ folders.now) × (result.folder.now ≡ place.now.folder) ×
        (result.prefix.now ≡ place.now.prefix) }
{
    Below::new(folders, place.folder.as_str(), place.prefix.as_str())
}

/// The files below the folder of a place; each read of one is told.
pub fn watched_files<'a, H, S: Folders, P: Progress>(
    system: &System<'a, H, S, P>,
    place: &'a Place,
) -> Watched<'a, Below<'a, S>, P>
    requires { P.may_be_told system.now.progress.now ≡ true }
    ensures { (result.files.folders.now ≡ system.now.folders.now) × (result.files.folder.now ≡ place.now.folder) ×
        (result.files.prefix.now ≡ place.now.prefix) }
{
    Watched::new(files_below(system.folders, place), system.progress)
}

/// The files of a source: those of the bundle that standard input has, or those below a folder.
pub fn open_files<'a, H, S: Folders, P: Progress, R: Read>(
    system: &System<'a, H, S, P>,
    source: &'a Source,
    input: &mut R,
) -> Result<TableFiles<Watched<'a, Below<'a, S>, P>>, RunFault>
    requires { P.may_be_told system.now.progress.now ≡ true }
    ensures opened { IfOk result (λ files. (text : List ℕ) × IsInput (R.remaining input.old) text ×
        AreOf (S.below system.now.folders.now) (S.may_fail system.now.folders.now) source.now text
        (⟦<TableFiles<Watched<'a, Below<'a, S>, P>> as Files>⟧.world files)
        (⟦<TableFiles<Watched<'a, Below<'a, S>, P>> as Files>⟧.may_fail files)) }
    ensures refused { IfErr result (λ fault. (text : List ℕ) × IsInput (R.remaining input.old) text ×
        IsNoBundle source.now text fault) }
    ensures given { IfOk result (λ files. AreGivenBelow (S.gives system.now.folders.now) source.now
        (⟦<TableFiles<Watched<'a, Below<'a, S>, P>> as Files>⟧.gives files)) }
{
    match source {
        Source::Bundle => Ok(TableFiles::Bundle(read_bundle(system.alloc, input)?)),
        Source::Folder(place) => Ok(TableFiles::Folder(watched_files(system, place))),
    }
}
