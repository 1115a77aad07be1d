//! What is said of the columns of an entry's file.

ghost use Rattle.std.specs.Prelude.{◌≡◌, IfSome};
ghost use Rattle.contract_words.specs.Outcome.{Gives};
ghost use Rattle.ice_manifest_fields.specs.Maps.{columns_of as columns_said};
ghost use Rattle.ice_manifest_fields.specs.Naming.{in_manifest, told};
ghost use Rattle.ice_manifest_values.specs.Met.{Checks};
ghost use Rattle.ice_manifest_layouts.specs.Seen.{file_seen, IsFile, IsGuidedFile};
ghost use Rattle.ice_manifest_reading.specs.Behind.{AreMapsIn, AreMapsOf};

use avro_file_picked::GuidedObject;
use ice_manifest_fields::ManifestFault;
use ice_manifest_layouts::{FileField, FoundFile};
use ice_manifest_values::{FoundMaps, ReadMaps};
use ice_value::FileBounds;
use std::alloc::Global;

/// The maps of the file's columns, which are not read yet.
pub(crate) fn maps_of<'e, 's, 'd>(
    file: &FoundFile<'_, '_, 's, 'd>,
    guided: &'e Option<GuidedObject<'e, 's, 'd>>,
) -> FoundMaps<'e, 's, 'd>
    requires file { IsFile file.now }
    requires guided { IfSome guided.now (λ guided. IsGuidedFile file.now guided) }
    ensures { AreMapsIn file.now result }
{
    FoundMaps {
        guided,
        value_counts: file.found(FileField::ValueCounts),
        null_counts: file.found(FileField::NullCounts),
        lower_bounds: file.found(FileField::LowerBounds),
        upper_bounds: file.found(FileField::UpperBounds),
    }
}

/// The first fault of what is said of the file's columns.
pub(crate) fn check_columns(alloc: Global, file: &FoundFile) -> Result<(), ManifestFault>
    requires { IsFile file.now }
    ensures { Checks result (columns_said (file_seen file.now)) }
{
    let guided = file.guided();
    maps_of(file, &guided).check(alloc)
}

/// The counts and bounds of the file's columns, lent by its maps.
pub(crate) fn columns_of<'a, 'd>(
    alloc: Global,
    file: &FoundFile,
    maps: &'a ReadMaps<'_, '_, 'd>,
) -> Result<FileBounds<'a, 'd>, ManifestFault>
    requires { AreMapsOf file.now maps.now }
    ensures { Gives ManifestFault.Memory (λ x. x) result (told in_manifest (columns_said (file_seen file.now))) }
{
    maps.columns(alloc)
}
