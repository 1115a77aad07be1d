//! Folders that tell how old their files are.

use ice_desk::ReadFault;
use icescan_paths::AgedFile;
use std::alloc::Global;

/// Folders that tell how old their files are. Nothing is promised of what they tell: files come and go.
pub trait AgedFolders {
    /// The files below a folder, in the order of their paths, which begin with a prefix, and how long ago each was
    /// changed.
    fn aged_files(
        &self,
        alloc: Global,
        folder: &str,
        prefix: &str,
    ) -> Result<Vec<AgedFile>, ReadFault>;
}
