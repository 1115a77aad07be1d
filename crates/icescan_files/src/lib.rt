//! Files by the paths that a table gives them: those of bundles and of folders, and where new ones are put.
#![tactic(auto)]

mod bundle;
mod bundle_text;
mod digits;
mod folder;
mod folders;
mod input;
mod listing;
mod named;
mod store;

pub use bundle::Bundle;
pub use bundle_text::read_bundle;
pub use folder::{CommitFolder, Disk, DiskFolder, Folder, HostDisk, Links, file_name};
pub use folders::{Below, Folders, HostFolders, HostStores, Stores};
pub use input::{MOST_READS, read_all};
pub use named::NamedFiles;
pub use store::{Store, StoreFault, put_files};
