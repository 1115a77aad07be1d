//! The folders of a system: where files are read below them, and where commits put new ones.

ghost use Rattle.std.specs.Prelude.{◌≡◌, ℕ, List, Option, None, Some, IfOk, OnOk, IsErrOf};
ghost use Rattle.ice_desk.specs.Worlds.{HasAt};
ghost use Rattle.ice_state.specs.Contents.{World};
ghost use Rattle.icescan_files.specs.Bundles.{File};

use crate::folder::{CommitFolder, Folder, Links, is_outside};
use crate::listing::names_in_folder;
use crate::store::{Store, StoreFault};
use contract_words::Text;
use ice_catalog_changes::Ids;
use ice_desk::{Files, ReadFault};
use std::alloc::{AllocError, Global};

/// Folders whose files can be read. Which file a path is below a folder is said by a prefix: the front of the paths
/// that the folder stands for.
pub trait Folders {
    /// The bytes at each path of the files below a folder with a prefix, where they are reported. They stay the same
    /// from one read to the next.
    ghost below: { Self → List ℕ → List ℕ → Option World };

    /// What a read of the file at a path below a folder with a prefix may give: its bytes, or that there is none. Where
    /// files change from one read to the next, it may give more than one.
    ghost gives: { Self → List ℕ → List ℕ → List ℕ → Option (List ℕ) → Type 0 };

    /// A read of the file at a path below a folder with a prefix may fail.
    ghost may_fail: { Self → List ℕ → List ℕ → List ℕ → Type 0 };

    /// Puts the bytes of the file at a path below a folder in place of those that `bytes` has. A refusal leaves any
    /// bytes.
    fn read_below(
        &self,
        alloc: Global,
        folder: &str,
        prefix: &str,
        path: &str,
        bytes: &mut Vec<u8>,
    ) -> Result<(), ReadFault>
        ensures found { OnOk result (HasAt (below self.now folder.now prefix.now) path.now (Some bytes.new.items)) }
        ensures absent { IsErrOf result ReadFault.Absent → HasAt (below self.now folder.now prefix.now) path.now None }
        ensures device { IsErrOf result ReadFault.Device → may_fail self.now folder.now prefix.now path.now }
        ensures given { OnOk result (gives self.now folder.now prefix.now path.now (Some bytes.new.items)) }
        ensures none_given { IsErrOf result ReadFault.Absent → gives self.now folder.now prefix.now path.now None };

    /// What listing a folder may give: the names of what is in it, or that there is no such folder.
    ghost lists: { Self → List ℕ → Option (List (List ℕ)) → Type 0 };

    /// The names of what is in a folder, but for those that are not UTF-8.
    fn names_in(&self, alloc: Global, folder: &str) -> Result<Vec<Text>, ReadFault>
        ensures listed { IfOk result (λ names. lists self.now folder.now (Some names.items)) }
        ensures not_listed { IsErrOf result ReadFault.Absent → lists self.now folder.now None };
}

/// The files below one folder.
#[derive(Drop)]
pub struct Below<'a, D> {
    folders: &'a D,
    folder: &'a str,
    prefix: &'a str,
}

impl<'a, D: Folders> Below<'a, D> {
    /// The files below a folder, of the paths that begin with a prefix.
    pub fn new(folders: &'a D, folder: &'a str, prefix: &'a str) -> Self
        ensures { (result.folders.now ≡ folders.now) × (result.folder.now ≡ folder.now) ×
            (result.prefix.now ≡ prefix.now) }
    {
        Below {
            folders,
            folder,
            prefix,
        }
    }
}

impl<D: Folders> Files for Below<'_, D> {
    ghost world = { λ files. D.below files.folders.now files.folder.now files.prefix.now };

    ghost gives = { λ files. D.gives files.folders.now files.folder.now files.prefix.now };

    ghost may_fail = { λ files. D.may_fail files.folders.now files.folder.now files.prefix.now };

    fn read(&self, alloc: Global, path: &str) -> Result<Vec<u8>, ReadFault> {
        let mut bytes = Vec::new(alloc);
        self.read_into(alloc, path, &mut bytes)?;
        Ok(bytes)
    }

    fn read_into(&self, alloc: Global, path: &str, bytes: &mut Vec<u8>) -> Result<(), ReadFault> {
        self.folders
            .read_below(alloc, self.folder, self.prefix, path, bytes)
    }
}

/// The folders of a host. What lies below them may change from one read to the next, so their bytes are not reported.
#[derive(Drop)]
pub struct HostFolders<'a, H> {
    host: &'a H,
    links: Links,
}

impl<'a, H: std::rt::Files> HostFolders<'a, H> {
    /// The folders of this host. Links below them are followed.
    pub fn new(host: &'a H) -> Self {
        HostFolders::by_links(host, Links::Followed)
    }

    /// The folders of this host, with links below them followed or refused.
    pub fn by_links(host: &'a H, links: Links) -> Self {
        HostFolders { host, links }
    }
}

impl<H: std::rt::Files> Folders for HostFolders<'_, H> {
    ghost below = { λ _ _ _. None };

    ghost gives = { λ _ _ _ _ _. Unit {0} };

    ghost may_fail = { λ _ _ _ _. Unit {0} };

    fn read_below(
        &self,
        alloc: Global,
        folder: &str,
        prefix: &str,
        path: &str,
        bytes: &mut Vec<u8>,
    ) -> Result<(), ReadFault> {
        let files = Folder::by_links(self.host, folder, prefix, self.links);
        files.read_into(alloc, path, bytes)
    }

    ghost lists = { λ _ _ _. Unit {0} };

    fn names_in(&self, alloc: Global, folder: &str) -> Result<Vec<Text>, ReadFault> {
        names_in_folder(self.host, alloc, folder)
    }
}

/// Where commits put their files: below the folder that was entered last.
pub trait Stores: Store {
    /// The files below a folder with a prefix, the newest last, where they are reported.
    ghost below: { Self → List ℕ → List ℕ → Option (List File) };

    /// Putting a file below a folder with a prefix may fail.
    ghost below_may_fail: { Self → List ℕ → List ℕ → Type 0 };

    /// Enters a folder: new files whose paths begin with the prefix are put below it, for the commit that takes these
    /// names. Where memory runs out, each put is refused for it until a folder is entered again.
    fn enter(&mut self, alloc: Global, folder: &str, prefix: &str, ids: &Ids)
        ensures entered { Self.files self.new ≡ below self.old folder.now prefix.now }
        ensures cause { Self.may_fail self.new → below_may_fail self.old folder.now prefix.now };
}

/// A folder that was entered, and the names of the commit that entered it.
#[derive(Drop)]
struct Entered {
    folder: Text,
    prefix: Text,
    ids: Ids,
}

impl Entered {
    /// A folder and the names of a commit.
    fn new(alloc: Global, folder: &str, prefix: &str, ids: &Ids) -> Result<Self, AllocError> {
        Ok(Entered {
            folder: Text::from_string(String::from_str(alloc, folder)?),
            prefix: Text::from_string(String::from_str(alloc, prefix)?),
            ids: *ids,
        })
    }
}

/// The folders of a host, for new files. Their files are not reported.
#[derive(Drop)]
pub struct HostStores<'a, H> {
    host: &'a H,
    links: Links,
    entered: Option<Entered>,
}

impl<'a, H: std::rt::Files> HostStores<'a, H> {
    /// The folders of this host; none is entered. Links below them are followed.
    pub fn new(host: &'a H) -> Self {
        HostStores::by_links(host, Links::Followed)
    }

    /// The folders of this host, with links below them followed or refused; none is entered.
    pub fn by_links(host: &'a H, links: Links) -> Self {
        HostStores {
            host,
            links,
            entered: None,
        }
    }
}

impl<H: std::rt::Files> Store for HostStores<'_, H> {
    ghost files = { λ _. None };

    ghost may_fail = { λ _. Unit {0} };

    fn has_no_place(&self, path: &str) -> bool {
        match &self.entered {
            Some(entered) => is_outside(entered.prefix.as_str(), path),
            None => false,
        }
    }

    fn create_new(&mut self, alloc: Global, path: &str, bytes: &[u8]) -> Result<(), StoreFault> {
        match &self.entered {
            Some(entered) => {
                let folder = Folder::by_links(
                    self.host,
                    entered.folder.as_str(),
                    entered.prefix.as_str(),
                    self.links,
                );
                CommitFolder::new(folder, &entered.ids).create_new(alloc, path, bytes)
            }
            None => Err(StoreFault::Memory),
        }
    }
}

impl<H: std::rt::Files> Stores for HostStores<'_, H> {
    ghost below = { λ _ _ _. None };

    ghost below_may_fail = { λ _ _ _. Unit {0} };

    fn enter(&mut self, alloc: Global, folder: &str, prefix: &str, ids: &Ids) {
        self.entered = Entered::new(alloc, folder, prefix, ids).ok();
    }
}
