//! What a hint is told from.

use contract_words::Text;
use ice_desk::Files;
use ice_manifest_reading::Row;
use ice_meta::{Metadata, Target};
use icescan_text::{CommitRequest, Request, read_rows};
use icescan_words::{Command, Lists, Place, Source};
use std::alloc::Global;

/// The folder that the files of what is asked for are below.
pub fn place_of(asked: &Command) -> Option<&Place> {
    match asked {
        Command::ListPlan(Lists::Folder(place, _), _) => Some(place),
        Command::Plan(Source::Folder(place), _, _, _, _) => Some(place),
        Command::Commit(Source::Folder(place), _) => Some(place),
        Command::Show(Source::Folder(place), _, _) => Some(place),
        Command::Columns(Source::Folder(place), _, _, _) => Some(place),
        Command::Audit(Source::Folder(place), _, _, _, _) => Some(place),
        Command::AuditAll(Source::Folder(place), _, _, _) => Some(place),
        Command::Explain(Source::Folder(place), _, _, _, _) => Some(place),
        Command::Relaxed(_, Source::Folder(place), _, _, _, _) => Some(place),
        Command::Changes(Source::Folder(place), _, _, _, _) => Some(place),
        Command::Reachable(Source::Folder(place), _, _, _) => Some(place),
        Command::Orphans(place, _, _, _) => Some(place),
        Command::Take(Source::Folder(place), _, _, _, _) => Some(place),
        Command::Finish(Source::Folder(place), _, _, _, _, _) => Some(place),
        _ => None,
    }
}

/// What was asked for, and the files that it was asked of, where they can be read once more.
#[derive(Drop)]
pub struct Case<'a, F> {
    pub asked: &'a Command,
    pub files: Option<&'a F>,
}

impl<'a, F: Files> Case<'a, F> {
    /// The folder that the files are below.
    pub fn place(&self) -> Option<&'a Place> {
        place_of(self.asked)
    }

    /// The path of the table's metadata.
    pub fn metadata_path(&self) -> Option<&'a str> {
        match self.asked {
            Command::Plan(_, _, _, _, path)
            | Command::Show(_, _, path)
            | Command::Columns(_, _, _, path)
            | Command::Audit(_, _, _, _, path)
            | Command::AuditAll(_, _, _, path)
            | Command::Explain(_, _, _, _, path)
            | Command::Relaxed(_, _, _, _, _, path)
            | Command::Changes(_, _, _, _, path)
            | Command::Reachable(_, _, _, path)
            | Command::Orphans(_, _, _, path)
            | Command::Take(_, _, _, _, path)
            | Command::Finish(_, _, _, _, _, path) => Some(path.as_str()),
            Command::Commit(_, request) => Some(request.metadata.as_str()),
            _ => None,
        }
    }

    /// The plan that is asked of the table.
    pub fn request(&self) -> Option<&'a Request> {
        match self.asked {
            Command::Plan(_, request, _, _, _)
            | Command::Explain(_, request, _, _, _)
            | Command::Relaxed(_, _, request, _, _, _) => Some(request),
            Command::Take(_, asked, _, _, _) | Command::Finish(_, asked, _, _, _, _) => {
                Some(&asked.request)
            }
            _ => None,
        }
    }

    /// The snapshot that is asked for.
    pub fn target(&self) -> Option<&'a Target> {
        match self.asked {
            Command::Plan(_, request, _, _, _)
            | Command::Explain(_, request, _, _, _)
            | Command::Relaxed(_, _, request, _, _, _) => Some(&request.target),
            Command::Take(_, asked, _, _, _) | Command::Finish(_, asked, _, _, _, _) => {
                Some(&asked.request.target)
            }
            Command::Columns(_, target, _, _) | Command::Audit(_, target, _, _, _) => Some(target),
            _ => None,
        }
    }

    /// The commit that is asked for.
    pub fn commit(&self) -> Option<&'a CommitRequest> {
        match self.asked {
            Command::Commit(_, request) => Some(request),
            _ => None,
        }
    }

    /// The text of the filter.
    pub fn filter(&self) -> Option<&'a Text> {
        self.request()?.filter.as_ref()
    }

    /// The bytes of the file at a path, where it can be read.
    pub fn read(&self, alloc: Global, path: &str) -> Option<Vec<u8>> {
        self.files?.read(alloc, path).ok()
    }

    /// The table's metadata, where it can be read.
    pub fn metadata(&self, alloc: Global) -> Option<Metadata> {
        let bytes = self.read(alloc, self.metadata_path()?)?;
        Metadata::read(alloc, &bytes).ok()
    }

    /// The rows of the manifest list at a path, where they can be read.
    pub fn rows(&self, alloc: Global, list: &str) -> Option<Vec<Row>> {
        read_rows(alloc, self.files?, list).ok()
    }
}
