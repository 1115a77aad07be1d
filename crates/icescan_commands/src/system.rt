//! What a run works with.

ghost use Rattle.std.specs.Prelude.{◌≡◌, if◌then◌else◌, map, string_bytes};
ghost use Rattle.icescan_progress.specs.Asked.{refuses_links};

use icescan_files::Links;
use icescan_progress::refuses_links;
use std::alloc::Global;

/// What a run works with: there is no other way to the bytes of a file.
#[derive(Drop)]
pub struct System<'a, H, S, P> {
    /// Starts threads, and waits for them.
    pub host: &'a H,
    pub alloc: Global,
    /// The folders whose files are read.
    pub folders: &'a S,
    /// Is told of each file that is read below a folder.
    pub progress: &'a P,
}

/// Whether links below a folder are followed in a run of these words.
pub fn links_of(words: &[String]) -> Links
    ensures { result ≡ (if refuses_links (map string_bytes words.now) then Links.Refused else Links.Followed) }
{
    if refuses_links(words) {
        Links::Refused
    } else {
        Links::Followed
    }
}
