//! What a folder of a host has in it.

use crate::bundle::find_byte;
use crate::folder::open_fault;
use crate::input::{MOST_READS, read_all};
use contract_words::Text;
use ice_desk::ReadFault;
use std::alloc::{AllocError, Global};

/// The path by which a folder is opened: a slash at its end follows a link.
fn folder_path(alloc: Global, folder: &str) -> Result<String, AllocError> {
    let mut path = String::from_str(alloc, folder)?;
    path.push('/')?;
    Ok(path)
}

/// The names of a listing, each of which a NUL ends, in order, but for those that are not UTF-8.
fn names_of(alloc: Global, listing: &[u8]) -> Result<Vec<Text>, AllocError> {
    let mut names = Vec::new(alloc);
    for name in listing.split(|byte| *byte == 0) {
        if let Ok(name) = str::from_utf8(name) {
            names.push(String::from_str(alloc, name)?)?;
        }
    }
    names.sort()?;
    let mut sorted = Vec::new(alloc);
    for name in names {
        sorted.push(Text::from_string(name))?;
    }
    Ok(sorted)
}

/// The names of what is in a folder, in order, but for those that are not UTF-8.
pub fn names_in_folder<H: std::rt::Files>(
    host: &H,
    alloc: Global,
    folder: &str,
) -> Result<Vec<Text>, ReadFault> {
    let Ok(path) = folder_path(alloc, folder) else {
        return Err(ReadFault::Memory);
    };
    let mut listing = match host.open_dir(path.as_str()) {
        Ok(listing) => listing,
        Err(e) => return Err(open_fault(&e)),
    };
    let bytes = read_all(alloc, &mut listing, MOST_READS)?;
    match names_of(alloc, &bytes) {
        Ok(names) => Ok(names),
        Err(_) => Err(ReadFault::Memory),
    }
}
