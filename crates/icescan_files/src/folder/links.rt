//! Links below a folder.

use std::alloc::{AllocError, Global};
use std::fs;

/// Whether links below a folder are followed.
#[derive(Clone, Copy, Debug, PartialEq, Eq)]
pub enum Links {
    Followed,
    Refused,
}

/// Whether a name is that of a link, as far as the system tells.
fn is_link<H: std::rt::Files>(host: &H, name: &str) -> bool {
    match fs::symlink_metadata(host, name) {
        Ok(found) => found.is_symlink(),
        Err(_) => false,
    }
}

/// Whether a link is met below a folder: what a name there stands for, or a folder on the way to it.
pub(super) fn meets_link<H: std::rt::Files>(
    alloc: Global,
    host: &H,
    folder: &str,
    below: &str,
) -> Result<bool, AllocError> {
    let mut name = String::from_str(alloc, folder)?;
    for segment in below.split('/') {
        name.push('/')?;
        name.push_str(segment)?;
        if is_link(host, name.as_str()) {
            return Ok(true);
        }
    }
    Ok(false)
}
