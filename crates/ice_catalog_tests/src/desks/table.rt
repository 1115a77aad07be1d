//! A small table: three manifests, whose files lie in memory.

use crate::files::{PATHS, manifest};
use contract_words::Text;
use ice_desk::ReadFault;
use ice_filter::Bound;
use ice_manifest_reading::{Counts, ManifestContent, Row};
use ice_meta::Spec;
use ice_state::Scan;
use ice_value::SequenceNumber;
use std::alloc::{AllocError, Global};

/// The row of a manifest.
fn row(alloc: Global, which: usize) -> Result<Row, AllocError> {
    let (path, content, number) = match which {
        0 => (PATHS[0], ManifestContent::Data, 3),
        1 => (PATHS[1], ManifestContent::Deletes, 3),
        _ => (PATHS[2], ManifestContent::Deletes, 4),
    };
    let sequence_number = match SequenceNumber::new(number) {
        Some(number) => number,
        None => SequenceNumber::zero(),
    };
    Ok(Row {
        path: Text::from_string(String::from_str(alloc, path)?),
        length: 100,
        spec_id: 0,
        content,
        sequence_number,
        min_sequence_number: sequence_number,
        added_snapshot_id: 1,
        counts: Counts::none(),
        partitions: None,
    })
}

/// A scan of the three manifests, whose rows are not in the order of their paths.
pub fn scan_of_three(alloc: Global) -> Option<Scan> {
    let mut specs = Vec::new(alloc);
    specs.push(Spec::empty(alloc, 0)).ok()?;
    let mut rows = Vec::new(alloc);
    for which in [2, 1, 0] {
        rows.push(row(alloc, which).ok()?).ok()?;
    }
    Scan::new(alloc, rows, specs, Bound::always(alloc)).ok()
}

/// Which of the manifests this path names.
pub fn number_of(path: &str) -> Option<usize> {
    for i in 0..PATHS.len() {
        if PATHS[i] == path {
            return Some(i);
        }
    }
    None
}

/// The bytes of a manifest's file.
pub fn file_of(alloc: Global, which: usize) -> Result<Vec<u8>, ReadFault> {
    match manifest(alloc, which) {
        Ok(bytes) => Ok(bytes),
        Err(_) => Err(ReadFault::Memory),
    }
}
