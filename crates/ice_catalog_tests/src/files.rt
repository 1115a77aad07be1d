//! Manifests that another program wrote: one of a data file, one of deletes, and one of deletes with the next sequence
//! number.

use std::alloc::{AllocError, Global};

/// The paths of the manifests, in their order.
pub const PATHS: [&str; 3] = ["mem://t/m1", "mem://t/m2", "mem://t/m3"];

/// The head of a manifest: entries with the fields that are read.
const HEAD: &[u8] =
    b"Obj\x01\x04\x16avro.schema\xb4\x08{\"type\":\"record\",\"name\":\"manifest_entry\",\"fields\":[{\"name\":\"status\",\"type\":\"int\",\"field-id\":0},{\"name\":\"sequence_number\",\"type\":[\"null\",\"long\"],\"field-id\":3},{\"name\":\"data_file\",\"type\":{\"type\":\"record\",\"name\":\"r2\",\"fields\":[{\"name\":\"content\",\"type\":\"int\",\"field-id\":134},{\"name\":\"file_path\",\"type\":\"string\",\"field-id\":100},{\"name\":\"record_count\",\"type\":\"long\",\"field-id\":103},{\"name\":\"file_size_in_bytes\",\"type\":\"long\",\"field-id\":104},{\"name\":\"equality_ids\",\"type\":[\"null\",{\"type\":\"array\",\"items\":\"int\"}],\"field-id\":135}]},\"field-id\":2}]}\x14avro.codec\x08null\x00";

const MARKER: &[u8] = b"\x00\x01\x02\x03\x04\x05\x06\x07\x08\x09\x0a\x0b\x0c\x0d\x0e\x0f";

/// One data file, `mem://t/a.parquet`.
const DATA: &[u8] = b"\x022\x02\x00\x00\"mem://t/a.parquet\x14\xc8\x01\x00";

/// Position deletes `mem://t/p.parquet` and equality deletes `mem://t/f.parquet`.
const DELETES: &[u8] =
    b"\x04j\x02\x00\x02\"mem://t/p.parquet\x14\xc8\x01\x00\x02\x00\x04\"mem://t/f.parquet\x14\xc8\x01\x02\x02\x02\x00";

/// Equality deletes `mem://t/e.parquet`.
const LATER_DELETES: &[u8] = b"\x028\x02\x00\x04\"mem://t/e.parquet\x14\xc8\x01\x02\x02\x02\x00";

/// A container of one block.
pub fn container(alloc: Global, head: &[u8], block: &[u8]) -> Result<Vec<u8>, AllocError> {
    let mut bytes = Vec::new(alloc);
    bytes.extend_from_slice(head)?;
    bytes.extend_from_slice(MARKER)?;
    bytes.extend_from_slice(block)?;
    bytes.extend_from_slice(MARKER)?;
    Ok(bytes)
}

/// The bytes of a manifest.
pub fn manifest(alloc: Global, which: usize) -> Result<Vec<u8>, AllocError> {
    let block = match which {
        0 => DATA,
        1 => DELETES,
        _ => LATER_DELETES,
    };
    container(alloc, HEAD, block)
}
