//! What the tests are made of: scans, the manifests of their rows, and states that took some of them.

ghost use Rattle.std.specs.Prelude.{IfOk};
ghost use Rattle.ice_state.specs.Contents.{IsOf};

use contract_words::Text;
use ice_filter::Bound;
use ice_manifest_reading::{Counts, ManifestContent, Row};
use ice_meta::Spec;
use ice_state::{Partial, Scan, ScanFault};
use ice_value::SequenceNumber;
use std::alloc::{AllocError, Global};

/// The head of a manifest, up to its codec: entries with the fields that are read.
const SCHEMA: &[u8] =
    b"Obj\x01\x04\x16avro.schema\xb4\x08{\"type\":\"record\",\"name\":\"manifest_entry\",\"fields\":[{\"name\":\"status\",\"type\":\"int\",\"field-id\":0},{\"name\":\"sequence_number\",\"type\":[\"null\",\"long\"],\"field-id\":3},{\"name\":\"data_file\",\"type\":{\"type\":\"record\",\"name\":\"r2\",\"fields\":[{\"name\":\"content\",\"type\":\"int\",\"field-id\":134},{\"name\":\"file_path\",\"type\":\"string\",\"field-id\":100},{\"name\":\"record_count\",\"type\":\"long\",\"field-id\":103},{\"name\":\"file_size_in_bytes\",\"type\":\"long\",\"field-id\":104},{\"name\":\"equality_ids\",\"type\":[\"null\",{\"type\":\"array\",\"items\":\"int\"}],\"field-id\":135}]},\"field-id\":2}]}";

const CODEC: &[u8] = b"\x14avro.codec\x08null\x00";

const MARKER: &[u8] = b"\x00\x01\x02\x03\x04\x05\x06\x07\x08\x09\x0a\x0b\x0c\x0d\x0e\x0f";

/// One data file, `mem://t/a.parquet`.
const DATA: &[u8] = b"\x022\x02\x00\x00\"mem://t/a.parquet\x14\xc8\x01\x00";
/// Position deletes `mem://t/p.parquet` and equality deletes `mem://t/f.parquet`.
const DELETES: &[u8] =
    b"\x04j\x02\x00\x02\"mem://t/p.parquet\x14\xc8\x01\x00\x02\x00\x04\"mem://t/f.parquet\x14\xc8\x01\x02\x02\x02\x00";
/// Equality deletes `mem://t/e.parquet`.
const LATER_DELETES: &[u8] = b"\x028\x02\x00\x04\"mem://t/e.parquet\x14\xc8\x01\x02\x02\x02\x00";
/// The path of a row of spec 0, what its manifest holds, its sequence number, and the block of its manifest.
type Sample = (&'static str, ManifestContent, u64, &'static [u8]);

/// One of data and two of deletes, the last of the next sequence number.
static SAMPLES: [Sample; 3] = [
    ("mem://t/m1", ManifestContent::Data, 3, DATA),
    ("mem://t/m2", ManifestContent::Deletes, 3, DELETES),
    ("mem://t/m3", ManifestContent::Deletes, 4, LATER_DELETES),
];

fn manifest(alloc: Global, block: &[u8]) -> Result<Vec<u8>, AllocError> {
    [SCHEMA, CODEC, MARKER, block, MARKER].concat(alloc)
}

fn manifests(alloc: Global) -> Result<Vec<Vec<u8>>, AllocError> {
    let mut manifests = Vec::new(alloc);
    for sample in &SAMPLES {
        manifests.push(manifest(alloc, sample.3)?)?;
    }
    Ok(manifests)
}

/// A row of spec 0.
fn row_of(alloc: Global, sample: &Sample) -> Result<Row, AllocError> {
    let sequence_number = SequenceNumber::new(sample.2).unwrap_or(SequenceNumber::zero());
    Ok(Row {
        path: Text::from_string(String::from_str(alloc, sample.0)?),
        length: 100,
        spec_id: 0,
        content: sample.1,
        sequence_number,
        min_sequence_number: sequence_number,
        added_snapshot_id: 1,
        counts: Counts::none(),
        partitions: None,
    })
}

fn rows(alloc: Global) -> Result<Vec<Row>, AllocError> {
    let mut rows = Vec::new(alloc);
    for sample in &SAMPLES {
        rows.push(row_of(alloc, sample)?)?;
    }
    Ok(rows)
}

fn specs(alloc: Global) -> Result<Vec<Spec>, AllocError> {
    let mut specs = Vec::new(alloc);
    specs.push(Spec::empty(alloc, 0))?;
    Ok(specs)
}

/// A scan, and the bytes of its manifests in the order of their paths.
#[derive(Drop)]
pub struct Case {
    pub scan: Scan,
    pub manifests: Vec<Vec<u8>>,
}

/// A scan without a filter, of a table with spec 0 alone, which has no field.
fn scan(alloc: Global) -> Result<Scan, ScanFault> {
    let (rows, specs) = (rows(alloc)?, specs(alloc)?);
    Scan::new(alloc, rows, specs, Bound::always(alloc))
}

/// The scan of all manifests.
pub fn whole_case(alloc: Global) -> Result<Case, ScanFault> {
    Ok(Case {
        scan: scan(alloc)?,
        manifests: manifests(alloc)?,
    })
}

/// Takes the manifest at a place of the scan; at none past the last.
pub fn take(state: &mut Partial, case: &Case, place: usize) -> Result<(), AllocError>
    requires { IsOf case.now.scan state.old }
    ensures { IsOf case.now.scan state.new }
{
    if place < case.scan.wanted().len() && place < case.manifests.len() {
        state.take(&case.scan, place, &case.manifests[place])?;
    }
    Ok(())
}

/// The state after taking these rows in this order.
pub fn state_after(alloc: Global, case: &Case, order: &[usize]) -> Result<Partial, AllocError>
    ensures { IfOk result (λ state. IsOf case.now.scan state) }
{
    let mut state = Partial::empty(alloc, &case.scan)?;
    'order: for i in order {
        take(&mut state, case, *i)?;
    }
    Ok(state)
}
