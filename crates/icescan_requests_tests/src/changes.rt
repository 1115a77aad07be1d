//! What is read of a change file.

use icescan_text::{ChangeKind, read_change};
use std::alloc::Global;

/// A delete file with a partition value of each kind; whether it may name a data file is not asked here.
const DELETES: &str =
    r#"{"data":[],"x":1,"deletes":[{"content":"equality","equality-ids":[3,-1],"referenced-data-file":"p/x","path":"p/d","format":"PARQUET","spec-id":-7,"partition":[null,true,-5,"t",{"hex":"00fF"}],"record-count":0,"file-size":9223372036854775807}]}"#;

/// What is read of it.
const READ: &str =
    r#"Change { files: Items { items: [] }, deletes: Items { items: [NewFile { content: EqualityDeletes, path: Text { text: "p/d" }, format: Text { text: "PARQUET" }, spec_id: -7, tuple: Items { items: [Null, Bool(true), Whole(-5), Text(Text { text: "t" }), Bytes(Items { items: [0, 255] })] }, record_count: 0, file_size: 9223372036854775807, equality_ids: Items { items: [3, -1] }, referenced: Some(Text { text: "p/x" }) }] } }"#;

/// Whether that is read of it.
fn is_read(alloc: Global) -> bool {
    match read_change(alloc, DELETES.as_bytes(), ChangeKind::RowDelta) {
        Ok(change) => match format!(in alloc; "{change:?}") {
            Ok(look) => look.as_str() == READ,
            Err(_) => false,
        },
        Err(_) => false,
    }
}

#[test]
fn each_member_is_read(rt: HostRuntime) {
    assert!(rt; is_read(rt.alloc()));
}
