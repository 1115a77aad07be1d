//! The names of the fields of manifest lists and manifests.

/// The name of the field of an id in a manifest list or a manifest, as the table format has it.
pub fn field_name(id: i32) -> Option<&'static str> {
    match id {
        500..=519 => list_field_name(id),
        100..=143 => file_field_name(id),
        0 => Some("status"),
        1 => Some("snapshot_id"),
        2 => Some("data_file"),
        3 => Some("sequence_number"),
        4 => Some("file_sequence_number"),
        _ => None,
    }
}

/// The same, of the rows of a manifest list.
fn list_field_name(id: i32) -> Option<&'static str> {
    match id {
        500 => Some("manifest_path"),
        501 => Some("manifest_length"),
        502 => Some("partition_spec_id"),
        503 => Some("added_snapshot_id"),
        504 => Some("added_files_count"),
        505 => Some("existing_files_count"),
        506 => Some("deleted_files_count"),
        507 => Some("partitions"),
        508 => Some("element of partitions"),
        509 => Some("contains_null"),
        510 => Some("lower_bound"),
        511 => Some("upper_bound"),
        512 => Some("added_rows_count"),
        513 => Some("existing_rows_count"),
        514 => Some("deleted_rows_count"),
        515 => Some("sequence_number"),
        516 => Some("min_sequence_number"),
        517 => Some("content"),
        518 => Some("contains_nan"),
        519 => Some("key_metadata"),
        _ => None,
    }
}

/// The same, of the files of a manifest's entries.
fn file_field_name(id: i32) -> Option<&'static str> {
    match id {
        100 => Some("file_path"),
        101 => Some("file_format"),
        102 => Some("partition"),
        103 => Some("record_count"),
        104 => Some("file_size_in_bytes"),
        108 => Some("column_sizes"),
        109 => Some("value_counts"),
        110 => Some("null_value_counts"),
        125 => Some("lower_bounds"),
        128 => Some("upper_bounds"),
        131 => Some("key_metadata"),
        132 => Some("split_offsets"),
        134 => Some("content"),
        135 => Some("equality_ids"),
        137 => Some("nan_value_counts"),
        140 => Some("sort_order_id"),
        143 => Some("referenced_data_file"),
        _ => None,
    }
}
