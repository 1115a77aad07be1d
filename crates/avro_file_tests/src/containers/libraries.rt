//! Files that Avro's own libraries wrote: manifest lists, and a manifest.

/// A file and what it has to give.
#[derive(Clone, Copy)]
pub struct Sample {
    pub bytes: &'static [u8],
    /// The rows, a line each, and the end.
    pub rows: &'static str,
}

/// A list by the library for C.
pub const C: Sample = Sample {
    bytes: b"Obj\x01\x0c\x14avro.codec\x08null\x16avro.schema\xe4\x14\
{\"type\":\"record\",\"name\":\"manifest_file\",\"fields\":[{\"name\":\"manifest_path\",\"type\":\"string\",\"field-id\"\
:500},\
{\"name\":\"manifest_length\",\"type\":\"long\",\"field-id\":501},\
{\"name\":\"partition_spec_id\",\"type\":\"int\",\"field-id\":502},\
{\"name\":\"content\",\"type\":\"int\",\"field-id\":517},\
{\"name\":\"sequence_number\",\"type\":\"long\",\"field-id\":515},\
{\"name\":\"min_sequence_number\",\"type\":\"long\",\"field-id\":516},\
{\"name\":\"added_snapshot_id\",\"type\":\"long\",\"field-id\":503},\
{\"name\":\"added_data_files_count\",\"type\":\"int\",\"field-id\":504},\
{\"name\":\"existing_data_files_count\",\"type\":\"int\",\"field-id\":505},\
{\"name\":\"deleted_data_files_count\",\"type\":\"int\",\"field-id\":506},\
{\"name\":\"added_rows_count\",\"type\":\"long\",\"field-id\":512},\
{\"name\":\"existing_rows_count\",\"type\":\"long\",\"field-id\":513},\
{\"name\":\"deleted_rows_count\",\"type\":\"long\",\"field-id\":514},\
{\"name\":\"partitions\",\"type\":[\"null\",{\"type\":\"array\",\"items\":{\"type\":\"record\",\"name\":\"r508\",\"field\
s\":[{\"name\":\"contains_null\",\"type\":\"boolean\",\"field-id\":509},\
{\"name\":\"contains_nan\",\"type\":[\"null\",\"boolean\"],\"default\":null,\"field-id\":518},\
{\"name\":\"lower_bound\",\"type\":[\"null\",\"bytes\"],\"default\":null,\"field-id\":510},\
{\"name\":\"upper_bound\",\"type\":[\"null\",\"bytes\"],\"default\":null,\"field-id\":511}]},\
\"element-id\":508}],\"default\":null,\"field-id\":507},\
{\"name\":\"key_metadata\",\"type\":[\"null\",\"bytes\"],\"default\":null,\"field-id\":519}]}\
\x16snapshot-id&5787346651261761729$parent-snapshot-id&5093156774740809081\x1esequence-number\x025\x1cformat-version\x02\
2\x00\
\xf4lY\x86\xa3\\\xe5 \xe2\x8e\x08\x8c\x05\xaa0\xde\
\x08\xdc\x04\
`s3://warehouse/db/plain/metadata/m5-deletes.avro\xf0<\x00\x02\x0a\x06\x82\xe3\x87\xc8\xbb\xc7\xe4\xd0\xa0\x01\x06\x02\
\x00\x0e\x06\x00\x02\x00\x00\
Ps3://warehouse/db/plain/metadata/m4.avro\xaaH\x00\x00\x08\x08\xf2\xd5\xe6\xfc\xc2\xc6\xc3\xae\x8d\x01\x0e\x00\x00F\x00\
\x00\x02\x00\x00\
ds3://warehouse/db/plain/metadata/m1-rewritten.avro\x88Z\x00\x00\x0a\x02\x82\xe3\x87\xc8\xbb\xc7\xe4\xd0\xa0\x01\x00\x12\
\x06\x00\x88\x0e\xd8\x04\x02\x00\x00\
ts3://warehouse/db/plain/metadata/m3-rewritten-deletes.avro\xdc:\x00\x02\x0a\x06\x82\xe3\x87\xc8\xbb\xc7\xe4\xd0\xa0\x01\
\x00\x04\x02\x00\x0a\x06\x02\x00\x00\
\xf4lY\x86\xa3\\\xe5 \xe2\x8e\x08\x8c\x05\xaa0\xde\
\x02\x86\x01\
Ps3://warehouse/db/plain/metadata/m2.avro\xd8O\x00\x00\x04\x04\x92\xeb\xe9\xf7\xea\xe9\xda\xea\xa5\x01\x12\x00\x00\x88\
\x0e\x00\x00\x02\x00\x00\
\xf4lY\x86\xa3\\\xe5 \xe2\x8e\x08\x8c\x05\xaa0\xde",
    rows: r#"Record([String("s3://warehouse/db/plain/metadata/m5-deletes.avro"), Long(3896), Int(0), Int(1), Long(5), Long(3), Long(5787346651261761729), Int(3), Int(1), Int(0), Long(7), Long(3), Long(0), Union(1, Array([])), NullBranch(0)])
Record([String("s3://warehouse/db/plain/metadata/m4.avro"), Long(4629), Int(0), Int(0), Long(4), Long(4), Long(5093156774740809081), Int(7), Int(0), Int(0), Long(35), Long(0), Long(0), Union(1, Array([])), NullBranch(0)])
Record([String("s3://warehouse/db/plain/metadata/m1-rewritten.avro"), Long(5764), Int(0), Int(0), Long(5), Long(1), Long(5787346651261761729), Int(0), Int(9), Int(3), Long(0), Long(900), Long(300), Union(1, Array([])), NullBranch(0)])
Record([String("s3://warehouse/db/plain/metadata/m3-rewritten-deletes.avro"), Long(3758), Int(0), Int(1), Long(5), Long(3), Long(5787346651261761729), Int(0), Int(2), Int(1), Long(0), Long(5), Long(3), Union(1, Array([])), NullBranch(0)])
Record([String("s3://warehouse/db/plain/metadata/m2.avro"), Long(5100), Int(0), Int(0), Long(2), Long(2), Long(5974787585992374985), Int(9), Int(0), Int(0), Long(900), Long(0), Long(0), Union(1, Array([])), NullBranch(0)])
end"#,
};

/// A manifest by the library for Go.
pub const GO: Sample = Sample {
    bytes: b"Obj\x01\x10\x16avro.schema\x925\
{\"type\":\"record\",\"name\":\"manifest_entry\",\"fields\":[{\"name\":\"status\",\"type\":\"int\",\"field-id\":0},\
{\"name\":\"snapshot_id\",\"type\":[\"null\",\"long\"],\"default\":null,\"field-id\":1},\
{\"name\":\"sequence_number\",\"type\":[\"null\",\"long\"],\"default\":null,\"field-id\":3},\
{\"name\":\"file_sequence_number\",\"type\":[\"null\",\"long\"],\"default\":null,\"field-id\":4},\
{\"name\":\"data_file\",\"type\":{\"type\":\"record\",\"name\":\"r2\",\"fields\":[{\"name\":\"content\",\"type\":\"int\"\
,\"doc\":\"Contents of the file: 0=data, 1=position deletes, 2=equality deletes\",\"field-id\":134},\
{\"name\":\"file_path\",\"type\":\"string\",\"doc\":\"Location URI with FS scheme\",\"field-id\":100},\
{\"name\":\"file_format\",\"type\":\"string\",\"doc\":\"File format name: avro, orc, or parquet\",\"field-id\":101},\
{\"name\":\"partition\",\"type\":{\"type\":\"record\",\"name\":\"r102\",\"fields\":[]},\
\"doc\":\"Partition data tuple, schema based on the partition spec\",\"field-id\":102},\
{\"name\":\"record_count\",\"type\":\"long\",\"doc\":\"Number of records in the file\",\"field-id\":103},\
{\"name\":\"file_size_in_bytes\",\"type\":\"long\",\"doc\":\"Total file size in bytes\",\"field-id\":104},\
{\"name\":\"column_sizes\",\"type\":[\"null\",{\"type\":\"array\",\"items\":{\"type\":\"record\",\"name\":\"k117_v118\",\
\"fields\":[{\"name\":\"key\",\"type\":\"int\",\"field-id\":117},\
{\"name\":\"value\",\"type\":\"long\",\"field-id\":118}]},\
\"logicalType\":\"map\"}],\"doc\":\"Map of column id to total size on disk\",\"default\":null,\"field-id\":108},\
{\"name\":\"value_counts\",\"type\":[\"null\",{\"type\":\"array\",\"items\":{\"type\":\"record\",\"name\":\"k119_v120\",\
\"fields\":[{\"name\":\"key\",\"type\":\"int\",\"field-id\":119},\
{\"name\":\"value\",\"type\":\"long\",\"field-id\":120}]},\
\"logicalType\":\"map\"}],\"doc\":\"Map of column id to total count, including null and NaN\",\"default\":null,\"field-i\
d\":109},\
{\"name\":\"null_value_counts\",\"type\":[\"null\",{\"type\":\"array\",\"items\":{\"type\":\"record\",\"name\":\"k121_v1\
22\",\"fields\":[{\"name\":\"key\",\"type\":\"int\",\"field-id\":121},\
{\"name\":\"value\",\"type\":\"long\",\"field-id\":122}]},\
\"logicalType\":\"map\"}],\"doc\":\"Map of column id to null value count\",\"default\":null,\"field-id\":110},\
{\"name\":\"nan_value_counts\",\"type\":[\"null\",{\"type\":\"array\",\"items\":{\"type\":\"record\",\"name\":\"k138_v13\
9\",\"fields\":[{\"name\":\"key\",\"type\":\"int\",\"field-id\":138},\
{\"name\":\"value\",\"type\":\"long\",\"field-id\":139}]},\
\"logicalType\":\"map\"}],\"doc\":\"Map of column id to number of NaN values in the column\",\"default\":null,\"field-id\
\":137},\
{\"name\":\"lower_bounds\",\"type\":[\"null\",{\"type\":\"array\",\"items\":{\"type\":\"record\",\"name\":\"k126_v127\",\
\"fields\":[{\"name\":\"key\",\"type\":\"int\",\"field-id\":126},\
{\"name\":\"value\",\"type\":\"bytes\",\"field-id\":127}]},\
\"logicalType\":\"map\"}],\"doc\":\"Map of column id to lower bound\",\"default\":null,\"field-id\":125},\
{\"name\":\"upper_bounds\",\"type\":[\"null\",{\"type\":\"array\",\"items\":{\"type\":\"record\",\"name\":\"k129_v130\",\
\"fields\":[{\"name\":\"key\",\"type\":\"int\",\"field-id\":129},\
{\"name\":\"value\",\"type\":\"bytes\",\"field-id\":130}]},\
\"logicalType\":\"map\"}],\"doc\":\"Map of column id to upper bound\",\"default\":null,\"field-id\":128},\
{\"name\":\"key_metadata\",\"type\":[\"null\",\"bytes\"],\"doc\":\"Encryption key metadata blob\",\"default\":null,\"fie\
ld-id\":131},\
{\"name\":\"split_offsets\",\"type\":[\"null\",{\"type\":\"array\",\"items\":\"long\",\"element-id\":133}],\"doc\":\"Spl\
ittable offsets\",\"default\":null,\"field-id\":132},\
{\"name\":\"equality_ids\",\"type\":[\"null\",{\"type\":\"array\",\"items\":\"int\",\"element-id\":136}],\"doc\":\"Equal\
ity comparison field IDs\",\"default\":null,\"field-id\":135},\
{\"name\":\"sort_order_id\",\"type\":[\"null\",\"int\"],\"doc\":\"Sort order ID\",\"default\":null,\"field-id\":140}]},\
\"field-id\":2}]}\
\x14avro.codec\x08null\x0econtent\x0edeletes\x0cschema\xfe\x02{\"type\":\"struct\",\"schema-id\":0,\"identifier-field-id\
s\":[1],\"fields\":[{\"id\":1,\"name\":\"id\",\"required\":true,\"type\":\"long\"},\
{\"id\":2,\"name\":\"data\",\"required\":false,\"type\":\"string\",\"doc\":\"a text\"}]}\x12schema-id\x020\x1cpartition-\
spec\x04[]\"partition-spec-id\x020\x1cformat-version\x022\x00\
\x8cj\x19\xba\x92>3\xca\xfb\xdc0\xf9-\xb0\xa5\xe2\
\x06\xd2\x09\
\x02\x02\xc2\xf0\xc2\xb2\x91\xbb\xff\xb0?\x00\x00\x02^s3://warehouse/db/plain/data/p1-deletes.parquet\x0ePARQUET\x06\xb8\
\x17\x02\x04\xb2\xfe\xff\xff\x0f\xda\xeb\xff\xff\xcf\x01\xb4\xfe\xff\xff\x0f\xf4\xeb\xff\xff\xcf\x01\x00\x02\x04\xb2\xfe\
\xff\xff\x0f\x06\xb4\xfe\xff\xff\x0f\x06\x00\x02\x04\xb2\xfe\xff\xff\x0f\x00\xb4\xfe\xff\xff\x0f\x00\x00\x02\x00\x02\x04\
\xb2\xfe\xff\xff\x0f\x10\x00\x00\x00\x00\x00\x00\x00\x00\xb4\xfe\xff\xff\x0f@s3://warehouse/db/plain/data/000\x00\x02\
\x04\xb2\xfe\xff\xff\x0f\x10\x09\x00\x00\x00\x00\x00\x00\x00\xb4\xfe\xff\xff\x0fBs3://warehouse/db/plain/data/0001\x00\
\x00\x02\x02\x08\x00\x00\x00\
\x02\x00\x00\x00\x04ds3://warehouse/db/plain/data/e1-eq-deletes.parquet\x0ePARQUET\x04\xf8\x0a\x02\x02\x02j\x00\x02\x02\
\x02\x04\x00\x02\x02\x02\x00\x00\x02\x00\x02\x02\x02\x10\x00\x00\x00\x00\x00\x00\x00\x00\x00\x02\x02\x02\x10\x05\x00\x00\
\x00\x00\x00\x00\x00\x00\x00\x02\x02\x08\x00\x02\x02\x02\x00\x02\x00\
\x02\x02\xc2\xf0\xc2\xb2\x91\xbb\xff\xb0?\x00\x00\x02^s3://warehouse/db/plain/data/p2-deletes.parquet\x0ePARQUET\x06\xb8\
\x17\x02\x04\xb2\xfe\xff\xff\x0f\xda\xeb\xff\xff\xcf\x01\xb4\xfe\xff\xff\x0f\xf4\xeb\xff\xff\xcf\x01\x00\x02\x04\xb2\xfe\
\xff\xff\x0f\x06\xb4\xfe\xff\xff\x0f\x06\x00\x02\x04\xb2\xfe\xff\xff\x0f\x00\xb4\xfe\xff\xff\x0f\x00\x00\x02\x00\x02\x04\
\xb2\xfe\xff\xff\x0f\x10\x00\x00\x00\x00\x00\x00\x00\x00\xb4\xfe\xff\xff\x0f@s3://warehouse/db/plain/data/000\x00\x02\
\x04\xb2\xfe\xff\xff\x0f\x10\x09\x00\x00\x00\x00\x00\x00\x00\xb4\xfe\xff\xff\x0fBs3://warehouse/db/plain/data/0001\x00\
\x00\x02\x02\x08\x00\x00\x00\
\x8cj\x19\xba\x92>3\xca\xfb\xdc0\xf9-\xb0\xa5\xe2",
    rows: r#"Record([Int(1), Union(1, Long(2283605302977256481)), NullBranch(0), NullBranch(0), Record([Int(1), String("s3://warehouse/db/plain/data/p1-deletes.parquet"), String("PARQUET"), Record([]), Long(3), Long(1500), Union(1, LongPairs([(2147483545, 27917286125), (2147483546, 27917286138)])), Union(1, LongPairs([(2147483545, 3), (2147483546, 3)])), Union(1, LongPairs([(2147483545, 0), (2147483546, 0)])), Union(1, LongPairs([])), Union(1, BytesPairs([(2147483545, [0, 0, 0, 0, 0, 0, 0, 0]), (2147483546, [115, 51, 58, 47, 47, 119, 97, 114, 101, 104, 111, 117, 115, 101, 47, 100, 98, 47, 112, 108, 97, 105, 110, 47, 100, 97, 116, 97, 47, 48, 48, 48])])), Union(1, BytesPairs([(2147483545, [9, 0, 0, 0, 0, 0, 0, 0]), (2147483546, [115, 51, 58, 47, 47, 119, 97, 114, 101, 104, 111, 117, 115, 101, 47, 100, 98, 47, 112, 108, 97, 105, 110, 47, 100, 97, 116, 97, 47, 48, 48, 48, 49])])), NullBranch(0), Union(1, Array([Long(4)])), NullBranch(0), NullBranch(0)])])
Record([Int(1), NullBranch(0), NullBranch(0), NullBranch(0), Record([Int(2), String("s3://warehouse/db/plain/data/e1-eq-deletes.parquet"), String("PARQUET"), Record([]), Long(2), Long(700), Union(1, LongPairs([(1, 53)])), Union(1, LongPairs([(1, 2)])), Union(1, LongPairs([(1, 0)])), Union(1, LongPairs([])), Union(1, BytesPairs([(1, [0, 0, 0, 0, 0, 0, 0, 0])])), Union(1, BytesPairs([(1, [5, 0, 0, 0, 0, 0, 0, 0])])), NullBranch(0), Union(1, Array([Long(4)])), Union(1, Array([Int(1)])), Union(1, Int(0))])])
Record([Int(1), Union(1, Long(2283605302977256481)), NullBranch(0), NullBranch(0), Record([Int(1), String("s3://warehouse/db/plain/data/p2-deletes.parquet"), String("PARQUET"), Record([]), Long(3), Long(1500), Union(1, LongPairs([(2147483545, 27917286125), (2147483546, 27917286138)])), Union(1, LongPairs([(2147483545, 3), (2147483546, 3)])), Union(1, LongPairs([(2147483545, 0), (2147483546, 0)])), Union(1, LongPairs([])), Union(1, BytesPairs([(2147483545, [0, 0, 0, 0, 0, 0, 0, 0]), (2147483546, [115, 51, 58, 47, 47, 119, 97, 114, 101, 104, 111, 117, 115, 101, 47, 100, 98, 47, 112, 108, 97, 105, 110, 47, 100, 97, 116, 97, 47, 48, 48, 48])])), Union(1, BytesPairs([(2147483545, [9, 0, 0, 0, 0, 0, 0, 0]), (2147483546, [115, 51, 58, 47, 47, 119, 97, 114, 101, 104, 111, 117, 115, 101, 47, 100, 98, 47, 112, 108, 97, 105, 110, 47, 100, 97, 116, 97, 47, 48, 48, 48, 49])])), NullBranch(0), Union(1, Array([Long(4)])), NullBranch(0), NullBranch(0)])])
end"#,
};

/// A list by the library for Java.
pub const JAVA: Sample = Sample {
    bytes: b"Obj\x01\x0c\x16avro.schema\xe6\x1f\
{\"type\":\"record\",\"name\":\"manifest_file\",\"fields\":[{\"name\":\"manifest_path\",\"type\":\"string\",\"doc\":\"Lo\
cation URI with FS scheme\",\"field-id\":500},\
{\"name\":\"manifest_length\",\"type\":\"long\",\"doc\":\"Total file size in bytes\",\"field-id\":501},\
{\"name\":\"partition_spec_id\",\"type\":\"int\",\"doc\":\"Spec ID used to write\",\"field-id\":502},\
{\"name\":\"content\",\"type\":\"int\",\"doc\":\"Contents of the manifest: 0=data, 1=deletes\",\"field-id\":517},\
{\"name\":\"sequence_number\",\"type\":\"long\",\"doc\":\"Sequence number when the manifest was added\",\"field-id\":515\
},\
{\"name\":\"min_sequence_number\",\"type\":\"long\",\"doc\":\"Lowest sequence number in the manifest\",\"field-id\":516}\
,\
{\"name\":\"added_snapshot_id\",\"type\":\"long\",\"doc\":\"Snapshot ID that added the manifest\",\"field-id\":503},\
{\"name\":\"added_files_count\",\"type\":\"int\",\"doc\":\"Added entry count\",\"field-id\":504},\
{\"name\":\"existing_files_count\",\"type\":\"int\",\"doc\":\"Existing entry count\",\"field-id\":505},\
{\"name\":\"deleted_files_count\",\"type\":\"int\",\"doc\":\"Deleted entry count\",\"field-id\":506},\
{\"name\":\"added_rows_count\",\"type\":\"long\",\"doc\":\"Added rows count\",\"field-id\":512},\
{\"name\":\"existing_rows_count\",\"type\":\"long\",\"doc\":\"Existing rows count\",\"field-id\":513},\
{\"name\":\"deleted_rows_count\",\"type\":\"long\",\"doc\":\"Deleted rows count\",\"field-id\":514},\
{\"name\":\"partitions\",\"type\":[\"null\",{\"type\":\"array\",\"items\":{\"type\":\"record\",\"name\":\"r508\",\"field\
s\":[{\"name\":\"contains_null\",\"type\":\"boolean\",\"doc\":\"True if any file has a null partition value\",\"field-id\
\":509},\
{\"name\":\"contains_nan\",\"type\":[\"null\",\"boolean\"],\"doc\":\"True if any file has a nan partition value\",\"defa\
ult\":null,\"field-id\":518},\
{\"name\":\"lower_bound\",\"type\":[\"null\",\"bytes\"],\"doc\":\"Partition lower bound for all files\",\"default\":null\
,\"field-id\":510},\
{\"name\":\"upper_bound\",\"type\":[\"null\",\"bytes\"],\"doc\":\"Partition upper bound for all files\",\"default\":null\
,\"field-id\":511}]},\
\"element-id\":508}],\"doc\":\"Summary for each partition\",\"default\":null,\"field-id\":507},\
{\"name\":\"key_metadata\",\"type\":[\"null\",\"bytes\"],\"doc\":\"Encryption key metadata blob\",\"default\":null,\"fie\
ld-id\":519}]}\
\x14avro.codec\x08null\x16snapshot-id&4086661043878124345\x1cformat-version\x022\x1esequence-number\x024$parent-snapshot\
-id&1918045885104987393\x00\
\x0d\xd6\x7fLF\xe8b\x87\xee\x7f\xc7\x10\x84\x10)\xdf\
\x08\xba\x05\
Xs3://warehouse/db/events/metadata/u3-m0.avro\x96\xd0\x01\x04\x00\x08\x08\xf2\xec\xc2\xdc\xa7\xa4\xde\xb6q(\x00\x00\xd0\
\xd2{\x00\x00\x02\x04\x00\x02\x00\x02\x08MM\x00\x00\x02\x08PM\x00\x00\x00\x02\x00\x02\x08\x03\x00\x00\x00\x02\x08\x0e\
\x00\x00\x00\x00\x00\
Xs3://warehouse/db/events/metadata/u1-m0.avro\xd8\x9a\x01\x02\x00\x04\x04\xf2\xa9\xb9\xbd\xf3\x8a\x93\x85A\x1c\x00\x00\
\xc2\xeeb\x00\x00\x02\x02\x00\x02\x00\x02\x08KM\x00\x00\x02\x08NM\x00\x00\x00\x00\
Xs3://warehouse/db/events/metadata/u0-m0.avro\xd2h\x00\x00\x02\x02\xb2\x9b\xba\xe2\xb0\x85\xc2\xb5\xbe\x01\x0c\x00\x00\
\x98\x86\x16\x00\x00\x02\x00\x00\
Xs3://warehouse/db/events/metadata/u2-m0.avro\x9cZ\x02\x02\x06\x06\x82\xf4\xa8\xc9\xbf\xa4\xa2\x9e5\x08\x00\x00\xcc\x01\
\x00\x00\x02\x02\x00\x02\x00\x02\x08KM\x00\x00\x02\x08MM\x00\x00\x00\x00\
\x0d\xd6\x7fLF\xe8b\x87\xee\x7f\xc7\x10\x84\x10)\xdf\
\x02\x8a\x01\
Xs3://warehouse/db/events/metadata/u2-m1.avro\xbcJ\x00\x02\x06\x06\x82\xf4\xa8\xc9\xbf\xa4\xa2\x9e5\x02\x00\x00\x08\x00\
\x00\x02\x00\x00\
\x0d\xd6\x7fLF\xe8b\x87\xee\x7f\xc7\x10\x84\x10)\xdf",
    rows: r#"Record([String("s3://warehouse/db/events/metadata/u3-m0.avro"), Long(13323), Int(2), Int(0), Long(4), Long(4), Long(4086661043878124345), Int(20), Int(0), Int(0), Long(1012904), Long(0), Long(0), Union(1, Array([Record([Boolean(false), Union(1, Boolean(false)), Union(1, Bytes([77, 77, 0, 0])), Union(1, Bytes([80, 77, 0, 0]))]), Record([Boolean(false), Union(1, Boolean(false)), Union(1, Bytes([3, 0, 0, 0])), Union(1, Bytes([14, 0, 0, 0]))])])), NullBranch(0)])
Record([String("s3://warehouse/db/events/metadata/u1-m0.avro"), Long(9900), Int(1), Int(0), Long(2), Long(2), Long(2343321149856230009), Int(14), Int(0), Int(0), Long(809889), Long(0), Long(0), Union(1, Array([Record([Boolean(false), Union(1, Boolean(false)), Union(1, Bytes([75, 77, 0, 0])), Union(1, Bytes([78, 77, 0, 0]))])])), NullBranch(0)])
Record([String("s3://warehouse/db/events/metadata/u0-m0.avro"), Long(6697), Int(0), Int(0), Long(1), Long(1), Long(6860534835348719321), Int(6), Int(0), Int(0), Long(180620), Long(0), Long(0), Union(1, Array([])), NullBranch(0)])
Record([String("s3://warehouse/db/events/metadata/u2-m0.avro"), Long(5774), Int(1), Int(1), Long(3), Long(3), Long(1918045885104987393), Int(4), Int(0), Int(0), Long(102), Long(0), Long(0), Union(1, Array([Record([Boolean(false), Union(1, Boolean(false)), Union(1, Bytes([75, 77, 0, 0])), Union(1, Bytes([77, 77, 0, 0]))])])), NullBranch(0)])
Record([String("s3://warehouse/db/events/metadata/u2-m1.avro"), Long(4766), Int(0), Int(1), Long(3), Long(3), Long(1918045885104987393), Int(1), Int(0), Int(0), Long(4), Long(0), Long(0), Union(1, Array([])), NullBranch(0)])
end"#,
};

/// A list by the library for Python.
pub const PYTHON: Sample = Sample {
    bytes: b"Obj\x01\x0c\x14avro.codec\x08null\x16avro.schema\x80\x17\
{\"type\": \"record\", \"name\": \"manifest_file\", \"fields\": [{\"field-id\": 500, \"type\": \"string\", \"name\": \"m\
anifest_path\"}, \
{\"field-id\": 501, \"type\": \"long\", \"name\": \"manifest_length\"}, \
{\"field-id\": 502, \"type\": \"int\", \"name\": \"partition_spec_id\"}, \
{\"field-id\": 517, \"type\": \"int\", \"name\": \"content\"}, \
{\"field-id\": 515, \"type\": \"long\", \"name\": \"sequence_number\"}, \
{\"field-id\": 516, \"type\": \"long\", \"name\": \"min_sequence_number\"}, \
{\"field-id\": 503, \"type\": \"long\", \"name\": \"added_snapshot_id\"}, \
{\"field-id\": 504, \"type\": \"int\", \"name\": \"added_data_files_count\"}, \
{\"field-id\": 505, \"type\": \"int\", \"name\": \"existing_data_files_count\"}, \
{\"field-id\": 506, \"type\": \"int\", \"name\": \"deleted_data_files_count\"}, \
{\"field-id\": 512, \"type\": \"long\", \"name\": \"added_rows_count\"}, \
{\"field-id\": 513, \"type\": \"long\", \"name\": \"existing_rows_count\"}, \
{\"field-id\": 514, \"type\": \"long\", \"name\": \"deleted_rows_count\"}, \
{\"field-id\": 507, \"type\": [\"null\", {\"type\": \"array\", \"element-id\": 508, \"items\": {\"type\": \"record\", \"\
name\": \"r508\", \"fields\": [{\"field-id\": 509, \"type\": \"boolean\", \"name\": \"contains_null\"}, \
{\"field-id\": 518, \"type\": [\"null\", \"boolean\"], \"name\": \"contains_nan\", \"default\": null}, \
{\"field-id\": 510, \"type\": [\"null\", \"bytes\"], \"name\": \"lower_bound\", \"default\": null}, \
{\"field-id\": 511, \"type\": [\"null\", \"bytes\"], \"name\": \"upper_bound\", \"default\": null}]}}], \"name\": \"part\
itions\", \"default\": null}, \
{\"field-id\": 519, \"type\": [\"null\", \"bytes\"], \"name\": \"key_metadata\", \"default\": null}]}\
\x16snapshot-id&5787346651261761729$parent-snapshot-id&5093156774740809081\x1esequence-number\x025\x1cformat-version\x02\
2\x00\
\x0cDg\xa2u9b\x1d\x9e\x92\xe8C\xb78$\x92\
\x08\xdc\x04\
`s3://warehouse/db/plain/metadata/m5-deletes.avro\xae@\x00\x02\x0a\x06\x82\xe3\x87\xc8\xbb\xc7\xe4\xd0\xa0\x01\x06\x02\
\x00\x0e\x06\x00\x02\x00\x00\
Ps3://warehouse/db/plain/metadata/m4.avro\xe2K\x00\x00\x08\x08\xf2\xd5\xe6\xfc\xc2\xc6\xc3\xae\x8d\x01\x0e\x00\x00F\x00\
\x00\x02\x00\x00\
ds3://warehouse/db/plain/metadata/m1-rewritten.avro\xb6]\x00\x00\x0a\x02\x82\xe3\x87\xc8\xbb\xc7\xe4\xd0\xa0\x01\x00\x12\
\x06\x00\x88\x0e\xd8\x04\x02\x00\x00\
ts3://warehouse/db/plain/metadata/m3-rewritten-deletes.avro\x9c>\x00\x02\x0a\x06\x82\xe3\x87\xc8\xbb\xc7\xe4\xd0\xa0\x01\
\x00\x04\x02\x00\x0a\x06\x02\x00\x00\
\x0cDg\xa2u9b\x1d\x9e\x92\xe8C\xb78$\x92\
\x02\x86\x01\
Ps3://warehouse/db/plain/metadata/m2.avro\x8cS\x00\x00\x04\x04\x92\xeb\xe9\xf7\xea\xe9\xda\xea\xa5\x01\x12\x00\x00\x88\
\x0e\x00\x00\x02\x00\x00\
\x0cDg\xa2u9b\x1d\x9e\x92\xe8C\xb78$\x92",
    rows: r#"Record([String("s3://warehouse/db/plain/metadata/m5-deletes.avro"), Long(4119), Int(0), Int(1), Long(5), Long(3), Long(5787346651261761729), Int(3), Int(1), Int(0), Long(7), Long(3), Long(0), Union(1, Array([])), NullBranch(0)])
Record([String("s3://warehouse/db/plain/metadata/m4.avro"), Long(4849), Int(0), Int(0), Long(4), Long(4), Long(5093156774740809081), Int(7), Int(0), Int(0), Long(35), Long(0), Long(0), Union(1, Array([])), NullBranch(0)])
Record([String("s3://warehouse/db/plain/metadata/m1-rewritten.avro"), Long(5979), Int(0), Int(0), Long(5), Long(1), Long(5787346651261761729), Int(0), Int(9), Int(3), Long(0), Long(900), Long(300), Union(1, Array([])), NullBranch(0)])
Record([String("s3://warehouse/db/plain/metadata/m3-rewritten-deletes.avro"), Long(3982), Int(0), Int(1), Long(5), Long(3), Long(5787346651261761729), Int(0), Int(2), Int(1), Long(0), Long(5), Long(3), Union(1, Array([])), NullBranch(0)])
Record([String("s3://warehouse/db/plain/metadata/m2.avro"), Long(5318), Int(0), Int(0), Long(2), Long(2), Long(5974787585992374985), Int(9), Int(0), Int(0), Long(900), Long(0), Long(0), Union(1, Array([])), NullBranch(0)])
end"#,
};
