//! Texts of schemas and what they name, ` => ` between them. A line that begins with `#` says what those below it show.

/// Types with parts.
pub const PARTS: &str = r#"{"type":"fixed","name":"f","size":0} => Fixed(0, Plain)
{"type":"fixed","name":"f","size":2147483647} => Fixed(2147483647, Plain)
{"type":"fixed","name":"f","size":16,"logicalType":"decimal"} => Fixed(16, Decimal)
{"type":"enum","name":"e","symbols":["A","B","A"]} => Enum(3)
{"type":"enum","name":"e","symbols":[]} => Enum(0)
[] => Union([])
["null","null"] => Union([Null, Null])
{"type":"map","values":["null","long"]} => Map(Union([Null, Long]))
{"type":"array","items":"long"} => Array(Long, None, List)
{"type":"array","items":"long","element-id":133} => Array(Long, Some(133), List)
{"type":"array","items":"long","logicalType":"map"} => Array(Long, None, Map)
{"type":"array","items":"long","logicalType":"decimal"} => Array(Long, None, List)
{"type":"array","items":"int","element-id":-2147483648} => Array(Int, Some(-2147483648), List)
{"type":"array","items":"int","element-id":2147483648} => Array(Int, None, List)
{"type":"array","items":"int","element-id":"1"} => Array(Int, None, List)
{"type":"array","items":"int","element-id":1.5} => Array(Int, None, List)
{"type":"record","name":"r","fields":[]} => Record([])
{"type":"record","name":"long","fields":[{"name":"a","type":"long"}]} => Record([Field { id: None, schema: Long }])
["null",{"type":"record","name":"long","fields":[]},"long"] => Union([Null, Record([]), Long])
# an id that is no int, and the id of a field in another record
{"type":"record","name":"a","fields":[{"name":"f","type":"long"},{"name":"g","type":"long"},{"name":"h","type":"long","field-id":2147483648},{"name":"i","type":"long","field-id":2147483648},{"name":"j","type":{"type":"record","name":"b","fields":[{"name":"f","type":"int","field-id":1}]},"field-id":1}]} => Record([Field { id: None, schema: Long }, Field { id: None, schema: Long }, Field { id: None, schema: Long }, Field { id: None, schema: Long }, Field { id: Some(1), schema: Record([Field { id: Some(1), schema: Int }]) }])"#;

/// Names that a record's second field may use, and may not, of what is defined before.
pub const NAMES: &str =
    r#"{"type":"record","name":"x.y.r","fields":[{"name":"a","type":{"type":"fixed","name":"f","size":1}},{"name":"b","type":"f"}]} => Record([Field { id: None, schema: Fixed(1, Plain) }, Field { id: None, schema: Fixed(1, Plain) }])
{"type":"record","name":"x.y.r","fields":[{"name":"a","type":{"type":"fixed","name":"f","size":1}},{"name":"b","type":"x.y.f"}]} => Record([Field { id: None, schema: Fixed(1, Plain) }, Field { id: None, schema: Fixed(1, Plain) }])
{"type":"record","name":"x.y.r","fields":[{"name":"a","type":{"type":"fixed","name":"f","size":1}},{"name":"b","type":"x.f"}]} => UnknownName
{"type":"record","name":"x.y.r","fields":[{"name":"a","type":{"type":"fixed","name":"f","size":1}},{"name":"b","type":"g"}]} => UnknownName
{"type":"record","name":"x.y.r","fields":[{"name":"a","type":{"type":"fixed","name":"f","size":1}},{"name":"b","type":"r"}]} => Recursive
{"type":"record","name":"x.y.r","fields":[{"name":"a","type":{"type":"fixed","name":"f","size":1,"namespace":"z"}},{"name":"b","type":"z.f"}]} => Record([Field { id: None, schema: Fixed(1, Plain) }, Field { id: None, schema: Fixed(1, Plain) }])
{"type":"record","name":"x.y.r","fields":[{"name":"a","type":{"type":"fixed","name":"f","size":1,"namespace":"z"}},{"name":"b","type":"f"}]} => UnknownName
{"type":"record","name":"x.y.r","fields":[{"name":"a","type":{"type":"fixed","name":"f","size":1,"namespace":""}},{"name":"b","type":"f"}]} => UnknownName
{"type":"record","name":"x.y.r","fields":[{"name":"a","type":{"type":"fixed","name":"f","size":1,"namespace":7}},{"name":"b","type":"f"}]} => Record([Field { id: None, schema: Fixed(1, Plain) }, Field { id: None, schema: Fixed(1, Plain) }])"#;

/// Names in namespaces.
pub const NAMESPACES: &str = r#"# a dotted name ignores the namespace beside it
[{"type":"fixed","name":"p.f","namespace":"q","size":1},"p.f"] => Union([Fixed(1, Plain), Fixed(1, Plain)])
[{"type":"fixed","name":"p.f","namespace":"q","size":1},"q.f"] => UnknownName
# a simple name inside a namespace is no name outside
[{"type":"fixed","name":"f","size":1},{"type":"record","name":"n.r","fields":[{"name":"a","type":"f"}]}] => UnknownName
# a record's own namespace is around its fields
{"type":"record","name":"r","namespace":"n","fields":[{"name":"a","type":{"type":"enum","name":"e","symbols":[]}},{"name":"b","type":"n.e"}]} => Record([Field { id: None, schema: Enum(0) }, Field { id: None, schema: Enum(0) }])
# the same simple name in two namespaces
[{"type":"fixed","name":"a.f","size":1},{"type":"fixed","name":"b.f","size":2},"a.f"] => Union([Fixed(1, Plain), Fixed(2, Plain), Fixed(1, Plain)])
# a used name may be the type text of an object
[{"type":"fixed","name":"f","size":1},{"type":"f"}] => Union([Fixed(1, Plain), Fixed(1, Plain)])
# a name that was defined further in
[{"type":"array","items":{"type":"fixed","name":"f","size":1}},"f"] => Union([Array(Fixed(1, Plain), None, List), Fixed(1, Plain)])"#;

/// The first fault of some.
pub const FIRST_FAULTS: &str =
    r#"{"type":"record","name":"a","fields":[{"name":"f","type":"a"}]} => Recursive
{"type":"record","name":"a","fields":[{"name":"f","type":"b"}]} => UnknownName
{"type":"record","name":"a","fields":[{"name":"f","type":{"type":"fixed","name":"a","size":1}}]} => NameTwice
[{"type":"fixed","name":"f","size":1},{"type":"enum","name":"f","symbols":[]}] => NameTwice
# what a definition lacks comes before its name, which is there
[{"type":"fixed","name":"f","size":1},{"type":"enum","name":"f"}] => UnknownType
# the first of two
[["long"],"b"] => UnknownType
["b",["long"]] => UnknownName
# an id once more comes before the field's type, and behind its name and that it has a type
{"type":"record","name":"a","fields":[{"name":"f","type":"long","field-id":1},{"name":"g","type":"b","field-id":1}]} => FieldTwice(1)
{"type":"record","name":"a","fields":[{"name":"f","type":"b","field-id":1},{"name":"g","type":"long","field-id":1}]} => UnknownName
{"type":"record","name":"a","fields":[{"name":"f","type":"long","field-id":1},{"name":"g","field-id":1}]} => UnknownType
{"type":"record","name":"a","fields":[{"name":"f","type":"long","field-id":-7},{"name":"g","type":"long","field-id":-7}]} => FieldTwice(-7)"#;
