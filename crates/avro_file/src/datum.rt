//! What is read of a file.

ghost use Rattle.std.specs.Prelude.{◌≡◌, ◌<◌, ◌≤◌, ◌^◌, MatchOption};

/// How many items an array has. It fits a long, so what was read can be written.
#[derive(Clone, Copy, Debug)]
pub struct ItemCount {
    number: u64,
    ghost fits_long: { number < 2 ^ 63 },
}

impl ItemCount {
    /// The number, where it fits a long.
    pub fn new(number: u64) -> Option<ItemCount>
        ensures { MatchOption result (2 ^ 63 ≤ number) (λ count. count.number ≡ number) }
    {
        if number < 0x8000_0000_0000_0000 {
            Some(ItemCount { number })
        } else {
            None
        }
    }

    /// The number as it is.
    pub fn get(self) -> u64
        ensures same { result ≡ self.number }
        ensures fits_long { result < 2 ^ 63 }
    {
        self.number
    }
}

/// A value, shaped as its schema is. It lends the texts and bytes of the file.
#[derive(Debug, Drop)]
pub enum Datum<'a> {
    Null,
    Boolean(bool),
    Int(i32),
    Long(i64),
    /// The four bytes that spell it.
    Float(&'a [u8]),
    /// The eight bytes that spell it.
    Double(&'a [u8]),
    String(&'a str),
    Bytes(&'a [u8]),
    Fixed(&'a [u8]),
    /// The position of its symbol.
    Enum(usize),
    Record(Vec<Datum<'a>>),
    Array(Vec<Datum<'a>>),
    /// An array of records of an int and a long, and of nothing else.
    LongPairs(Vec<(i32, i64)>),
    /// An array of records of an int and bytes, and of nothing else.
    BytesPairs(Vec<(i32, &'a [u8])>),
    /// An array of so many items that are all this one, as items are that take no bytes.
    Repeated(ItemCount, Box<Datum<'a>>),
    Map(Vec<(&'a str, Datum<'a>)>),
    /// The position of a union's branch, and its value.
    Union(usize, Box<Datum<'a>>),
    /// The position of a union's branch, where its value is null.
    NullBranch(usize),
}
