//! The types that a column may have.

/// The type of a column that holds single values.
#[derive(Clone, Copy, Debug, PartialEq, Eq)]
pub enum ColumnType {
    /// False and true.
    Boolean,
    /// Whole numbers of 32 bits.
    Int,
    /// Whole numbers of 64 bits.
    Long,
    /// Binary floating point of 32 bits.
    Float,
    /// Binary floating point of 64 bits.
    Double,
    /// Days since 1970-01-01.
    Date,
    /// Microseconds since midnight.
    Time,
    /// Microseconds since 1970-01-01 00:00, without a zone.
    Timestamp,
    /// Microseconds since 1970-01-01 00:00 UTC.
    Timestamptz,
    /// Texts in UTF-8.
    String,
    /// 16 bytes, the most significant first.
    Uuid,
    /// Byte strings of one length.
    Fixed(u32),
    /// Byte strings of any length.
    Binary,
    /// Decimal numbers of so many digits, so many of them behind the point.
    Decimal { precision: u32, scale: u32 },
}
