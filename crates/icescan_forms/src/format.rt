//! The form of an answer.

/// The form of an answer.
#[derive(Clone, Copy, Debug, PartialEq, Eq)]
pub enum Format {
    /// Lines of text.
    Text,
    /// JSON: of a plan a REST catalog's answer to a scan that was planned, of other commands an object a line.
    Json,
}
