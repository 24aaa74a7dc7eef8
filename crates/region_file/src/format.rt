//! The formats of a region.

/// How a region is written.
#[derive(Clone, Copy, Debug, PartialEq, Eq)]
pub enum Format {
    /// Format 1: lines of text.
    Text,
    /// Format 2: records in bytes, which are shorter and quicker to read.
    Binary,
}
