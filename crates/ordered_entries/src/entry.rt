//! Entries.

/// What one row says of its place.
#[derive(Clone, Copy, Debug, PartialEq, Eq)]
pub struct Entry {
    /// The number of the thing that the row belongs to.
    pub key: u32,
    /// Where the row stands in this thing: rows stand by rising numbers.
    pub sequence: u32,
}
