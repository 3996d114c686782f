//! How much a certificate speaks of.

/// The numbers of nodes, of segments, and of different lines on segments.
#[derive(Clone, Copy, Debug, PartialEq, Eq)]
pub(crate) struct Counts {
    pub nodes: u32,
    pub segs: u32,
    pub lines: u32,
}
