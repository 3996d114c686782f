//! The used edges of a network.

use map_base::{LineId, Sequence};

/// A used edge, as one of its points sees it.
#[derive(Debug, Drop)]
pub struct UsedEdge {
    /// The number of the other point.
    pub to: u32,
    /// The lines that run over it, rising.
    pub lines: Sequence<LineId>,
}
