//! Ways of lines over the points of a net.

use map_base::{LineId, Sequence};

/// A way of a line: the numbers of the points that it runs over, each joined with the next by an edge.
#[derive(Debug, Drop)]
pub struct Way {
    /// The line.
    pub line: LineId,
    /// The numbers of its points.
    pub points: Sequence<u32>,
}

/// A line that comes to a point from one neighbour and goes on to another.
#[derive(Clone, Copy, Debug, PartialEq, Eq)]
pub struct Passage {
    /// The line.
    pub line: LineId,
    /// The number of the point.
    pub at: u32,
    /// The number of the point that it comes from.
    pub from: u32,
    /// The number of the point that it goes on to.
    pub to: u32,
}
