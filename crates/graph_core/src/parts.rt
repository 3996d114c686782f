//! What a line graph is made of.

use map_base::{LineId, NodeId, Point, SegId, Sequence, StationId};

/// What a node stands for.
#[derive(Clone, Copy, Debug, PartialEq, Eq)]
pub enum NodeKind {
    /// A station of the feed.
    Station(StationId),
    /// A point at which segments meet, and no station is.
    Junction,
}

/// A line that goes on from one segment to another at a node.
#[derive(Clone, Copy, Debug, PartialEq, Eq)]
pub struct Join {
    /// The segment of the lesser number.
    pub e: SegId,
    /// The segment of the greater number.
    pub f: SegId,
    /// The line that goes on.
    pub line: LineId,
}

/// The parts of a line graph, in lists by node and by segment.
#[derive(Debug, Drop)]
pub struct GraphParts {
    /// What each node stands for.
    pub kinds: Sequence<NodeKind>,
    /// Where each node lies.
    pub places: Sequence<Point>,
    /// The lower and the upper end of each segment.
    pub ends: Sequence<(NodeId, NodeId)>,
    /// The lines of each segment, rising.
    pub lines: Sequence<Sequence<LineId>>,
    /// The segments at each node, clockwise from north.
    pub rounds: Sequence<Sequence<SegId>>,
    /// The connections at each node, rising by `e`, then `f`, then line.
    pub joins: Sequence<Sequence<Join>>,
}
