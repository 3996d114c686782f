//! The entries of a graph file, each by itself.

use graph_core::Join;
use map_base::{LineId, NodeId, Point, SegId, Sequence, Text};

/// A line: its name, its colour (red, green and blue) and its importance, from 1 to 16.
#[derive(Debug, Drop)]
pub struct LineForm {
    pub name: Text,
    pub colour: [u8; 3],
    pub importance: u32,
}

/// A node: where it lies, what it is called where it is a station, the segments round it and its connections.
#[derive(Debug, Drop)]
pub struct NodeForm {
    pub place: Point,
    pub name: Option<Text>,
    pub round: Sequence<SegId>,
    pub joins: Sequence<Join>,
}

/// A segment: its lower and its upper end, and its lines.
#[derive(Debug, Drop)]
pub struct SegmentForm {
    pub ends: (NodeId, NodeId),
    pub lines: Sequence<LineId>,
}

/// A node or a segment.
#[derive(Debug, Drop)]
pub enum Feature {
    Node(NodeForm),
    Segment(SegmentForm),
}
