//! What is drawn, in grid steps.

use crate::text_width::TextWidth;
use map_base::{NodeId, Sequence};
use octi_grid::GridPoint;

/// A station node.
#[derive(Clone, Copy, Debug)]
pub struct Mark {
    /// The number of the node.
    pub node: NodeId,
    /// Its point on the grid.
    pub at: GridPoint,
    /// How far what is drawn of it reaches from its centre.
    pub radius: u32,
    /// How wide its name is, in tenths of the size of type, where it has a name to print.
    pub name: Option<TextWidth>,
    /// Whether all its segments leave it to the east or to the west.
    pub level: bool,
}

/// A straight piece of a walk, between two changes of its direction.
#[derive(Clone, Copy, Debug)]
pub struct Piece {
    pub start: GridPoint,
    pub end: GridPoint,
    /// How many lines the segment has.
    pub lines: u32,
    /// The ends of the segment.
    pub ends: (NodeId, NodeId),
}

/// The station nodes in node order, and the straight pieces of all walks in the order of their segments.
#[derive(Debug, Drop)]
pub struct Plan {
    pub marks: Sequence<Mark>,
    pub pieces: Sequence<Piece>,
}
