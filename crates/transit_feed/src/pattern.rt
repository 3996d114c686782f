//! Patterns.

use map_base::{LineId, Sequence, StationId};

/// A pattern: the stations that some trips of a line serve, in their order.
#[derive(Debug, Drop)]
pub struct Pattern {
    /// The line of the trips.
    pub line: LineId,
    /// The stations, at least two, none twice in a row.
    pub stops: Sequence<StationId>,
    /// The place of the trips' shape among the shapes, where they have one.
    pub shape: Option<u32>,
}
