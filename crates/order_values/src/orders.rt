//! Orders of lines.

use map_base::{LineId, Sequence};

/// An order for each segment: its lines from left to right, as seen from its lower end.
#[derive(Debug, Drop)]
pub struct Orders {
    /// The order of each segment, in the order of segments.
    pub lists: Sequence<Sequence<LineId>>,
}
