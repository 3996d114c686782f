//! Line orders, and what is proved of them.

use map_base::{LineId, Sequence};
use order_proof::Part;

/// The order of each segment, and what is proved of each part of the problem.
#[derive(Debug, Drop)]
pub(crate) struct Solution {
    /// The order of each segment, in the order of segments.
    pub orders: Vec<Sequence<LineId>>,
    /// What is proved of each part, in the order of parts.
    pub parts: Vec<Part>,
}
