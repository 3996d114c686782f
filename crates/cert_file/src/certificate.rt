//! Certificates: what a picture shows, and what is proved of its line orders.

use map_base::{LineId, Sequence};
use octi_grid::Walk;
use order_proof::Proof;
use order_values::Orders;

/// What shows a map to be one of its line graph: the walk and the order of each segment, what the orders cost, and the
/// proof of a cost that none is below.
#[derive(Debug, Drop)]
pub struct Certificate {
    /// How many nodes the line graph has.
    pub nodes: u32,
    /// How many segments.
    pub segs: u32,
    /// How many different lines on segments.
    pub lines: u32,
    /// The lines on segments whose importance is above 1, rising, each with its importance.
    pub importance: Sequence<(LineId, u32)>,
    /// The walk of each segment, in the order of their numbers.
    pub walks: Sequence<Walk>,
    /// The order of each segment.
    pub orders: Orders,
    /// What the orders cost.
    pub cost: u64,
    /// The proof of the bound: no orders cost less than the sum of its targets.
    pub proof: Proof,
}
