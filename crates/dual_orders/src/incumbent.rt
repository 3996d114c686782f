//! The incumbent.

use dual_rounds::LineOrder;

/// The best orders that were met, with what they cost.
#[derive(Drop)]
pub struct Incumbent {
    pub cost: u64,
    pub orders: Vec<LineOrder>,
}
