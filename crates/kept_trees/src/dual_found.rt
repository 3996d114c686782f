//! What the search finds.

use order_values::{DualTree, Orders};

/// What a search by dual prices finds in a part by itself.
#[derive(Debug, Drop)]
pub struct DualFound {
    /// Whether the search came to its end within the budget.
    pub complete: bool,
    /// The least cost where it did, else a lower bound.
    pub target: u64,
    /// A tree that shows the target.
    pub tree: DualTree,
    /// The orders of the part's segments that were the first to cost least of all that were met.
    pub orders: Orders,
    /// The branch nodes that its rounds counted.
    pub branches: u32,
}
