//! The line of a node of a tree.

use map_base::SegId;
use order_values::Prices;

/// What the line of a node says.
#[derive(Debug, Drop)]
pub(crate) enum NodeLine {
    /// A segment, and how many cases follow.
    Split { seg: SegId, count: u32 },
    /// The prices of a closed case.
    Close { prices: Prices },
}
