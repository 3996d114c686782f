//! The line of a node of a dual tree, and what is known of a tree by its first line.

use map_base::{LineId, SegId};
use order_values::{DualTree, Prices};

/// What the line of a node of a dual tree says.
#[derive(Debug, Drop)]
pub(crate) enum DualLine {
    /// A segment, and two lines: what follows is the tree in which the first of them stands before the second, and then
    /// the one in which it stands behind it.
    Fork { seg: SegId, a: LineId, b: LineId },
    /// The prices of a stop.
    Stop { prices: Prices },
}

/// A dual tree of which the first line is read.
#[derive(Debug, Drop)]
pub(crate) enum DualStart {
    /// A fork: its segment and two lines. Its trees follow.
    Fork { seg: SegId, a: LineId, b: LineId },
    /// A stop, which is the whole tree.
    Whole { tree: Box<DualTree> },
}
