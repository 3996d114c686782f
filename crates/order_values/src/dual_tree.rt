//! Trees of settled pairs.

use crate::prices::Prices;
use map_base::{LineId, SegId};

/// How the orders of a part are told apart by pairs of lines, one after another, until each case is stopped by prices.
#[derive(Debug, Drop)]
pub enum DualTree {
    /// Two cases: `a` stands before `b` on a segment in the first, and behind it in the second.
    Fork {
        seg: SegId,
        a: LineId,
        b: LineId,
        first: Box<DualTree>,
        second: Box<DualTree>,
    },
    /// Prices, in thousandths, under which no orders of this case cost too little.
    Stop {
        prices: Prices,
    },
}
