//! Trees of cases.

use map_base::{LineId, SegId};
use order_values::Prices;

/// How the orders of a part are told apart, until each case is closed.
#[derive(Debug, Drop)]
pub enum Tree {
    /// One case for each line that may be placed next on a segment.
    Split {
        seg: SegId,
        children: Vec<(LineId, Tree)>,
    },
    /// Prices under which no order of this case costs too little.
    Close {
        prices: Prices,
    },
}
