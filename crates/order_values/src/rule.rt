//! Rules that make a problem smaller.

use map_base::{LineId, SegId, Sequence};

/// A change of a problem that keeps its least cost.
#[derive(Debug, Drop)]
pub enum Rule {
    /// The segment `from` has the order of `into`, or with `flip` its reverse.
    Merge {
        into: SegId,
        from: SegId,
        flip: bool,
    },
    /// The lines `first` of a segment stand before its other lines.
    Divide {
        seg: SegId,
        first: Sequence<LineId>,
    },
}
