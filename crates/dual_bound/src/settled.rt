//! Pairs of lines whose order on a segment is settled.

use map_base::{LineId, SegId};

/// On a segment the first line stands before the second.
#[derive(Clone, Copy, Debug)]
pub struct SettledPair {
    pub seg: SegId,
    pub first: LineId,
    pub second: LineId,
}
