//! How two lines of a segment stood in the orders of the rounds, on the average.

use map_base::LineId;

/// Of two lines of a segment, the lesser first, how often the greater stood before the lesser, and how often they were
/// neighbours, both in 65536ths.
#[derive(Clone, Copy, Debug, PartialEq, Eq)]
pub struct PairAverage {
    pub lesser: LineId,
    pub greater: LineId,
    pub swapped: u32,
    pub beside: u32,
}
