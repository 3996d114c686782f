//! Pairs of lines, and the Links between the segments where a pair is open.

use map_base::{LineId, SegId};

/// Two lines, the lesser first.
#[derive(Clone, Copy, Debug, PartialEq, Eq, Hash)]
pub struct Pair {
    pub lesser: LineId,
    pub greater: LineId,
}

/// A Link of a pair that is decided on neither of its segments, with the number of its term in the problem.
#[derive(Clone, Copy, Debug)]
pub struct OpenLink {
    pub number: u32,
    pub seg: SegId,
    pub other: SegId,
    pub flip: bool,
    pub weight: u32,
}

/// A segment of a tree of Links, with the Link to its parent.
#[derive(Clone, Copy, Debug)]
pub struct ChildLink {
    pub child: SegId,
    pub link: OpenLink,
}
