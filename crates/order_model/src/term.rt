//! What two lines may cost.

use map_base::{LineId, SegId};

/// A cost that two lines have or have not, by their orders. In a `Link` and an `Apart` `seg` is below `other`
/// and `a` below `b`. A weight is at least 1.
#[derive(Clone, Copy, Debug, PartialEq, Eq)]
pub enum Term {
    /// Two lines that part at an end of a segment. It costs where `second` stands before `first`.
    Side {
        seg: SegId,
        first: LineId,
        second: LineId,
        w: u32,
    },
    /// Two lines that go on together. It costs where their order is not the same on both segments, or with
    /// `flip` where it is the same.
    Link {
        seg: SegId,
        other: SegId,
        flip: bool,
        a: LineId,
        b: LineId,
        w: u32,
    },
    /// Two lines that go on together. It costs where they are neighbours on exactly one of the segments.
    Apart {
        seg: SegId,
        other: SegId,
        a: LineId,
        b: LineId,
        w: u32,
    },
}
