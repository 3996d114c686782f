//! Two lines on a segment.

ghost use Rattle.std.specs.Prelude.{◌≡◌, ◌==◌, ◌&&◌};
ghost use Rattle.order_bound.specs.Pairs.{pair_of, is_pair};

use map_base::{LineId, SegId};
use order_bound::Pair;

/// Two lines on a segment: a place where terms cost something by the order of the two.
#[derive(Clone, Copy, Debug)]
pub(crate) struct Place {
    pub(crate) pair: Pair,
    pub(crate) seg: SegId,
}

impl Place {
    /// The place of two lines on a segment.
    pub(crate) fn of(seg: SegId, a: LineId, b: LineId) -> Place
        ensures pair { result.pair ≡ pair_of a b }
        ensures seg { result.seg ≡ seg }
    {
        Place {
            pair: pair_of(a, b),
            seg,
        }
    }

    /// Whether it is that of these two lines on a segment.
    pub(crate) fn is_at(self, seg: SegId, a: LineId, b: LineId) -> bool
        ensures { result ≡ (is_pair self.pair (pair_of a b) && seg.0 == self.seg.0) }
    {
        if seg.0 != self.seg.0 {
            return false;
        }
        let pair = pair_of(a, b);
        if self.pair.lesser.0 != pair.lesser.0 {
            return false;
        }
        self.pair.greater.0 == pair.greater.0
    }
}

/// The pair of two lines.
fn pair_of(a: LineId, b: LineId) -> Pair
    ensures { result ≡ pair_of a b }
{
    if a.0 < b.0 {
        Pair {
            lesser: a,
            greater: b,
        }
    } else {
        Pair {
            lesser: b,
            greater: a,
        }
    }
}
