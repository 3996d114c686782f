//! Frames: the least and the greatest x and y of what is drawn.

ghost use Rattle.std.specs.Prelude.{◌≡◌};
ghost use Rattle.eight_sides.specs.Frames.{frame_at, widened, with_number};

use crate::interval::Interval;
use line_offsets::Corner;

/// The least and the greatest x and y of what is drawn.
#[derive(Clone, Copy, Debug, PartialEq, Eq)]
pub struct Frame {
    pub across: Interval,
    pub down: Interval,
}

/// The frame of a point alone.
pub fn frame_at(c: Corner) -> Frame
    ensures { result ≡ frame_at c }
{
    Frame {
        across: Interval {
            least: c.x,
            greatest: c.x,
        },
        down: Interval {
            least: c.y,
            greatest: c.y,
        },
    }
}

/// A frame, widened to hold a point.
pub fn widened(f: Frame, c: Corner) -> Frame
    ensures { result ≡ widened f c }
{
    Frame {
        across: with_number(f.across, c.x),
        down: with_number(f.down, c.y),
    }
}

/// An interval, widened to hold a number.
fn with_number(i: Interval, z: i64) -> Interval
    ensures { result ≡ with_number i z }
{
    Interval {
        least: i.least.min(z),
        greatest: i.greatest.max(z),
    }
}
