//! Intervals of whole numbers, rims included.

ghost use Rattle.std.specs.Prelude.{◌≡◌};
ghost use Rattle.eight_sides.specs.Shapes.{overlap};

/// The numbers from one to another, both included.
#[derive(Clone, Copy, Debug, PartialEq, Eq)]
pub struct Interval {
    pub least: i64,
    pub greatest: i64,
}

/// Whether two intervals share a number.
pub(crate) fn overlap(a: Interval, b: Interval) -> bool
    ensures { result ≡ overlap a b }
{
    a.least.max(b.least) <= a.greatest.min(b.greatest)
}
