//! Shapes.

ghost use Rattle.std.specs.Prelude.{◌≡◌};
ghost use Rattle.eight_sides.specs.Shapes.{meet};

use crate::interval::{Interval, overlap};

/// A shape of eight sides: the least and the greatest x, y, x - y and x + y of its points, where x grows to the right
/// and y downwards.
#[derive(Clone, Copy, Debug, PartialEq, Eq)]
pub struct Shape {
    pub across: Interval,
    pub down: Interval,
    pub difference: Interval,
    pub sum: Interval,
}

/// Whether two shapes meet: all four pairs of intervals share a number.
pub fn meet(a: Shape, b: Shape) -> bool
    ensures { result ≡ meet a b }
{
    overlap(a.across, b.across)
        && overlap(a.down, b.down)
        && overlap(a.difference, b.difference)
        && overlap(a.sum, b.sum)
}
