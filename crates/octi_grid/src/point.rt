//! Points of the grid.

ghost use Rattle.std.specs.Prelude.{◌≡◌};
ghost use Rattle.octi_grid.specs.Ways.{step_from, doubled, CanStep, IsWithin};

use crate::dir::Dir;

/// A point of the grid. x grows eastwards, y northwards.
#[derive(Clone, Copy, Debug, PartialEq, Eq, PartialOrd, Ord, Hash)]
pub struct GridPoint {
    pub x: i32,
    pub y: i32,
}

impl GridPoint {
    /// The point that a step leads to.
    pub fn step(self, dir: Dir) -> GridPoint
        requires { CanStep self }
        ensures { result ≡ step_from self dir }
    {
        GridPoint {
            x: self.x + dir.east(),
            y: self.y + dir.north(),
        }
    }

    /// Twice the point.
    pub fn doubled(self) -> GridPoint
        requires { CanStep self }
        ensures { result ≡ doubled self }
    {
        GridPoint {
            x: self.x + self.x,
            y: self.y + self.y,
        }
    }
}
