//! The bounds of a board, and the numbers of the points within them.

ghost use Rattle.std.specs.Prelude.{◌≡◌, ◌<◌, ◌≤◌, ◌*◌, true, pos, negsuc, ◌+ℤ◌, ◌-ℤ◌, ◌≤ℤ◌, unsigned_abs};
ghost use Rattle.grid_board.specs.Boards.{cell_of, cells_of, contains, doubled_bounds, extent, is_between, point_of, AreBounds, IsBound};
ghost use Rattle.grid_board.specs.Frames.{IsFrame};

use octi_grid::GridPoint;

/// The bounds of a board, in grid steps; its points lie between them or on them.
#[derive(Clone, Copy, Debug, PartialEq, Eq)]
pub struct Bounds {
    pub left: i32,
    pub right: i32,
    pub bottom: i32,
    pub top: i32,
}

impl Bounds {
    /// Whether a point lies within them.
    pub fn contains(self, p: GridPoint) -> bool
        ensures { result ≡ contains self p }
    {
        if !is_between(self.left, p.x, self.right) {
            return false;
        }
        is_between(self.bottom, p.y, self.top)
    }

    /// How many points lie side by side.
    fn width(self) -> u32
        requires { IsFrame self }
        ensures value { result ≡ extent self.left self.right }
        ensures within { result ≤ 8001 }
    {
        offset(self.left, self.right) + 1
    }

    /// How many points lie above one another.
    fn height(self) -> u32
        requires { IsFrame self }
        ensures value { result ≡ extent self.bottom self.top }
        ensures within { result ≤ 8001 }
    {
        offset(self.bottom, self.top) + 1
    }

    /// How many points there are.
    pub fn cells(self) -> u32
        requires { IsFrame self }
        ensures value { result ≡ cells_of self }
        ensures within { result ≤ 64016001 }
    {
        self.height() * self.width()
    }

    /// The number of a point, row by row.
    pub fn cell_of(self, p: GridPoint) -> u32
        requires frame { IsFrame self }
        requires inside { contains self p ≡ true }
        ensures value { result ≡ cell_of self p }
        ensures within { result < cells_of self }
    {
        offset(self.bottom, p.y) * self.width() + offset(self.left, p.x)
    }

    /// The point of a number.
    pub fn point_of(self, n: u32) -> GridPoint
        requires frame { IsFrame self }
        requires within { n < cells_of self }
        ensures value { result ≡ point_of self n }
        ensures inside { contains self result ≡ true }
    {
        let width = self.width();
        GridPoint {
            x: beyond(self.left, n % width),
            y: beyond(self.bottom, n / width),
        }
    }

    /// The bounds of the doubled points.
    pub(crate) fn doubled(self) -> Bounds
        requires { AreBounds self }
        ensures value { result ≡ doubled_bounds self }
        ensures frame { IsFrame result }
    {
        Bounds {
            left: twice(self.left),
            right: twice(self.right),
            bottom: twice(self.bottom),
            top: twice(self.top),
        }
    }
}

/// Whether a coordinate lies between two others, or on one of them.
fn is_between(low: i32, z: i32, high: i32) -> bool
    ensures { result ≡ is_between low z high }
{
    if z < low {
        return false;
    }
    z <= high
}

/// How far a coordinate lies above another.
fn offset(low: i32, z: i32) -> u32
    requires order { low ≤ℤ z }
    requires low { negsuc 3999 ≤ℤ low }
    requires high { z ≤ℤ pos 4000 }
    ensures value { result ≡ unsigned_abs (z -ℤ low) }
    ensures within { result ≤ 8000 }
{
    (z - low) as u32
}

/// The coordinate that lies so far above another.
fn beyond(low: i32, n: u32) -> i32
    requires low { negsuc 3999 ≤ℤ low }
    requires high { low ≤ℤ pos 4000 }
    requires n { n ≤ 8000 }
    ensures { result ≡ low +ℤ pos n }
{
    low + n as i32
}

/// Twice a bound.
fn twice(z: i32) -> i32
    requires { IsBound z }
    ensures { result ≡ z +ℤ z }
{
    z + z
}
