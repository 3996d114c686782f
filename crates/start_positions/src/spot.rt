//! Where a node is put on a grid, and how far grid points are from it.

ghost use Rattle.std.specs.Prelude.{◌≡◌, ◌<◌, ◌≤◌, ◌+◌, ◌*◌, ◌^◌, ◌-ℤ◌, ◌*ℤ◌, ◌≤ℤ◌, pos, unsigned_abs};
ghost use Rattle.grid_board.specs.Points.{is_lower};
ghost use Rattle.start_positions.specs.Cells.{ceil_quotient};
ghost use Rattle.start_positions.specs.Homes.{distance2, square_apart};
ghost use Rattle.start_positions.specs.Nearest.{no_farther, IsInRange, IsLineAt, IsOver, IsSpot};

use crate::cells::lines_of;
use crate::placing::Offset;
use grid_board::Bounds;
use octi_grid::GridPoint;

/// Where a node is put on a grid of cells of a side, at a fineness; and the first even column and row there or past it.
#[derive(Clone, Copy)]
pub(crate) struct Spot {
    pub(crate) side: u32,
    pub(crate) fineness: u32,
    pub(crate) offset: Offset,
    pub(crate) column: i32,
    pub(crate) row: i32,
}

impl Spot {
    /// The spot of an offset on a grid.
    pub(crate) fn at(grid: Bounds, side: u32, fineness: u32, offset: Offset) -> Spot
        requires left { grid.left ≤ℤ pos 0 }
        requires bottom { grid.bottom ≤ℤ pos 0 }
        requires side { 0 < side }
        requires fine { fineness ≤ 16 }
        requires offset { IsOver grid side fineness offset }
        ensures side { result.side ≡ side }
        ensures fineness { result.fineness ≡ fineness }
        ensures offset { result.offset ≡ offset }
        ensures spot { IsSpot grid result }
    {
        Spot {
            side,
            fineness,
            offset,
            column: line_at(side, fineness, offset.east),
            row: line_at(side, fineness, offset.north),
        }
    }

    /// Whether of two points the first is no farther; of two that are as far, whether the second is not below it, nor in
    /// its row and left of it.
    pub(crate) fn is_no_farther(self, p: GridPoint, q: GridPoint) -> bool
        requires { IsInRange self }
        ensures { result ≡ no_farther self p q }
    {
        let here = self.distance2(p);
        let there = self.distance2(q);
        if here < there {
            return true;
        }
        if there < here {
            return false;
        }
        !is_lower(q, p)
    }

    /// The square of the distance of a grid point from where the node lies, in parts of a fineness of a decimetre.
    pub(crate) fn distance2(self, p: GridPoint) -> u128
        requires { IsInRange self }
        ensures { result ≡ distance2 self.side self.fineness self.offset p }
    {
        self.square_apart(p.x, self.offset.east) + self.square_apart(p.y, self.offset.north)
    }

    /// The square of how far a row or a column is from a place, in parts of a fineness of a decimetre.
    pub(crate) fn square_apart(self, line: i32, at: u32) -> u128
        requires fine { self.fineness ≤ 16 }
        requires near { at ≤ 600000000 }
        ensures value { result ≡ square_apart self.side self.fineness line at }
        ensures within { result < 2 ^ 127 }
    {
        let apart = u128::from(self.apart(line, at));
        apart * apart
    }

    /// How far a row or a column is from a place.
    fn apart(self, line: i32, at: u32) -> u64
        requires fine { self.fineness ≤ 16 }
        requires near { at ≤ 600000000 }
        ensures value { result ≡ unsigned_abs (line *ℤ pos self.side -ℤ pos (at * self.fineness)) }
        ensures within { result ≤ 2 ^ 63 + 2 ^ 34 }
    {
        let at = (u64::from(at) * u64::from(self.fineness)) as i64;
        scaled(line, self.side).abs_diff(at)
    }
}

/// So many sides.
fn scaled(line: i32, side: u32) -> i64
    ensures value { result ≡ line *ℤ pos side }
    ensures within { unsigned_abs result < 2 ^ 63 }
{
    i64::from(line) * i64::from(side)
}

/// Whether a point is below another, or in the same row and left of it.
fn is_lower(p: GridPoint, q: GridPoint) -> bool
    ensures { result ≡ is_lower p q }
{
    if p.y == q.y {
        return p.x < q.x;
    }
    p.y < q.y
}

/// The first even column or row at a place or past it.
fn line_at(side: u32, fineness: u32, at: u32) -> i32
    requires side { 0 < side }
    requires few { ceil_quotient (at * fineness) side ≤ 1600 }
    ensures { IsLineAt side fineness at result }
{
    let line = lines_of(at, side, fineness);
    (line + line % 2) as i32
}
