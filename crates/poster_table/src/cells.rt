//! The cells of a coarse grid over the plane, and how many of them a shape reaches into.

ghost use Rattle.std.specs.Prelude.{◌≡◌, ◌≤◌, ◌<◌, ◌+◌, ◌-◌, ◌*◌, min, ◌+ℤ◌, pos, unsigned_abs};
ghost use Rattle.std.specs.Int.{int_max};
ghost use Rattle.eight_sides.specs.Shapes.{IsShortShape};
ghost use Rattle.poster_table.specs.Cells.{bucket_of, cells_of, count_of, line_of};

use eight_sides::Shape;

/// The side of a cell.
const SIDE: u64 = 160;

/// The first and the last column and row of a shape.
#[derive(Clone, Copy, Debug)]
pub struct Cells {
    pub left: u64,
    pub right: u64,
    pub top: u64,
    pub bottom: u64,
}

/// The cells into which a shape's box reaches.
pub(crate) fn cells_of(shape: Shape) -> Cells
    requires { IsShortShape shape }
    ensures value { result ≡ cells_of shape }
    ensures right { result.right < 1099511627776 }
    ensures bottom { result.bottom < 1099511627776 }
{
    Cells {
        left: line_of(shape.across.least),
        right: line_of(shape.across.greatest),
        top: line_of(shape.down.least),
        bottom: line_of(shape.down.greatest),
    }
}

/// The column or the row of a coordinate.
fn line_of(z: i64) -> u64
    requires { unsigned_abs z ≤ 1099511627776 }
    ensures value { result ≡ line_of z }
    ensures small { result < 1099511627776 }
{
    from_edge(z) / SIDE
}

/// How far a coordinate lies from the least of all.
fn from_edge(z: i64) -> u64
    requires { unsigned_abs z ≤ 1099511627776 }
    ensures value { result ≡ unsigned_abs (int_max (z +ℤ pos 1099511627776) (pos 0)) }
    ensures small { result ≤ 2199023255552 }
{
    (z + 1_099_511_627_776) as u64
}

/// How many cells these are, or a greatest number where they are too many to reckon with.
pub(crate) fn count_of(cells: Cells) -> u64
    requires right { cells.right < 1099511627776 }
    requires bottom { cells.bottom < 1099511627776 }
    ensures { result ≡ count_of cells }
{
    let columns = count_between(cells.left, cells.right);
    let rows = count_between(cells.top, cells.bottom);
    product(columns, rows)
}

/// How many columns or rows there are from one to another, or 1048576 where they are more.
fn count_between(first: u64, last: u64) -> u64
    requires { last < 1099511627776 }
    ensures value { result ≡ min (last + 1 - first) 1048576 }
    ensures small { result ≤ 1048576 }
{
    (last + 1).saturating_sub(first).min(1_048_576)
}

/// The product of two numbers that are not too great.
fn product(a: u64, b: u64) -> u64
    requires a { a ≤ 1048576 }
    requires b { b ≤ 1048576 }
    ensures { result ≡ a * b }
{
    a * b
}

/// The bucket of a cell, where there are so many.
pub(crate) fn bucket_of(column: u64, row: u64, buckets: usize) -> usize
    requires column { column < 1099511627776 }
    requires row { row < 1099511627776 }
    requires buckets { 0 < buckets }
    ensures value { result ≡ bucket_of column row buckets }
    ensures within { result < buckets }
{
    ((column + 8191 * row) % buckets as u64) as usize
}
