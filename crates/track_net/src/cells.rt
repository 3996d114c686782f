//! Square cells of the plane.

ghost use Rattle.std.specs.Prelude.{◌≡◌, ◌<◌, ◌≤◌, unsigned_abs, pos, ◌+ℤ◌, ◌-ℤ◌};
ghost use Rattle.whole_algebra.specs.Rounding.{floor_quotient};
ghost use Rattle.fixed_plane.specs.Plane.{IsInPlane};
ghost use Rattle.track_net.specs.Cells.{cell_around, cell_of};

use map_base::Point;

/// A square cell of the plane: its column and its row.
pub(crate) type Cell = (i64, i64);

/// The cell in which a point lies.
pub(crate) fn cell_at(point: Point, size: u32) -> Cell
    requires in_plane { IsInPlane point }
    requires some { 0 < size }
    ensures value { result ≡ cell_of size point }
    ensures column { unsigned_abs result.0 ≤ 300000000 }
    ensures row { unsigned_abs result.1 ≤ 300000000 }
{
    (quotient(point.x, size), quotient(point.y, size))
}

/// `coordinate / size`, rounded downwards.
fn quotient(coordinate: i64, size: u32) -> i64
    requires in_plane { unsigned_abs coordinate ≤ 300000000 }
    requires some { 0 < size }
    ensures value { result ≡ floor_quotient coordinate size }
    ensures in_plane { unsigned_abs result ≤ 300000000 }
{
    coordinate.div_euclid(i64::from(size))
}

/// One of the nine cells that are a cell and those around it.
pub(crate) fn cell_beside(center: Cell, i: u32) -> Cell
    requires column { unsigned_abs center.0 ≤ 300000000 }
    requires row { unsigned_abs center.1 ≤ 300000000 }
    requires nine { i < 9 }
    ensures { result ≡ cell_around center i }
{
    (beside(center.0, i / 3), beside(center.1, i % 3))
}

/// The number before one, the number itself, or the one after it.
fn beside(number: i64, i: u32) -> i64
    requires small { unsigned_abs number ≤ 300000000 }
    requires three { i < 3 }
    ensures value { result ≡ number +ℤ (pos i -ℤ pos 1) }
    ensures small { unsigned_abs result ≤ 300000001 }
{
    number + (i64::from(i) - 1)
}
