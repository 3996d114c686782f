//! Distances of points, and sides of ways.

ghost use Rattle.std.specs.Prelude.{◌≡◌, ◌≤◌, ◌-ℤ◌, ◌*ℤ◌, unsigned_abs};
ghost use Rattle.fixed_plane.specs.Plane.{IsInPlane};
ghost use Rattle.fixed_plane.specs.Measures.{dist2_of, side_of, square_of};

use map_base::Point;

/// The square of the distance of two points, in square decimetres.
pub fn dist2(a: Point, b: Point) -> u64
    requires a_in_plane { IsInPlane a }
    requires b_in_plane { IsInPlane b }
    ensures value { result ≡ dist2_of a b }
    ensures within { result ≤ 720000000000000000 }
{
    square(difference(a.x, b.x)) + square(difference(a.y, b.y))
}

/// On which side of the way from `a` to `b` the point `c` lies: above 0 on the left, below 0 on the right,
/// and 0 on the line through both. It is twice the area of the three, in square decimetres.
pub fn side(a: Point, b: Point, c: Point) -> i64
    requires a_in_plane { IsInPlane a }
    requires b_in_plane { IsInPlane b }
    requires c_in_plane { IsInPlane c }
    ensures value { result ≡ side_of a b c }
    ensures within { unsigned_abs result ≤ 720000000000000000 }
{
    let left = product(difference(a.x, b.x), difference(a.y, c.y));
    let right = product(difference(a.y, b.y), difference(a.x, c.x));
    less(left, right)
}

/// How far it is from one coordinate to another.
pub(crate) fn difference(from: i64, to: i64) -> i64
    requires from_in_plane { unsigned_abs from ≤ 300000000 }
    requires to_in_plane { unsigned_abs to ≤ 300000000 }
    ensures value { result ≡ to -ℤ from }
    ensures within { unsigned_abs result ≤ 600000000 }
{
    to - from
}

fn square(length: i64) -> u64
    requires within { unsigned_abs length ≤ 600000000 }
    ensures value { result ≡ square_of length }
    ensures within { result ≤ 360000000000000000 }
{
    let size = length.unsigned_abs();
    size * size
}

pub(crate) fn product(a: i64, b: i64) -> i64
    requires a_within { unsigned_abs a ≤ 600000000 }
    requires b_within { unsigned_abs b ≤ 600000000 }
    ensures value { result ≡ a *ℤ b }
    ensures within { unsigned_abs result ≤ 360000000000000000 }
{
    a * b
}

/// What is left of one product when another is taken from it.
pub(crate) fn less(whole: i64, part: i64) -> i64
    requires whole_within { unsigned_abs whole ≤ 360000000000000000 }
    requires part_within { unsigned_abs part ≤ 360000000000000000 }
    ensures value { result ≡ whole -ℤ part }
    ensures within { unsigned_abs result ≤ 720000000000000000 }
{
    whole - part
}
