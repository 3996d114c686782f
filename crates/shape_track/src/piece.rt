//! A straight piece, cut into parts.

ghost use Rattle.std.specs.Prelude.{◌≡◌, ◌+◌, ◌-◌, ◌*◌, ◌^◌, ◌<◌, ◌≤◌, pos, ◌+ℤ◌, ◌-ℤ◌, ◌*ℤ◌, unsigned_abs};
ghost use Rattle.whole_algebra.specs.Rounding.{floor_quotient};
ghost use Rattle.fixed_plane.specs.Plane.{IsInPlane};
ghost use Rattle.shape_track.specs.Samples.{part_point, parts_of};

use map_base::Point;

/// Into how many parts a piece is cut whose ends are apart by the square `distance2`: the least number, at
/// least 1, of parts of half of `near` that reach as far.
pub(crate) fn parts(distance2: u64, near: u32) -> u64
    requires distance { distance2 ≤ 720000000000000000 }
    requires near_low { 20 ≤ near }
    ensures value { result ≡ parts_of near distance2 }
    ensures some { 0 < result }
    ensures fits { result ≤ 2 ^ 32 }
{
    let near = u64::from(near);
    if 4 * distance2 <= near * near {
        return 1;
    }
    let squares = (4 * distance2).div_ceil(near * near);
    root_above(squares.saturating_sub(1))
}

/// The least number whose square is above this one. Few are above 7, so these are tried first.
fn root_above(square: u64) -> u64
    ensures some { 0 < result }
    ensures fits { result ≤ 2 ^ 32 }
    ensures above { square < result * result }
    ensures least { (result - 1) * (result - 1) ≤ square }
{
    let mut root = 1;
    while root < 8 {
        if square < root * root {
            return root;
        }
        root += 1;
    }
    square.isqrt() + 1
}

/// Where part `index` of `count` begins on the way from `a` to `b`, rounded downwards.
pub(crate) fn part(a: Point, b: Point, count: u64, index: u64) -> Point
    requires a_in_plane { IsInPlane a }
    requires b_in_plane { IsInPlane b }
    requires some { 0 < count }
    requires fits { count ≤ 2 ^ 32 }
    requires in_range { index < count }
    ensures value { result ≡ part_point a b count index }
{
    if index == 0 {
        return a;
    }
    Point {
        x: along(a.x, b.x, count, index),
        y: along(a.y, b.y, count, index),
    }
}

fn along(from: i64, to: i64, count: u64, index: u64) -> i64
    requires from_in_plane { unsigned_abs from ≤ 300000000 }
    requires to_in_plane { unsigned_abs to ≤ 300000000 }
    requires some { 0 < count }
    requires fits { count ≤ 2 ^ 32 }
    requires in_range { index < count }
    ensures value { result ≡ from +ℤ floor_quotient ((to -ℤ from) *ℤ pos index) count }
{
    from + share(to - from, count, index)
}

/// `length * index / count`, rounded downwards.
fn share(length: i64, count: u64, index: u64) -> i64
    requires length { unsigned_abs length ≤ 600000000 }
    requires some { 0 < count }
    requires fits { count ≤ 2 ^ 32 }
    requires in_range { index < count }
    ensures value { result ≡ floor_quotient (length *ℤ pos index) count }
    ensures within { unsigned_abs result ≤ 600000000 }
{
    times(length, index).div_euclid(count as i64)
}

fn times(length: i64, index: u64) -> i64
    requires length { unsigned_abs length ≤ 600000000 }
    requires in_range { index < 2 ^ 32 }
    ensures value { result ≡ length *ℤ pos index }
{
    length * (index as i64)
}
