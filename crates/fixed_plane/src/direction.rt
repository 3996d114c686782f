//! Directions from a point, clockwise from north.

ghost use Rattle.std.specs.Prelude.{◌≡◌, ◌≢◌, ◌≤◌, ◌↔◌, unsigned_abs, if◌then◌else◌};
ghost use Rattle.std.specs.Cmp.{IsTotalOrder};
ghost use Rattle.fixed_plane.specs.Plane.{IsInPlane};
ghost use Rattle.fixed_plane.specs.Directions.{LieInOneDirection, clockwise_from, half_of, way_of};
ghost use Rattle.whole_algebra.specs.Turns.{cross_of};

use crate::measure::{difference, less, product};
use map_base::Point;
use std::cmp::Ordering;

/// Which of the directions from `from` to `a` and to `b` comes first, clockwise from north. They are equal
/// exactly where it is one direction, and the order of the directions from one point is total.
pub fn clockwise(from: Point, a: Point, b: Point) -> Ordering
    requires from_in_plane { IsInPlane from }
    requires a_in_plane { IsInPlane a }
    requires b_in_plane { IsInPlane b }
    requires a_apart { a ≢ from }
    requires b_apart { b ≢ from }
    ensures value { result ≡ clockwise_from from a b }
    ensures one_direction { (result ≡ Ordering.Equal) ↔ LieInOneDirection from a b }
    ensures total { IsTotalOrder (clockwise_from from) }
{
    let to_a = way(from, a);
    let to_b = way(from, b);
    is_western(to_a)
        .cmp(&is_western(to_b))
        .then(cross(to_a, to_b).cmp(&0))
}

/// The way from one point to another.
fn way(from: Point, to: Point) -> Point
    requires from_in_plane { IsInPlane from }
    requires to_in_plane { IsInPlane to }
    ensures value { result ≡ way_of from to }
    ensures across { unsigned_abs result.x ≤ 600000000 }
    ensures along { unsigned_abs result.y ≤ 600000000 }
{
    Point {
        x: difference(from.x, to.x),
        y: difference(from.y, to.y),
    }
}

/// Whether a way points into the half turn that begins in the south.
fn is_western(way: Point) -> bool
    requires { half_of way ≢ 0 }
    ensures { half_of way ≡ (if result then 2 else 1) }
{
    if way.x == 0 { way.y < 0 } else { way.x < 0 }
}

/// Above 0 where `b` turns left from `a`, below 0 where it turns right.
fn cross(a: Point, b: Point) -> i64
    requires a_across { unsigned_abs a.x ≤ 600000000 }
    requires a_along { unsigned_abs a.y ≤ 600000000 }
    requires b_across { unsigned_abs b.x ≤ 600000000 }
    requires b_along { unsigned_abs b.y ≤ 600000000 }
    ensures { result ≡ cross_of a.x a.y b.x b.y }
{
    less(product(a.x, b.y), product(a.y, b.x))
}
