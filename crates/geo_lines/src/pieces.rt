//! How far a line is shifted along the pieces of a course, and where two pieces meet.

ghost use Rattle.std.specs.Prelude.{◌≡◌, ◌≢◌, ◌≤◌, ◌+◌, ◌*◌, pos, ◌+ℤ◌, ◌-ℤ◌, ◌*ℤ◌, ◌<ℤ◌, ◌≤ℤ◌, int_div, int_le, unsigned_abs};
ghost use Rattle.fixed_plane.specs.Plane.{IsInPlane};
ghost use Rattle.geo_lines.specs.Roots.{root};
ghost use Rattle.geo_lines.specs.Shifts.{length_of, meeting_of, moved, onward_of, shift_of, width_of, IsWithin};

use crate::shift::Shift;
use fixed_plane::dist2;
use map_base::Point;

/// How far a line runs beside its course that stands k places to the right of it.
pub(crate) fn width_of(k: i32) -> i64
    requires { unsigned_abs k ≤ 10000 }
    ensures value { result ≡ width_of k }
    ensures small { unsigned_abs result ≤ 300000 }
{
    30 * i64::from(k)
}

/// How a line that runs so many units to the right of the piece from a to b is shifted.
pub(crate) fn shift_of(width: i64, a: Point, b: Point) -> Shift
    requires a_in_plane { IsInPlane a }
    requires b_in_plane { IsInPlane b }
    requires apart { a ≢ b }
    requires width { unsigned_abs width ≤ 300000 }
    ensures value { result ≡ shift_of width a b }
    ensures beside { IsWithin (unsigned_abs width) result }
{
    let length = length_of(a, b);
    let east = difference(a.y, b.y);
    let north = difference(b.x, a.x);
    Shift {
        x: share(east, width, length),
        y: share(north, width, length),
    }
}

/// How long the piece from a to b is, rounded downwards.
fn length_of(a: Point, b: Point) -> i64
    requires a_in_plane { IsInPlane a }
    requires b_in_plane { IsInPlane b }
    requires apart { a ≢ b }
    ensures value { result ≡ pos (length_of a b) }
    ensures some { pos 0 <ℤ result }
    ensures across { unsigned_abs (a.x -ℤ b.x) ≤ unsigned_abs result }
    ensures along { unsigned_abs (b.y -ℤ a.y) ≤ unsigned_abs result }
    ensures small { unsigned_abs result ≤ 4294967296 }
{
    root_of(dist2(a, b)) as i64
}

/// The square root of a number, rounded downwards.
fn root_of(square: u64) -> u64
    ensures value { result ≡ root square }
    ensures small { result ≤ 4294967296 }
{
    square.isqrt()
}

/// How far it is from one coordinate to another.
fn difference(from: i64, to: i64) -> i64
    requires from_in_plane { unsigned_abs from ≤ 300000000 }
    requires to_in_plane { unsigned_abs to ≤ 300000000 }
    ensures value { result ≡ to -ℤ from }
    ensures within { unsigned_abs result ≤ 600000000 }
{
    to - from
}

/// Of a way as many units as the width is of the length, cut towards zero. The way is no longer than the length.
fn share(way: i64, width: i64, length: i64) -> i64
    requires way { unsigned_abs way ≤ 600000000 }
    requires width { unsigned_abs width ≤ 300000 }
    requires some { pos 0 <ℤ length }
    requires short { unsigned_abs way ≤ unsigned_abs length }
    ensures value { result ≡ int_div (way *ℤ width) length }
    ensures within { unsigned_abs result ≤ unsigned_abs width }
{
    quotient(product(way, width), length)
}

/// A way times a width, or a coordinate of one shift times that of another.
fn product(a: i64, b: i64) -> i64
    requires a { unsigned_abs a ≤ 600000000 }
    requires b { unsigned_abs b ≤ 300000 }
    ensures value { result ≡ a *ℤ b }
    ensures within { unsigned_abs result ≤ 180000000000000 }
{
    a * b
}

/// The square of a width.
fn square_of(width: i64) -> i64
    requires { unsigned_abs width ≤ 300000 }
    ensures value { result ≡ width *ℤ width }
    ensures within { unsigned_abs result ≤ 90000000000 }
{
    width * width
}

/// A sum of two shifts' coordinates times the square of their width.
fn times_square(both: i64, square: i64) -> i64
    requires both { unsigned_abs both ≤ 600000 }
    requires square { unsigned_abs square ≤ 90000000000 }
    ensures { result ≡ both *ℤ square }
{
    both * square
}

/// A quotient, cut towards zero.
fn quotient(a: i64, b: i64) -> i64
    requires { pos 0 <ℤ b }
    ensures { result ≡ int_div a b }
{
    a / b
}

/// A sum of two coordinates that is small enough to reckon with.
fn sum(a: i64, b: i64) -> i64
    requires a { unsigned_abs a ≤ 400000000000000 }
    requires b { unsigned_abs b ≤ 400000000000000 }
    ensures value { result ≡ a +ℤ b }
    ensures within { unsigned_abs result ≤ unsigned_abs a + unsigned_abs b }
{
    a + b
}

/// A point, shifted.
pub(crate) fn moved(p: Point, o: Shift) -> Point
    requires p { IsInPlane p }
    requires o { IsWithin 1200000 o }
    ensures { result ≡ moved p o }
{
    Point {
        x: sum(p.x, o.x),
        y: sum(p.y, o.y),
    }
}

/// By how much two pieces with these shifts go on into one another.
pub(crate) fn onward_of(width: i64, before: Shift, behind: Shift) -> i64
    requires width { unsigned_abs width ≤ 300000 }
    requires before { IsWithin (unsigned_abs width) before }
    requires behind { IsWithin (unsigned_abs width) behind }
    ensures value { result ≡ onward_of width before behind }
    ensures small { unsigned_abs result ≤ 400000000000000 }
{
    let across = product(before.x, behind.x);
    let along = product(before.y, behind.y);
    sum(square_of(width), sum(across, along))
}

/// Whether two shifted pieces meet near enough that go on into one another by so much.
pub(crate) fn meets_near(width: i64, onward: i64) -> bool
    requires width { unsigned_abs width ≤ 300000 }
    requires onward { unsigned_abs onward ≤ 400000000000000 }
    ensures { result ≡ int_le (width *ℤ width) (pos 2 *ℤ onward) }
{
    square_of(width) <= 2 * onward
}

/// The shift of the point at which two shifted pieces meet that go on into one another by so much.
pub(crate) fn meeting_of(width: i64, before: Shift, behind: Shift, onward: i64) -> Shift
    requires width { unsigned_abs width ≤ 300000 }
    requires before { IsWithin (unsigned_abs width) before }
    requires behind { IsWithin (unsigned_abs width) behind }
    requires onward { onward ≡ onward_of width before behind }
    requires some { pos 0 <ℤ onward }
    requires near { (width *ℤ width) ≤ℤ (pos 2 *ℤ onward) }
    ensures value { result ≡ meeting_of width before behind }
    ensures beside { IsWithin (4 * unsigned_abs width) result }
{
    Shift {
        x: meeting(sum(before.x, behind.x), width, onward),
        y: meeting(sum(before.y, behind.y), width, onward),
    }
}

/// One coordinate of it, by the sum of those of both shifts.
fn meeting(both: i64, width: i64, onward: i64) -> i64
    requires width { unsigned_abs width ≤ 300000 }
    requires both { unsigned_abs both ≤ 2 * unsigned_abs width }
    requires some { pos 0 <ℤ onward }
    requires near { (width *ℤ width) ≤ℤ (pos 2 *ℤ onward) }
    ensures value { result ≡ int_div (both *ℤ (width *ℤ width)) onward }
    ensures within { unsigned_abs result ≤ 4 * unsigned_abs width }
{
    quotient(times_square(both, square_of(width)), onward)
}
