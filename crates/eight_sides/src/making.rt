//! What stations, straight pieces and names take up.

ghost use Rattle.std.specs.Prelude.{◌≡◌, ◌≤◌, ◌≤ℤ◌, ◌+◌, ◌*◌, ◌+ℤ◌, ◌*ℤ◌, pos, unsigned_abs};
ghost use Rattle.eight_sides.specs.Shapes.{around, between, half_above, half_below, is_upright, mark_shape, piece_reach, piece_shape, slanted, slanted_length, upright, IsFar, IsNear, IsShort, IsShortShape};

use crate::interval::Interval;
use crate::shape::Shape;
use line_offsets::Corner;

/// The numbers as far as `by` from one.
pub fn around(z: i64, by: u64) -> Interval
    requires { unsigned_abs z + by ≤ 1099511627776 }
    ensures value { result ≡ around z by }
    ensures short { IsShort result }
{
    let by = by as i64;
    Interval {
        least: z - by,
        greatest: z + by,
    }
}

/// From the lesser of two numbers to the greater, and `by` further on each side.
pub fn between(a: i64, b: i64, by: u64) -> Interval
    requires a { unsigned_abs a + by ≤ 1099511627776 }
    requires b { unsigned_abs b + by ≤ 1099511627776 }
    ensures value { result ≡ between a b by }
    ensures short { IsShort result }
{
    let by = by as i64;
    Interval {
        least: a.min(b) - by,
        greatest: a.max(b) + by,
    }
}

/// An upright box, by its x and y.
pub fn upright(x: Interval, y: Interval) -> Shape
    requires x { IsFar x }
    requires y { IsFar y }
    ensures { result ≡ upright x y }
{
    Shape {
        across: x,
        down: y,
        difference: Interval {
            least: x.least - y.greatest,
            greatest: x.greatest - y.least,
        },
        sum: Interval {
            least: x.least + y.least,
            greatest: x.greatest + y.greatest,
        },
    }
}

/// A box whose sides are slanted, by its x - y and x + y.
pub fn slanted(difference: Interval, sum: Interval) -> Shape
    requires difference { IsShort difference }
    requires sum { IsShort sum }
    ensures value { result ≡ slanted difference sum }
    ensures short { IsShortShape result }
{
    Shape {
        across: Interval {
            least: half_below(sum.least + difference.least),
            greatest: half_above(sum.greatest + difference.greatest),
        },
        down: Interval {
            least: half_below(sum.least - difference.greatest),
            greatest: half_above(sum.greatest - difference.least),
        },
        difference,
        sum,
    }
}

/// Half of a number, rounded down.
fn half_below(z: i64) -> i64
    requires { unsigned_abs z ≤ 8796093022208 }
    ensures value { result ≡ half_below z }
    ensures low { (pos 2 *ℤ result) ≤ℤ z }
    ensures high { z ≤ℤ (pos 2 *ℤ result +ℤ pos 1) }
{
    z.div_euclid(2)
}

/// Half of a number, rounded up.
fn half_above(z: i64) -> i64
    requires { unsigned_abs z ≤ 4398046511104 }
    ensures value { result ≡ half_above z }
    ensures low { (pos 2 *ℤ result) ≤ℤ (z +ℤ pos 1) }
    ensures high { z ≤ℤ (pos 2 *ℤ result) }
{
    half_below(z + 1)
}

/// How much x - y or x + y changes over a length on a slant, at most.
pub fn slanted_length(n: u64) -> u64
    requires { n ≤ 68719476736 }
    ensures value { result ≡ slanted_length n }
    ensures small { result ≤ 2 * n }
{
    (17 * n + 11) / 12
}

/// A station as far as `radius` from its centre.
pub fn mark_shape(centre: Corner, radius: u64) -> Shape
    requires centre { IsNear centre }
    requires radius { radius ≤ 34359738368 }
    ensures value { result ≡ mark_shape centre radius }
    ensures short { IsShortShape result }
{
    let reach = slanted_length(radius);
    Shape {
        across: around(centre.x, radius),
        down: around(centre.y, radius),
        difference: around(centre.x - centre.y, reach),
        sum: around(centre.x + centre.y, reach),
    }
}

/// Whether two points lie on one line to the right or down.
fn is_upright(a: Corner, b: Corner) -> bool
    ensures { result ≡ is_upright a b }
{
    a.x == b.x || a.y == b.y
}

/// How far x - y and x + y reach on each side of a straight piece with `half` on each side of it.
fn piece_reach(a: Corner, b: Corner, half: u64) -> u64
    requires { half ≤ 34359738368 }
    ensures value { result ≡ piece_reach a b half }
    ensures small { result ≤ 2 * half }
{
    if is_upright(a, b) {
        2 * half
    } else {
        slanted_length(half)
    }
}

/// A straight piece from one point to another, with `half` on each side of it.
pub fn piece_shape(a: Corner, b: Corner, half: u64) -> Shape
    requires a { IsNear a }
    requires b { IsNear b }
    requires half { half ≤ 34359738368 }
    ensures value { result ≡ piece_shape a b half }
    ensures short { IsShortShape result }
{
    let reach = piece_reach(a, b, half);
    Shape {
        across: between(a.x, b.x, half),
        down: between(a.y, b.y, half),
        difference: between(a.x - a.y, b.x - b.y, reach),
        sum: between(a.x + a.y, b.x + b.y, reach),
    }
}
