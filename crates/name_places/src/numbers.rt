//! Sums and differences of coordinates.

ghost use Rattle.std.specs.Prelude.{◌≡◌, ◌≤◌, ◌+◌, ◌+ℤ◌, ◌-ℤ◌, pos, unsigned_abs};
ghost use Rattle.eight_sides.specs.Shapes.{IsNear};
ghost use Rattle.poster_plan.specs.Places.{minus};

use line_offsets::Corner;

/// A number that is so much greater.
pub fn up(z: i64, by: u64) -> i64
    requires { unsigned_abs z + by ≤ 70368744177664 }
    ensures value { result ≡ z +ℤ pos by }
    ensures small { unsigned_abs result ≤ unsigned_abs z + by }
{
    z + by as i64
}

/// A number that is so much less.
pub fn down(z: i64, by: u64) -> i64
    requires { unsigned_abs z + by ≤ 70368744177664 }
    ensures value { result ≡ z -ℤ pos by }
    ensures small { unsigned_abs result ≤ unsigned_abs z + by }
{
    z - by as i64
}

/// The sum of two numbers.
pub(crate) fn plus(a: i64, b: i64) -> i64
    requires { unsigned_abs a + unsigned_abs b ≤ 8796093022208 }
    ensures { result ≡ a +ℤ b }
{
    a + b
}

/// A number that is not negative.
pub(crate) fn natural(n: u64) -> i64
    requires { n ≤ 8589934592 }
    ensures value { result ≡ pos n }
    ensures small { unsigned_abs result ≤ 8589934592 }
{
    n as i64
}

/// So much less than nothing.
pub(crate) fn minus(n: u64) -> i64
    requires { n ≤ 8589934592 }
    ensures value { result ≡ minus n }
    ensures small { unsigned_abs result ≤ 8589934592 }
{
    0 - n as i64
}

/// A point's x - y.
pub(crate) fn difference_of(c: Corner) -> i64
    requires { IsNear c }
    ensures value { result ≡ c.x -ℤ c.y }
    ensures small { unsigned_abs result ≤ 858993459200 }
{
    c.x - c.y
}

/// A point's x + y.
pub(crate) fn sum_of(c: Corner) -> i64
    requires { IsNear c }
    ensures value { result ≡ c.x +ℤ c.y }
    ensures small { unsigned_abs result ≤ 858993459200 }
{
    c.x + c.y
}
