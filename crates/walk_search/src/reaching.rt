//! What it costs at least to come from one point to another, and what lies straight on.

ghost use Rattle.std.specs.Prelude.{◌≡◌, ◌<◌, ◌^◌, ℤ, ◌-ℤ◌, unsigned_abs};
ghost use Rattle.octi_grid.specs.declared.point.GridPoint.{GridPoint};
ghost use Rattle.walk_search.specs.Reaching.{across, is_along, lies_along, reach_of};

use octi_grid::{Dir, GridPoint};

/// What it costs at least to come from one point to another: with `m` the greater and `n` the lesser of the two
/// differences of coordinates, `4 * (m - n) + 5 * n`. No walk costs less.
pub fn reach(a: GridPoint, b: GridPoint) -> u64
    ensures value { result ≡ reach_of a b }
    ensures within { result < 2 ^ 39 }
{
    across(difference(a.x, b.x), difference(a.y, b.y))
}

/// How far two coordinates are apart.
fn difference(a: i32, b: i32) -> u64
    ensures value { result ≡ unsigned_abs (b -ℤ a) }
    ensures within { result < 2 ^ 33 }
{
    apart(a, b).unsigned_abs()
}

/// How far a coordinate is above another.
fn apart(a: i32, b: i32) -> i64
    ensures value { result ≡ b -ℤ a }
    ensures within { unsigned_abs result < 2 ^ 33 }
{
    i64::from(b) - i64::from(a)
}

/// The same by the two differences.
fn across(m: u64, n: u64) -> u64
    requires m { m < 2 ^ 33 }
    requires n { n < 2 ^ 33 }
    ensures value { result ≡ across m n }
    ensures within { result < 2 ^ 39 }
{
    4 * (m.max(n) - m.min(n)) + 5 * m.min(n)
}

/// Whether a point lies in a direction from another, straight on.
pub(crate) fn lies_along(a: GridPoint, b: GridPoint, dir: Dir) -> bool
    ensures { result ≡ lies_along a b dir }
{
    is_along(dir, apart(a.x, b.x), apart(a.y, b.y))
}

/// The same by how far it lies to the east and to the north.
#[tactic(auto, unfolding(crate::specs::Reaching::is_along))]
fn is_along(dir: Dir, x: i64, y: i64) -> bool
    requires x { unsigned_abs x < 2 ^ 33 }
    requires y { unsigned_abs y < 2 ^ 33 }
    ensures { result ≡ is_along dir x y }
{
    match dir {
        Dir::N => x == 0 && 0 <= y,
        Dir::NE => x == y && 0 <= y,
        Dir::E => y == 0 && 0 <= x,
        Dir::SE => x + y == 0 && 0 <= x,
        Dir::S => x == 0 && y <= 0,
        Dir::SW => x == y && y <= 0,
        Dir::W => y == 0 && x <= 0,
        Dir::NW => x + y == 0 && x <= 0,
    }
}
