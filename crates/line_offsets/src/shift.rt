//! How lines are shifted to the right of their direction.

ghost use Rattle.std.specs.Prelude.{◌≡◌, ◌≤◌, unsigned_abs};
ghost use Rattle.line_offsets.specs.declared.corner.Kept.TheVariants.{Sum, Difference};
ghost use Rattle.line_offsets.specs.Shifts.{kept_by, shift_of, foot_of, turn_of, half, meet};

use crate::corner::Kept;
use octi_grid::Dir;

/// What is the same at all points of a line of a direction.
fn kept_by(dir: Dir) -> Kept
    ensures { result ≡ kept_by dir }
{
    match dir {
        Dir::N | Dir::S => Kept::X,
        Dir::NE | Dir::SW => Kept::Sum,
        Dir::E | Dir::W => Kept::Y,
        Dir::SE | Dir::NW => Kept::Difference,
    }
}

/// By how much this changes where the line is shifted one place to the right of its direction.
fn shift_of(dir: Dir) -> i64
    ensures value { result ≡ shift_of dir }
    ensures small { unsigned_abs result ≤ 10 }
{
    match dir {
        Dir::N | Dir::E => 7,
        Dir::NE | Dir::SE => 10,
        Dir::S | Dir::W => -7,
        Dir::SW | Dir::NW => -10,
    }
}

/// Where an end of a walk comes to where the line is shifted one place: across, and down.
pub(crate) fn foot_of(dir: Dir) -> (i64, i64)
    ensures value { result ≡ foot_of dir }
    ensures small { unsigned_abs result.0 ≤ 10 }
    ensures low { unsigned_abs result.1 ≤ 10 }
{
    match dir {
        Dir::N => (7, 0),
        Dir::NE => (5, 5),
        Dir::E => (0, 7),
        Dir::SE => (-5, 5),
        Dir::S => (-7, 0),
        Dir::SW => (-5, -5),
        Dir::W => (0, -7),
        Dir::NW => (5, -5),
    }
}

/// Half of an even number.
fn half(z: i64) -> i64
    requires { unsigned_abs z ≤ 20 }
    ensures value { result ≡ half z }
    ensures small { unsigned_abs result ≤ 10 }
{
    z / 2
}

/// The point with this sum and this difference.
fn diagonals_meet(sum: i64, difference: i64) -> (i64, i64)
    requires a { unsigned_abs sum ≤ 10 }
    requires b { unsigned_abs difference ≤ 10 }
    ensures value { result ≡ meet Sum sum Difference difference }
    ensures across { unsigned_abs result.0 ≤ 20 }
    ensures down { unsigned_abs result.1 ≤ 20 }
{
    let twice_x = sum - difference;
    let twice_y = sum + difference;
    (half(twice_x), half(twice_y))
}

/// The point at which two things have these values.
fn meet(one: Kept, a: i64, other: Kept, b: i64) -> (i64, i64)
    requires a { unsigned_abs a ≤ 10 }
    requires b { unsigned_abs b ≤ 10 }
    ensures value { result ≡ meet one a other b }
    ensures across { unsigned_abs result.0 ≤ 20 }
    ensures down { unsigned_abs result.1 ≤ 20 }
{
    match (one, other) {
        (Kept::X, Kept::Y) => (a, b),
        (Kept::Y, Kept::X) => (b, a),
        (Kept::X, Kept::Sum) => (a, b - a),
        (Kept::Sum, Kept::X) => (b, a - b),
        (Kept::X, Kept::Difference) => (a, b + a),
        (Kept::Difference, Kept::X) => (b, a + b),
        (Kept::Y, Kept::Sum) => (b - a, a),
        (Kept::Sum, Kept::Y) => (a - b, b),
        (Kept::Y, Kept::Difference) => (a - b, a),
        (Kept::Difference, Kept::Y) => (b - a, b),
        (Kept::Sum, Kept::Difference) => diagonals_meet(a, b),
        (Kept::Difference, Kept::Sum) => diagonals_meet(b, a),
        _ => (0, 0),
    }
}

/// How far from a turn the two lines meet, where they are shifted one place: across, and down.
pub(crate) fn turn_of(from: Dir, to: Dir) -> (i64, i64)
    ensures value { result ≡ turn_of from to }
    ensures across { unsigned_abs result.0 ≤ 20 }
    ensures down { unsigned_abs result.1 ≤ 20 }
{
    meet(kept_by(from), shift_of(from), kept_by(to), shift_of(to))
}
