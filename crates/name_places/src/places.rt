//! What names take up at their places, and where their texts stand.

ghost use Rattle.std.specs.Prelude.{◌≡◌, ◌≤◌, ◌+◌, ◌*◌, unsigned_abs};
ghost use Rattle.eight_sides.specs.Shapes.{IsNear, IsShort};
ghost use Rattle.name_places.specs.Near.{IsNearShape};
ghost use Rattle.poster_plan.specs.Places.{anchor_at, backwards, beside, beside_lines, corner_gap, gap, half_width, lean, long, offset, onwards, over_lines, place_shape, shape_of, sides, size, slant, slanted_first, tenth, text_spot, turn_at, upright_first, width};

use crate::numbers::{difference_of, down, minus, natural, plus, sum_of, up};
use eight_sides::{Interval, Shape, around, slanted, slanted_length, upright};
use line_offsets::Corner;
use poster_plan::{Anchor, Place, Sign, Spot, Step, Turn};

/// The places beside lines, in the order in which they are tried. `level` says whether all segments of the station leave it
/// to the east or to the west.
pub fn beside_lines(level: bool) -> [Place; 12]
    ensures { result ≡ beside_lines level }
{
    if level {
        slanted_first()
    } else {
        upright_first()
    }
}

/// The level ones first, all of them.
fn upright_first() -> [Place; 12]
    ensures { result ≡ upright_first }
{
    [
        Place::E,
        Place::W,
        Place::SE,
        Place::NE,
        Place::NW,
        Place::SW,
        Place::N,
        Place::S,
        Place::UpEast,
        Place::DownWest,
        Place::DownEast,
        Place::UpWest,
    ]
}

/// The slanted ones early.
fn slanted_first() -> [Place; 12]
    ensures { result ≡ slanted_first }
{
    [
        Place::E,
        Place::W,
        Place::UpEast,
        Place::DownWest,
        Place::DownEast,
        Place::UpWest,
        Place::N,
        Place::S,
        Place::SE,
        Place::NE,
        Place::NW,
        Place::SW,
    ]
}

/// The places over lines, in the order in which they are tried.
pub fn over_lines() -> [Place; 6]
    ensures { result ≡ over_lines }
{
    [
        Place::SE,
        Place::NE,
        Place::NW,
        Place::SW,
        Place::N,
        Place::S,
    ]
}

/// A tenth of the size of type in a step.
pub fn tenth(step: Step) -> u32
    ensures value { result ≡ tenth step }
    ensures small { result ≤ 3 }
{
    match step {
        Step::Full => 3,
        Step::Small | Step::Over => 2,
    }
}

/// The size of type.
fn size(step: Step) -> u64
    ensures value { result ≡ size step }
    ensures small { result ≤ 30 }
{
    10 * u64::from(tenth(step))
}

/// Half of the size of type.
fn half_size(step: Step) -> u64
    ensures value { result ≡ 5 * tenth step }
    ensures small { result ≤ 15 }
{
    5 * u64::from(tenth(step))
}

/// How wide a name is.
fn width(sign: Sign, step: Step) -> u64
    requires { sign.tenths ≤ 17179869184 }
    ensures value { result ≡ width sign step }
    ensures small { result ≤ 51539607552 }
{
    u64::from(tenth(step)) * sign.tenths
}

/// How far a name keeps from the centre of its station, beside it.
fn gap(sign: Sign) -> u64
    ensures value { result ≡ gap sign }
    ensures small { result ≤ 4294967301 }
{
    u64::from(sign.radius) + 6
}

/// How far a name at a corner keeps from the centre of its station, both ways.
fn corner_gap(sign: Sign) -> u64
    ensures value { result ≡ corner_gap sign }
    ensures small { result ≤ 4294967301 }
{
    (17 * gap(sign) + 23) / 24
}

/// Half of what the size of type comes to on a slant, each way.
fn slant(step: Step) -> u64
    ensures value { result ≡ slant step }
    ensures small { result ≤ 11 }
{
    (17 * size(step) + 47) / 48
}

/// How long a slanted name is in x - y or x + y.
fn long(sign: Sign, step: Step) -> u64
    requires { sign.tenths ≤ 17179869184 }
    ensures value { result ≡ long sign step }
    ensures small { result ≤ 103079215104 }
{
    slanted_length(width(sign, step))
}

/// Half of a name's width, rounded up.
fn half_width(sign: Sign, step: Step) -> u64
    requires { sign.tenths ≤ 17179869184 }
    ensures value { result ≡ half_width sign step }
    ensures small { result ≤ 25769803776 }
{
    (width(sign, step) + 1) / 2
}

/// How far the middle of a slanted text's end lies from the centre, both ways.
fn lean(sign: Sign, step: Step) -> u64
    ensures value { result ≡ lean sign step }
    ensures small { result ≤ 4294967312 }
{
    gap(sign) + slant(step)
}

/// The numbers from so far up from one, so many of them.
fn onwards(z: i64, from: u64, long: u64) -> Interval
    requires { unsigned_abs z + (from + long) ≤ 1099511627776 }
    ensures value { result ≡ onwards z from long }
    ensures short { IsShort result }
{
    Interval {
        least: up(z, from),
        greatest: up(z, from + long),
    }
}

/// The numbers from so far down from one, so many of them.
fn backwards(z: i64, from: u64, long: u64) -> Interval
    requires { unsigned_abs z + (from + long) ≤ 1099511627776 }
    ensures value { result ≡ backwards z from long }
    ensures short { IsShort result }
{
    Interval {
        least: down(z, from + long),
        greatest: down(z, from),
    }
}

/// The two intervals that tell what a name takes up at a place: x and y of a level one, x - y and x + y of a slanted one.
fn sides(sign: Sign, step: Step, place: Place) -> (Interval, Interval)
    requires near { IsNear sign.centre }
    requires few { sign.tenths ≤ 17179869184 }
    ensures value { result ≡ sides sign step place }
    ensures first { IsShort result.0 }
    ensures second { IsShort result.1 }
{
    let (x, y) = (sign.centre.x, sign.centre.y);
    let (difference, sum) = (difference_of(sign.centre), sum_of(sign.centre));
    let (gap, corner, from) = (gap(sign), corner_gap(sign), 2 * lean(sign, step));
    let (width, height, long) = (width(sign, step), size(step), long(sign, step));
    let broad = 2 * slant(step);
    match place {
        Place::E => (onwards(x, gap, width), around(y, half_size(step))),
        Place::W => (backwards(x, gap, width), around(y, half_size(step))),
        Place::SE => (onwards(x, corner, width), onwards(y, corner, height)),
        Place::NE => (onwards(x, corner, width), backwards(y, corner, height)),
        Place::NW => (backwards(x, corner, width), backwards(y, corner, height)),
        Place::SW => (backwards(x, corner, width), onwards(y, corner, height)),
        Place::N => (around(x, half_width(sign, step)), backwards(y, gap, height)),
        Place::S => (around(x, half_width(sign, step)), onwards(y, gap, height)),
        Place::UpEast => (onwards(difference, from, long), around(sum, broad)),
        Place::DownWest => (backwards(difference, from, long), around(sum, broad)),
        Place::DownEast => (around(difference, broad), onwards(sum, from, long)),
        Place::UpWest => (around(difference, broad), backwards(sum, from, long)),
    }
}

/// What a name takes up at a place.
pub fn place_shape(sign: Sign, step: Step, place: Place) -> Shape
    requires near { IsNear sign.centre }
    requires few { sign.tenths ≤ 17179869184 }
    ensures value { result ≡ place_shape sign step place }
    ensures near { IsNearShape result }
{
    let (first, second) = sides(sign, step, place);
    shape_of(turn_at(place), first, second)
}

/// What two intervals tell of a text that runs this way.
fn shape_of(turn: Turn, first: Interval, second: Interval) -> Shape
    requires first { IsShort first }
    requires second { IsShort second }
    ensures { result ≡ shape_of turn first second }
{
    match turn {
        Turn::Level => upright(first, second),
        Turn::Rising | Turn::Falling => slanted(first, second),
    }
}

/// A point so far to the right of another, and so far below it.
fn beside(c: Corner, x: i64, y: i64) -> Corner
    requires near { IsNear c }
    requires x { unsigned_abs x ≤ 1099511627776 }
    requires y { unsigned_abs y ≤ 1099511627776 }
    ensures { result ≡ beside c x y }
{
    Corner {
        x: plus(c.x, x),
        y: plus(c.y, y),
    }
}

/// Where the text of a name stands at a place.
pub fn text_spot(sign: Sign, step: Step, place: Place) -> Spot
    requires { IsNear sign.centre }
    ensures { result ≡ text_spot sign step place }
{
    let (x, y) = offset(sign, step, place);
    Spot {
        at: beside(sign.centre, x, y),
        turn: turn_at(place),
        anchor: anchor_at(place),
    }
}

/// How far the point of a text is to the right of the centre of its station, and how far below it.
fn offset(sign: Sign, step: Step, place: Place) -> (i64, i64)
    ensures value { result ≡ offset sign step place }
    ensures x { unsigned_abs result.0 ≤ 8589934592 }
    ensures y { unsigned_abs result.1 ≤ 8589934592 }
{
    let (gap, corner, lean) = (gap(sign), corner_gap(sign), lean(sign, step));
    let tenth = u64::from(tenth(step));
    match place {
        Place::E => (natural(gap), natural(3 * tenth)),
        Place::W => (minus(gap), natural(3 * tenth)),
        Place::SE => (natural(corner), natural(corner + 8 * tenth)),
        Place::NE => (natural(corner), minus(corner + 2 * tenth)),
        Place::NW => (minus(corner), minus(corner + 2 * tenth)),
        Place::SW => (minus(corner), natural(corner + 8 * tenth)),
        Place::N => (0, minus(gap + 2 * tenth)),
        Place::S => (0, natural(gap + 8 * tenth)),
        Place::UpEast => (natural(lean), minus(lean)),
        Place::DownWest => (minus(lean), natural(lean)),
        Place::DownEast => (natural(lean), natural(lean)),
        Place::UpWest => (minus(lean), minus(lean)),
    }
}

/// Which way the text of a name runs at a place.
fn turn_at(place: Place) -> Turn
    ensures { result ≡ turn_at place }
{
    match place {
        Place::E | Place::W | Place::SE | Place::NE | Place::NW | Place::SW | Place::N | Place::S =>
            { Turn::Level }
        Place::UpEast | Place::DownWest => Turn::Rising,
        Place::DownEast | Place::UpWest => Turn::Falling,
    }
}

/// Which part of it stands at its point.
fn anchor_at(place: Place) -> Anchor
    ensures { result ≡ anchor_at place }
{
    match place {
        Place::E | Place::SE | Place::NE | Place::UpEast | Place::DownEast => Anchor::Start,
        Place::W | Place::SW | Place::NW | Place::DownWest | Place::UpWest => Anchor::End,
        Place::N | Place::S => Anchor::Middle,
    }
}
