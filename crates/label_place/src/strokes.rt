//! The steps of walks, as they are drawn.

ghost use Rattle.std.specs.Prelude.{◌≡◌, ◌≤◌, unsigned_abs};
ghost use Rattle.std.specs.List.{list_any};
ghost use Rattle.svg_writer.specs.Elements.{AreBounds};
ghost use Rattle.label_place.specs.Boxes.{holds};
ghost use Rattle.label_place.specs.Strokes.{point_on, step_points};
ghost use Rattle.label_place.specs.Grids.{south_of, times, some_time, holds_some, AreTimes};

use crate::boxes::{greatest, least, overlap};
use line_offsets::Corner;
use octi_grid::Dir;
use svg_writer::Bounds;

/// A step as it is drawn, with how far names keep from it.
#[derive(Clone, Copy, Debug)]
pub(crate) struct Stroke {
    pub start: Corner,
    pub dir: Dir,
    pub margin: u32,
}

/// The first and the last time at which something holds.
#[derive(Clone, Copy, Debug)]
pub(crate) struct Times {
    pub first: i64,
    pub last: i64,
}

/// How far south a step goes.
fn south(dir: Dir) -> i32
    ensures { result ≡ south_of dir }
{
    match dir {
        Dir::E | Dir::W => 0,
        Dir::N | Dir::NE | Dir::NW => -1,
        Dir::SE | Dir::S | Dir::SW => 1,
    }
}

/// Where a step ends.
pub(crate) fn stroke_end(start: Corner, dir: Dir) -> Corner
    requires x { unsigned_abs start.x ≤ 3000000 }
    requires y { unsigned_abs start.y ≤ 3000000 }
    ensures value { result ≡ point_on start dir 100 }
    ensures small_x { unsigned_abs result.x ≤ 3000100 }
    ensures small_y { unsigned_abs result.y ≤ 3000100 }
{
    Corner {
        x: start.x + 100 * i64::from(dir.east()),
        y: start.y + 100 * i64::from(south(dir)),
    }
}

/// Whether a box holds a point of a step.
pub(crate) fn holds_some(b: Bounds, start: Corner, dir: Dir) -> bool
    requires bounds { AreBounds b }
    requires x { unsigned_abs start.x ≤ 3000000 }
    requires y { unsigned_abs start.y ≤ 3000000 }
    ensures { result ≡ list_any (holds b) (step_points start dir) }
{
    let across = times_within(start.x, dir.east(), b.left, b.right);
    let down = times_within(start.y, south(dir), b.top, b.bottom);
    some_time(across, down)
}

/// The times from 0 to 100 at which a coordinate that changes in this sense lies between two numbers.
fn times_within(from: i64, sense: i32, low: i64, high: i64) -> Times
    requires from { unsigned_abs from ≤ 3000000 }
    requires low { unsigned_abs low ≤ 1099511627776 }
    requires high { unsigned_abs high ≤ 1099511627776 }
    ensures value { result ≡ times from sense low high }
    ensures small { AreTimes result }
{
    if sense > 0 {
        return Times {
            first: low - from,
            last: high - from,
        };
    }
    if sense < 0 {
        return Times {
            first: from - high,
            last: from - low,
        };
    }
    if low <= from && from <= high {
        return Times {
            first: 0,
            last: 100,
        };
    }
    Times { first: 1, last: 0 }
}

/// Whether some time from 0 to 100 is one of both.
fn some_time(a: Times, b: Times) -> bool
    requires a { AreTimes a }
    requires b { AreTimes b }
    ensures { result ≡ some_time a b }
{
    let first = greatest(a.first, b.first);
    let last = least(a.last, b.last);
    overlap(first, 0, last, 100)
}
