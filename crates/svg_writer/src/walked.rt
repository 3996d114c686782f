//! The bounds of all grid points of walks.

ghost use Rattle.std.specs.Prelude.{◌≡◌, ◌≤◌, Some, fold, unsigned_abs, IfSome};
ghost use Rattle.std.specs.Int.{int_min, int_max};
ghost use Rattle.octi_grid.specs.Ways.{IsWithin};
ghost use Rattle.octi_grid.specs.Walks.{points_of};
ghost use Rattle.svg_writer.specs.Elements.{AreBounds};
ghost use Rattle.svg_writer.specs.Picture.{bounds_with, bounds_with_corner, bounds_of, widened};

use crate::bounds::Bounds;
use crate::grid::drawn;
use line_offsets::Corner;
use octi_grid::{GridPoint, Walk, run_end};

/// The bounds of all grid points of walks, those of the origin where there is none.
pub fn bounds_of(walks: &[Walk]) -> Bounds
    ensures value { result ≡ bounds_of walks.now }
    ensures small { AreBounds result }
{
    let mut bounds = None;
    for walk in walks {
        bounds = Some(with_walk(bounds, walk));
    }
    match bounds {
        Some(bounds) => bounds,
        None => Bounds {
            left: 0,
            right: 0,
            top: 0,
            bottom: 0,
        },
    }
}

/// Bounds, widened to hold each grid point of a walk.
fn with_walk(bounds: Option<Bounds>, walk: &Walk) -> Bounds
    requires { IfSome bounds AreBounds }
    ensures value { Some result ≡ fold bounds_with bounds (points_of walk.now) }
    ensures small { AreBounds result }
{
    let runs = walk.runs();
    let mut at = walk.start();
    let mut bounds = with_point(bounds, at);
    for run in runs {
        at = run_end(at, *run);
        bounds = with_point(Some(bounds), at);
    }
    bounds
}

/// Bounds, widened to hold a grid point.
fn with_point(bounds: Option<Bounds>, p: GridPoint) -> Bounds
    requires bounds { IfSome bounds AreBounds }
    requires point { IsWithin p }
    ensures value { Some result ≡ bounds_with bounds p }
    ensures small { AreBounds result }
{
    with_corner(bounds, drawn(p))
}

/// Bounds, widened to hold a point as it is drawn.
pub fn with_corner(bounds: Option<Bounds>, corner: Corner) -> Bounds
    requires bounds { IfSome bounds AreBounds }
    requires across { unsigned_abs corner.x ≤ 1099511627776 }
    requires down { unsigned_abs corner.y ≤ 1099511627776 }
    ensures value { Some result ≡ bounds_with_corner bounds corner }
    ensures small { AreBounds result }
{
    match bounds {
        None => Bounds {
            left: corner.x,
            right: corner.x,
            top: corner.y,
            bottom: corner.y,
        },
        Some(held) => widened(held, corner),
    }
}

/// Bounds, widened to hold a point.
fn widened(held: Bounds, corner: Corner) -> Bounds
    requires held { AreBounds held }
    requires x { unsigned_abs corner.x ≤ 1099511627776 }
    requires y { unsigned_abs corner.y ≤ 1099511627776 }
    ensures value { result ≡ widened held corner }
    ensures small { AreBounds result }
{
    Bounds {
        left: least(held.left, corner.x),
        right: greatest(held.right, corner.x),
        top: least(held.top, corner.y),
        bottom: greatest(held.bottom, corner.y),
    }
}

/// The lesser of two coordinates.
fn least(a: i64, b: i64) -> i64
    requires a { unsigned_abs a ≤ 1099511627776 }
    requires b { unsigned_abs b ≤ 1099511627776 }
    ensures value { result ≡ int_min a b }
    ensures small { unsigned_abs result ≤ 1099511627776 }
{
    a.min(b)
}

/// The greater of two coordinates.
fn greatest(a: i64, b: i64) -> i64
    requires a { unsigned_abs a ≤ 1099511627776 }
    requires b { unsigned_abs b ≤ 1099511627776 }
    ensures value { result ≡ int_max a b }
    ensures small { unsigned_abs result ≤ 1099511627776 }
{
    a.max(b)
}
