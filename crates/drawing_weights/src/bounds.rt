//! The bounds of the board on which a drawing is changed.

ghost use Rattle.std.specs.Prelude.{◌≡◌, ◌≤◌, ◌+ℤ◌, ◌-ℤ◌, pos, fold, unsigned_abs, unwrap_or, IfOk, None, Some, true};
ghost use Rattle.std.specs.List.{list_all};
ghost use Rattle.grid_board.specs.Points.{are_near, is_near};
ghost use Rattle.drawing_weights.specs.Reach.{bounds_at, bounds_past, bounds_with};

use crate::grid_points::push_points;
use grid_board::Bounds;
use map_base::NoMemory;
use octi_grid::{GridPoint, Walk};
use std::alloc::Global;

/// The bounds that reach so many steps past the grid points of a drawing, past the origin where it has none.
pub fn bounds_past(alloc: Global, margin: u32, walks: &[Walk]) -> Result<Bounds, NoMemory>
    requires margin { margin ≤ 20 }
    requires near { are_near 1900 walks.now ≡ true }
    ensures { IfOk result (λ bounds. bounds ≡ bounds_past margin walks.now) }
{
    let mut points = Vec::new(alloc);
    for walk in walks {
        push_points(&mut points, walk)?;
    }
    Ok(wider(bounds_of(&points), margin))
}

/// The bounds of points, those of the origin where there is none.
fn bounds_of(points: &[GridPoint]) -> Bounds
    requires { list_all (is_near 1900) points.now ≡ true }
    ensures value { result ≡ unwrap_or (fold bounds_with None points.now) (bounds_at (record { x = pos 0; y = pos 0 })) }
    ensures left { unsigned_abs result.left ≤ 1900 }
    ensures right { unsigned_abs result.right ≤ 1900 }
    ensures bottom { unsigned_abs result.bottom ≤ 1900 }
    ensures top { unsigned_abs result.top ≤ 1900 }
{
    let mut bounds = None;
    for p in points {
        bounds = Some(with_point(bounds, *p));
    }
    bounds.unwrap_or(bounds_at(GridPoint { x: 0, y: 0 }))
}

/// Bounds, wider by so many steps on each side.
fn wider(b: Bounds, margin: u32) -> Bounds
    requires margin { margin ≤ 20 }
    requires left { unsigned_abs b.left ≤ 1900 }
    requires right { unsigned_abs b.right ≤ 1900 }
    requires bottom { unsigned_abs b.bottom ≤ 1900 }
    requires top { unsigned_abs b.top ≤ 1900 }
    ensures { result ≡ record { left = b.left -ℤ pos margin; right = b.right +ℤ pos margin; bottom = b.bottom -ℤ pos margin; top = b.top +ℤ pos margin } }
{
    Bounds {
        left: lower(b.left, margin),
        right: higher(b.right, margin),
        bottom: lower(b.bottom, margin),
        top: higher(b.top, margin),
    }
}

/// A bound that lies so many steps lower.
fn lower(z: i32, by: u32) -> i32
    requires by { by ≤ 20 }
    requires z { unsigned_abs z ≤ 1900 }
    ensures { result ≡ z -ℤ pos by }
{
    z - by as i32
}

/// A bound that lies so many steps higher.
fn higher(z: i32, by: u32) -> i32
    requires by { by ≤ 20 }
    requires z { unsigned_abs z ≤ 1900 }
    ensures { result ≡ z +ℤ pos by }
{
    z + by as i32
}

/// Bounds of one point.
fn bounds_at(p: GridPoint) -> Bounds
    ensures { result ≡ bounds_at p }
{
    Bounds {
        left: p.x,
        right: p.x,
        bottom: p.y,
        top: p.y,
    }
}

/// Bounds, widened to hold a point.
fn with_point(bounds: Option<Bounds>, p: GridPoint) -> Bounds
    ensures { Some result ≡ bounds_with bounds p }
{
    match bounds {
        None => bounds_at(p),
        Some(b) => Bounds {
            left: b.left.min(p.x),
            right: b.right.max(p.x),
            bottom: b.bottom.min(p.y),
            top: b.top.max(p.y),
        },
    }
}
