//! What a geographic map shows.

ghost use Rattle.std.specs.Prelude.{◌≡◌, Some, fold, map, All, IfSome};
ghost use Rattle.geo_lines.specs.Courses.{IsCourse};
ghost use Rattle.fixed_plane.specs.Plane.{IsInPlane};
ghost use Rattle.svg_writer.specs.Elements.{AreBounds};
ghost use Rattle.svg_writer.specs.Picture.{bounds_with_corner};
ghost use Rattle.geo_map.specs.GeoMap.{drawn, plane_bounds};

use crate::plane::drawn;
use map_base::{Point, Sequence};
use svg_writer::{Bounds, with_corner};

/// The bounds of all points of courses, those of the origin where there is none.
pub(crate) fn bounds_of(lines: &[Sequence<Point>]) -> Bounds
    requires { All IsCourse lines.now }
    ensures value { result ≡ plane_bounds lines.now }
    ensures small { AreBounds result }
{
    let mut bounds = None;
    for course in lines {
        bounds = with_course(bounds, course.as_slice());
    }
    match bounds {
        Some(bounds) => bounds,
        None => Bounds {
            left: 0,
            right: 0,
            top: 0,
            bottom: 0,
        },
    }
}

/// Bounds, widened to hold the points of a course.
fn with_course(bounds: Option<Bounds>, points: &[Point]) -> Option<Bounds>
    requires bounds { IfSome bounds AreBounds }
    requires course { IsCourse points.now }
    ensures value { result ≡ fold bounds_with_corner bounds (map drawn points.now) }
    ensures small { IfSome result AreBounds }
{
    let mut held = bounds;
    for point in points {
        held = Some(with_place(held, *point));
    }
    held
}

/// Bounds, widened to hold a point of the plane.
fn with_place(bounds: Option<Bounds>, p: Point) -> Bounds
    requires bounds { IfSome bounds AreBounds }
    requires place { IsInPlane p }
    ensures value { Some result ≡ bounds_with_corner bounds (drawn p) }
    ensures small { AreBounds result }
{
    with_corner(bounds, drawn(p))
}
